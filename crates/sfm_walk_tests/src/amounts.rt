// Whether the steps of a walk can all move an amount, as their terms tell it.
ghost use Rattle.std.specs.{Prelude.{◌≡◌, ◌≢◌, ◌<◌, ℕ, List, map, pos, ◌≤ℤ◌, length, slice_index_or, IsTrue}, List.{All}};
ghost use Rattle.sfm_spec.specs.{Bounds.{AreBounded, IsEntry, IsFactor}, Terms.{times, IsBase, exchanged}, Families.{meanings, AreBases}, Walks.{AllCanMove}};
ghost use Rattle.sfm_law.specs.{Based.{IsBased}, Room.{AtMostRoom}};

use sfm_base::Rows;
use sfm_exchange::local_of;
use sfm_law::{At, Room, Term, Walk};
use std::alloc::Global;

/// Whether an amount is at most the room.
fn is_within(a: i128, room: Room) -> bool
    ensures { IsTrue result → AtMostRoom a room }
{
    match room {
        Room::Upto(most) => a <= most,
        Room::Unbounded => true,
    }
}

/// Whether a term has room at a base to raise the one place of the ground by the amount and lower the other.
fn can_step<T: Term>(alloc: Global, term: &T, at: &At<'_>, ends: (usize, usize), a: i128) -> bool
    requires based { IsBased T.places T.value_of T.size_of term.now at.now.q at.now.x.now }
    requires low { pos 0 ≤ℤ a }
    ensures { IsTrue result → (u : ℕ) × (v : ℕ) × (u < length (T.places term.now))
        × (v < length (T.places term.now)) × (slice_index_or (T.places term.now) u 0 ≡ ends.0)
        × (slice_index_or (T.places term.now) v 0 ≡ ends.1) × (u ≢ v)
        × IsBase (times at.now.q (T.value_of term.now)) (exchanged at.now.x.now u v a) }
{
    let Some(u) = local_of(term.elements(), ends.0) else {
        return false;
    };
    let Some(v) = local_of(term.elements(), ends.1) else {
        return false;
    };
    if u == v {
        return false;
    }
    match term.room(alloc, at, u, v) {
        Ok(room) => is_within(a, room),
        Err(_) => false,
    }
}

/// Whether each step of a walk can move an amount at bases of q times the terms.
pub fn can_move<T: Term>(
    alloc: Global,
    terms: &[T],
    q: i128,
    bases: &Rows,
    walk: &Walk,
    a: i128,
) -> bool
    requires bounded { (n : ℕ) × AreBounded n (map T.places terms.now) (map T.size_of terms.now) }
    requires factor { IsFactor q }
    requires bases { AreBases q (meanings T.places T.value_of terms.now) bases.now }
    requires small { All (λ x. All IsEntry x) bases.now }
    requires low { pos 0 ≤ℤ a }
    ensures { IsTrue result → AllCanMove (meanings T.places T.value_of terms.now) q bases.now
        walk.now.first walk.now.steps a }
{
    let mut from = walk.first;
    for (to, i) in walk.steps.as_slice() {
        if *i >= terms.len() || *i >= bases.len() {
            return false;
        }
        let x = bases.row(*i);
        if !can_step(alloc, &terms[*i], &At { q, x }, (from, *to), a) {
            return false;
        }
        from = *to;
    }
    true
}
