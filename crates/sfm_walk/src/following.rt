// The move along a shortest walk, at bases alone: the exchanges of its steps, one after the other. No entry is off by more than
// the amount at any time, and what the steps change in all is told by the walk, so the order is free; that bases come of it is
// the law of shortest walks.
ghost use Rattle.std.specs.{Prelude.{◌≡◌, ◌≢◌, ◌<◌, ◌*◌, ◌^◌, ℕ, Bool, List, map, pos, ◌≤ℤ◌, length, slice_index_or, slice_set}, List.{All}};
ghost use Rattle.sfm_spec.specs.{Sets.{Has, AreDistinct}, Bounds.{AreBounded, IsAtMost, IsEntry, IsFactor}, Terms.{exchanged}, Families.{meanings, AreBases}, Walks.{AllCanMove, IsShortestTo, IsWalkMove, base_at}};

use sfm_base::Rows;
use sfm_exchange::local_of;
use sfm_law::{Term, Walk};

/// Moves bases of q times the terms along a walk with fewest steps to some places, by an amount from 1 to 10^30 that each step
/// can move. It takes no memory.
pub fn follow<T: Term>(terms: &[T], _q: i128, bases: &mut Rows, walk: &Walk, a: i128)
    requires bounded { (n : ℕ) × AreBounded n (map T.places terms.now) (map T.size_of terms.now) }
    requires factor { IsFactor _q }
    requires bases { AreBases _q (meanings T.places T.value_of terms.now) bases.old }
    requires small { All (λ x. All IsEntry x) bases.old }
    requires walk { (to : List Bool) × (Has to walk.now.first → ⊥)
        × IsShortestTo (meanings T.places T.value_of terms.now) _q bases.old (Has to)
        walk.now.first walk.now.steps }
    requires low { pos 1 ≤ℤ a }
    requires high { a ≤ℤ pos (10 ^ 30) }
    requires can { AllCanMove (meanings T.places T.value_of terms.now) _q bases.old
        walk.now.first walk.now.steps a }
    ensures moved { IsWalkMove (meanings T.places T.value_of terms.now) bases.old
        walk.now.first walk.now.steps a bases.new }
    ensures bases { AreBases _q (meanings T.places T.value_of terms.now) bases.new }
{
    let mut from = walk.first;
    for (to, term) in walk.steps.as_slice() {
        exchange_places(terms[*term].elements(), bases, *term, from, *to, a);
        from = *to;
    }
}

// The exchange of two places of a term in its row i: the entry of the one is raised by an amount, that of the other lowered.
fn exchange_places(places: &[usize], bases: &mut Rows, i: usize, from: usize, to: usize, a: i128)
    requires inside { i < length bases.old }
    requires sized { length (base_at bases.old i) ≡ length places.now }
    requires from { (u : ℕ) × (u < length places.now)
        × (slice_index_or places.now u 0 ≡ from) }
    requires to { (v : ℕ) × (v < length places.now) × (slice_index_or places.now v 0 ≡ to) }
    requires apart { from ≢ to }
    requires small { All (IsAtMost (2 * 10 ^ 30)) (base_at bases.old i) }
    requires low { pos 0 ≤ℤ a }
    requires high { a ≤ℤ pos (10 ^ 30) }
    ensures { (u : ℕ) × (v : ℕ) × (u < length places.now) × (v < length places.now)
        × (slice_index_or places.now u 0 ≡ from) × (slice_index_or places.now v 0 ≡ to)
        × (bases.new ≡ slice_set bases.old i (exchanged (base_at bases.old i) u v a)) }
{
    let u = local_of(places, from).unwrap();
    let v = local_of(places, to).unwrap();
    bases.exchange(i, u, v, a);
}
