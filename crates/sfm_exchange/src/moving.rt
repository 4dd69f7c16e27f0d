// The move along a walk: the greatest amount that the walk's steps and its ends allow, and its exchanges from the last step to
// the first, each at the base that the exchanges behind it have left. What the graph keeps is brought up with each exchange,
// so it fits the bases at every step; rows may be claimed all along.
ghost use Rattle.std.specs.{Prelude.{◌≡◌, ◌*◌, ◌^◌, ◌<◌, ◌≤◌, ℕ, ℤ, pos, ◌≤ℤ◌, length, slice_set, OnOk, IfOk}, List.{All}};
ghost use Rattle.sfm_spec.specs.{Bounds.{IsAtMost, IsEntry}, Terms.{exchanged}, Families.{meanings}, Labels.{FallsAlong}, Walks.{IsWalkMove, base_at}};
ghost use Rattle.sfm_exchange.specs.{Graph.{IsClaimed, IsReady, IsStill}, Hops.{CanExchange, IsMovable, Moves, AreNamed, AreInOrder, hop_at, steps_of}};

use crate::graph::Graph;
use crate::noted::{move_kept, renew_kept, room_kept};
use crate::path::{Hop, Path};
use crate::sums::move_sums;
use sfm_base::Memory;
use sfm_law::{At, Swap, Term};
use sfm_reach::{Based, renew, widen};
use std::alloc::Global;

/// The greatest amount up to a given one that each step can move.
pub fn amount_of<T: Term>(
    alloc: Global,
    graph: &mut Graph<T::Note>,
    terms: &[T],
    q: i128,
    hops: &[Hop],
    most: i128,
) -> Result<i128, Memory>
    requires ready { IsReady T.Term terms.now q graph.old }
    requires movable { (k : ℕ) → k < length hops.now → IsMovable
        (meanings T.places T.value_of terms.now) q graph.old.bases (hop_at hops.now k) }
    requires most { pos 1 ≤ℤ most }
    ensures still { OnOk result (IsStill T.Term terms.now q graph.old graph.new) }
    ensures some { IfOk result (λ a. pos 1 ≤ℤ a) }
    ensures within { IfOk result (λ a. a ≤ℤ most) }
    ensures moves { IfOk result (λ a. (k : ℕ) → k < length hops.now
        → Moves (meanings T.places T.value_of terms.now) q graph.old.bases (hop_at hops.now k) a) }
    ensures greatest { IfOk result (λ a. (b : ℤ) → b ≤ℤ most
        → ((k : ℕ) → k < length hops.now → Moves (meanings T.places T.value_of terms.now) q
        graph.old.bases (hop_at hops.now k) b) → b ≤ℤ a) }
{
    let mut a = most;
    for hop in hops {
        let i = hop.term;
        let note = &mut graph.notes[i];
        let term = &terms[i];
        let x = graph.bases.row(i);
        let base = At { q, x };
        let at = Based { term, base };
        let (u, v) = (hop.u, hop.v);
        let swap = Swap { u, v, a };
        a = room_kept(alloc, &at, note, &swap)?;
    }
    Ok(a)
}

// One exchange of a term, and all that is kept with it.
fn exchange_at<T: Term>(
    alloc: Global,
    graph: &mut Graph<T::Note>,
    terms: &[T],
    q: i128,
    hop: Hop,
    a: i128,
) -> Result<(), Memory>
    requires graph { IsClaimed T.Term terms.now (length graph.old.spots.items) q graph.old }
    requires inside { hop.term < length terms.now }
    requires small { All (λ x. All IsEntry x) graph.old.bases }
    requires can { CanExchange (meanings T.places T.value_of terms.now) q graph.old.bases hop a }
    requires low { pos 1 ≤ℤ a }
    ensures moved { OnOk result (graph.new.bases ≡ slice_set graph.old.bases hop.term
        (exchanged (base_at graph.old.bases hop.term) hop.u hop.v a)) }
    ensures graph { OnOk result (IsClaimed T.Term terms.now (length graph.old.spots.items) q
        graph.new) }
{
    let i = hop.term;
    let term = &terms[i];
    let note = &mut graph.notes[i];
    let x = graph.bases.row(i);
    let base = At { q, x };
    let swap = Swap {
        u: hop.u,
        v: hop.v,
        a,
    };
    move_kept(alloc, &Based { term, base }, note, &swap)?;
    graph.bases.exchange(i, hop.u, hop.v, a);
    let places = term.elements();
    move_sums(&mut graph.sums, places[hop.u], places[hop.v], a);
    let x = graph.bases.row(i);
    let base = At { q, x };
    let at = Based { term, base };
    let rows = &mut graph.rows[i];
    let claimed = &mut graph.claimed[i];
    let changes = renew_kept(alloc, &at, note, hop, rows, claimed)?;
    renew(
        &graph.spots,
        &graph.rows,
        &changes.anew,
        &mut graph.unions,
        &mut graph.back,
    );
    widen(
        places,
        &graph.rows[i],
        &changes.grown,
        &mut graph.unions,
        &mut graph.back,
    );
    Ok(())
}

/// The exchanges of a walk, from its last step to its first.
pub fn move_along<T: Term>(
    alloc: Global,
    graph: &mut Graph<T::Note>,
    terms: &[T],
    q: i128,
    path: &Path,
    a: i128,
) -> Result<(), Memory>
    requires graph { IsClaimed T.Term terms.now (length graph.old.spots.items) q graph.old }
    requires small { All (λ x. All (IsAtMost (5 * 10 ^ 29)) x) graph.old.bases }
    requires low { pos 1 ≤ℤ a }
    requires high { a ≤ℤ pos (5 * 10 ^ 29) }
    requires named { AreNamed (meanings T.places T.value_of terms.now) path.now.first
        path.now.hops.items }
    requires order { AreInOrder (meanings T.places T.value_of terms.now) q graph.old.bases
        path.now.first (steps_of path.now.hops.items) a }
    requires falls { (d : ℕ → ℕ) × FallsAlong d path.now.first (steps_of path.now.hops.items) }
    ensures graph { OnOk result (IsClaimed T.Term terms.now (length graph.old.spots.items) q
        graph.new) }
    ensures moved { OnOk result (IsWalkMove (meanings T.places T.value_of terms.now) graph.old.bases
        path.now.first (steps_of path.now.hops.items) a graph.new.bases) }
{
    let mut k = path.hops.len();
    while k > 0 {
        k -= 1;
        exchange_at(alloc, graph, terms, q, path.hops[k], a)?;
    }
    Ok(())
}
