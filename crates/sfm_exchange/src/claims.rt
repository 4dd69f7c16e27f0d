// Rows that are only claimed, where they matter. The search for walks takes them as they are, since they lack no step; a walk
// that it finds is moved along only once each of its steps is known to be a true one. A row that is asked for that is true from
// then on, so where a step is refused, fewer rows are claimed, and the search begins anew. And where all that walks lead to
// is sought, the rows of each place that is found are asked before the search goes on from there.
ghost use Rattle.std.specs.{Prelude.{◌≡◌, ◌≢◌, ◌<◌, ℕ, length, true, false, OnOk, IfOk, slice_index_or}};
ghost use Rattle.sfm_spec.specs.{Families.{meanings}, Walks.{term_at}};
ghost use Rattle.sfm_reach.specs.{Bits.{bit_in, set_at}, Reached.{AreWalked}, Unions.{IsArc}};
ghost use Rattle.sfm_exchange.specs.{Claimed.{IsAsked, IsSettled, claims_of}, Graph.{IsReady, IsStill, IsWhole}, Hops.{AreHops, IsMovable, hop_at}};

use crate::graph::Graph;
use crate::path::Hop;
use sfm_base::Memory;
use sfm_law::{At, Term};
use sfm_reach::{Based, Bits, no_bits, only, renew, row_kept, take_in};
use std::alloc::Global;

// Asks for the row of the place u of a term where it is only claimed.
fn ask_at<T: Term>(
    alloc: Global,
    graph: &mut Graph<T::Note>,
    terms: &[T],
    q: i128,
    i: usize,
    u: usize,
) -> Result<(), Memory>
    requires ready { IsReady T.Term terms.now q graph.old }
    requires term { i < length terms.now }
    requires place { u < length (term_at (meanings T.places T.value_of terms.now) i).places }
    ensures still { OnOk result (IsStill T.Term terms.now q graph.old graph.new) }
    ensures spots { OnOk result (graph.new.spots.items ≡ graph.old.spots.items) }
    ensures settled { OnOk result (bit_in (set_at graph.new.claimed.items i)
        (slice_index_or (term_at (meanings T.places T.value_of terms.now) i).places u 0) ≢ 1) }
    ensures kept { OnOk result ((j e : ℕ) → bit_in (set_at graph.old.claimed.items j) e ≢ 1
        → bit_in (set_at graph.new.claimed.items j) e ≢ 1) }
    ensures asked { OnOk result (IsAsked graph.old.rows.items graph.old.claimed.items
        graph.new.rows.items graph.new.claimed.items) }
{
    let term = &terms[i];
    let places = term.elements();
    let place = places[u];
    let claims = &graph.claimed[i];
    if !claims.contains(place) {
        return Ok(());
    }
    let claimed = &mut graph.claimed[i];
    claimed.remove(place);
    let x = graph.bases.row(i);
    let base = At { q, x };
    let at = Based { term, base };
    let note = &mut graph.notes[i];
    let rows = &mut graph.rows[i];
    let row = row_kept(alloc, &at, note, u, rows)?;
    rows.set(u, row);
    let changed = only(place);
    renew(
        &graph.spots,
        &graph.rows,
        &changed,
        &mut graph.unions,
        &mut graph.back,
    );
    Ok(())
}

/// Whether the steps of a walk, which the rows tell, are true ones: rows of theirs that are only claimed are asked. Where one
/// is refused, fewer rows are claimed than before. After want of memory nothing is said of the graph.
///
/// # Errors
///
/// `Memory` where there is none.
pub fn prove_walk<T: Term>(
    alloc: Global,
    graph: &mut Graph<T::Note>,
    terms: &[T],
    q: i128,
    hops: &[Hop],
) -> Result<bool, Memory>
    requires ready { IsReady T.Term terms.now q graph.old }
    requires told { (first : ℕ) × AreHops (meanings T.places T.value_of terms.now)
        graph.old.rows.items first hops.now }
    ensures still { OnOk result (IsStill T.Term terms.now q graph.old graph.new) }
    ensures proved { IfOk result (λ r. r ≡ true → (k : ℕ) → k < length hops.now
        → IsMovable (meanings T.places T.value_of terms.now) q graph.old.bases
        (hop_at hops.now k)) }
    ensures refused { IfOk result (λ r. r ≡ false → claims_of graph.new.claimed.items
        < claims_of graph.old.claimed.items) }
{
    for hop in hops {
        ask_at(alloc, graph, terms, q, hop.term, hop.u)?;
        let rows = &graph.rows[hop.term];
        let row = rows.row(hop.u);
        if !row.contains(hop.to) {
            return Ok(false);
        }
    }
    Ok(true)
}

// Asks for the rows of a place that are only claimed, so that the place has the arcs of the graph alone.
fn ask_place<T: Term>(
    alloc: Global,
    graph: &mut Graph<T::Note>,
    terms: &[T],
    q: i128,
    e: usize,
) -> Result<(), Memory>
    requires ready { IsReady T.Term terms.now q graph.old }
    requires place { e < length graph.old.spots.items }
    ensures still { OnOk result (IsStill T.Term terms.now q graph.old graph.new) }
    ensures spots { OnOk result (graph.new.spots.items ≡ graph.old.spots.items) }
    ensures settled { OnOk result (IsSettled graph.old.spots.items graph.new.claimed.items e) }
    ensures exact { OnOk result ((t : ℕ) → bit_in (set_at graph.new.unions.items e) t ≡ 1
        → IsArc (meanings T.places T.value_of terms.now) q graph.old.bases e t) }
    ensures kept { OnOk result ((j t : ℕ) → bit_in (set_at graph.old.claimed.items j) t ≢ 1
        → bit_in (set_at graph.new.claimed.items j) t ≢ 1) }
{
    let here = &graph.spots[e];
    let listed = here.as_slice();
    let count = listed.len();
    for k in 0..count {
        let spots = &graph.spots[e];
        let at = spots.as_slice();
        let spot = at[k];
        ask_at(alloc, graph, terms, q, spot.term, spot.local)?;
    }
    Ok(())
}

// The places with a row that is only claimed.
fn claimed_places(sets: &[Bits]) -> Bits
    ensures { (j e : ℕ) → bit_in (set_at sets.now j) e ≡ 1 → bit_in result e ≡ 1 }
{
    let mut all = no_bits();
    for set in sets {
        all.union_with(set);
    }
    all
}

// Asks for the rows of a place that are only claimed, which is one of some places if it has any.
fn settle_place<T: Term>(
    alloc: Global,
    graph: &mut Graph<T::Note>,
    terms: &[T],
    q: i128,
    claimed: &Bits,
    e: usize,
) -> Result<(), Memory>
    requires ready { IsReady T.Term terms.now q graph.old }
    requires place { e < length graph.old.spots.items }
    requires claimed { (j t : ℕ) → bit_in (set_at graph.old.claimed.items j) t ≡ 1
        → bit_in claimed.now t ≡ 1 }
    ensures still { OnOk result (IsStill T.Term terms.now q graph.old graph.new) }
    ensures spots { OnOk result (graph.new.spots.items ≡ graph.old.spots.items) }
    ensures settled { OnOk result (IsSettled graph.old.spots.items graph.new.claimed.items e) }
    ensures exact { OnOk result ((t : ℕ) → bit_in (set_at graph.new.unions.items e) t ≡ 1
        → IsArc (meanings T.places T.value_of terms.now) q graph.old.bases e t) }
    ensures kept { OnOk result ((j t : ℕ) → bit_in (set_at graph.old.claimed.items j) t ≢ 1
        → bit_in (set_at graph.new.claimed.items j) t ≢ 1) }
{
    if claimed.contains(e) {
        return ask_place(alloc, graph, terms, q, e);
    }
    Ok(())
}

/// The first places, and all that walks lead to from them. Rows that are only claimed are asked where such a walk may go by
/// them, and no others. After want of memory nothing is said of the graph.
///
/// # Errors
///
/// `Memory` where there is none.
pub fn walked_from<T: Term>(
    alloc: Global,
    graph: &mut Graph<T::Note>,
    terms: &[T],
    q: i128,
    firsts: &Bits,
) -> Result<Bits, Memory>
    requires ready { IsReady T.Term terms.now q graph.old }
    requires firsts { (e : ℕ) → bit_in firsts.now e ≡ 1 → e < length graph.old.spots.items }
    ensures still { OnOk result (IsStill T.Term terms.now q graph.old graph.new) }
    ensures walked { IfOk result (AreWalked (meanings T.places T.value_of terms.now)
        (length graph.old.spots.items) q graph.old.bases firsts.now) }
{
    let claimed = claimed_places(&graph.claimed);
    let mut found = *firsts;
    let mut ahead = *firsts;
    while let Some(e) = ahead.first() {
        ahead.remove(e);
        settle_place(alloc, graph, terms, q, &claimed, e)?;
        let row = &graph.unions[e];
        take_in(row, &mut found, &mut ahead);
    }
    Ok(found)
}

/// Asks for the rows that are only claimed, so that each tells the steps that there are. After want of memory nothing is said
/// of the graph.
///
/// # Errors
///
/// `Memory` where there is none.
pub fn ask_claimed<T: Term>(
    alloc: Global,
    graph: &mut Graph<T::Note>,
    terms: &[T],
    q: i128,
) -> Result<(), Memory>
    requires ready { IsReady T.Term terms.now q graph.old }
    ensures graph { OnOk result (IsWhole T.Term terms.now (length graph.old.spots.items) q
        graph.new) }
    ensures bases { OnOk result (graph.new.bases ≡ graph.old.bases) }
{
    let claimed = claimed_places(&graph.claimed);
    for e in 0..graph.spots.len() {
        settle_place(alloc, graph, terms, q, &claimed, e)?;
    }
    Ok(())
}
