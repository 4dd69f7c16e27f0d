// Walks one after the other. While a walk joins, one of least steps is moved along by the greatest amount, and what is kept
// beside the bases is brought up. Each walk raises the sum of min(z, 0) by at least 1, so this ends, and then no walk joins
// (Schrijver, Combinatorial Optimization, section 45; Fujishige, Submodular Functions and Optimization, section 4). It raises
// the potential of any lower bounds on distances and on least steps too, so walks are few; and an entry changes by no more
// than that sum rises, so what entries are at first and how far below 0 that sum is bound all that they come to.
ghost use Rattle.std.specs.{Prelude.{◌≡◌, ◌+◌, ◌*◌, ◌^◌, ◌≢◌, ◌<◌, ◌≤◌, pos, neg_ℤ, ◌≤ℤ◌, length, OnOk, IfOk, slice_index_or}, List.{All}};
ghost use Rattle.sfm_spec.specs.{Sets.{magnitudes}, Bounds.{IsAtMost}, Families.{meanings, rest_at, deficit}, Terms.{exchanged}, Walks.{few_walks, last_of}};
ghost use Rattle.sfm_walk.specs.{Labels.{AreLabels}, Optimum.{IsImproved}, Run.{AreAdvanced, IsNext, IsRunning}};
ghost use Rattle.sfm_exchange.specs.{Graph.{IsClaimed}, Hops.{steps_of}, Signs.{AreMoved, AreSigns}};

use crate::rest::{most_of, move_rest, rest_from};
use crate::run::{Run, run_at};
use crate::walk::next_walk;
use sfm_base::{Memory, Numbers, Steps};
use sfm_exchange::{Graph, amount_of, move_along, move_signs};
use sfm_law::Term;
use std::alloc::Global;

/// Moves the bases of the graph along walks of least steps, each by the greatest amount, until no walk joins. Then they
/// prove the minimum of q times the sum of the terms less the shift. Gives z, their sum at each place less the shift. Rows may
/// be claimed before and afterwards. No entry comes to lie farther from 0 by more than the sum of min(z, 0) rises. Each walk is
/// counted, from a count below 2^63; without an answer the count has risen by no more than there may be, and nothing is said
/// of the graph.
///
/// # Errors
///
/// `Memory` where there is none.
pub fn improve<T: Term>(
    alloc: Global,
    graph: &mut Graph<T::Note>,
    terms: &[T],
    q: i128,
    shift: &[i128],
    steps: &mut Steps,
) -> Result<Numbers, Memory>
    requires room { steps.old < 2 ^ 63 }
    requires shifts { magnitudes shift.now ≤ℤ pos (10 ^ 27) }
    requires graph { IsClaimed T.Term terms.now (length shift.now) q graph.old }
    requires small { All (λ x. All (IsAtMost (10 ^ 25)) x) graph.old.bases }
    ensures improved { IfOk result (λ r. IsImproved T.Term terms.now q shift.now graph.old graph.new r
        steps.old steps.new) }
    ensures few { steps.new ≤ steps.old + few_walks (length shift.now) (length terms.now) }
    ensures kept { steps.old ≤ steps.new }
{
    improve_from(alloc, graph, terms, q, shift, steps)
}

/// The same from bases with entries of up to 10^29, where the sum of min(z, 0) is known not to be below -4 * 10^29 at first.
///
/// # Errors
///
/// `Memory` where there is none.
pub fn improve_from<T: Term>(
    alloc: Global,
    graph: &mut Graph<T::Note>,
    terms: &[T],
    q: i128,
    shift: &[i128],
    steps: &mut Steps,
) -> Result<Numbers, Memory>
    requires room { steps.old < 2 ^ 63 }
    requires shifts { magnitudes shift.now ≤ℤ pos (10 ^ 27) }
    requires graph { IsClaimed T.Term terms.now (length shift.now) q graph.old }
    requires small { All (λ x. All (IsAtMost (10 ^ 29)) x) graph.old.bases }
    requires gap { neg_ℤ (pos (4 * 10 ^ 29)) ≤ℤ deficit (length shift.now)
        (rest_at (meanings T.places T.value_of terms.now) graph.old.bases shift.now) }
    ensures improved { IfOk result (λ r. IsImproved T.Term terms.now q shift.now graph.old graph.new r
        steps.old steps.new) }
    ensures few { steps.new ≤ steps.old + few_walks (length shift.now) (length terms.now) }
    ensures kept { steps.old ≤ steps.new }
{
    let z = rest_from(alloc, &graph.sums, shift)?;
    let mut run = run_at(alloc, z);
    while next_walk(alloc, graph, terms, q, shift, &mut run)? {
        advance(alloc, graph, terms, q, shift, &mut run)?;
        steps.tick();
    }
    Ok(Numbers::from_vec(run.z))
}

// Moves along the walk that was found by the greatest amount, and brings z and its signs up with it.
fn advance<T: Term>(
    alloc: Global,
    graph: &mut Graph<T::Note>,
    terms: &[T],
    q: i128,
    _shift: &[i128],
    run: &mut Run,
) -> Result<(), Memory>
    requires shifts { magnitudes _shift.now ≤ℤ pos (10 ^ 27) }
    requires running { IsRunning T.Term terms.now q _shift.now graph.old run.old }
    requires next { IsNext T.Term terms.now q _shift.now graph.old run.old }
    requires small { All (λ x. All (IsAtMost (5 * 10 ^ 29)) x) graph.old.bases }
    requires gap { neg_ℤ (pos (5 * 10 ^ 29)) ≤ℤ deficit (length _shift.now)
        (rest_at (meanings T.places T.value_of terms.now) graph.old.bases _shift.now) }
    ensures graph { OnOk result (IsClaimed T.Term terms.now (length _shift.now) q graph.new) }
    ensures advanced { OnOk result (AreAdvanced (meanings T.places T.value_of terms.now)
        (length _shift.now) q _shift.now graph.old.bases graph.new.bases run.new) }
    ensures labels { OnOk result (AreLabels (meanings T.places T.value_of terms.now)
        (length _shift.now) q _shift.now graph.new.bases run.new.levels.items) }
{
    let last = run.path.last();
    let most = most_of(&run.z, run.path.first, last);
    let a = amount_of(alloc, graph, terms, q, &run.path.hops, most)?;
    move_along(alloc, graph, terms, q, &run.path, a)?;
    settle(run, a);
    Ok(())
}

// Brings z and its signs up once the walk has moved a.
fn settle(run: &mut Run, a: i128)
    requires few { length run.old.z.items ≤ 256 }
    requires first { run.old.path.first < length run.old.z.items }
    requires last { last_of run.old.path.first (steps_of run.old.path.hops.items)
        < length run.old.z.items }
    requires apart { run.old.path.first ≢ last_of run.old.path.first
        (steps_of run.old.path.hops.items) }
    requires low { pos 0 ≤ℤ a }
    requires under { a ≤ℤ neg_ℤ (slice_index_or run.old.z.items run.old.path.first (pos 0)) }
    requires over { a ≤ℤ slice_index_or run.old.z.items (last_of run.old.path.first
        (steps_of run.old.path.hops.items)) (pos 0) }
    ensures z { run.new.z.items ≡ exchanged run.old.z.items run.old.path.first
        (last_of run.old.path.first (steps_of run.old.path.hops.items)) a }
    ensures signs { AreMoved run.old.z.items (exchanged run.old.z.items run.old.path.first
        (last_of run.old.path.first (steps_of run.old.path.hops.items)) a) run.old.path.first
        (last_of run.old.path.first (steps_of run.old.path.hops.items))
        → AreSigns run.old.z.items run.old.signs → AreSigns run.new.z.items run.new.signs }
    ensures levels { run.new.levels.items ≡ run.old.levels.items }
{
    let last = run.path.last();
    move_rest(&mut run.z, run.path.first, last, a);
    move_signs(&mut run.signs, &run.z, run.path.first, last);
}
