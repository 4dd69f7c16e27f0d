// A stage: walks that serve all slopes between two, one after the other, as many as are found. It may end at any time, since
// each section goes on from its bases by walks of its own: so places from which nothing leads on are looked at no more.
ghost use Rattle.std.specs.{Prelude.{◌≡◌, ◌^◌, ◌≤◌, pos, neg_ℤ, ◌<ℤ◌, ◌≤ℤ◌, ◌<◌, length, slice_index_or, true, Some, unwrap_or, OnOk, IfOk}, List.{All}};
ghost use Rattle.sfm_spec.specs.{Sets.{magnitudes}, Bounds.{IsAtMost, IsEntry}, Families.{meanings}};
ghost use Rattle.sfm_exchange.specs.Graph.{IsClaimed};
ghost use Rattle.sfm_stage.specs.{Courses.{IsCourse, IsSeen}, Kept.{IsKept}, Served.{AreOrdered, AreServed, IsServing}};

use crate::aims::{lead, write_aims};
use crate::kept::{Kept, first_of, kept_at, settle, shut};
use sfm_base::Memory;
use sfm_exchange::{Graph, amount_of, find_levels, move_along, prove_walk};
use sfm_law::Term;
use std::alloc::Global;

// The most that a walk moves, and how often a stage looks for one. So no entry comes to lie farther from 0 by more than 10^28.
const MOST_AMOUNT: i128 = 100_000_000_000_000_000_000;

const MOST_LOOKS: u64 = 100_000_000;

/// Moves bases of the terms along walks each of which is a walk move at every slope between two, whole ones or not: at each
/// factor q and each shift that is at least q times the lower of two shifts and at most q times the higher one. Gives the number
/// of walks. A walk is looked for at most as often as is told, and at most 10^8 times. Rows may be claimed before and
/// afterwards.
///
/// # Errors
///
/// `Memory` where there is none; nothing is then said of the graph.
pub fn run_stage<T: Term>(
    alloc: Global,
    graph: &mut Graph<T::Note>,
    terms: &[T],
    low: &[i128],
    high: &[i128],
    most: u64,
) -> Result<u64, Memory>
    requires graph { IsClaimed T.Term terms.now (length low.now) (pos 1) graph.old }
    requires small { All (λ x. All (IsAtMost (10 ^ 25)) x) graph.old.bases }
    requires order { AreOrdered low.now high.now }
    requires low { magnitudes low.now ≤ℤ pos (10 ^ 36) }
    requires high { magnitudes high.now ≤ℤ pos (10 ^ 36) }
    ensures graph { OnOk result (IsClaimed T.Term terms.now (length low.now) (pos 1) graph.new) }
    ensures small { OnOk result (All (λ x. All IsEntry x) graph.new.bases) }
    ensures few { IfOk result (λ t. t ≤ 10 ^ 8) }
    ensures most { IfOk result (λ t. t ≤ most) }
    ensures served { IfOk result (λ t. AreServed (meanings T.places T.value_of terms.now)
        low.now high.now t graph.old.bases graph.new.bases) }
{
    let mut kept = kept_at(alloc, &graph.sums, low, high)?;
    let looks = most.min(MOST_LOOKS);
    let mut walks = 0;
    for _ in 0..looks {
        let Some(more) = look(alloc, graph, terms, low, high, &mut kept)? else {
            return Ok(walks);
        };
        walks += more;
    }
    Ok(walks)
}

// Looks for a walk, and moves along it where it is one: gives the number of walks, one or none; None where there is nothing to
// be looked for any more.
fn look<T: Term>(
    alloc: Global,
    graph: &mut Graph<T::Note>,
    terms: &[T],
    _low: &[i128],
    _high: &[i128],
    kept: &mut Kept,
) -> Result<Option<u64>, Memory>
    requires graph { IsClaimed T.Term terms.now (length _low.now) (pos 1) graph.old }
    requires small { All (λ x. All (IsAtMost (10 ^ 29)) x) graph.old.bases }
    requires order { AreOrdered _low.now _high.now }
    requires kept { IsKept (meanings T.places T.value_of terms.now) _low.now _high.now
        graph.old.bases kept.old }
    ensures graph { OnOk result (IsClaimed T.Term terms.now (length _low.now) (pos 1) graph.new) }
    ensures kept { OnOk result (IsKept (meanings T.places T.value_of terms.now) _low.now
        _high.now graph.new.bases kept.new) }
    ensures few { IfOk result (λ r. unwrap_or r 0 ≤ 1) }
    ensures serving { IfOk result (λ r. IsServing (meanings T.places T.value_of terms.now)
        _low.now _high.now (unwrap_or r 0) graph.old.bases graph.new.bases) }
{
    let Some(led) = seek(terms, graph, _low, _high, kept)? else {
        return Ok(None);
    };
    if !led {
        return Ok(Some(0));
    }
    let proved = prove_walk(alloc, graph, terms, 1, &kept.path.hops)?;
    if !proved {
        return Ok(Some(0));
    }
    advance(alloc, graph, terms, _low, _high, kept)?;
    Ok(Some(1))
}

// Seeks a walk; false where a place was found from which none leads on, which is not looked at any more, and None where all are
// done with.
fn seek<T: Term>(
    terms: &[T],
    graph: &Graph<T::Note>,
    _low: &[i128],
    _high: &[i128],
    kept: &mut Kept,
) -> Result<Option<bool>, Memory>
    requires graph { IsClaimed T.Term terms.now (length _low.now) (pos 1) graph.now }
    requires kept { IsKept (meanings T.places T.value_of terms.now) _low.now _high.now
        graph.now.bases kept.old }
    ensures kept { OnOk result (IsKept (meanings T.places T.value_of terms.now) _low.now
        _high.now graph.now.bases kept.new) }
    ensures seen { IfOk result (λ r. r ≡ Some true
        → IsSeen (meanings T.places T.value_of terms.now) graph.now.rows.items
        (length _low.now) graph.now.unions.items kept.new) }
{
    let Some(near) = find_levels(
        &graph.back,
        &graph.unions,
        &kept.low,
        &kept.below,
        &mut kept.levels,
    )?
    else {
        return Ok(None);
    };
    write_aims(&graph.back, &kept.levels, &kept.above.over, &mut kept.aims)?;
    let first = first_of(kept, near);
    kept.path.first = first;
    let led = lead(
        terms,
        graph,
        &kept.levels,
        &kept.aims,
        first,
        &mut kept.path.hops,
    )?;
    if !led {
        shut(kept, first);
    }
    Ok(Some(led))
}

// Moves along the walk that was found, by no more than its steps, its ends and the greatest amount allow.
fn advance<T: Term>(
    alloc: Global,
    graph: &mut Graph<T::Note>,
    terms: &[T],
    _low: &[i128],
    _high: &[i128],
    kept: &mut Kept,
) -> Result<(), Memory>
    requires graph { IsClaimed T.Term terms.now (length _low.now) (pos 1) graph.old }
    requires small { All (λ x. All (IsAtMost (10 ^ 29)) x) graph.old.bases }
    requires order { AreOrdered _low.now _high.now }
    requires kept { IsKept (meanings T.places T.value_of terms.now) _low.now _high.now
        graph.old.bases kept.old }
    requires course { IsCourse (meanings T.places T.value_of terms.now) _low.now
        graph.old.bases kept.old }
    ensures graph { OnOk result (IsClaimed T.Term terms.now (length _low.now) (pos 1) graph.new) }
    ensures kept { OnOk result (IsKept (meanings T.places T.value_of terms.now) _low.now
        _high.now graph.new.bases kept.new) }
    ensures serving { OnOk result (IsServing (meanings T.places T.value_of terms.now)
        _low.now _high.now 1 graph.old.bases graph.new.bases) }
{
    let last = kept.path.last();
    let most = most_of(&kept.low, &kept.high, kept.path.first, last);
    let a = amount_of(alloc, graph, terms, 1, &kept.path.hops, most)?;
    move_along(alloc, graph, terms, 1, &kept.path, a)?;
    settle(kept, a);
    Ok(())
}

// The most that the ends of a walk let it move, up to the greatest amount.
fn most_of(low: &[i128], high: &[i128], first: usize, last: usize) -> i128
    requires first { first < length low.now }
    requires last { last < length high.now }
    requires under { slice_index_or low.now first (pos 0) <ℤ pos 0 }
    requires over { pos 0 <ℤ slice_index_or high.now last (pos 0) }
    ensures some { pos 1 ≤ℤ result }
    ensures by_first { result ≤ℤ neg_ℤ (slice_index_or low.now first (pos 0)) }
    ensures by_last { result ≤ℤ slice_index_or high.now last (pos 0) }
    ensures most { result ≤ℤ pos (10 ^ 20) }
{
    least_of(low[first], high[last])
}

// The same of what is left at the ends.
fn least_of(low: i128, high: i128) -> i128
    requires under { low <ℤ pos 0 }
    requires over { pos 0 <ℤ high }
    ensures some { pos 1 ≤ℤ result }
    ensures by_first { result ≤ℤ neg_ℤ low }
    ensures by_last { result ≤ℤ high }
    ensures most { result ≤ℤ pos (10 ^ 20) }
{
    let most = high.min(MOST_AMOUNT);
    if low > -most { -low } else { most }
}
