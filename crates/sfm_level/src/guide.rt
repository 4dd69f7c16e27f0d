// Slopes that are likely to be all that is needed. Nothing hangs on them: what is known of the bases in the end is told by the
// passes that follow. But pass after pass from the first bases would be many where numbers are large.
//
// Between two sets, one within the other, the sum of the bases is made level at the floor t of its average there: runs at t and
// at t + 1 make the bases prove there, and their least minimisers lie between the two. On what lies between these minimisers the
// sum is t or t + 1 afterwards, and what is left falls into two parts of fewer places, each treated so again. A run at one slope
// spoils nothing that was reached at another. So there are at most 2n parts with a place, and as many without one beside them.
ghost use Rattle.std.specs.{Prelude.{◌+◌, ◌^◌, ◌≤◌, length, OnOk, IfSome}, List.{All}};
ghost use Rattle.sfm_spec.specs.Bounds.{IsAtMost};
ghost use Rattle.sfm_level.specs.Levelling.{IsLevelling};

use crate::settle::settle;
use sfm_base::{Memory, Steps};
use sfm_exchange::{Bits, Graph, no_bits, signs_of, walked_from};
use sfm_law::Term;
use std::alloc::Global;

const FARTHEST: i128 = 1_000_000_000_000_000;

/// The places of the one set that the other has not.
#[derive(Clone, Copy)]
struct Part {
    low: Bits,
    high: Bits,
}

/// Brings the bases near those whose sum is most level.
///
/// # Errors
///
/// `Memory` where there is none; nothing is then said of the graph.
pub fn guide<T: Term>(
    alloc: Global,
    graph: &mut Graph<T::Note>,
    terms: &[T],
    n: usize,
) -> Result<(), Memory>
    requires { IsLevelling T.Term terms.now n graph.old }
    ensures { OnOk result (IsLevelling T.Term terms.now n graph.new) }
{
    let mut ahead = Vec::new(alloc);
    ahead.push(whole(n))?;
    for _ in 0..4 * n + 4 {
        let Some(part) = ahead.pop() else {
            break;
        };
        let Some(t) = mean_of(&graph.sums, &part) else {
            continue;
        };
        let low = least_at(alloc, graph, terms, n, t)?;
        let high = least_at(alloc, graph, terms, n, t + 1)?;
        ahead.push(Part {
            low: part.low,
            high: low,
        })?;
        ahead.push(Part {
            low: high,
            high: part.high,
        })?;
    }
    Ok(())
}

// All places.
fn whole(n: usize) -> Part
    requires { n ≤ 256 }
{
    let mut high = no_bits();
    for e in 0..n {
        high.insert(e);
    }
    Part {
        low: no_bits(),
        high,
    }
}

// The floor of the average over the places of a part, or the nearest number within 10^15; None where it has none.
fn mean_of(z: &[i128], part: &Part) -> Option<i128>
    requires few { length z.now ≤ 256 }
    requires small { All (IsAtMost (10 ^ 15)) z.now }
    ensures { IfSome result (IsAtMost (10 ^ 15)) }
{
    let mut sum = 0;
    let mut count = 0;
    for (e, a) in z.iter().enumerate() {
        if part.high.contains(e) && !part.low.contains(e) {
            sum += *a;
            count += 1;
        }
    }
    if count == 0 {
        return None;
    }
    let mean: i128 = sum.div_euclid(count);
    Some(mean.max(-FARTHEST).min(FARTHEST))
}

// The least minimiser at the slope t, at which the bases then prove.
fn least_at<T: Term>(
    alloc: Global,
    graph: &mut Graph<T::Note>,
    terms: &[T],
    n: usize,
    t: i128,
) -> Result<Bits, Memory>
    requires slope { IsAtMost (10 ^ 15 + 1) t }
    requires graph { IsLevelling T.Term terms.now n graph.old }
    ensures { OnOk result (IsLevelling T.Term terms.now n graph.new) }
{
    let mut steps = Steps::new();
    let z = settle(alloc, graph, terms, n, t, &mut steps)?;
    let signs = signs_of(z.as_slice());
    walked_from(alloc, graph, terms, 1, &signs.under)
}
