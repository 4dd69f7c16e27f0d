// Where a stage ends: bases of the terms to which walks lead from the first bases that are walk moves at each of some
// breakpoints, and how many there are. Another stage goes on from there over fewer breakpoints: so they form a tree, and each
// walk is made once for all breakpoints below it.
ghost use Rattle.std.specs.{Prelude.{◌≡◌, ◌^◌, ◌<◌, ◌≤◌, length, map, pos, ◌*ℤ◌, ◌≤ℤ◌, IfOk, OnOk}, List.{All}};
ghost use Rattle.sfm_spec.specs.{Bounds.{IsAtMost, IsFactor}, Families.{meanings}, Walks.{few_walks}};
ghost use Rattle.sfm_exchange.specs.Graph.{IsClaimed};
ghost use Rattle.sfm_sizes.specs.Sizes.{AreElementSizes};
ghost use Rattle.sfm_slope.specs.{Points.{IsInRange}, Standings.{IsStanding}};

use crate::turn::Breakpoint;
use sfm_base::{Memory, Slope};
use sfm_exchange::{Graph, graph_by};
use sfm_law::Term;
use sfm_sizes::shift_by;
use sfm_stage::run_stage;
use std::alloc::Global;

/// A graph of the terms, and how many walks lead to its bases from the first ones.
pub struct Standing<N> {
    /// The graph.
    pub graph: Graph<N>,
    /// The number of walks.
    pub walks: u64,
}

// Written out, so that letting one go is one step, which is proved here once.
impl<N: Drop> Drop for Standing<N> {
    fn drop(self) {
        let Self { graph: _, walks: _ } = self;
    }
}

/// The first bases of the terms, to which no walk leads, beside a graph of the terms at them.
///
/// # Errors
///
/// `Memory` where there is none.
pub fn first_standing<T: Term>(
    alloc: Global,
    terms: &[T],
    sizes: &[i128],
    _found: &[Breakpoint],
    first: &Graph<T::Note>,
) -> Result<Standing<T::Note>, Memory>
    requires first { IsClaimed T.Term terms.now (length sizes.now) (pos 1) first.now }
    requires begins { first.now.bases ≡ map (λ term. T.start_of term (pos 1)) terms.now }
    ensures { IfOk result (IsStanding T.Term terms.now sizes.now _found.now) }
{
    let graph = graph_by(alloc, terms, sizes.len(), 1, first)?;
    Ok(Standing { graph, walks: 0 })
}

/// The same once more.
///
/// # Errors
///
/// `Memory` where there is none.
pub fn copy_standing<T: Term>(
    alloc: Global,
    terms: &[T],
    sizes: &[i128],
    _found: &[Breakpoint],
    at: &Standing<T::Note>,
) -> Result<Standing<T::Note>, Memory>
    requires standing { IsStanding T.Term terms.now sizes.now _found.now at.now }
    requires small { All (λ x. All (IsAtMost (10 ^ 21)) x) at.now.graph.bases }
    ensures { IfOk result (IsStanding T.Term terms.now sizes.now _found.now) }
{
    let graph = graph_by(alloc, terms, sizes.len(), 1, &at.graph)?;
    Ok(Standing {
        graph,
        walks: at.walks,
    })
}

/// Goes on by a stage over some breakpoints, from bases that are not too large. It looks for a walk no more often than a
/// minimisation may walk.
///
/// # Errors
///
/// `Memory` where there is none; nothing is then said of where it ended.
pub fn stage_over<T: Term>(
    alloc: Global,
    terms: &[T],
    sizes: &[i128],
    found: &[Breakpoint],
    at: &mut Standing<T::Note>,
) -> Result<(), Memory>
    requires sizes { AreElementSizes (length sizes.now) sizes.now }
    requires some { 0 < length found.now }
    requires ranges { All (IsInRange sizes.now) found.now }
    requires small { All (λ x. All (IsAtMost (10 ^ 25)) x) at.old.graph.bases }
    requires few { at.old.walks ≤ 10 ^ 12 }
    requires standing { IsStanding T.Term terms.now sizes.now found.now at.old }
    ensures { OnOk result (IsStanding T.Term terms.now sizes.now found.now at.new) }
{
    let low = shift_by(alloc, sizes, floor_of(found, sizes))?;
    let high = shift_by(alloc, sizes, ceiling_of(found, sizes))?;
    let most = most_walks(sizes.len(), terms.len());
    let walks = run_stage(alloc, &mut at.graph, terms, &low, &high, most)?;
    at.walks += walks;
    Ok(())
}

/// The most walks that a minimisation over n elements and m terms takes.
pub fn most_walks(n: usize, m: usize) -> u64
    requires places { n ≤ 256 }
    requires terms { m ≤ 16384 }
    ensures is { result ≡ few_walks n m }
    ensures small { result ≤ 10 ^ 12 }
{
    let n = n as u64;
    let m = m as u64;
    n + n * (n + 1) * (n * m + 1)
}

// A whole number that is at most each slope.
fn floor_of(found: &[Breakpoint], _sizes: &[i128]) -> i128
    requires { All (IsInRange _sizes.now) found.now }
    ensures small { IsAtMost (10 ^ 19) result }
    ensures low { All (λ b. (b.slope.den *ℤ result) ≤ℤ b.slope.num) found.now }
{
    let mut low = MOST;
    for point in found {
        low = low.min(whole_below(point.slope.num, point.slope.den));
    }
    low
}

// A whole number that is at least each slope.
fn ceiling_of(found: &[Breakpoint], _sizes: &[i128]) -> i128
    requires { All (IsInRange _sizes.now) found.now }
    ensures small { IsAtMost (10 ^ 19) result }
    ensures high { All (λ b. b.slope.num ≤ℤ (b.slope.den *ℤ result)) found.now }
{
    let mut high = -MOST;
    for point in found {
        high = high.max(ceiling(point.slope));
    }
    high
}

// The greatest numerator of a slope.
const MOST: i128 = 10_000_000_000_000_000_000;

// The greatest whole number that is at most p/q.
fn whole_below(p: i128, q: i128) -> i128
    requires small { IsAtMost (10 ^ 19) p }
    requires factor { IsFactor q }
    ensures small { IsAtMost (10 ^ 19) result }
    ensures low { (q *ℤ result) ≤ℤ p }
{
    p.div_euclid(q)
}

// The least whole number that is at least a slope.
fn ceiling(slope: Slope) -> i128
    requires { IsAtMost (10 ^ 19) slope.num }
    ensures small { IsAtMost (10 ^ 19) result }
    ensures high { slope.num ≤ℤ (slope.den *ℤ result) }
{
    -whole_below(-slope.num, slope.den)
}
