// The exchange graph at some bases, and what z tells of its places: the places by the sign of z, those that links lead to
// from a place with z < 0, and those from which links lead to one with z > 0. A walk joins where a place is both; where none
// is, the first are the least minimiser and the second all places outside the greatest.
ghost use Rattle.std.specs.{Prelude.{◌≡◌, ◌^◌, ℤ, length, map, pos, ◌≤ℤ◌, IfOk}, List.{All}};
ghost use Rattle.sfm_spec.specs.{Sets.{magnitudes}, Bounds.{AreBounded, IsEntry, IsFactor}, Families.{meanings, AreBases}};
ghost use Rattle.sfm_exchange.specs.Graph.{IsWhole};
ghost use Rattle.sfm_extreme.specs.Reading.{IsReading};

use sfm_base::{Memory, Rows};
use sfm_exchange::{Bits, Graph, Signs, graph_at, reached_from, signs_of};
use sfm_law::{Term, rest_of};
use std::alloc::Global;

/// What is read off bases.
pub struct Reading<'g, N> {
    /// The exchange graph at the bases.
    pub graph: &'g Graph<N>,
    /// The sum of the bases at each place, less the shift.
    pub z: Vec<i128>,
    /// The places by the sign of z.
    pub signs: Signs,
    /// The places that links lead to from those with z < 0.
    pub reached: Bits,
    /// The places from which links lead to one with z > 0.
    pub leading: Bits,
}

// Written out, so that letting one go is one step, which is proved here once.
impl<N: Drop> Drop for Reading<'_, N> {
    fn drop(self) {
        let Self {
            graph: _,
            z: _,
            signs: _,
            reached: _,
            leading: _,
        } = self;
    }
}

/// The exchange graph of q times the terms at bases, which are copied, over a ground of n places.
pub(crate) fn graph_of<T: Term>(
    alloc: Global,
    terms: &[T],
    n: usize,
    q: i128,
    bases: &Rows,
) -> Result<Graph<T::Note>, Memory>
    requires bounded { AreBounded n (map T.places terms.now) (map T.size_of terms.now) }
    requires factor { IsFactor q }
    requires bases { AreBases q (meanings T.places T.value_of terms.now) bases.now }
    requires small { All (λ x. All IsEntry x) bases.now }
    ensures graph { IfOk result (IsWhole T.Term terms.now n q) }
    ensures bases { IfOk result (λ r. r.bases ≡ bases.now) }
{
    graph_at(alloc, terms, n, q, bases.copy(alloc)?)
}

/// What is read off the bases of a graph, with a shift for each place.
///
/// # Errors
///
/// `Memory` where there is none.
pub(crate) fn read_graph<'g, T: Term>(
    alloc: Global,
    terms: &[T],
    shift: &[i128],
    graph: &'g Graph<T::Note>,
) -> Result<Reading<'g, T::Note>, Memory>
    requires whole { (q : ℤ) × IsWhole T.Term terms.now (length shift.now) q graph.now }
    requires shifts { magnitudes shift.now ≤ℤ pos (10 ^ 36) }
    requires small { All (λ x. All IsEntry x) graph.now.bases }
    ensures reading { IfOk result (λ r. (q : ℤ) → IsWhole T.Term terms.now
        (length shift.now) q graph.now → IsReading T.Term terms.now (length shift.now) q shift.now r) }
    ensures graph { IfOk result (λ r. r.graph.now ≡ graph.now) }
{
    let z = rest_of(alloc, terms, shift, &graph.bases)?;
    let signs = signs_of(&z);
    let reached = reached_from(&graph.unions, &signs.under);
    let leading = reached_from(&graph.back, &signs.over);
    Ok(Reading {
        graph,
        z,
        signs,
        reached,
        leading,
    })
}
