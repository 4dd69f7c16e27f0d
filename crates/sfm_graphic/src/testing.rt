// The tests that tell a base of a graphic term. For each vertex, each edge is a demand that is split over its two ends, which
// hold the same number at most, and that vertex nothing. The tests of the tails are enough: a part of the edges has the tail of
// each of its edges, so the test of that tail asks no less of it than any other. One split is made from nothing, and brought
// from each tail to the next. A part with a tail that was passed asks no more in the tests that come, so that tail may hold as
// much as may be in these: the farther the tests are, the less has to be moved.
ghost use Rattle.std.specs.{Prelude.{◌≡◌, ◌↔◌, ◌<◌, ◌≤◌, [], length, IfOk, IsTrue, OnOk}, List.{All}};
ghost use Rattle.sfm_assign.specs.Splits.{IsAmount, CanBeMet};
ghost use Rattle.sfm_graphic.specs.{Ends.{edges_of}, Notes.{AreEndAmounts, end_demands, AreFreed, IsOverEnds}, Cuts.{IsWithinEnds}, Graphs.{EndsBelow}, Numbered.{IsTail, PassesTails, end_lists, vertex_capacities}};

use crate::graph::Graph;
use sfm_assign::{Demand, Kept};
use sfm_base::Memory;
use sfm_matroid::splits::{can_bring, try_split};
use std::alloc::Global;

/// The most that a vertex may hold.
const MOST_HELD: i128 = 1_000_000_000_000_000_000_000_000;

/// What is tested: entries for the edges of a graph, and a number that vertices hold.
#[derive(Clone, Copy)]
struct Trial<'a> {
    graph: &'a Graph,
    x: &'a [i128],
    most: i128,
}

/// What each of m vertices may hold: a number, and the vertex a nothing.
pub(crate) fn capacities(alloc: Global, m: usize, most: i128, a: usize) -> Result<Vec<i128>, Memory>
    ensures { IfOk result (λ r. r.items ≡ vertex_capacities m most a) }
{
    let mut capacities = vec![in alloc; most; m]?;
    if a < m {
        capacities[a] = 0;
    }
    Ok(capacities)
}

/// Puts the edges as demands that are split over their ends, where there are none before.
fn push_ends(ends: &[(usize, usize)], x: &[i128], demand: &mut Demand) -> Result<(), Memory>
    requires few { length ends.now ≤ 256 }
    requires sized { length x.now ≡ length ends.now }
    requires amounts { All IsAmount x.now }
    requires below { EndsBelow (edges_of ends.now) (length demand.old.capacities) }
    requires none { (demand.old.demands ≡ []) × (demand.old.lists ≡ []) }
    ensures { OnOk result (demand.new ≡ record {
      demands = x.now;
      lists = end_lists (edges_of ends.now);
      capacities = demand.old.capacities;
    }) }
{
    for e in 0..ends.len() {
        let (tail, head) = ends[e];
        demand.push(x[e], &[tail, head])?;
    }
    Ok(())
}

/// The edges as demands that are split over their ends, of which each holds a number, and the vertex a nothing.
pub(crate) fn end_demand(
    alloc: Global,
    graph: &Graph,
    x: &[i128],
    most: i128,
    a: usize,
) -> Result<Demand, Memory>
    requires { AreEndAmounts (edges_of graph.now.ends) most x.now }
    ensures { IfOk result (λ r. r ≡ end_demands (edges_of graph.now.ends) graph.now.vertices
        most x.now a) }
{
    let capacities = capacities(alloc, graph.vertices, most, a)?;
    let edges = x.len();
    let mut demand = Demand::with_room(alloc, &capacities, edges, edges.saturating_mul(2))?;
    push_ends(graph.ends.as_slice(), x, &mut demand)?;
    Ok(demand)
}

/// Brings a split to other amounts, where each vertex holds a number, and the vertex a nothing; false where there is no such
/// split.
pub(crate) fn brought(
    alloc: Global,
    graph: &Graph,
    kept: &mut Kept,
    x: &[i128],
    most: i128,
    a: usize,
) -> Result<bool, Memory>
    requires amounts { AreEndAmounts (edges_of graph.now.ends) most x.now }
    requires over { IsOverEnds (edges_of graph.now.ends) graph.now.vertices kept.old.demand }
    ensures told { IfOk result (λ r. IsTrue r ↔ CanBeMet x.now
        (end_lists (edges_of graph.now.ends)) (vertex_capacities graph.now.vertices most a)) }
    ensures brought { IfOk result (λ r. IsTrue r → kept.new.demand
        ≡ end_demands (edges_of graph.now.ends) graph.now.vertices most x.now a) }
{
    let capacities = capacities(alloc, graph.vertices, most, a)?;
    can_bring(alloc, kept, x, &capacities)
}

/// Whether a vertex is the tail of an edge.
fn is_tail(ends: &[(usize, usize)], a: usize) -> bool
    ensures { IsTrue result ↔ IsTail (edges_of ends.now) a }
{
    for pair in ends {
        if pair.0 == a {
            return true;
        }
    }
    false
}

/// Whether no edges get more than a number for each of their ends but a, if that is a tail: told by a split over the ends,
/// which is brought to where a holds nothing. If so, a holds as much as may be from then on.
fn passes_tail(
    alloc: Global,
    trial: &Trial,
    kept: &mut Kept,
    held: &mut [i128],
    a: usize,
) -> Result<bool, Memory>
    requires amounts { AreEndAmounts (edges_of trial.now.graph.now.ends) trial.now.most
        trial.now.x.now }
    requires vertex { a < trial.now.graph.now.vertices }
    requires over { IsOverEnds (edges_of trial.now.graph.now.ends) trial.now.graph.now.vertices
        kept.old.demand }
    requires held { AreFreed (edges_of trial.now.graph.now.ends) trial.now.graph.now.vertices
        trial.now.most trial.now.x.now held.old }
    ensures told { IfOk result (λ r. IsTrue r ↔ (IsTail (edges_of trial.now.graph.now.ends) a
        → IsWithinEnds (edges_of trial.now.graph.now.ends) trial.now.graph.now.vertices
        trial.now.most trial.now.x.now a)) }
    ensures over { IfOk result (λ r. IsTrue r → IsOverEnds (edges_of trial.now.graph.now.ends)
        trial.now.graph.now.vertices kept.new.demand) }
    ensures held { IfOk result (λ r. IsTrue r → AreFreed (edges_of trial.now.graph.now.ends)
        trial.now.graph.now.vertices trial.now.most trial.now.x.now held.new) }
{
    if !is_tail(trial.graph.ends.as_slice(), a) {
        return Ok(true);
    }
    held[a] = 0;
    if !can_bring(alloc, kept, trial.x, held)? {
        return Ok(false);
    }
    held[a] = MOST_HELD;
    Ok(true)
}

/// Whether no edges get more than a number for each of their ends but one, whichever tail that is: told by a split over the
/// ends, which is brought from each to the next.
fn passes_each(alloc: Global, trial: &Trial, kept: &mut Kept) -> Result<bool, Memory>
    requires amounts { AreEndAmounts (edges_of trial.now.graph.now.ends) trial.now.most
        trial.now.x.now }
    requires over { IsOverEnds (edges_of trial.now.graph.now.ends) trial.now.graph.now.vertices
        kept.old.demand }
    ensures { IfOk result (λ r. IsTrue r ↔ PassesTails (edges_of trial.now.graph.now.ends)
        trial.now.graph.now.vertices trial.now.most trial.now.x.now) }
{
    let mut held = vec![in alloc; trial.most; trial.graph.vertices]?;
    for a in 0..trial.graph.vertices {
        if !passes_tail(alloc, trial, kept, &mut held, a)? {
            return Ok(false);
        }
    }
    Ok(true)
}

/// Whether no edges get more than a number for each of their ends but one, whichever tail that is.
///
/// # Errors
///
/// `Memory` where there is none.
pub(crate) fn passes_tails(
    alloc: Global,
    graph: &Graph,
    x: &[i128],
    most: i128,
) -> Result<bool, Memory>
    requires { AreEndAmounts (edges_of graph.now.ends) most x.now }
    ensures { IfOk result (λ r. IsTrue r ↔ PassesTails
        (edges_of graph.now.ends) graph.now.vertices most x.now) }
{
    let ends = graph.ends.as_slice();
    if ends.is_empty() {
        return Ok(true);
    }
    let first = ends[0].0;
    let demand = end_demand(alloc, graph, x, most, first)?;
    let Some(mut kept) = try_split(alloc, demand)? else {
        return Ok(false);
    };
    let trial = Trial { graph, x, most };
    passes_each(alloc, &trial, &mut kept)
}
