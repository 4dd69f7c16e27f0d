// The walk that comes next: one of least steps from the first place that a search finds. No walk from there to a place with
// z > 0 has fewer steps, and each step is the least of those that lead on. The search takes the rows that are claimed as they
// are: they lack no step, so where all steps of its walk are true ones, it is such a walk, and where it finds none, none joins.
// Each walk that is refused leaves fewer rows claimed. The levels of the walk before are tried first.
ghost use Rattle.std.specs.Prelude.{length, IfOk};
ghost use Rattle.sfm_spec.specs.Families.{meanings};
ghost use Rattle.sfm_walk.specs.{Labels.{AreLabels}, Run.{IsRunning, IsSearched}};

use crate::labels::kept_walk;
use crate::run::Run;
use sfm_base::Memory;
use sfm_exchange::{Graph, find_levels, follow, prove_walk};
use sfm_law::Term;
use std::alloc::Global;

/// Finds the next walk; false where none joins. The bases stay.
pub fn next_walk<T: Term>(
    alloc: Global,
    graph: &mut Graph<T::Note>,
    terms: &[T],
    q: i128,
    _shift: &[i128],
    run: &mut Run,
) -> Result<bool, Memory>
    requires running { IsRunning T.Term terms.now q _shift.now graph.old run.old }
    requires labels { AreLabels (meanings T.places T.value_of terms.now)
        (length _shift.now) q _shift.now graph.old.bases run.old.levels.items }
    ensures { IfOk result (IsSearched T.Term terms.now q _shift.now graph.old graph.new run.new) }
{
    if kept_walk(alloc, graph, terms, q, _shift, run)? {
        return Ok(true);
    }
    searched_walk(alloc, graph, terms, q, _shift, run)
}

/// Finds a walk by a search; false where none joins. The bases stay.
pub(crate) fn searched_walk<T: Term>(
    alloc: Global,
    graph: &mut Graph<T::Note>,
    terms: &[T],
    q: i128,
    _shift: &[i128],
    run: &mut Run,
) -> Result<bool, Memory>
    requires { IsRunning T.Term terms.now q _shift.now graph.old run.old }
    ensures { IfOk result (IsSearched T.Term terms.now q _shift.now graph.old graph.new run.new) }
{
    while let Some(first) = find_levels(
        &graph.back,
        &graph.unions,
        &run.z,
        &run.signs,
        &mut run.levels,
    )? {
        run.path.first = first;
        follow(terms, graph, &run.z, &run.levels, first, &mut run.path.hops)?;
        let proved = prove_walk(alloc, graph, terms, q, &run.path.hops)?;
        if proved {
            return Ok(true);
        }
    }
    Ok(false)
}
