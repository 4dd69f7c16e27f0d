// A walk with fewest steps to any of some places. At a shift at which z is 1 at these places, -1 at the place to begin at and 0
// elsewhere, the walks that join are the ones that are sought, and the next walk that is found is a shortest one.
ghost use Rattle.std.specs.{Prelude.{◌≡◌, ◌<◌, List, map, length, IfOk, MatchOption}, List.{All}};
ghost use Rattle.sfm_spec.specs.{Sets.{Has}, Bounds.{AreBounded, IsEntry, IsFactor}, Families.{meanings, AreBases}, Walks.{Step, IsWalk, IsShortestTo, last_of}};
ghost use Rattle.sfm_walk.specs.Marks.{marks_of};

use crate::run::run_at;
use crate::walk::searched_walk;
use sfm_base::{Memory, Rows, Set};
use sfm_exchange::{graph_at, steps_along};
use sfm_law::{Term, Walk, rest_of};
use std::alloc::Global;

/// A walk with fewest steps from a place to any of some others, at bases of q times the terms; None where no walk leads from
/// it to one of them. The set of the others is one of the ground, and has not the place itself.
///
/// # Errors
///
/// `Memory` where there is none.
pub fn shortest<T: Term>(
    alloc: Global,
    terms: &[T],
    q: i128,
    bases: &Rows,
    from: usize,
    to: &Set,
) -> Result<Option<Walk>, Memory>
    requires bounded { AreBounded (length to.now) (map T.places terms.now)
        (map T.size_of terms.now) }
    requires factor { IsFactor q }
    requires bases { AreBases q (meanings T.places T.value_of terms.now) bases.now }
    requires small { All (λ x. All IsEntry x) bases.now }
    requires from { from < length to.now }
    requires apart { Has to.now from → ⊥ }
    ensures { IfOk result (λ r. MatchOption r ((steps : List Step)
        → IsWalk (meanings T.places T.value_of terms.now) q bases.now from steps
        → Has to.now (last_of from steps) → ⊥)
        (λ w. (w.first ≡ from) × IsShortestTo (meanings T.places T.value_of terms.now) q
        bases.now (Has to.now) from w.steps)) }
{
    let z = marks(alloc, to, from)?;
    let shift = rest_of(alloc, terms, &z, bases)?;
    let copied = bases.copy(alloc)?;
    let mut graph = graph_at(alloc, terms, to.len(), q, copied)?;
    let mut run = run_at(alloc, z);
    if !searched_walk(alloc, &mut graph, terms, q, &shift, &mut run)? {
        return Ok(None);
    }
    let first = run.path.first;
    let steps = steps_along(alloc, &run.path.hops)?;
    Ok(Some(Walk { first, steps }))
}

// 1 at the places of a set, -1 at another place, and 0 elsewhere.
fn marks(alloc: Global, to: &Set, from: usize) -> Result<Vec<i128>, Memory>
    requires { from < length to.now }
    ensures { IfOk result (λ z. z.items ≡ marks_of to.now from) }
{
    let mut z = Vec::new(alloc);
    for e in 0..to.len() {
        z.push(if to.contains(e) { 1 } else { 0 })?;
    }
    z[from] = -1;
    Ok(z)
}
