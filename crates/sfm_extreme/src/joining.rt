// A walk that joins. A search backwards from the places with z > 0 finds, level by level, the places from which a walk leads
// to one of them, up to the first level that has a place with z < 0. From there a shortest walk is taken, by least steps.
ghost use Rattle.std.specs.Prelude.{◌≡◌, ℕ, List, length, IfOk, MatchOption};
ghost use Rattle.sfm_spec.specs.{Families.{meanings}, Walks.{Step, Joins}};
ghost use Rattle.sfm_exchange.specs.Hops.{steps_of};
ghost use Rattle.sfm_extreme.specs.Reading.{IsReading};

use crate::reading::Reading;
use sfm_base::Memory;
use sfm_exchange::{Hop, find_levels, follow};
use sfm_law::{Term, Walk, WalkSteps};
use std::alloc::Global;

/// A walk that joins at the bases that were read; None where none does.
///
/// # Errors
///
/// `Memory` where there is none.
pub fn joining_walk<T: Term>(
    alloc: Global,
    terms: &[T],
    _q: i128,
    _shift: &[i128],
    reading: &Reading<'_, T::Note>,
) -> Result<Option<Walk>, Memory>
    requires { IsReading T.Term terms.now (length _shift.now) _q _shift.now reading.now }
    ensures { IfOk result (λ r. MatchOption r ((first : ℕ) (steps : List Step)
        → Joins (meanings T.places T.value_of terms.now) _q _shift.now reading.now.graph.now.bases first
        steps → ⊥)
        (λ w. Joins (meanings T.places T.value_of terms.now) _q _shift.now reading.now.graph.now.bases
        w.first w.steps)) }
{
    let graph = reading.graph;
    let mut levels = Vec::new(alloc);
    let found = find_levels(
        &graph.back,
        &graph.unions,
        &reading.z,
        &reading.signs,
        &mut levels,
    )?;
    match found {
        Some(first) => {
            let mut hops = Vec::new(alloc);
            follow(terms, graph, &reading.z, &levels, first, &mut hops)?;
            let steps = steps_along(alloc, &hops)?;
            Ok(Some(Walk { first, steps }))
        }
        None => Ok(None),
    }
}

// The steps of a walk, without their places in the terms.
fn steps_along(alloc: Global, hops: &[Hop]) -> Result<WalkSteps, Memory>
    ensures { IfOk result (λ r. r ≡ steps_of hops.now) }
{
    let mut steps = WalkSteps::new(alloc);
    for hop in hops {
        steps.push(hop.to, hop.term)?;
    }
    Ok(steps)
}
