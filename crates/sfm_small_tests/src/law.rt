// A walk is seen as the list of its steps.
use sfm_base::Memory;
use sfm_law::{Walk, WalkSteps};
use std::alloc::Global;

/// The steps of a walk.
const STEPS: [(usize, usize); 2] = [(1, 0), (2, 3)];

/// The walk of these steps.
fn walk_of(alloc: Global, list: &[(usize, usize)]) -> Result<Walk, Memory> {
    let mut steps = WalkSteps::new(alloc);
    for (to, term) in list {
        steps.push(*to, *term)?;
    }
    Ok(Walk { first: 0, steps })
}

/// Whether a walk has these steps.
fn has_steps(walk: &Walk, steps: &[(usize, usize)]) -> bool {
    walk.first == 0 && walk.steps.len() == steps.len() && walk.steps.as_slice() == steps
}

/// Whether a walk keeps its steps.
fn keeps_steps(alloc: Global) -> bool {
    match walk_of(alloc, &STEPS) {
        Ok(walk) => has_steps(&walk, &STEPS),
        Err(_) => false,
    }
}

#[test]
fn walk_keeps_its_steps(rt: HostRuntime) {
    assert!(rt; keeps_steps(rt.alloc()));
}
