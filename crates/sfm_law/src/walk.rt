// Walks of exchanges over the places of the ground, as the searches answer them.
ghost use Rattle.std.specs.Prelude.{◌≡◌, List, [], ◌∷◌, ◌++◌, length, map, if◌then◌else◌, is_ok, IfOk};
ghost use Rattle.sfm_law.specs.Walk.{step_of};

use sfm_base::Memory;
use std::alloc::Global;
use std::marker::Model;

/// The steps of a walk, each the place at which it ends and its term, seen as a list of steps.
#[derive(Drop)]
pub struct WalkSteps {
    steps: Vec<(usize, usize)>,
}

impl Model for WalkSteps {
    ghost use Rattle.std.specs.Prelude.{List, map};
    ghost use Rattle.sfm_spec.specs.Walks.{Step};
    ghost use Rattle.sfm_law.specs.Walk.{step_of};

    ghost Value = { List Step };

    ghost view = { λ s. map step_of s.steps.items };
}

impl WalkSteps {
    /// No steps.
    pub fn new(alloc: Global) -> WalkSteps
        ensures { result ≡ [] }
    {
        WalkSteps {
            steps: Vec::new(alloc),
        }
    }

    /// Puts a step behind the others: the place at which it ends, and its term.
    pub fn push(&mut self, to: usize, term: usize) -> Result<(), Memory>
        ensures { self.new ≡ (if is_ok result then self.old ++ record {
          to = to;
          term = term;
        } ∷ [] else self.old) }
    {
        self.steps.push((to, term))?;
        Ok(())
    }

    /// How many steps there are.
    pub fn len(&self) -> usize
        ensures { result ≡ length self.now }
    {
        self.steps.len()
    }

    /// The steps as pairs of the place at which each ends and its term.
    pub fn as_slice(&self) -> &[(usize, usize)]
        ensures { map step_of result.now ≡ self.now }
    {
        self.steps.as_slice()
    }
}

/// A walk: the place at which it begins, and its steps, each beginning where the one before ends.
#[derive(Drop)]
pub struct Walk {
    pub first: usize,
    pub steps: WalkSteps,
}
