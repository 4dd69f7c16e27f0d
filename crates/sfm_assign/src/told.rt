// What is told of each demand, as far as it was asked for since the split changed. Few are asked for, so those of which something is
// told are listed, and a change of the split forgets these alone.
ghost use Rattle.std.specs.Prelude.{◌≡◌, ℕ, ◌<◌, ◌≤◌, [], length, slice_set, IsTrue, OnOk, OnErr, Some, None};
ghost use Rattle.sfm_assign.specs.Spread.{answer_at, IsKnown};

use crate::spread::{Answer, Spread};
use sfm_base::Memory;
use std::alloc::Global;
use std::marker::Model;

/// What is told of each demand, seen as a list: None where nothing is.
#[derive(Drop)]
pub(crate) struct Told {
    answers: Vec<Option<Answer>>,
    /// The demands of which something is told.
    known: Vec<usize>,
}

impl Model for Told {
    ghost use Rattle.std.specs.Prelude.{List, Option};
    ghost use Rattle.sfm_assign.specs.{declared.spread.Answer.{Answer}, Spread.{AreListed}};

    ghost Value = { List (Option Answer) };

    ghost view = { λ s. s.answers.items };

    ghost invariant = { λ s. AreListed s.answers.items s.known.items };
}

/// Forgets an answer, and keeps the memory of its set.
fn forget_one(answer: &mut Option<Answer>, search: &mut Spread)
    ensures { answer.new ≡ None }
{
    if let Some(Answer::Full(set)) = answer.take() {
        search.put_aside(set);
    }
}

impl Told {
    /// Room for what is told of no demands.
    pub(crate) fn new(alloc: Global) -> Told
        ensures { result ≡ [] }
    {
        Told {
            answers: Vec::new(alloc),
            known: Vec::new(alloc),
        }
    }

    /// What is told, in the order of the demands.
    pub(crate) fn as_slice(&self) -> &[Option<Answer>]
        ensures { result.now ≡ self.now }
    {
        self.answers.as_slice()
    }

    /// Whether something is told of the demand u.
    pub(crate) fn knows(&self, u: usize) -> bool
        requires { u < length self.now }
        ensures { IsTrue result → IsKnown self.now u }
    {
        self.answers[u].is_some()
    }

    /// Makes room for what is told of n demands, of which nothing new is told.
    pub(crate) fn make_room(&mut self, n: usize) -> Result<(), Memory>
        requires { length self.old ≤ n }
        ensures within { length self.new ≤ n }
        ensures same { (u : ℕ) → answer_at self.new u ≡ answer_at self.old u }
        ensures places { OnOk result (length self.new ≡ n) }
    {
        self.answers.reserve(n - self.answers.len())?;
        for _ in self.answers.len()..n {
            self.answers.push(None)?;
        }
        Ok(())
    }

    /// Tells the answer for the demand u.
    pub(crate) fn tell(&mut self, u: usize, answer: Answer) -> Result<(), Memory>
        requires { u < length self.old }
        ensures told { OnOk result (self.new ≡ slice_set self.old u (Some answer)) }
        ensures unchanged { OnErr result (self.new ≡ self.old) }
    {
        self.known.push(u)?;
        self.answers[u] = Some(answer);
        Ok(())
    }

    /// Forgets what was told, as the split changes, and keeps the memory of the sets.
    pub(crate) fn forget(&mut self, search: &mut Spread)
        ensures same { length self.new ≡ length self.old }
        ensures none { (u : ℕ) → answer_at self.new u ≡ None }
    {
        for k in 0..self.known.len() {
            let u = self.known[k];
            forget_one(&mut self.answers[u], search);
        }
        self.known.clear();
    }
}
