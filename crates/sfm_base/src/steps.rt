// A counter of steps. It begins at 0 and only `tick` moves it, so what it tells is how often that was called.
ghost use Rattle.std.specs.Prelude.{◌≡◌, ℕ, ◌+◌, ◌-◌, ◌<◌, ◌^◌};

use std::marker::Model;

/// A count of steps, seen as a number.
#[derive(Drop)]
pub struct Steps {
    taken: u64,
}

impl Model for Steps {
    ghost Value = { ℕ };

    ghost view = { λ s. s.taken };
}

impl Steps {
    /// No step.
    pub fn new() -> Steps
        ensures { result ≡ 0 }
    {
        Steps { taken: 0 }
    }

    /// Counts one more step.
    pub fn tick(&mut self)
        requires { self.old < 2 ^ 64 - 1 }
        ensures { self.new ≡ self.old + 1 }
    {
        self.taken += 1;
    }

    /// How many steps there were.
    pub fn count(&self) -> u64
        ensures { result ≡ self.now }
    {
        self.taken
    }
}
