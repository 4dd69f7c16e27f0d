// A generator of numbers: a linear congruential one, modulo 2^64, that gives the top half of its state.
ghost use Rattle.std.specs.Prelude.{◌≡◌, ◌<◌, ℕ};
ghost use Rattle.sfm_demo.specs.Draws.{next, top};

use std::marker::Model;

const FACTOR: u64 = 6_364_136_223_846_793_005;

const SUMMAND: u64 = 1_442_695_040_888_963_407;

/// A generator, seen as its state.
#[derive(Drop)]
pub struct Draws {
    state: u64,
}

impl Model for Draws {
    ghost Value = { ℕ };

    ghost view = { λ s. s.state };
}

impl Draws {
    /// The generator whose state is the seed.
    pub fn new(seed: u64) -> Draws
        ensures { result ≡ seed }
    {
        Draws { state: seed }
    }

    /// A number below k.
    pub fn draw(&mut self, k: u64) -> u64
        requires { 0 < k }
        ensures value { result ≡ top k (next self.old) }
        ensures after { self.new ≡ next self.old }
        ensures below { result < k }
    {
        self.state = self.state.wrapping_mul(FACTOR).wrapping_add(SUMMAND);
        (self.state >> 32) % k
    }
}
