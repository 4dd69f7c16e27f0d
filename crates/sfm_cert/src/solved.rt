// What an answer text says, and the end of the reading of a text that is none.
ghost use Rattle.std.specs.Prelude.{◌≡◌};
ghost use Rattle.sfm_cert.specs.declared.solved.AnswerEnd.TheVariants.{Memory};

use sfm_base::{Rows, Set};
use sfm_extreme::Block;
use sfm_law::Break;
use std::alloc::{AllocError, AllocFailed};

/// What an answer text says.
pub struct Solved {
    /// The least value of the sum.
    pub value: i128,
    /// The least minimiser.
    pub least: Set,
    /// The greatest minimiser.
    pub greatest: Set,
    /// The blocks that generate all minimisers.
    pub blocks: Vec<Block>,
    /// One base per term, which prove the minimum.
    pub bases: Rows,
    /// The slopes with two or more minimisers, each with its greatest one and bases that prove there.
    pub breaks: Vec<Break>,
}

// Written out, so that letting one go is one step, which is proved here once.
impl Drop for Solved {
    fn drop(self) {
        let Self {
            value: _,
            least: _,
            greatest: _,
            blocks: _,
            bases: _,
            breaks: _,
        } = self;
    }
}

/// Why a text gave no answer.
#[derive(Clone, Copy, Debug, PartialEq, Eq)]
pub enum AnswerEnd {
    /// The first line, counted from 1, that is not of the grammar at its place.
    BadLine { line: usize },
    /// Memory was wanting.
    Memory,
}

impl From<AllocError> for AnswerEnd {
    ghost from_gives = { λ _ e. e ≡ Memory };

    fn from(_: AllocError) -> Self {
        AnswerEnd::Memory
    }
}

impl<T: Drop> From<AllocFailed<T>> for AnswerEnd {
    ghost from_gives = { λ _ e. e ≡ Memory };

    fn from(_: AllocFailed<T>) -> Self {
        AnswerEnd::Memory
    }
}

impl From<sfm_base::Memory> for AnswerEnd {
    ghost from_gives = { λ _ e. e ≡ Memory };

    fn from(_: sfm_base::Memory) -> Self {
        AnswerEnd::Memory
    }
}
