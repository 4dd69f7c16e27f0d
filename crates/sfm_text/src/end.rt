// The first fault of a text, and the end of a reading or a solving that gives no answer.
ghost use Rattle.sfm_text.specs.declared.end.TextEnd.TheVariants.{Memory};
ghost use Rattle.std.specs.Prelude.{◌≡◌};

use sfm_lines::Reason;
use std::alloc::AllocError;
use thiserror::Error;

/// The first fault of a text.
#[derive(Clone, Copy)]
pub struct Fault {
    /// The number of the line, counted from 1.
    pub line: usize,
    /// The first reason that the line has.
    pub reason: Reason,
}

/// Why a text gave no instance or no answer.
#[derive(Clone, Copy, Debug, PartialEq, Eq, Error)]
pub enum TextEnd {
    /// The text has a fault: the first, with its line, counted from 1 (0 is the text as a whole).
    #[error("line {line}: {reason:?}")]
    Refused { line: usize, reason: Reason },
    /// Out of memory.
    #[error("out of memory")]
    Memory,
}

impl From<AllocError> for TextEnd {
    ghost from_gives = { λ _ e. e ≡ Memory };

    fn from(_: AllocError) -> Self {
        TextEnd::Memory
    }
}

impl From<sfm_base::Memory> for TextEnd {
    ghost from_gives = { λ _ e. e ≡ Memory };

    fn from(_: sfm_base::Memory) -> Self {
        TextEnd::Memory
    }
}
