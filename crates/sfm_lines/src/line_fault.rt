// The end of the reading of a line that is not taken.
ghost use Rattle.sfm_lines.specs.declared.line_fault.LineEnd.TheVariants.{Memory};
ghost use Rattle.std.specs.Prelude.{◌≡◌};

use crate::reason::Reason;
use std::alloc::AllocError;

/// Why a line was not taken.
#[derive(Clone, Copy, Debug, PartialEq, Eq)]
pub enum LineEnd {
    /// The first reason that the line has.
    Fault(Reason),
    /// Memory was wanting.
    Memory,
}

impl From<AllocError> for LineEnd {
    ghost from_gives = { λ _ e. e ≡ Memory };

    fn from(_: AllocError) -> Self {
        LineEnd::Memory
    }
}

impl From<sfm_base::Memory> for LineEnd {
    ghost from_gives = { λ _ e. e ≡ Memory };

    fn from(_: sfm_base::Memory) -> Self {
        LineEnd::Memory
    }
}
