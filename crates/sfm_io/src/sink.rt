// A sink that takes bytes, piece by piece. What it has taken so far is told or not, as with a shelf. A write that
// takes nothing of a piece is a fault, so that writing whole ends.
ghost use Rattle.sfm_io.specs.Sink.{SinkState, Writes};

use crate::Failed;

/// Takes bytes, in order.
pub trait Sink {
    /// All bytes taken so far, where they are told, and the count of faults.
    ghost state: { Self → SinkState };

    /// Takes a front of the piece and tells its length, at least 1 byte of a piece that is not empty.
    fn write(&mut self, piece: &[u8]) -> Result<usize, Failed>
        ensures { Writes (state self.old) piece.now result (state self.new) };
}
