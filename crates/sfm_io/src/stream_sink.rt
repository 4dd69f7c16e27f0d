// A sink over a writer of the system. It tells nothing of the bytes: only its count of faults is known.
// What the system does with the bytes is taken on trust, so there is no more here than a call and a count.
ghost use Rattle.std.specs.Prelude.{◌≡◌, is_ok, if◌then◌else◌};
ghost use Rattle.sfm_io.specs.{Faults.{counted}, Sink.{Writes, untold_state}};

use crate::calls::Faults;
use crate::{Failed, Sink};
use std::io::Write;
use std::marker::Model;

/// A writer of the system.
#[derive(Drop)]
pub struct StreamSink<W: Write + Drop> {
    writer: W,
    faults: Faults,
}

impl<W: Write + Drop> Model for StreamSink<W> {
    ghost use Rattle.std.specs.Prelude.{ℕ};

    ghost Value = { ℕ };

    ghost view = { λ s. s.faults };
}

impl<W: Write + Drop> StreamSink<W> {
    /// A sink with no fault so far.
    pub fn new(writer: W) -> StreamSink<W>
        ensures { result ≡ 0 }
    {
        StreamSink {
            writer,
            faults: Faults::new(),
        }
    }
}

impl<W: Write + Drop> Sink for StreamSink<W> {
    ghost state = { untold_state };

    /// A fault of the system, whatever its cause, is counted, and so is a write that takes no byte of a piece that is
    /// not empty.
    fn write(&mut self, piece: &[u8]) -> Result<usize, Failed>
        ensures writes { Writes (untold_state self.old) piece.now result (untold_state self.new) }
        ensures counts { self.new ≡ (if is_ok result then self.old else counted self.old) }
    {
        if piece.is_empty() {
            return Ok(0);
        }
        match self.writer.write(piece) {
            Ok(count) if count > 0 => Ok(count),
            _ => {
                self.faults.raise();
                Err(Failed)
            }
        }
    }
}
