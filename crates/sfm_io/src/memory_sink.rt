// A sink over memory. Its room is made once, so a write takes no memory, and it fails at the calls that it was told to
// fail at and where its room is used up. The room left and the bytes taken never exceed what was reserved.
ghost use Rattle.std.specs.Prelude.{◌≡◌, ◌≤◌, [], IfOk};
ghost use Rattle.sfm_io.specs.{Sink.{Writes}, HeldSink.{WritesHeld, state_of}};

use crate::calls::Calls;
use crate::{Failed, Sink};
use sfm_base::Memory;
use std::alloc::Global;
use std::marker::Model;

/// Takes bytes into memory, in pieces.
#[derive(Drop)]
pub struct MemorySink {
    bytes: Vec<u8>,
    room: usize,
    piece: usize,
    calls: Calls,
}

impl Model for MemorySink {
    ghost use Rattle.std.specs.Prelude.{◌+◌, ◌≤◌, vec_len, vec_capacity};
    ghost use Rattle.sfm_io.specs.HeldSink.{HeldSink};

    ghost Value = { HeldSink };

    ghost view = { λ s. record {
      written = s.bytes.items;
      faults = s.calls.faults;
      calls = s.calls.made;
      piece = s.piece;
      room = s.room;
      failing = s.calls.failing;
    } };

    ghost invariant = { λ s. (vec_len s.bytes + s.room ≤ vec_capacity s.bytes) × (1 ≤ s.piece) };
}

impl MemorySink {
    /// An empty sink with room for `room` bytes. A write takes at most `piece` of them. `failing` lists the calls that
    /// fail, numbered from 1; a write of no bytes is not counted.
    pub fn new(
        alloc: Global,
        room: usize,
        piece: usize,
        failing: &[usize],
    ) -> Result<MemorySink, Memory>
        requires { 1 ≤ piece }
        ensures { IfOk result (λ s. s ≡ record {
          written = [];
          faults = 0;
          calls = 0;
          piece = piece;
          room = room;
          failing = failing.now;
        }) }
    {
        let calls = Calls::new(alloc, failing)?;
        let bytes = Vec::with_capacity(alloc, room)?;
        Ok(MemorySink {
            bytes,
            room,
            piece,
            calls,
        })
    }

    /// All bytes taken so far.
    pub fn taken(&self) -> &[u8]
        ensures { result.now ≡ self.now.written }
    {
        self.bytes.as_slice()
    }
}

impl Sink for MemorySink {
    ghost state = { state_of };

    /// Of a piece that is not empty it fails exactly at a listed call or with no room left.
    fn write(&mut self, piece: &[u8]) -> Result<usize, Failed>
        ensures exact { WritesHeld self.old piece.now result self.new }
        ensures writes { Writes (state_of self.old) piece.now result (state_of self.new) }
    {
        if piece.is_empty() {
            return Ok(0);
        }
        self.calls.make()?;
        if self.room == 0 {
            return Err(self.calls.fail());
        }
        let count = self.piece.min(piece.len()).min(self.room);
        self.bytes.extend_from_slice(&piece[..count]).unwrap();
        self.room -= count;
        Ok(count)
    }
}
