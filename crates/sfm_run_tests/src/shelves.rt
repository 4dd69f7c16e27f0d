// A shelf over memory that is watched: it gives 1, 2 and 3 bytes in turn, and keeps whether the second file was asked for.
ghost use Rattle.sfm_io.specs.Shelf.{Opens, Reads, untold_state};
ghost use Rattle.std.proofs.Common.{rules};

use crate::cases::{SOUND, shelf_of};
use sfm_base::Memory;
use sfm_io::{Failed, MemoryShelf, Shelf};
use std::alloc::Global;

/// The files `first` and `second`, read in small pieces of changing size.
#[derive(Drop)]
pub struct WatchedShelf {
    shelf: MemoryShelf,
    turn: usize,
    /// Whether the file `second` was asked for.
    pub second: bool,
}

impl WatchedShelf {
    pub fn new(alloc: Global, first: &[u8], second: &[u8]) -> Result<WatchedShelf, Memory> {
        Ok(WatchedShelf {
            shelf: shelf_of(alloc, first, second, &SOUND)?,
            turn: 0,
            second: false,
        })
    }
}

impl Shelf for WatchedShelf {
    ghost state = { λ s. untold_state (s.shelf.faults, s.shelf.asked) };

    fn open(&mut self, name: &str) -> Result<(), Failed> {
        self.second = self.second || name == "second";
        self.shelf.open(name)
    }

    fn read(&mut self, buf: &mut [u8]) -> Result<usize, Failed> {
        self.turn = self.turn % 3 + 1;
        let most = self.turn.min(buf.len());
        self.shelf.read(&mut buf[..most])
    }

    ghost sound_is_told = { λ s told. Prim.search rules };

    ghost texts_tell_rest = { λ s told. Prim.search rules };
}
