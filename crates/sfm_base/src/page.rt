// A page takes bytes at its end. Its room is made first, by a call that can be refused, so that what is put in it later
// takes no memory. The room is there as zeros behind the bytes that were put, so a byte is put by one write, which looks for no
// room.
ghost use Rattle.std.specs.Prelude.{◌≡◌, ◌-◌, ◌≤◌, [], ◌∷◌, ◌++◌, length, OnOk, OnErr};
ghost use Rattle.sfm_base.specs.Page.{PageData};

use crate::Memory;
use std::alloc::Global;
use std::marker::Model;

/// Bytes in order, seen as their list and the number of further bytes that there is room for.
#[derive(Drop)]
pub struct Page {
    // The bytes that were put, and zeros behind them.
    room: Vec<u8>,
    // How many bytes were put.
    count: usize,
}

impl Model for Page {
    ghost use Rattle.std.specs.Prelude.{◌-◌, ◌≤◌, length, take};
    ghost use Rattle.sfm_base.specs.Page.{PageData};

    ghost Value = { PageData };

    ghost view = { λ s. record {
      bytes = take s.count s.room.items;
      spare = length s.room.items - s.count;
    } };

    ghost invariant = { λ s. s.count ≤ length s.room.items };
}

impl Page {
    /// No bytes, and no room.
    pub fn new(alloc: Global) -> Page
        ensures { result ≡ record { bytes = []; spare = 0 } }
    {
        Page {
            room: Vec::new(alloc),
            count: 0,
        }
    }

    /// Makes room for k more bytes at least.
    ///
    /// # Errors
    ///
    /// `Memory` where there is none; the page is then as it was.
    pub fn reserve(&mut self, k: usize) -> Result<(), Memory>
        ensures bytes { self.new.bytes ≡ self.old.bytes }
        ensures room { OnOk result (k ≤ self.new.spare) }
        ensures unchanged { OnErr result (self.new ≡ self.old) }
    {
        let spare = self.spare();
        if k > spare {
            let more = k - spare;
            self.room.reserve_exact(more)?;
            self.room.resize(self.room.len() + more, 0)?;
        }
        Ok(())
    }

    /// Puts bytes at the end. It takes no memory.
    pub fn put(&mut self, bytes: &[u8])
        requires { length bytes.now ≤ self.old.spare }
        ensures { self.new ≡ record {
          bytes = self.old.bytes ++ bytes.now;
          spare = self.old.spare - length bytes.now;
        } }
    {
        let end = self.count + bytes.len();
        self.room[self.count..end].copy_from_slice(bytes);
        self.count = end;
    }

    /// Puts one byte at the end. It takes no memory.
    #[inline(always)]
    pub fn put_byte(&mut self, byte: u8)
        requires { 1 ≤ self.old.spare }
        ensures { self.new ≡ record {
          bytes = self.old.bytes ++ byte ∷ [];
          spare = self.old.spare - 1;
        } }
    {
        self.room[self.count] = byte;
        self.count += 1;
    }

    /// How many further bytes there is room for.
    pub fn spare(&self) -> usize
        ensures { result ≡ self.now.spare }
    {
        self.room.len() - self.count
    }

    /// The bytes.
    pub fn bytes(&self) -> &[u8]
        ensures { result.now ≡ self.now.bytes }
    {
        &self.room[..self.count]
    }

    /// The bytes as a list of their own. It takes no memory.
    pub fn into_vec(self) -> Vec<u8>
        ensures { result.items ≡ self.bytes }
    {
        let Self { mut room, count } = self;
        room.truncate(count);
        room
    }
}
