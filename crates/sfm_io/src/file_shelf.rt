// A shelf over the files of the system. It tells nothing of their bytes: only its count of faults and the names that it was
// asked for are known.
// What the system does with the bytes is taken on trust, so there is no more here than a call and a count.
ghost use Rattle.std.specs.Prelude.{◌≡◌, ◌++◌, ◌∷◌, [], is_ok, if◌then◌else◌};
ghost use Rattle.sfm_io.specs.{Faults.{counted}, Shelf.{Opens, Reads, untold_state}};
ghost use Rattle.std.proofs.Common.{rules};

use crate::asked::Asked;
use crate::calls::Faults;
use crate::{Failed, Shelf};
use std::fs;
use std::io::Read;
use std::marker::Model;
use std::rt::Files;

/// Files, opened by their paths.
#[derive(Drop)]
pub struct FileShelf<'a, R: Files> {
    files: &'a R,
    open: Option<R::File>,
    faults: Faults,
    asked: Asked,
}

impl<'a, R: Files> Model for FileShelf<'a, R> {
    ghost use Rattle.std.specs.Prelude.{ℕ, List};

    ghost Value = { ℕ × List (List ℕ) };

    ghost view = { λ s. (s.faults, s.asked.names) };
}

impl<'a, R: Files> FileShelf<'a, R> {
    /// A shelf with nothing open and no fault so far.
    pub fn new(files: &'a R) -> FileShelf<'a, R>
        ensures { result ≡ (0, []) }
    {
        FileShelf {
            files,
            open: None,
            faults: Faults::new(),
            asked: Asked::new(),
        }
    }
}

impl<'a, R: Files> Shelf for FileShelf<'a, R> {
    ghost state = { untold_state };

    /// A fault of the system, whatever its cause, is counted.
    fn open(&mut self, name: &str) -> Result<(), Failed>
        ensures opens { Opens (untold_state self.old) name.now result (untold_state self.new) }
        ensures counts { self.new ≡ (
          if is_ok result then self.old.0 else counted self.old.0,
          self.old.1 ++ name.now ∷ [],
        ) }
    {
        self.asked = self.asked.and(name);
        self.open = None;
        match fs::open(self.files, name) {
            Ok(file) => {
                self.open = Some(file);
                Ok(())
            }
            Err(_) => {
                self.faults.raise();
                Err(Failed)
            }
        }
    }

    /// A fault of the system, whatever its cause, is counted.
    fn read(&mut self, buf: &mut [u8]) -> Result<usize, Failed>
        ensures reads { Reads (untold_state self.old) result buf.new (untold_state self.new) }
        ensures counts { self.new ≡ (
          if is_ok result then self.old.0 else counted self.old.0,
          self.old.1,
        ) }
    {
        let Some(file) = &mut self.open else {
            return Ok(0);
        };
        match file.read(buf) {
            Ok(count) => Ok(count),
            Err(_) => {
                self.faults.raise();
                Err(Failed)
            }
        }
    }

    ghost sound_is_told = { λ s told. Prim.search rules };

    ghost texts_tell_rest = { λ s told. Prim.search rules };
}
