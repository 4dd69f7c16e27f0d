// Reading a file whole from the shelf, up to a limit.
ghost use Rattle.std.specs.Prelude.{[], ◌∷◌};
ghost use Rattle.sfm_io.specs.Shelf.{KeepsShelf};
ghost use Rattle.sfm_due.specs.Files.{ReadsOpen, ReadsText};

use crate::status::Status;
use sfm_io::{ReadEnd, Shelf, read_all};
use std::alloc::Global;

/// The rest of the open text, or None where it is longer than the limit.
fn read_open<S: Shelf>(
    alloc: Global,
    shelf: &mut S,
    limit: usize,
) -> Result<Option<Vec<u8>>, Status>
    ensures kept { KeepsShelf [] (S.state shelf.old) (S.state shelf.new) }
    ensures read { ReadsOpen limit (S.state shelf.old) (S.state shelf.new) result }
{
    match read_all(alloc, shelf, limit) {
        Ok(text) => Ok(Some(text)),
        Err(ReadEnd::Long) => Ok(None),
        Err(ReadEnd::Fault) => Err(Status::ReadFault),
        Err(ReadEnd::Memory) => Err(Status::Memory),
    }
}

/// The text of a file, or None where it is longer than the limit; else the status that says why there is none.
pub fn read_text<S: Shelf>(
    alloc: Global,
    shelf: &mut S,
    name: &str,
    limit: usize,
) -> Result<Option<Vec<u8>>, Status>
    ensures kept { KeepsShelf (name.now ∷ []) (S.state shelf.old) (S.state shelf.new) }
    ensures read { ReadsText limit name.now (S.state shelf.old) (S.state shelf.new) result }
{
    match shelf.open(name) {
        Ok(()) => read_open(alloc, shelf, limit),
        Err(_) => Err(Status::ReadFault),
    }
}
