// Reading an instance from the shelf: each piece is fed to a reader as it comes, so the text is nowhere kept whole.
ghost use Rattle.std.specs.Prelude.{◌≡◌, ◌<◌, ℕ, List, [], ◌∷◌, ◌++◌, length, vec_len, IfOk, IfErr, OnOk};
ghost use Rattle.sfm_text.specs.Standing.{Stands};
ghost use Rattle.sfm_io.specs.Shelf.{KeepsShelf};
ghost use Rattle.sfm_due.specs.Feeding.{FeedsOn, FeedsOpen, FeedsText};

use crate::status::Status;
use sfm_io::Shelf;
use sfm_text::{Reader, TEXT_LIMIT};
use std::alloc::Global;

/// The most bytes of one read.
const PIECE: usize = 65_536;

/// Feeds a reader with bytes, and tells how many they are.
fn pass_on(alloc: Global, reader: &mut Reader, bytes: &[u8]) -> Result<usize, Status>
    ensures count { IfOk result (λ count. count ≡ length bytes.now) }
    ensures stands { OnOk result ((text : List ℕ) → Stands reader.old text
        → Stands reader.new (text ++ bytes.now)) }
    ensures wanting { IfErr result (λ status. status ≡ Status.Memory) }
{
    match reader.feed(alloc, bytes) {
        Ok(()) => Ok(bytes.len()),
        Err(_) => Err(Status::Memory),
    }
}

/// Reads once, and feeds the bytes that came. Tells how many they are, none only at the end.
fn feed_on<S: Shelf>(
    alloc: Global,
    shelf: &mut S,
    reader: &mut Reader,
    buffer: &mut [u8],
) -> Result<usize, Status>
    requires { 0 < length buffer.old }
    ensures { FeedsOn (S.state shelf.old) reader.old (length buffer.old) result reader.new
        (S.state shelf.new) }
{
    match shelf.read(buffer) {
        Ok(count) => pass_on(alloc, reader, &buffer[..count]),
        Err(_) => Err(Status::ReadFault),
    }
}

/// A reader that nothing has been fed to.
fn start(alloc: Global) -> Result<Reader, Status>
    ensures stands { IfOk result (λ reader. Stands reader []) }
    ensures wanting { IfErr result (λ status. status ≡ Status.Memory) }
{
    match Reader::new(alloc) {
        Ok(reader) => Ok(reader),
        Err(_) => Err(Status::Memory),
    }
}

/// Room for one piece.
fn room(alloc: Global) -> Result<Vec<u8>, Status>
    ensures piece { IfOk result (λ buffer. vec_len buffer ≡ 65536) }
    ensures wanting { IfErr result (λ status. status ≡ Status.Memory) }
{
    match vec![in alloc; 0u8; PIECE] {
        Ok(buffer) => Ok(buffer),
        Err(_) => Err(Status::Memory),
    }
}

/// Feeds a reader with the rest of the open text, or with what comes up to one byte past the limit.
fn feed_open<S: Shelf>(alloc: Global, shelf: &mut S) -> Result<Reader, Status>
    ensures kept { KeepsShelf [] (S.state shelf.old) (S.state shelf.new) }
    ensures read { FeedsOpen (S.state shelf.old) (S.state shelf.new) result }
{
    let mut buffer = room(alloc)?;
    let mut reader = start(alloc)?;
    let mut done = 0;
    while done <= TEXT_LIMIT {
        let most = (TEXT_LIMIT - done).min(PIECE - 1) + 1;
        let count = feed_on(alloc, shelf, &mut reader, &mut buffer[..most])?;
        if count == 0 {
            return Ok(reader);
        }
        done += count;
    }
    Ok(reader)
}

/// Feeds a reader with the text of a file; else the status that says why there is none.
pub fn feed_text<S: Shelf>(alloc: Global, shelf: &mut S, name: &str) -> Result<Reader, Status>
    ensures kept { KeepsShelf (name.now ∷ []) (S.state shelf.old) (S.state shelf.new) }
    ensures read { FeedsText name.now (S.state shelf.old) (S.state shelf.new) result }
{
    match shelf.open(name) {
        Ok(()) => feed_open(alloc, shelf),
        Err(_) => Err(Status::ReadFault),
    }
}
