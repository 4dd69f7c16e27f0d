// Reads the open text of a shelf to its end, and writes bytes whole. Each turn takes at least one byte, or finds that
// none is left, so both end whatever the shelf or the sink does.
ghost use Rattle.std.specs.Prelude.{◌≡◌, ◌<◌, ◌≤◌, [], length, IfOk, IfErr};
ghost use Rattle.sfm_io.specs.{Shelf.{KeepsShelf}, Transfer.{IsRest, IsCause, ReadsOn, WritesAll}, declared.transfer.ReadEnd.TheVariants.{Fault, Memory}};

use crate::{Failed, Shelf, Sink};
use std::alloc::{AllocError, Global};
use thiserror::Error;

/// Why a text was not read to its end.
#[derive(Clone, Copy, Debug, PartialEq, Eq, Error)]
pub enum ReadEnd {
    #[error("reading failed")]
    Fault,
    #[error("the text is too long")]
    Long,
    #[error("out of memory")]
    Memory,
}

impl From<AllocError> for ReadEnd {
    ghost from_gives = { λ _ end. end ≡ Memory };

    fn from(_: AllocError) -> ReadEnd {
        ReadEnd::Memory
    }
}

impl From<Failed> for ReadEnd {
    ghost from_gives = { λ _ end. end ≡ Fault };

    fn from(_: Failed) -> ReadEnd {
        ReadEnd::Fault
    }
}

/// The most bytes of one read.
const PIECE: usize = 65_536;

/// Reads once, and puts the bytes behind those that are there. Tells how many came, none only at the end.
fn read_on<S: Shelf>(
    shelf: &mut S,
    bytes: &mut Vec<u8>,
    buffer: &mut [u8],
) -> Result<usize, ReadEnd>
    requires { 0 < length buffer.old }
    ensures { ReadsOn (S.state shelf.old) bytes.old.items (length buffer.old) result bytes.new.items
        (S.state shelf.new) }
{
    let count = shelf.read(buffer)?;
    bytes.extend_from_slice(&buffer[..count])?;
    Ok(count)
}

/// Reads what is left of the open text, which is to be at most `limit` bytes. It stops at one byte more.
/// After a fault or want of memory nothing is said of how much was read.
pub fn read_all<S: Shelf>(alloc: Global, shelf: &mut S, limit: usize) -> Result<Vec<u8>, ReadEnd>
    ensures kept { KeepsShelf [] (S.state shelf.old) (S.state shelf.new) }
    ensures bounded { IfOk result (λ bytes. length bytes.items ≤ limit) }
    ensures whole { IfOk result (λ bytes. IsRest (S.state shelf.old) bytes.items
        (S.state shelf.new)) }
    ensures cause { IfErr result (λ end. IsCause (S.state shelf.old) limit end
        (S.state shelf.new)) }
{
    let mut bytes = Vec::new(alloc);
    let mut buffer = vec![in alloc; 0u8; PIECE]?;
    while bytes.len() <= limit {
        let most = (limit - bytes.len()).min(PIECE - 1) + 1;
        if read_on(shelf, &mut bytes, &mut buffer[..most])? == 0 {
            return Ok(bytes);
        }
    }
    Err(ReadEnd::Long)
}

/// Writes all bytes, in order.
pub fn write_all<K: Sink>(sink: &mut K, bytes: &[u8]) -> Result<(), Failed>
    ensures { WritesAll (K.state sink.old) bytes.now result (K.state sink.new) }
{
    let mut done = 0;
    while done < bytes.len() {
        done += sink.write(&bytes[done..])?;
    }
    Ok(())
}
