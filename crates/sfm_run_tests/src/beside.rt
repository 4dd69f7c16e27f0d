// Calls over an instance, a text beside it and an answer, in memory.
use crate::cases::{Ended, SOUND, call};
use sfm_base::Memory;
use sfm_io::MemoryShelf;
use std::alloc::Global;

/// One call: its words, the texts of the files `file`, `side` and `answer`, and what must come.
#[derive(Clone, Copy)]
pub struct Row<'a> {
    pub words: &'a [&'a str],
    pub file: &'a [u8],
    pub side: &'a [u8],
    pub answer: &'a [u8],
    pub code: u8,
    pub out: &'a [u8],
    pub err: &'a [u8],
}

/// An instance of two elements with a cut between them.
const EDGE: &[u8] = b"sfm 1\nground a b\nweight a:-3 b:2\ncut 4 a b\nend\n";

/// A call over that instance, with nothing beside it, for which an answer is due.
pub const DUE: Row = Row {
    words: &[],
    file: EDGE,
    side: b"",
    answer: b"",
    code: 0,
    out: b"",
    err: b"",
};

/// A shelf with the three texts.
fn shelf_of(alloc: Global, row: &Row) -> Result<MemoryShelf, Memory> {
    let mut shelf = MemoryShelf::new(alloc, 65536, &[])?;
    shelf.add("file", row.file)?;
    shelf.add("side", row.side)?;
    shelf.add("answer", row.answer)?;
    Ok(shelf)
}

/// One call over the three texts.
pub fn called(alloc: Global, row: &Row) -> Result<Ended, Memory> {
    let mut shelf = shelf_of(alloc, row)?;
    call(alloc, row.words, &mut shelf, &SOUND)
}

/// Whether a call ends as it must.
pub fn is_met(alloc: Global, row: &Row) -> bool {
    match called(alloc, row) {
        Ok(ended) => {
            ended.code == row.code && ended.out.taken() == row.out && ended.err.taken() == row.err
        }
        Err(_) => false,
    }
}

/// Whether a call ends with the code of a row, and writes what begins as the row says.
pub fn begins(alloc: Global, row: &Row) -> bool {
    match called(alloc, row) {
        Ok(ended) => ended.code == row.code && ended.out.taken().starts_with(row.out),
        Err(_) => false,
    }
}
