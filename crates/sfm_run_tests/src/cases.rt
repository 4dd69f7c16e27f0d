// Calls of the program over texts in memory. Each call of a test goes through `call`, so what `run` promises is met in one
// proof. What a test asks is said by functions that answer yes or no, and no where memory lacks.
use sfm_base::Memory;
use sfm_io::{MemoryShelf, MemorySink, Shelf};
use sfm_run::run;
use std::alloc::{AllocError, Global};

/// How a call reads and writes: in pieces of these sizes, with so much room on `out`, and with calls that fail, numbered
/// from 1.
#[derive(Clone, Copy)]
pub struct Outside<'a> {
    pub read_piece: usize,
    pub failing_reads: &'a [usize],
    pub room: usize,
    pub write_piece: usize,
    pub failing_writes: &'a [usize],
    /// Those of `err`.
    pub failing_says: &'a [usize],
}

/// Large pieces, room for every answer, and nothing fails.
pub const SOUND: Outside = Outside {
    read_piece: 65536,
    failing_reads: &[],
    room: 4_194_304,
    write_piece: 65536,
    failing_writes: &[],
    failing_says: &[],
};

/// One call: its words, the texts of the files `first` and `second`, the outside, and what must come.
#[derive(Clone, Copy)]
pub struct Case<'a> {
    pub words: &'a [&'a str],
    pub first: &'a [u8],
    pub second: &'a [u8],
    pub outside: &'a Outside<'a>,
    pub code: u8,
    pub out: &'a [u8],
    pub err: &'a [u8],
}

pub const SOLVE: &[&str] = &["solve", "first"];

pub const CHECK: &[&str] = &["check", "first", "second"];

pub const VALID: &[u8] = b"valid\n";

pub const READ_FAILED: &[u8] = b"sfm: read failed\n";

pub const WRITE_FAILED: &[u8] = b"sfm: write failed\n";

/// A call of `solve`, of which nothing fails.
pub const fn solve<'a>(first: &'a [u8], code: u8, out: &'a [u8]) -> Case<'a> {
    Case {
        words: SOLVE,
        first,
        second: b"",
        outside: &SOUND,
        code,
        out,
        err: b"",
    }
}

/// The same of `check`.
pub const fn check<'a>(first: &'a [u8], second: &'a [u8], code: u8, out: &'a [u8]) -> Case<'a> {
    Case {
        words: CHECK,
        first,
        second,
        outside: &SOUND,
        code,
        out,
        err: b"",
    }
}

/// What a call wrote, and its code.
#[derive(Drop)]
pub struct Ended {
    pub out: MemorySink,
    pub err: MemorySink,
    pub code: u8,
}

/// One call over a shelf.
pub fn call<S: Shelf>(
    alloc: Global,
    words: &[&str],
    shelf: &mut S,
    outside: &Outside,
) -> Result<Ended, Memory> {
    let piece = outside.write_piece.max(1);
    let mut out = MemorySink::new(alloc, outside.room, piece, outside.failing_writes)?;
    let mut err = MemorySink::new(alloc, 4096, 4096, outside.failing_says)?;
    let code = run(alloc, words, shelf, &mut out, &mut err).code();
    Ok(Ended { out, err, code })
}

/// A shelf with the texts of `first` and `second`.
pub fn shelf_of(
    alloc: Global,
    first: &[u8],
    second: &[u8],
    outside: &Outside,
) -> Result<MemoryShelf, Memory> {
    let mut shelf = MemoryShelf::new(alloc, outside.read_piece.max(1), outside.failing_reads)?;
    shelf.add("first", first)?;
    shelf.add("second", second)?;
    Ok(shelf)
}

/// One call over the two texts.
fn called(alloc: Global, case: &Case) -> Result<Ended, Memory> {
    let mut shelf = shelf_of(alloc, case.first, case.second, case.outside)?;
    call(alloc, case.words, &mut shelf, case.outside)
}

/// Whether a call wrote what it must, and ended with its code.
fn ends_so(ended: &Ended, case: &Case) -> bool {
    ended.code == case.code && ended.out.taken() == case.out && ended.err.taken() == case.err
}

/// Whether a call ends as it must.
pub fn is_met(alloc: Global, case: &Case) -> bool {
    match called(alloc, case) {
        Ok(ended) => ends_so(&ended, case),
        Err(_) => false,
    }
}

/// What a call takes on `out` that ends with code 0 and says nothing on `err`, or nothing where it ends otherwise.
pub fn written(alloc: Global, case: &Case) -> Option<MemorySink> {
    let Ok(ended) = called(alloc, case) else {
        return None;
    };
    if ended.code == 0 && ended.err.taken().is_empty() {
        Some(ended.out)
    } else {
        None
    }
}

/// What a call of `solve` takes on `out`, or nothing where that is no right file for its instance.
pub fn solved(alloc: Global, case: &Case) -> Option<MemorySink> {
    let answer = written(alloc, case)?;
    if is_met(alloc, &check(case.first, answer.taken(), 0, VALID)) {
        Some(answer)
    } else {
        None
    }
}

/// The parts of a text between bytes of that kind. Behind the last such byte stands one more, mostly an empty one.
pub fn parts_of<'a>(alloc: Global, text: &'a [u8], byte: u8) -> Result<Vec<&'a [u8]>, AllocError> {
    text.split(|c| *c == byte).collect::<Vec<&[u8]>>(alloc)
}
