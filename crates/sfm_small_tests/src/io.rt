// Texts read and written over memory, in pieces and with calls that fail, and over a file and a writer of the system.
ghost use Rattle.std.specs.Prelude.{◌≤◌};

use sfm_base::Memory;
use sfm_io::*;
use std::alloc::Global;
use std::test::Fail;
use std::{env, fs};

const ROW: &[u8] = b"sfm 1\nground a b\nweight a:-3 b:2\ncut 4 a b\nend\n";

const ANSWER: &[u8] = b"answer 1\nminimum -1\nleast a b\ngreatest a b\n";

/// What is seen of a text.
#[derive(Clone, Copy, PartialEq, Eq)]
enum Seen {
    Closed,
    Whole,
    Other,
    Ended(ReadEnd),
}

/// A shelf with one text.
fn shelf_of(
    alloc: Global,
    piece: usize,
    failing: &[usize],
    name: &str,
    text: &[u8],
) -> Result<MemoryShelf, Memory>
    requires { 1 ≤ piece }
{
    let mut shelf = MemoryShelf::new(alloc, piece, failing)?;
    shelf.add(name, text)?;
    Ok(shelf)
}

/// What is seen of the text that is open in a shelf, read up to a limit.
fn read_in<S: Shelf>(alloc: Global, shelf: &mut S, limit: usize, text: &[u8]) -> Seen {
    match read_all(alloc, shelf, limit) {
        Ok(bytes) if bytes.as_slice() == text => Seen::Whole,
        Ok(_) => Seen::Other,
        Err(end) => Seen::Ended(end),
    }
}

/// What is seen of a text in a shelf by a name, read up to a limit.
fn seen_in<S: Shelf>(alloc: Global, shelf: &mut S, name: &str, limit: usize, text: &[u8]) -> Seen {
    match shelf.open(name) {
        Ok(()) => read_in(alloc, shelf, limit, text),
        Err(_) => Seen::Closed,
    }
}

/// The size of pieces, calls that fail, a name, a limit, and what is seen.
type Read = (usize, &'static [usize], &'static str, usize, Seen);

const READS: [Read; 10] = [
    (1, &[], "row", 47, Seen::Whole),
    (10, &[], "row", 47, Seen::Whole),
    (100, &[8], "row", usize::MAX, Seen::Whole),
    (10, &[8], "row", 47, Seen::Whole),
    (10, &[7], "row", 47, Seen::Ended(ReadEnd::Fault)),
    (10, &[4], "row", 47, Seen::Ended(ReadEnd::Fault)),
    (10, &[], "row", 46, Seen::Ended(ReadEnd::Long)),
    (1, &[], "row", 0, Seen::Ended(ReadEnd::Long)),
    (10, &[1], "row", 47, Seen::Closed),
    (10, &[], "rows", 47, Seen::Closed),
];

/// Whether of the row that is seen which is to be.
fn is_read(alloc: Global, row: &Read) -> bool {
    let (piece, failing, name, limit, want) = *row;
    match shelf_of(alloc, piece.max(1), failing, "row", ROW) {
        Ok(mut shelf) => seen_in(alloc, &mut shelf, name, limit, ROW) == want,
        Err(_) => false,
    }
}

#[test]
fn reads_memory(rt: HostRuntime) {
    for row in &READS {
        assert!(rt;
            is_read(rt.alloc(), row),
            "pieces of {}, limit {}",
            row.0,
            row.3
        );
    }
}

/// Whether a large text is read as it is.
fn is_large_read(alloc: Global, text: &[u8]) -> bool {
    match shelf_of(alloc, usize::MAX, &[], "large", text) {
        Ok(mut shelf) => seen_in(alloc, &mut shelf, "large", 70_000, text) == Seen::Whole,
        Err(_) => false,
    }
}

#[test]
fn reads_a_large_text(rt: HostRuntime) -> Result<(), Fail> {
    let text = vec![in rt.alloc(); b'x'; 70_000]?;
    assert!(rt; is_large_read(rt.alloc(), &text));
    Ok(())
}

/// The room of a sink, the size of pieces, calls that fail, what writing the answer gives, and what the sink takes.
type Write = (
    usize,
    usize,
    &'static [usize],
    Result<(), Failed>,
    &'static [u8],
);

const WRITES: [Write; 6] = [
    (100, 1, &[], Ok(()), ANSWER),
    (43, 10, &[6], Ok(()), ANSWER),
    (100, 10, &[3], Err(Failed), b"answer 1\nminimum -1\n"),
    (100, 10, &[1], Err(Failed), b""),
    (6, 10, &[], Err(Failed), b"answer"),
    (0, 1, &[], Err(Failed), b""),
];

/// Whether a sink takes of the answer what it is to take.
fn is_taken(sink: &mut MemorySink, want: Result<(), Failed>, taken: &[u8]) -> bool {
    let result = write_all(sink, ANSWER);
    result == want && sink.taken() == taken
}

/// Whether the answer is written as it is to be.
fn is_written(alloc: Global, row: &Write) -> bool {
    let (room, piece, failing, want, taken) = *row;
    match MemorySink::new(alloc, room, piece.max(1), failing) {
        Ok(mut sink) => is_taken(&mut sink, want, taken),
        Err(_) => false,
    }
}

#[test]
fn writes_memory(rt: HostRuntime) {
    for row in &WRITES {
        assert!(rt;
            is_written(rt.alloc(), row),
            "room {}, pieces of {}",
            row.0,
            row.1
        );
    }
}

/// Whether no text is opened by a name, and nothing read.
fn has_nothing<S: Shelf>(alloc: Global, shelf: &mut S, name: &str) -> bool {
    shelf.open(name).is_err() && read_in(alloc, shelf, 47, b"") == Seen::Whole
}

/// Whether the row is read from a file as long as it is there.
fn is_file_read(rt: &HostRuntime, name: &str) -> bool {
    let mut shelf = FileShelf::new(rt);
    fs::write(rt, name, ROW).is_ok()
        && seen_in(rt.alloc(), &mut shelf, name, 47, ROW) == Seen::Whole
        && fs::remove_file(rt, name).is_ok()
        && has_nothing(rt.alloc(), &mut shelf, name)
}

#[test]
fn reads_a_file(rt: HostRuntime) -> Result<(), Fail> {
    let mut path = env::temp_dir(&rt)?;
    path.push("sfm_io-reads_a_file")?;
    let name = path.as_path().to_str().unwrap_or("");
    assert!(rt; is_file_read(&rt, name));
    Ok(())
}

/// Whether a stream takes the answer.
fn takes_all(alloc: Global) -> bool {
    let mut bytes = Vec::new(alloc);
    let whole = write_all(&mut StreamSink::new(&mut bytes), ANSWER);
    whole.is_ok() && bytes.as_slice() == ANSWER
}

/// Whether a stream of six bytes takes as many.
fn takes_few() -> bool {
    let mut few = [0u8; 6];
    let full = write_all(&mut StreamSink::new(&mut few[..]), ANSWER);
    full == Err(Failed) && few.as_slice() == b"answer".as_slice()
}

#[test]
fn writes_a_stream(rt: HostRuntime) {
    assert!(rt; takes_all(rt.alloc()) && takes_few());
}
