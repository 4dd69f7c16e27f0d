// Texts in pieces: what is answered does not depend on where a text is cut.
ghost use Rattle.std.specs.Prelude.{◌<◌};

use sfm_kind::Instance;
use sfm_text::{Reader, TEXT_LIMIT, TextEnd, read_pieces};
use std::alloc::Global;

/// The line and the word of the first fault, with the count of names and of terms where there is none.
fn told(read: Result<Instance, TextEnd>) -> (usize, &'static [u8], usize, usize) {
    match read {
        Ok(instance) => (0, b"good", instance.names_len(), instance.terms().len()),
        Err(TextEnd::Refused { line, reason }) => (line, reason.word(), 0, 0),
        Err(TextEnd::Memory) => (0, b"memory", 0, 0),
    }
}

/// Texts in pieces, and what is told of each.
const PIECES: [(&[&[u8]], (usize, &[u8], usize, usize)); 11] = [
    (&[], (1, b"short", 0, 0)),
    (&[b"", b""], (1, b"short", 0, 0)),
    (&[b"sfm 1\ngro", b"und\nend\n"], (0, b"good", 0, 0)),
    (
        &[b"sfm 1\r", b"\nground a b\r\nneed a b\r", b"\nend"],
        (0, b"good", 2, 1),
    ),
    (
        &[b"sfm 1\nground a b\nneed a", b"", b" b\nneed a b\nend\n"],
        (0, b"good", 2, 2),
    ),
    (&[b"sfm 3", b"\nground a\nend\nend\n"], (1, b"shape", 0, 0)),
    (
        &[b"sfm 1\nground a\nneed a", b"\nground\nx"],
        (3, b"shape", 0, 0),
    ),
    (
        &[b"sfm 1\nground a\nend\n", b"x", b"\nx\n"],
        (4, b"word", 0, 0),
    ),
    (&[b"sfm 1\n", b"\x07ground\nend\n"], (2, b"bytes", 0, 0)),
    (
        &[b"sfm 1\nground a\nne\x07ed a a\nend\n"],
        (3, b"bytes", 0, 0),
    ),
    (
        &[b"sfm 1\nground a\nneed a\x07", b" a\nend\n"],
        (3, b"bytes", 0, 0),
    ),
];

#[test]
fn pieces_are_cut_anywhere(rt: HostRuntime) {
    for (pieces, found) in &PIECES {
        assert!(rt; told(read_pieces(rt.alloc(), pieces)) == *found);
    }
}

/// The instance of a text that comes in pieces of that many bytes.
fn read_cut(alloc: Global, text: &[u8], size: usize) -> Result<Instance, TextEnd>
    requires { 0 < size }
{
    let mut reader = Reader::new(alloc)?;
    for piece in text.chunks(size) {
        reader.feed(alloc, piece)?;
    }
    reader.finish(alloc)
}

/// A good text of two names and two terms.
const CUT: &[u8] = b"sfm 1\r\nground a b\r\nweight a:-3 b:2\r\ncut 4 a b\r\nend\r\n";

/// The lengths of its pieces.
const LENGTHS: [usize; 3] = [1, 7, 65_536];

/// Whether that text is read in pieces of that many bytes.
fn is_read(alloc: Global, size: usize) -> bool {
    0 < size && told(read_cut(alloc, CUT, size)) == (0, b"good".as_slice(), 2, 2)
}

#[test]
fn pieces_of_one_length(rt: HostRuntime) {
    for size in &LENGTHS {
        assert!(rt; is_read(rt.alloc(), *size));
    }
}

/// Feeds so many bytes, each by itself, and says whether there was memory.
fn feed_many(alloc: Global, reader: &mut Reader, count: usize) -> bool {
    for _ in 0..count {
        if reader.feed(alloc, b"#").is_err() {
            return false;
        }
    }
    reader.feed(alloc, b"\n").is_ok()
}

/// Whether a long text is told as such that comes byte by byte.
fn is_long(alloc: Global) -> bool {
    let Ok(mut reader) = Reader::new(alloc) else {
        return false;
    };
    if !feed_many(alloc, &mut reader, TEXT_LIMIT) {
        return false;
    }
    told(reader.finish(alloc)) == (0, b"long".as_slice(), 0, 0)
}

#[test]
fn a_long_text_byte_by_byte(rt: HostRuntime) {
    assert!(rt; is_long(rt.alloc()));
}
