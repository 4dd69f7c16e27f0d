// What the reader answers over worked texts, each with the line and the reason of its first fault. That every answer is
// right is proved; here the calls succeed with ample memory, and the reasons are compared with those worked by hand.
use sfm_base::read_number;
use sfm_kind::Instance;
use sfm_text::{
    Lines, Reason, TEXT_LIMIT, TextEnd, content_lines, read_instance, read_numbered, token,
};
use std::alloc::Global;
use std::process::Abort;

mod long;
mod parts;
mod pieces;
mod ranks;
mod told;
mod weights;

use parts::{push_many, push_numbered};
use told::{Numbers, Told, are_told};

/// The line and the word of a text's first fault, or `good` at line 0.
fn first_fault(alloc: Global, text: &[u8]) -> (usize, &'static [u8]) {
    match read_instance(alloc, text) {
        Ok(_) => (0, b"good"),
        Err(TextEnd::Refused { line, reason }) => (line, reason.word()),
        Err(TextEnd::Memory) => (0, b"memory"),
    }
}

const GOOD: &[u8] =
    b"# a comment\r\n\n sfm\t1 \r\nground a b c\nweight b:2\n\nweight a:-3 b:0\ncut 4 b a\nneed a c\ncover 7 c a b\ntable 0 1 2 2 : c b\nend\n#";

/// Whether an instance has three names, a and b the first of them.
fn has_names(instance: &Instance) -> bool {
    instance.names_len() == 3
        && instance.place_of(b"a") == Some(0)
        && instance.place_of(b"b") == Some(1)
}

/// The terms of that text.
const GOOD_TERMS: [Told; 6] = [
    Told {
        places: &[1],
        numbers: Numbers::Weights(&[2]),
    },
    Told {
        places: &[0, 1],
        numbers: Numbers::Weights(&[-3, 0]),
    },
    Told {
        places: &[1, 0],
        numbers: Numbers::Cut(4),
    },
    Told {
        places: &[0, 2],
        numbers: Numbers::Need,
    },
    Told {
        places: &[2, 0, 1],
        numbers: Numbers::Cover(7),
    },
    Told {
        places: &[2, 1],
        numbers: Numbers::Table(&[0, 1, 2, 2]),
    },
];

/// Whether that text gives its names and its terms.
fn is_good_read(alloc: Global) -> bool {
    match read_instance(alloc, GOOD) {
        Ok(instance) => has_names(&instance) && are_told(instance.terms(), &GOOD_TERMS),
        Err(_) => false,
    }
}

#[test]
fn a_good_text_gives_names_and_terms(rt: HostRuntime) {
    assert!(rt; is_good_read(rt.alloc()));
}

/// What stands before the text of a row, and behind it.
type Frame = (&'static str, &'static str);

/// Nothing: the text is whole.
const WHOLE: Frame = ("", "");

/// A ground of four names, so that the text begins with the third line, and the end.
const AMONG: Frame = ("sfm 1\nground a b c d\n", "\nend");

/// A ground of four names, and no end.
const LAST: Frame = ("sfm 1\nground a b c d\n", "");

/// Adds a part of a text: what stands before the brace that closes, if there is one, 3,000 times, and what stands behind it.
fn push_part(text: &mut String, part: &str) -> bool {
    match part.split_once('}') {
        Some((piece, tail)) => push_many(text, piece, 3_000) && text.push_str(tail).is_ok(),
        None => text.push_str(part).is_ok(),
    }
}

/// Adds a text with what stands in braces 3,000 times.
fn push_spread(text: &mut String, row: &str) -> bool {
    for part in row.split('{') {
        if !push_part(text, part) {
            return false;
        }
    }
    true
}

/// Adds the text of a row in its frame.
fn push_framed(text: &mut String, frame: Frame, row: &str) -> bool {
    text.push_str(frame.0).is_ok() && push_spread(text, row) && text.push_str(frame.1).is_ok()
}

/// The text of a row in its frame, with its lines, and what stands in braces 3,000 times; nothing where memory lacks.
fn framed(alloc: Global, frame: Frame, row: &str) -> Option<String> {
    let Ok(lines) = row.replace(alloc, "|", "\n") else {
        return None;
    };
    let mut text = String::new(alloc);
    if push_framed(&mut text, frame, lines.as_str()) {
        Some(text)
    } else {
        None
    }
}

/// Whether the line and the word of a text's first fault are these.
fn has_fault(alloc: Global, text: &[u8], fault: &str) -> bool {
    let (line, word) = fault.split_once(' ').unwrap_or((fault, ""));
    let found = first_fault(alloc, text);
    read_number(line.as_bytes()) == Some(found.0 as i128) && word.as_bytes() == found.1
}

/// Whether a row holds: the line and the word of the first fault of a text, or `0 good`, and behind a colon that text. In the text
/// `|` is a line feed, and what stands in braces comes 3,000 times.
fn is_row(alloc: Global, frame: Frame, row: &str) -> bool {
    let (fault, text) = row.split_once(':').unwrap_or((row, ""));
    match framed(alloc, frame, text) {
        Some(text) => has_fault(alloc, text.as_bytes(), fault),
        None => false,
    }
}

/// Asserts that the rows of a table hold, one on each line.
fn has_faults(rt: &impl Abort, alloc: Global, frame: Frame, table: &str) {
    for row in table.lines() {
        assert!(rt; is_row(alloc, frame, row), "{row}");
    }
}

const HEADERS: &str = "\
1 short:
2 short:|
2 short:sfm 1
3 short:sfm 1|ground
0 good:sfm 1|ground|end
0 good:sfm 1|ground a b|end|
0 good:\tsfm 1|  ground a\tb | end ||# more||
0 good:sfm 1\r|ground a\t b\r|weight a:-3 b:2\r|end\r|
0 good:# x|| \t|  # y|sfm 1|ground a|end
5 short:sfm 1|ground a b|weight a:-3 b:2|cut 4 a b
5 short:sfm 1|ground a b|weight a:-3 b:2|cut 4 a b|
6 short:sfm 1|ground a b|weight a:-3 b:2||#|
6 word:sfm 1|ground a b|weight a:1|need a b|end|cut 1 a b
4 word:sfm 1|ground a b|end|end
4 word:sfm 1|ground a b|end|x:
4 bytes:sfm 1|ground a b|end|\x01
0 good:sfm 2|ground a|end
0 good:# x||\tsfm  2 |ground a b|cover 1000000000000000 a|cover 1000000000000000 a b|weight a:1|end
0 good:sfm 2|ground a b|weight a:-1000000000000000 b:1000000000000000|cut 1000000000000 a b|end
3 number:sfm 2|ground a b|weight a:1000000000000001|end
3 number:sfm 2|ground a b|weight a:-1000000000000001|end
3 number:sfm 2|ground a b|cut 1000000000000001 a b|end
3 number:sfm 2|ground a b|rank 1000000000000001 uniform 1 : a b|end
3 number:sfm 1|ground a b|weight a:1000000000000000|end
3 name:sfm 2|ground a b|weight c:1000000000000000|end
4 word:sfm 2|ground a b|end|sfm 2
2 word:sfm 2|sfm 2
1 shape:sfm 3|ground a|end
1 shape:sfm 2 2
1 shape:sfm 02
1 shape:sfm 1 2
1 shape:sfm 12
1 shape:sfm|ground a|end
1 shape:sfm 1 1
1 shape:sfm 01
1 word:Sfm 1
1 bytes:sfm\x0b1
1 word:ground a b
1 word:end
2 word:sfm 1|end
2 word:sfm 1|sfm 1";

const GROUNDS_AND_ENDS: &str = "\
2 word:sfm 1|Ground a
2 twice:sfm 1|ground a a
2 twice:sfm 1|ground a b c b
2 shape:sfm 1|ground a : b
2 shape:sfm 1|ground ; a-b
2 name:sfm 1|ground a-b a a
2 name:sfm 1|ground a:b
0 good:sfm 1|ground aaaaaaaaaaaaaaaaaaaaaaaaaaaaaaaa|end
2 name:sfm 1|ground aaaaaaaaaaaaaaaaaaaaaaaaaaaaaaaaa|end
0 good:sfm 1|ground Az_09|end
2 bytes:sfm 1|ground a\r\r|end
2 bytes:sfm 1|ground a\x7f
2 bytes:sfm 1|ground a\u{e9}
0 good:#\u{ff}|sfm 1|ground a|#\u{ff}\x00|end
3 bytes:sfm 1|ground a|word\x00
3 bytes:sfm 1|ground a|end\x00
3 shape:sfm 1|ground a|end a
3 shape:sfm 1|ground a|end :
3 word:sfm 1|ground a|ground a
3 word:sfm 1|ground a|sfm 1";

const WEIGHT_LINES: &str = "\
0 good:weight a:-1000000000000|weight a:1000000000000
3 shape:weight
3 shape:weight a
3 shape:weight a:1:2
3 shape:weight a: :
3 shape:weight :
3 shape:weight x:y ;
3 number:weight a:
3 number:weight a:+5
3 number:weight a:05
3 number:weight a:-0
3 number:weight a:1.5
3 number:weight a:1000000000001
3 number:weight a:-1000000000001
3 number:weight a:99999999999999999999999999999999999999999
3 number:weight z:1000000000001|cut 1 a b|cut 1 a a|end
3 name:weight z:1|cut 1 a b|cut 1 a a|end
5 twice:weight a:1|cut 1 a b|cut 1 a a|end
3 name:weight :5
3 name:weight a-b:5
3 number:weight z:1 a:x
3 name:weight a:1 b:1 a:1 z:1
3 twice:weight a:1 b:1 a:1
3 word:weights a:1
3 word:Weight a:1
6 number:weight a:1||#|weight a:x";

const CUTS_AND_CONDITIONS: &str = "\
0 good:cut 1 a b|cut 0 b a|cut 1000000000000 a b
3 shape:cut
3 shape:cut 1 a
3 shape:cut 1 a b c
3 shape:cut 1 a :
3 shape:cut : a b
3 shape:cut ; ; ;
3 number:cut a 1 b
3 number:cut -1 a b
3 number:cut 1000000000001 a b
3 name:cut 1 a: b
3 name:cut 1 z b
3 name:cut 1 z z
3 twice:cut 1 a a
0 good:need a b|need b a|need a b
3 shape:need a
3 shape:need a b c
3 shape:need 1 a b
3 shape:need a ;
3 name:need a z
3 name:need a 1
3 twice:need b b";

const COVERS_AND_TABLES: &str = "\
0 good:cover 5 a|cover 0 a b c d
3 shape:cover
3 shape:cover 5
3 shape:cover 5 : a
3 number:cover a b
3 number:cover -5 a
3 name:cover 5 a z
3 twice:cover 5 a b a
0 good:table 0 1 : a|table 0 -5 : b|table 0 1 1 2 : a b
0 good:table 0 3 3 4 3 4 4 4 : a b c
3 shape:table
3 shape:table :
3 shape:table 0 :
3 shape:table 0 1 a
3 shape:table 0 1 : a b
3 shape:table 0 1 2 : a b
3 shape:table 0 1 : : a
3 shape:table 0 1 : a :
3 shape:table 0 ; : a
3 shape:table 0 1 : ;
3 number:table 0 1 1 x : a a
3 number:table 0 1 1 1000000000001 : a z
3 name:table 1 1 1 1 : a z
3 twice:table 1 1 1 1 : a a
3 law:table 1 1 1 1 : a b
3 law:table 0 1 1 3 : a b
3 law:table 1 1 : a
3 law:table 0 0 0 0 0 0 0 1 : a b c";

/// The tables of texts and of their first faults, each with the frame of its texts.
const FAULTS: [(Frame, &str); 5] = [
    (WHOLE, HEADERS),
    (WHOLE, GROUNDS_AND_ENDS),
    (AMONG, WEIGHT_LINES),
    (AMONG, CUTS_AND_CONDITIONS),
    (AMONG, COVERS_AND_TABLES),
];

/// Asserts that the rows of tables hold, each in its frame.
fn have_faults(rt: &impl Abort, alloc: Global, tables: &[(Frame, &str)]) {
    for (frame, table) in tables {
        has_faults(rt, alloc, *frame, table);
    }
}

/// All such tables.
const TABLES: [&[(Frame, &str)]; 3] = [&FAULTS, &ranks::FAULTS, &long::FAULTS];

#[test]
fn first_faults(rt: HostRuntime) {
    for tables in &TABLES {
        have_faults(&rt, rt.alloc(), tables);
    }
}

/// Adds so many lines.
fn push_lines(text: &mut String, lines: u32, line: &str) -> bool {
    for _ in 0..lines {
        if text.push_str("\n").is_err() || text.push_str(line).is_err() {
            return false;
        }
    }
    true
}

/// Adds a last line and the end.
fn push_last(text: &mut String, last: &str) -> bool {
    text.push_str("\n").is_ok() && text.push_str(last).is_ok() && text.push_str("\nend\n").is_ok()
}

/// Adds a text with so many names, so many lines of one weight, and a last one.
fn push_text(
    alloc: Global,
    text: &mut String,
    names: u32,
    lines: u32,
    line: &str,
    last: &str,
) -> bool {
    text.push_str("sfm 1\nground").is_ok()
        && push_numbered(alloc, text, " e", names, "")
        && push_lines(text, lines, line)
        && push_last(text, last)
}

const MOST: &str = "weight e0:1000000000000";

const WIDE: &str = "table 0 0 0 0 0 0 0 0 0 0 0 0 0 0 0 0 : e0 e1 e2 e3";

/// The counts of names and of lines of a text, the line and the last line, and the first fault.
type Total = (u32, u32, &'static str, &'static str, usize, &'static [u8]);

const TOTALS: [Total; 10] = [
    (256, 0, "", "", 0, b"good"),
    (257, 0, "", "", 2, b"total"),
    (1, 4096, "weight e0:1", "", 0, b"good"),
    (1, 4096, "weight e0:1", "weight e0:1", 4099, b"total"),
    (1, 1000, MOST, "", 0, b"good"),
    (1, 1000, MOST, "weight e0:0", 0, b"good"),
    (1, 1000, MOST, "weight e0:1", 1003, b"total"),
    (4, 4096, WIDE, "", 0, b"good"),
    (
        5,
        3276,
        "cover 1 e0 e1 e2 e3 e4",
        "cover 1 e0 e1 e2 e3",
        0,
        b"good",
    ),
    (
        5,
        3276,
        "cover 1 e0 e1 e2 e3 e4",
        "cover 1 e0 e1 e2 e3 e4",
        3279,
        b"total",
    ),
];

/// Whether such a text has that first fault.
fn is_total(alloc: Global, row: &Total) -> bool {
    let (names, lines, line, last, fault, reason) = *row;
    let mut text = String::new(alloc);
    push_text(alloc, &mut text, names, lines, line, last)
        && first_fault(alloc, text.as_bytes()) == (fault, reason)
}

#[test]
fn totals_are_bounded(rt: HostRuntime) {
    for row in &TOTALS {
        assert!(rt; is_total(rt.alloc(), row));
    }
}

/// What a long line is.
#[derive(Clone, Copy)]
enum Line {
    /// A table of so many names, which has that many values.
    Table(u32, u32),
    /// So many weights of one element.
    Weights(u32),
}

/// Adds the line of a table.
fn push_table(alloc: Global, line: &mut String, names: u32, values: u32) -> bool {
    line.push_str("table").is_ok()
        && push_many(line, " 0", values)
        && line.push_str(" :").is_ok()
        && push_numbered(alloc, line, " e", names, "")
}

/// Adds a long line.
fn push_line(alloc: Global, line: &mut String, long: Line) -> bool {
    match long {
        Line::Table(names, values) => push_table(alloc, line, names, values),
        Line::Weights(count) => {
            line.push_str("weight").is_ok() && push_many(line, " a:1", count)
        }
    }
}

/// Long lines behind nine names, and the first fault: a table has 8 names at most, and a line of 400,001 tokens is read.
const LONG_LINES: [(Line, (usize, &[u8])); 3] = [
    (Line::Table(8, 256), (0, b"good")),
    (Line::Table(9, 512), (3, b"shape")),
    (Line::Weights(400_000), (3, b"name")),
];

/// Whether a text with a long line behind nine names has that first fault.
fn has_long_line(alloc: Global, long: Line, fault: (usize, &[u8])) -> bool {
    let mut line = String::new(alloc);
    let mut text = String::new(alloc);
    push_line(alloc, &mut line, long)
        && push_text(alloc, &mut text, 9, 0, "", line.as_str())
        && first_fault(alloc, text.as_bytes()) == fault
}

#[test]
fn long_lines_are_read(rt: HostRuntime) {
    for (long, fault) in &LONG_LINES {
        assert!(rt; has_long_line(rt.alloc(), *long, *fault));
    }
}

/// Texts with bytes that are no text, and the first fault.
const ANY_BYTE: [(&[u8], usize, &[u8]); 3] = [
    (
        b"#\xff\x00\nsfm 1\nground a\n # \xff\nend\n#\xff",
        0,
        b"good",
    ),
    (b"sfm 1\nground a\nweight a:1 \xff\nend\n", 3, b"bytes"),
    (b"sfm 1\nground a\nweight a:1\nend\n\xff\n", 5, b"bytes"),
];

#[test]
fn only_comments_may_hold_any_byte(rt: HostRuntime) {
    for (text, line, reason) in &ANY_BYTE {
        assert!(rt; first_fault(rt.alloc(), text) == (*line, *reason));
    }
}

/// Bytes, how often they come, and the first fault of that text: as many lines as there may be, and more bytes than there may be.
const WIDEST: [(u8, usize, (usize, &[u8])); 2] = [
    (b'\n', TEXT_LIMIT, (TEXT_LIMIT + 1, b"short")),
    (b'#', TEXT_LIMIT + 1, (0, b"long")),
];

/// Whether a text of one byte so many times has that first fault.
fn has_bytes(alloc: Global, byte: u8, count: usize, fault: (usize, &[u8])) -> bool {
    match vec![in alloc; byte; count] {
        Ok(text) => first_fault(alloc, &text) == fault,
        Err(_) => false,
    }
}

#[test]
fn texts_are_read_up_to_the_limit(rt: HostRuntime) {
    for (byte, count, fault) in &WIDEST {
        assert!(rt; has_bytes(rt.alloc(), *byte, *count, *fault));
    }
}

/// A text, and the number, the start and the end of each of its lines that has something.
const SPANS: (&[u8], &[(usize, usize, usize)]) = (b"#\n a b\r\n\nc", &[(2, 2, 6), (4, 9, 10)]);

/// The same text: the number and the bytes of each of these lines, and one more than the number of all.
const CONTENT: (&[(usize, &[u8])], usize) = (&[(2, b" a b"), (4, b"c")], 5);

/// A text, the number of its ground line and those of its term lines.
const NUMBERED: (&[u8], usize, &[usize]) = (
    b"# x\nsfm 1\n\nground a b\nneed a b\n#\nweight a:1\nend\n",
    4,
    &[5, 7],
);

/// Lines, and the token of a number.
const TOKENS: [(&[u8], usize, Option<&[u8]>); 5] = [
    (b" a \tbc", 0, Some(b"a")),
    (b" a \tbc", 1, Some(b"bc")),
    (b" a \tbc", 2, None),
    (b"\t a  bc ", 1, Some(b"bc")),
    (b"\t a  bc ", 2, None),
];

/// Whether the lines of that text are told so.
fn has_spans(alloc: Global) -> bool {
    match content_lines(alloc, SPANS.0) {
        Ok(spans) => spans.as_slice() == SPANS.1,
        Err(_) => false,
    }
}

/// Whether a cursor comes to these lines, and then to the end.
fn has_content() -> bool {
    let mut lines = Lines::new(SPANS.0);
    for (number, bytes) in CONTENT.0 {
        let Some(line) = lines.next_content() else {
            return false;
        };
        if line.number != *number || line.bytes != *bytes {
            return false;
        }
    }
    lines.next_content().is_none() && lines.number() == CONTENT.1
}

/// Whether that text is read with these numbers.
fn has_numbers(alloc: Global) -> bool {
    match read_numbered(alloc, NUMBERED.0) {
        Ok(read) => read.ground_line == NUMBERED.1 && read.term_lines.as_slice() == NUMBERED.2,
        Err(_) => false,
    }
}

/// Whether tokens have their places.
fn has_tokens() -> bool {
    for (line, number, found) in &TOKENS {
        if token(line, *number) != *found {
            return false;
        }
    }
    true
}

#[test]
fn lines_and_tokens_have_their_places(rt: HostRuntime) {
    assert!(rt; has_spans(rt.alloc()) && has_content() && has_tokens());
}

#[test]
fn lines_of_terms_have_their_numbers(rt: HostRuntime) {
    assert!(rt; has_numbers(rt.alloc()));
}

/// Whether reasons that no table above tells have their words, and want of memory is an end.
fn has_words() -> bool {
    Reason::Long.word() == b"long".as_slice()
        && Reason::Total.word() == b"total".as_slice()
        && TextEnd::from(sfm_base::Memory) == TextEnd::Memory
}

#[test]
fn reasons_have_their_words(rt: HostRuntime) {
    assert!(rt; has_words());
}
