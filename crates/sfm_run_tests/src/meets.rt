// Two instances in memory: the common vectors that `meet` tells, the verdicts of `met`, and what is refused.
use crate::beside::{DUE, Row, begins, called, is_met};
use crate::cases::{READ_FAILED, SOUND, VALID, call};
use crate::shelves::WatchedShelf;
use sfm_base::Memory;
use std::alloc::{AllocError, Global};

const MEET: &[&str] = &["meet", "file", "side"];

const MET: &[&str] = &["met", "file", "side", "answer"];

const NO_TERM: &[u8] = b"sfm 1\nground a b\nend\n";

/// Two instances of which a common vector is due.
const MEETS: Row = Row {
    words: MEET,
    file: NO_TERM,
    side: NO_TERM,
    ..DUE
};

/// What is written is determined.
const FORCED: [Row; 4] = [
    Row {
        file: b"sfm 1\nground a b\nweight a:-3 b:2\nend\n",
        side: b"sfm 1\nground a b\nweight a:1 b:-1\nend\n",
        out: b"meet 1\nvalue -4\nset a\ncommon -3 -1\nleft 1 -3 2\nright 1 1 -1\nend\n",
        ..MEETS
    },
    Row {
        file: b"sfm 1\nground\nend\n",
        side: b"sfm 1\nground\nend\n",
        out: b"meet 1\nvalue 0\nset\ncommon\nend\n",
        ..MEETS
    },
    Row {
        side: b"sfm 1\nground a b\nweight a:1 b:-1\nend\n",
        out: b"meet 1\nvalue -1\nset a\ncommon 0 -1\nright 1 1 -1\nend\n",
        ..MEETS
    },
    Row {
        out: b"meet 1\nvalue 0\nset\ncommon 0 0\nend\n",
        ..MEETS
    },
];

/// Of a uniform rank of one, and a rank in which b and c share a cap of one.
const RANKS: Row = Row {
    file: b"sfm 1\nground a b c\nrank 1 uniform 1 : a b c\nend\n",
    side: b"sfm 1\nground a b c\nrank 1 laminar : a b c ; 1 b c\nend\n",
    out: b"meet 1\nvalue 1\nset a b c\ncommon ",
    ..MEETS
};

/// The least value and the least set are determined, and one of several vectors may be written.
const FREE: [Row; 5] = [
    RANKS,
    Row {
        file: b"sfm 1\nground a b c\ncut 4 a b\ncover 3 b c\nend\n",
        side: b"sfm 1\nground a b c\nconcave 4 7 8 : a b c\ncut 2 b a\nend\n",
        out: b"meet 1\nvalue 3\nset a b c\ncommon ",
        ..MEETS
    },
    Row {
        file: b"sfm 1\nground a b c d e f\nrank 1 graphic : a=1-2 b=2-3 c=3-1 d=3-4 e=4-1 f=2-4\nend\n",
        side: b"sfm 1\nground a b c d e f\nrank 1 transversal : a=x b=x c=y d=y e=z f=x,z\nend\n",
        out: b"meet 1\nvalue 3\nset\ncommon ",
        ..MEETS
    },
    Row {
        file: b"sfm 1\nground a b c d\ncover 7 a b\ncover 5 b c\ncover 6 d\nend\n",
        side: b"sfm 1\nground a b c d\ncover 4 a d\ncover 9 b\ncover 8 c\nend\n",
        out: b"meet 1\nvalue 16\nset b c\ncommon ",
        ..MEETS
    },
    Row {
        file: b"sfm 1\nground a b\ntable 0 4 3 6 : a b\nend\n",
        side: b"sfm 1\nground a b\nrank 5 uniform 1 : a b\nend\n",
        out: b"meet 1\nvalue 5\nset\ncommon ",
        ..MEETS
    },
];

/// Verdicts on texts that are offered for the two ranks. A row has the line that is written, and behind a colon the text; in both
/// `|` is a line feed.
const VERDICTS: &str = "\
valid|:meet 1|value 1|set a b c|common 1 0 0|left 1 1 0 0|right 1 1 1 0|end|
valid|:meet 1|value 1|set a b c|common 1 0 0|left 1 1 0 0|right 1 1 0 1|end|
valid|:meet 1|value 1|set a b c|common 0 1 0|left 1 0 1 0|right 1 1 1 0|end|
invalid 4 unproved|:meet 1|value 1|set a b c|common 0 1 0|left 1 1 0 0|right 1 1 1 0|end|
invalid 2 answer|:meet 1|value 2|set a b c|common 1 0 0|left 1 1 0 0|right 1 1 1 0|end|
invalid 2 answer|:meet 1|value 2|set a|common 1 0 0|left 1 1 0 0|right 1 1 1 0|end|
invalid 2 answer|:meet 1|value 0|set a b c|common 1 0 0|left 1 1 0 0|right 1 1 1 0|end|
invalid 2 answer|:meet 1|value 1000000000000000000000000000000|set a b c|common 1 0 0|left 1 1 0 0|right 1 1 1 0|end|
invalid 3 answer|:meet 1|value 1|set a b|common 1 0 0|left 1 1 0 0|right 1 1 1 0|end|
invalid 3 answer|:meet 1|value 1|set|common 1 0 0|left 1 1 0 0|right 1 1 1 0|end|
invalid 4 unproved|:meet 1|value 1|set a b c|common 1 0 0|left 1 0 0 1|right 1 1 1 0|end|
invalid 4 unproved|:meet 1|value 1|set a b c|common 0 0 0|left 1 0 0 1|right 1 1 1 0|end|
invalid 5 base|:meet 1|value 1|set a b c|common 1 0 0|left 1 2 -1 0|right 1 1 1 0|end|
invalid 5 base|:meet 1|value 1|set a b c|common 1 0 0|left 1 2 -1 0|right 1 0 1 1|end|
invalid 5 base|:meet 1|value 1|set a b c|common 1 0 0|left 1 1000000000000000000000000000000 -1000000000000000000000000000000 1|right 1 1 1 0|end|
invalid 6 base|:meet 1|value 1|set a b c|common 1 0 0|left 1 1 0 0|right 1 0 1 1|end|
invalid 3 grammar|:meet 1|value 1|set b a|common 1 0 0|left 1 1 0 0|right 1 1 1 0|end|
invalid 4 grammar|:meet 1|value 1|set a b c|common 1 0|left 1 1 0 0|right 1 1 1 0|end|
invalid 4 grammar|:meet 1|value 1|set a b c|common 1 0 0 0|left 1 1 0 0|right 1 1 1 0|end|
invalid 2 grammar|:meet 1|value 01|set a b c|common 1 0 0|left 1 1 0 0|right 1 1 1 0|end|
invalid 5 grammar|:meet 1|value 1|set a b c|common 1 0 0|left 2 1 0 0|right 1 1 1 0|end|
invalid 5 grammar|:meet 1|value 1|set a b c|common 1 0 0|left 1.1 1 0 0|right 1 1 1 0|end|
invalid 5 grammar|:meet 1|value 1|set a b c|common 1 0 0|left 1 1000000000000000000000000000001 0 0|right 1 1 1 0|end|
invalid 5 grammar|:meet 1|value 1|set a b c|common 1 0 0|right 1 1 1 0|left 1 1 0 0|end|
invalid 6 grammar|:meet 1|value 1|set a b c|common 1 0 0|left 1 1 0 0|end|
invalid 1 grammar|:meet 2|value 1|set a b c|common 1 0 0|left 1 1 0 0|right 1 1 1 0|end|
invalid 1 grammar|:meet 1\r|value 1|set a b c|common 1 0 0|left 1 1 0 0|right 1 1 1 0|end|
invalid 7 grammar|:meet 1|value 1|set a b c|common 1 0 0|left 1 1 0 0|right 1 1 1 0|end
invalid 8 grammar|:meet 1|value 1|set a b c|common 1 0 0|left 1 1 0 0|right 1 1 1 0|end||
invalid 2 grammar|:meet 1|
invalid 1 grammar|:";

const GOOD: &[u8] = b"sfm 1\nground a b\nweight a:1 b:2\nend\n";

const OTHER_ORDER: &[u8] = b"sfm 1\n# the same names\nground b a\nweight a:1 b:2\nend\n";

const NEEDING: &[u8] = b"sfm 1\nground a b\nneed a b\nend\n";

/// Texts that are refused, whatever ANSWER is: it is not held.
const REFUSED: Row = Row {
    words: MEET,
    file: GOOD,
    side: GOOD,
    code: 2,
    ..MEETS
};

const REFUSALS: [Row; 8] = [
    Row {
        file: b"sfm 1\nground a b\nweight a:1\n",
        out: b"left 4 short\n",
        ..REFUSED
    },
    Row {
        side: b"sfm 1\nground a b\nweight z:1\nend\n",
        out: b"right 3 name\n",
        ..REFUSED
    },
    Row {
        side: OTHER_ORDER,
        out: b"right 3 ground\n",
        ..REFUSED
    },
    Row {
        file: NEEDING,
        side: OTHER_ORDER,
        out: b"right 3 ground\n",
        ..REFUSED
    },
    Row {
        file: NEEDING,
        out: b"left 3 need\n",
        ..REFUSED
    },
    Row {
        file: NEEDING,
        side: NEEDING,
        out: b"left 3 need\n",
        ..REFUSED
    },
    Row {
        side: b"sfm 1\nground a b\nweight a:1\nneed a b\nneed b a\nend\n",
        out: b"right 4 need\n",
        ..REFUSED
    },
    Row {
        side: b"sfm 1\nground a b c\nweight a:1 b:2\nend\n",
        out: b"right 2 ground\n",
        ..REFUSED
    },
];

/// Whether what a call of `meet` writes is right to `met`.
fn is_judged(alloc: Global, row: &Row) -> bool {
    let Ok(ended) = called(alloc, row) else {
        return false;
    };
    let judged = Row {
        words: MET,
        file: row.file,
        side: row.side,
        answer: ended.out.taken(),
        code: 0,
        out: VALID,
        err: b"",
    };
    is_met(alloc, &judged)
}

/// The code where that line is written.
fn code_of(line: &str) -> u8 {
    if line.as_bytes() == VALID { 0 } else { 1 }
}

/// Whether a row of the table of verdicts holds.
fn is_row(alloc: Global, row: &str) -> bool {
    let Ok(text) = row.replace(alloc, "|", "\n") else {
        return false;
    };
    let (line, answer) = text.as_str().split_once(':').unwrap_or(("", ""));
    let judged = Row {
        words: MET,
        file: RANKS.file,
        side: RANKS.side,
        answer: answer.as_bytes(),
        code: code_of(line),
        out: line.as_bytes(),
        err: b"",
    };
    is_met(alloc, &judged)
}

/// The same row with `met` and an answer that is not held.
fn with_no_answer<'a>(row: &Row<'a>) -> Row<'a> {
    Row {
        words: &["met", "file", "side", "none"],
        file: row.file,
        side: row.side,
        answer: row.answer,
        code: row.code,
        out: row.out,
        err: row.err,
    }
}

/// An instance over 256 elements, with so many lines that weigh all of them.
fn full(alloc: Global, lines: usize, last: &[u8]) -> Result<Vec<u8>, AllocError> {
    let mut text = Vec::from_slice(alloc, b"sfm 1\nground")?;
    for c in 0..=255u8 {
        text.extend_from_slice(&name_of(c))?;
    }
    for _ in 0..lines {
        text.extend_from_slice(b"\nweight")?;
        for c in 0..=255u8 {
            text.extend_from_slice(&name_of(c))?;
            text.extend_from_slice(b":1")?;
        }
    }
    text.extend_from_slice(last)?;
    text.extend_from_slice(b"\nend\n")?;
    Ok(text)
}

/// A space and the name of an element.
fn name_of(c: u8) -> [u8; 3] {
    [b' ', b'A'.wrapping_add(c / 16), b'a'.wrapping_add(c % 16)]
}

/// Whether two instances of so many lines each, and a last line, end so.
fn ends_with(
    alloc: Global,
    lines: [usize; 2],
    last: &[u8],
    code: u8,
    out: &[u8],
) -> Result<bool, AllocError> {
    let file = full(alloc, lines[0], b"")?;
    let side = full(alloc, lines[1], last)?;
    let row = Row {
        words: MEET,
        file: file.as_slice(),
        side: side.as_slice(),
        answer: b"",
        code,
        out,
        err: b"",
    };
    Ok(begins(alloc, &row))
}

/// Whether the right text of two is opened.
fn opens_right(alloc: Global, left: &[u8]) -> Result<bool, Memory> {
    let mut shelf = WatchedShelf::new(alloc, left, GOOD)?;
    call(alloc, &["meet", "first", "second"], &mut shelf, &SOUND)?;
    Ok(shelf.second)
}

#[test]
fn meets_what_is_determined(rt: HostRuntime) {
    for number in 0..FORCED.len() {
        assert!(rt; is_met(rt.alloc(), &FORCED[number]), "row {number}");
        assert!(rt; is_judged(rt.alloc(), &FORCED[number]), "row {number}");
    }
}

#[test]
fn meets_up_to_a_choice(rt: HostRuntime) {
    for number in 0..FREE.len() {
        assert!(rt; begins(rt.alloc(), &FREE[number]), "row {number}");
        assert!(rt; is_judged(rt.alloc(), &FREE[number]), "row {number}");
    }
}

#[test]
fn judges_common_vectors(rt: HostRuntime) {
    for row in VERDICTS.lines() {
        assert!(rt; is_row(rt.alloc(), row), "{row}");
    }
}

#[test]
fn tells_the_least_set_alone(rt: HostRuntime) {
    let row = Row {
        words: MET,
        answer: b"meet 1\nvalue 0\nset a\ncommon 0 0\nend\n",
        code: 1,
        out: b"invalid 3 answer\n",
        ..MEETS
    };
    assert!(rt; is_met(rt.alloc(), &row));
}

#[test]
fn refuses_two_that_do_not_go_together(rt: HostRuntime) {
    for number in 0..REFUSALS.len() {
        assert!(rt; is_met(rt.alloc(), &REFUSALS[number]), "row {number}");
        assert!(rt;
            is_met(rt.alloc(), &with_no_answer(&REFUSALS[number])),
            "row {number}"
        );
    }
}

#[test]
fn refuses_too_much_together(rt: HostRuntime) {
    let over = ends_with(rt.alloc(), [64, 0], b"\nweight Aa:1", 2, b"right 3 total\n");
    assert!(rt; matches!(over, Ok(true)));
    let whole = ends_with(rt.alloc(), [63, 1], b"", 0, b"meet 1\n");
    assert!(rt; matches!(whole, Ok(true)));
}

#[test]
fn opens_no_text_behind_a_fault(rt: HostRuntime) {
    assert!(rt; matches!(opens_right(rt.alloc(), b"sfm 1\n"), Ok(false)));
    assert!(rt; matches!(opens_right(rt.alloc(), GOOD), Ok(true)));
    let missing = Row {
        words: &["met", "file", "side", "none"],
        file: GOOD,
        side: GOOD,
        code: 3,
        err: READ_FAILED,
        ..MEETS
    };
    assert!(rt; is_met(rt.alloc(), &missing));
}
