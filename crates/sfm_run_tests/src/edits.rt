// Edited instances: what `edit` writes, over an instance and edits in memory.
use crate::beside::{DUE, Row, begins, is_met};
use crate::cases::READ_FAILED;

const FIRST: &[u8] = b"sfm 1\nground a b\nweight a:-3 b:2\nend\n";

const FIRST_ANSWER: &[u8] =
    b"answer 1\nminimum -3\nleast a\ngreatest a\nslope -3/1 a\nslope 2/1 a b\nat 0/1\nbase 1 -3 2\nat -3/1\nbase 1 -3 2\nat 2/1\nbase 1 -3 2\nend\n";

/// An instance and edits for which an answer is due.
const EDITS: Row = Row {
    words: &["edit", "file", "side"],
    ..DUE
};

/// A text with a fault.
const REFUSED: Row = Row { code: 2, ..EDITS };

/// What is written is determined.
const FORCED: [Row; 4] = [
    Row {
        side: b"edits 1\ndrop 2\nend\n",
        out: FIRST_ANSWER,
        ..EDITS
    },
    Row {
        side: b"edits 1\nadd weight a:1\nend\n",
        out: b"answer 1\nminimum 0\nleast\ngreatest a b\nblock 1 a b :\nslope 0/1 a b\nat 0/1\nbase 1 -3 2\nbase 2 2 -2\nbase 3 1\nat 0/1\nbase 1 -3 2\nbase 2 2 -2\nbase 3 1\nend\n",
        ..EDITS
    },
    Row {
        side: b"edits 1\r\n# one more\r\n\tadd\tweight  a:1\r\n\r\nend",
        out: b"answer 1\nminimum 0\nleast\ngreatest a b\nblock 1 a b :\nslope 0/1 a b\nat 0/1\nbase 1 -3 2\nbase 2 2 -2\nbase 3 1\nat 0/1\nbase 1 -3 2\nbase 2 2 -2\nbase 3 1\nend\n",
        ..EDITS
    },
    Row {
        side: b"edits 1\ndrop 1\ndrop 1\nend\n",
        out: b"answer 1\nminimum 0\nleast\ngreatest a b\nblock 1 a :\nblock 2 b :\nslope 0/1 a b\nat 0/1\nat 0/1\nend\n",
        ..EDITS
    },
];

/// The answer lines are determined, and bases may differ.
const FREE: [Row; 3] = [
    Row {
        file: FIRST,
        side: b"edits 1\nadd cut 4 a b\nend\n",
        out: b"answer 1\nminimum -1\nleast a b\ngreatest a b\nslope -1/2 a b\nat 0/1\n",
        ..EDITS
    },
    Row {
        side: b"edits 1\nend\n",
        out: b"answer 1\nminimum -1\nleast a b\ngreatest a b\nslope -1/2 a b\nat 0/1\n",
        ..EDITS
    },
    Row {
        side: b"edits 1\ndrop 1\nadd need a b\nend\n",
        out: b"answer 1\nminimum 0\nleast\ngreatest a b\nblock 1 b :\nblock 2 a : 1\nslope 0/1 a b\nat 0/1\n",
        ..EDITS
    },
];

/// Texts of edits with a fault, and the line that names it.
const FAULTS: [(&[u8], &[u8]); 22] = [
    (b"edits 1\ndrop 1\ndrop 2\nend\n", b"edits 3 number\n"),
    (b"edits 1\ndrop 3\nend\n", b"edits 2 number\n"),
    (b"edits 1\ndrop 0\nend\n", b"edits 2 number\n"),
    (b"edits 1\ndrop -1\nend\n", b"edits 2 number\n"),
    (b"edits 1\ndrop 01\nend\n", b"edits 2 number\n"),
    (b"edits 1\ndrop x\nend\n", b"edits 2 number\n"),
    (
        b"edits 1\ndrop 10000000000000000000000000000000\nend\n",
        b"edits 2 number\n",
    ),
    (b"edits 1\ndrop\nend\n", b"edits 2 shape\n"),
    (b"edits 1\ndrop 1 2\nend\n", b"edits 2 shape\n"),
    (b"edits 1\ndrop :\nend\n", b"edits 2 shape\n"),
    (b"edits 1\nadd\nend\n", b"edits 2 word\n"),
    (b"edits 1\nadd end\nend\n", b"edits 2 word\n"),
    (b"edits 1\nadd ground a\nend\n", b"edits 2 word\n"),
    (b"edits 1\nadd sfm 1\nend\n", b"edits 2 word\n"),
    (b"edits 1\nadd add cut 1 a b\nend\n", b"edits 2 word\n"),
    (b"edits 1\nweight a:1\nend\n", b"edits 2 word\n"),
    (b"edits 1\nadd cut 1 a\nend\n", b"edits 2 shape\n"),
    (b"edits 1\nadd cut -1 a b\nend\n", b"edits 2 number\n"),
    (b"edits 1\nadd cut 1 a z\nend\n", b"edits 2 name\n"),
    (b"edits 1\nadd cut 1 a a\nend\n", b"edits 2 twice\n"),
    (b"edits 1\nadd table 0 1 1 3 : a b\nend\n", b"edits 2 law\n"),
    (b"edits 1\ndrop 1\n", b"edits 3 short\n"),
];

const ENDS: [Row; 2] = [
    Row {
        words: &["edit", "file", "none"],
        file: b"sfm 1\n",
        out: b"refused 2 short\n",
        ..REFUSED
    },
    Row {
        words: &["edit", "file", "none"],
        code: 3,
        err: READ_FAILED,
        ..EDITS
    },
];

#[test]
fn solves_what_edits_lead_to(rt: HostRuntime) {
    for number in 0..FORCED.len() {
        assert!(rt; is_met(rt.alloc(), &FORCED[number]), "row {number}");
    }
    for number in 0..FREE.len() {
        assert!(rt; begins(rt.alloc(), &FREE[number]), "free row {number}");
    }
}

#[test]
fn refuses_faulty_edits(rt: HostRuntime) {
    for number in 0..FAULTS.len() {
        let (side, out) = FAULTS[number];
        let row = Row {
            side,
            out,
            ..REFUSED
        };
        assert!(rt; is_met(rt.alloc(), &row), "row {number}");
    }
    for number in 0..ENDS.len() {
        assert!(rt; is_met(rt.alloc(), &ENDS[number]), "end {number}");
    }
}
