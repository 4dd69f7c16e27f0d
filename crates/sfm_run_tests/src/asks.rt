// The best set with members pinned in and out: what `ask` writes, over an instance and pins in memory.
use crate::beside::{DUE, Row, is_met};
use crate::cases::READ_FAILED;

const NEED: &[u8] = b"sfm 1\nground a b\nneed a b\nend\n";

/// An instance and pins for which an answer is due.
const ASKS: Row = Row {
    words: &["ask", "file", "side"],
    ..DUE
};

/// A text with a fault.
const REFUSED: Row = Row { code: 2, ..ASKS };

const ROWS: [Row; 13] = [
    Row {
        side: b"pins 1\nin a\nout b\nend\n",
        out: b"pinned 1\nminimum 1\nleast a\ngreatest a\nend\n",
        ..ASKS
    },
    Row {
        side: b"pins 1\nout a\nend\n",
        out: b"pinned 1\nminimum 0\nleast\ngreatest\nend\n",
        ..ASKS
    },
    Row {
        side: b"pins 1\nend\n",
        out: b"pinned 1\nminimum -1\nleast a b\ngreatest a b\nend\n",
        ..ASKS
    },
    Row {
        file: NEED,
        side: b"pins 1\nin a\nend\n",
        out: b"pinned 1\nminimum 0\nleast a b\ngreatest a b\nend\n",
        ..ASKS
    },
    Row {
        file: NEED,
        side: b"pins 1\nin a\nout b\nend\n",
        out: b"none\n",
        ..ASKS
    },
    Row {
        file: b"sfm 1\nground\nend\n",
        side: b"pins 1\nend\n",
        out: b"pinned 1\nminimum 0\nleast\ngreatest\nend\n",
        ..ASKS
    },
    Row {
        side: b"pins 1\nin a\nout a\nend\n",
        out: b"pins 3 twice\n",
        ..REFUSED
    },
    Row {
        side: b"pins 1\nin z\nend\n",
        out: b"pins 2 name\n",
        ..REFUSED
    },
    Row {
        side: b"pins 1\nwith a\nend\n",
        out: b"pins 2 word\n",
        ..REFUSED
    },
    Row {
        side: b"pins 1\nin a\n",
        out: b"pins 3 short\n",
        ..REFUSED
    },
    Row {
        side: b"pins 2\n",
        out: b"pins 1 shape\n",
        ..REFUSED
    },
    Row {
        words: &["ask", "file", "none"],
        file: b"sfm 1\n",
        out: b"refused 2 short\n",
        ..REFUSED
    },
    Row {
        words: &["ask", "file", "none"],
        code: 3,
        err: READ_FAILED,
        ..ASKS
    },
];

#[test]
fn answers_with_pins(rt: HostRuntime) {
    for number in 0..ROWS.len() {
        assert!(rt; is_met(rt.alloc(), &ROWS[number]), "row {number}");
    }
}
