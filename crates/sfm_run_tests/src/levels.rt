// Most level bases: what `level` writes, over an instance in memory.
use crate::beside::{DUE, Row, begins, is_met};
use crate::cases::READ_FAILED;

/// An instance for which a most level base is due.
const LEVELS: Row = Row {
    words: &["level", "file"],
    ..DUE
};

/// A text with a fault.
const REFUSED: Row = Row { code: 2, ..LEVELS };

/// What is written is determined.
const FORCED: [Row; 7] = [
    Row {
        file: b"sfm 1\nground a b\nweight a:-3 b:2\nneed b a\nend\n",
        out: b"level 1\nsquares 13\nvector -3 2\nbase 1 -3 2\nbase 2 0 0\nend\n",
        ..LEVELS
    },
    Row {
        file: b"sfm 1\nground\nend\n",
        out: b"level 1\nsquares 0\nvector\nend\n",
        ..LEVELS
    },
    Row {
        file: b"sfm 1\nground a b c\nend\n",
        out: b"level 1\nsquares 0\nvector 0 0 0\nend\n",
        ..LEVELS
    },
    Row {
        file: b"sfm 1\nground a b c\nweight a:1 b:1 c:-2\nend\n",
        out: b"level 1\nsquares 6\nvector 1 1 -2\nbase 1 1 1 -2\nend\n",
        ..LEVELS
    },
    Row {
        file: b"sfm 1\nground a b\nconcave 1000000000000 1000000000000 : a b\nend\n",
        out: b"level 1\nsquares 500000000000000000000000\nvector 500000000000 500000000000\nbase 1 500000000000 500000000000\nend\n",
        ..LEVELS
    },
    Row {
        file: b"sfm 1\nground a b\ncut 1000000000000 a b\nweight a:-1000000000000 b:1000000000000\nend\n",
        out: b"level 1\nsquares 0\nvector 0 0\nbase 1 1000000000000 -1000000000000\nbase 2 -1000000000000 1000000000000\nend\n",
        ..LEVELS
    },
    Row {
        file: b"sfm 1\nground a b c d\ncut 5 a b\ncut 5 b c\ncut 5 c d\nweight a:-9 d:8\nend\n",
        out: b"level 1\nsquares 25\nvector -4 0 0 3\nbase 1 5 -5\nbase 2 5 -5\nbase 3 5 -5\nbase 4 -9 8\nend\n",
        ..LEVELS
    },
];

/// The sum of the squares is determined, and one of several vectors may be written.
const FREE: [Row; 4] = [
    Row {
        file: b"sfm 1\nground a b c\nconcave 4 7 8 : a b c\nend\n",
        out: b"level 1\nsquares 22\nvector ",
        ..LEVELS
    },
    Row {
        out: b"level 1\nsquares 1\nvector ",
        ..LEVELS
    },
    Row {
        file: b"sfm 1\nground a b\nweight a:-3 b:2\nneed a b\nend\n",
        out: b"level 1\nsquares 1\nvector ",
        ..LEVELS
    },
    Row {
        file: b"sfm 1\nground a b c d\nrank 1 graphic : a=u-v b=v-w c=u-w d=w-x\nend\n",
        out: b"level 1\nsquares 3\nvector ",
        ..LEVELS
    },
];

/// Ten lines that add to the most that sizes may add to.
const FULL: &[u8] =
    b"sfm 1\nground a\nweight a:1000000000000\nweight a:1000000000000\nweight a:1000000000000\nweight a:1000000000000\nweight a:1000000000000\nweight a:1000000000000\nweight a:1000000000000\nweight a:1000000000000\nweight a:1000000000000\nweight a:1000000000000\nend\n";

/// One line more.
const OVER: &[u8] =
    b"sfm 1\nground a\nweight a:1000000000000\nweight a:1000000000000\nweight a:1000000000000\nweight a:1000000000000\nweight a:1000000000000\nweight a:1000000000000\nweight a:1000000000000\nweight a:1000000000000\nweight a:1000000000000\nweight a:1000000000000\nweight a:1\nend\n";

/// The same with a comment before that line.
const NOTED: &[u8] =
    b"sfm 1\nground a\nweight a:1000000000000\nweight a:1000000000000\nweight a:1000000000000\nweight a:1000000000000\nweight a:1000000000000\nweight a:1000000000000\nweight a:1000000000000\nweight a:1000000000000\nweight a:1000000000000\nweight a:1000000000000\n# one more\nweight a:1\nend\n";

/// The same with a fault behind that line.
const FAULTY: &[u8] =
    b"sfm 1\nground a\nweight a:1000000000000\nweight a:1000000000000\nweight a:1000000000000\nweight a:1000000000000\nweight a:1000000000000\nweight a:1000000000000\nweight a:1000000000000\nweight a:1000000000000\nweight a:1000000000000\nweight a:1000000000000\nweight a:1\ncut 1 a a\nend\n";

const ENDS: [Row; 5] = [
    Row {
        file: OVER,
        out: b"refused 13 total\n",
        ..REFUSED
    },
    Row {
        file: NOTED,
        out: b"refused 14 total\n",
        ..REFUSED
    },
    Row {
        file: FAULTY,
        out: b"refused 14 twice\n",
        ..REFUSED
    },
    Row {
        file: b"sfm 1\nground a b\nweight a:-3 b:2\ncut 4 a b\n",
        out: b"refused 5 short\n",
        ..REFUSED
    },
    Row {
        words: &["level", "none"],
        code: 3,
        err: READ_FAILED,
        ..LEVELS
    },
];

#[test]
fn levels_what_is_determined(rt: HostRuntime) {
    for number in 0..FORCED.len() {
        assert!(rt; is_met(rt.alloc(), &FORCED[number]), "row {number}");
    }
}

#[test]
fn levels_up_to_a_choice(rt: HostRuntime) {
    for number in 0..FREE.len() {
        assert!(rt; begins(rt.alloc(), &FREE[number]), "row {number}");
    }
}

#[test]
fn levels_no_more_than_the_limit(rt: HostRuntime) {
    let full = Row {
        file: FULL,
        out: b"level 1\nsquares 100000000000000000000000000\nvector 10000000000000\n",
        ..LEVELS
    };
    assert!(rt; begins(rt.alloc(), &full));
    for number in 0..ENDS.len() {
        assert!(rt; is_met(rt.alloc(), &ENDS[number]), "row {number}");
    }
}
