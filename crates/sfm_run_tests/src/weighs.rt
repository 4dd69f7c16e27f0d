// Slopes by sizes: what `weigh` writes, and what `weighed` says of an answer, over three texts in memory.
use crate::beside::{DUE, Row, is_met};
use crate::cases::READ_FAILED;

const WEIGH: &[&str] = &["weigh", "file", "side"];

const WEIGHED: &[&str] = &["weighed", "file", "side", "answer"];

const EDGE_SIZES: &[u8] = b"sizes 1\nsize b:3\nend\n";

const EDGE_HEAD: &[u8] =
    b"weighed 1\nminimum -1\nleast a b\ngreatest a b\nslope -1/4 a b\nat 0/1\nbase 1 -3 2\nbase 2 3 -3\nat -1/4\nbase 1 -12 8\nbase 2 11 -11\nend\n";

const EDGE_OTHER: &[u8] =
    b"weighed 1\nminimum -1\nleast a b\ngreatest a b\nslope -1/4 a b\nat 0/1\nbase 1 -3 2\nbase 2 2 -2\nat -1/4\nbase 1 -12 8\nbase 2 11 -11\nend\n";

const EDGE_UNPROVED: &[u8] =
    b"weighed 1\nminimum -1\nleast a b\ngreatest a b\nslope -1/4 a b\nat 0/1\nbase 1 -3 2\nbase 2 3 -3\nat -1/4\nbase 1 -12 8\nbase 2 12 -12\nend\n";

const THREE: &[u8] = b"sfm 1\nground a b c\nweight a:1 b:1 c:-2\nend\n";

const THREE_ANSWER: &[u8] =
    b"weighed 1\nminimum -2\nleast c\ngreatest c\nslope -2/1 c\nslope 1/2 b c\nslope 1/1 a b c\nat 0/1\nbase 1 1 1 -2\nat -2/1\nbase 1 1 1 -2\nat 1/2\nbase 1 2 2 -4\nat 1/1\nbase 1 1 1 -2\nend\n";

/// A right answer, judged so.
const VALID: Row = Row {
    words: WEIGHED,
    side: EDGE_SIZES,
    answer: EDGE_HEAD,
    out: b"valid\n",
    ..DUE
};

/// An instance and sizes for which an answer is due.
const WEIGHS: Row = Row {
    words: WEIGH,
    ..VALID
};

/// Sizes with a fault.
const REFUSED: Row = Row { code: 2, ..WEIGHS };

/// A file that can't be read.
const UNREAD: Row = Row {
    code: 3,
    out: b"",
    err: READ_FAILED,
    ..VALID
};

const ROWS: [Row; 24] = [
    Row {
        file: THREE,
        side: b"sizes 1\nsize b:2\nend\n",
        out: THREE_ANSWER,
        ..WEIGHS
    },
    Row {
        file: b"sfm 1\nground\nend\n",
        side: b"sizes 1\nend\n",
        out: b"weighed 1\nminimum 0\nleast\ngreatest\nat 0/1\nend\n",
        ..WEIGHS
    },
    Row {
        file: b"sfm 1\nground a\nweight a:5\nend\n",
        side: b"sizes 1\nsize a:1000000\nend\n",
        out: b"weighed 1\nminimum 0\nleast\ngreatest\nslope 1/200000 a\nat 0/1\nbase 1 5\nat 1/200000\nbase 1 1000000\nend\n",
        ..WEIGHS
    },
    Row {
        file: b"sfm 1\nground a b\nneed a b\nend\n",
        side: b"sizes 1\nsize a:2 b:5\nend\n",
        out: b"weighed 1\nminimum 0\nleast\ngreatest a b\nblock 1 b :\nblock 2 a : 1\nslope 0/1 a b\nat 0/1\nbase 1 0 0\nat 0/1\nbase 1 0 0\nend\n",
        ..WEIGHS
    },
    VALID,
    Row {
        answer: EDGE_OTHER,
        out: b"valid\n",
        ..VALID
    },
    Row {
        answer: EDGE_UNPROVED,
        code: 1,
        out: b"invalid 9 unproved\n",
        ..VALID
    },
    Row {
        answer: b"answer 1\nminimum -1\n",
        code: 1,
        out: b"invalid 1 grammar\n",
        ..VALID
    },
    Row {
        answer: b"weighed 1\nminimum -1\n",
        code: 1,
        out: b"invalid 3 grammar\n",
        ..VALID
    },
    Row {
        side: b"",
        out: b"sizes 1 short\n",
        ..REFUSED
    },
    Row {
        side: b"sizes 2\n",
        out: b"sizes 1 shape\n",
        ..REFUSED
    },
    Row {
        side: b"sfm 1\n",
        out: b"sizes 1 word\n",
        ..REFUSED
    },
    Row {
        side: b"sizes 1\nsize a:1:2\nend\n",
        out: b"sizes 2 shape\n",
        ..REFUSED
    },
    Row {
        side: b"sizes 1\nsize b:0\nend\n",
        out: b"sizes 2 number\n",
        ..REFUSED
    },
    Row {
        side: b"sizes 1\nsize z:1\nend\n",
        out: b"sizes 2 name\n",
        ..REFUSED
    },
    Row {
        side: b"sizes 1\nsize a:1\nsize b:2 a:1\nend\n",
        out: b"sizes 3 twice\n",
        ..REFUSED
    },
    Row {
        side: b"sizes 1\nsize a:999999 b:2\nend\n",
        out: b"sizes 2 total\n",
        ..REFUSED
    },
    Row {
        side: b"sizes 1\nsize a:2\n",
        out: b"sizes 3 short\n",
        ..REFUSED
    },
    Row {
        side: b"sizes 1\nend\nsize a:1\n",
        out: b"sizes 3 word\n",
        ..REFUSED
    },
    Row {
        words: &["weigh", "file", "none"],
        file: b"sfm 1\n",
        out: b"refused 2 short\n",
        ..REFUSED
    },
    Row {
        words: &["weighed", "file", "side", "none"],
        side: b"sizes 1\nsize b:0\nend\n",
        out: b"sizes 2 number\n",
        ..REFUSED
    },
    Row {
        words: &["weigh", "file", "none"],
        ..UNREAD
    },
    Row {
        words: &["weighed", "file", "side", "none"],
        ..UNREAD
    },
    Row {
        words: &["weighed", "none", "side", "answer"],
        ..UNREAD
    },
];

#[test]
fn weighs_and_judges(rt: HostRuntime) {
    for number in 0..ROWS.len() {
        assert!(rt; is_met(rt.alloc(), &ROWS[number]), "row {number}");
    }
}
