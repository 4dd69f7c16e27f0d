// Calls that fail: by the outside, by the words, and by texts that are too long.
use crate::cases::{Case, Outside, READ_FAILED, SOLVE, SOUND, WRITE_FAILED, is_met, solve};
use std::alloc::Global;

const FIRST: &[u8] = b"sfm 1\nground a b\nweight a:-3 b:2\nend\n";

const FIRST_ANSWER: &[u8] =
    b"answer 1\nminimum -3\nleast a\ngreatest a\nslope -3/1 a\nslope 2/1 a b\nat 0/1\nbase 1 -3 2\nat -3/1\nbase 1 -3 2\nat 2/1\nbase 1 -3 2\nend\n";

const USAGE: &[u8] =
    b"usage: sfm solve FILE | check FILE ANSWER | demo SEED | weigh FILE SIZES | weighed FILE SIZES ANSWER | ask FILE PINS | level FILE | edit FILE EDITS | meet LEFT RIGHT | met LEFT RIGHT ANSWER\n";

/// A right text that is solved, of which nothing fails.
const SOLVED: Case = Case {
    words: SOLVE,
    first: FIRST,
    second: b"",
    outside: &SOUND,
    code: 0,
    out: FIRST_ANSWER,
    err: b"",
};

/// The same, where reading fails.
const UNREAD: Case = Case {
    code: 3,
    out: b"",
    err: READ_FAILED,
    ..SOLVED
};

/// Pieces of 10 bytes, and the fourth call of the shelf fails.
const FOURTH_READ: Outside = Outside {
    read_piece: 10,
    failing_reads: &[4],
    ..SOUND
};

const OUTSIDE: [Case; 8] = [
    Case {
        outside: &Outside {
            read_piece: 1,
            write_piece: 1,
            ..SOUND
        },
        ..SOLVED
    },
    Case {
        outside: &FOURTH_READ,
        ..UNREAD
    },
    Case {
        first: b"sfm 1\nground a\ncut 1 a b\nend\n",
        outside: &Outside {
            read_piece: 3,
            ..SOUND
        },
        code: 2,
        out: b"refused 3 name\n",
        ..SOLVED
    },
    Case {
        first: b"sfm 3\nground a b\nweight a:-3 b:2\nend\n",
        outside: &FOURTH_READ,
        ..UNREAD
    },
    Case {
        outside: &Outside {
            write_piece: 10,
            failing_writes: &[3],
            ..SOUND
        },
        code: 4,
        out: b"answer 1\nminimum -3\n",
        err: WRITE_FAILED,
        ..SOLVED
    },
    Case {
        words: &["solve", "third"],
        ..UNREAD
    },
    Case {
        words: &["check", "first", "third"],
        ..UNREAD
    },
    Case {
        words: &["check", "first", "third"],
        first: b"sfm 3\n",
        code: 2,
        out: b"refused 1 shape\n",
        ..SOLVED
    },
];

#[test]
fn pieces_and_faults_of_the_outside(rt: HostRuntime) {
    for number in 0..OUTSIDE.len() {
        assert!(rt; is_met(rt.alloc(), &OUTSIDE[number]), "row {number}");
    }
}

const NO_COMMANDS: [&[&str]; 18] = [
    &["solv", "first"],
    &["solve", "-first"],
    &["solve", ""],
    &["check", "first"],
    &["check", "first", "-second"],
    &["solve", "first", "second"],
    &["demo"],
    &["demo", "1000000000"],
    &["weigh", "first"],
    &["weigh", "first", "second", "third"],
    &["weigh", "-first", "second"],
    &["weighed", "first", "second"],
    &["ask", "first"],
    &["ask", "first", "second", "third"],
    &["level"],
    &["level", "first", "second"],
    &["edit", "first"],
    &["edit", "first", "second", "third"],
];

/// Whether a call with these words says how it is to be called.
fn is_no_command(alloc: Global, words: &[&str]) -> bool {
    let case = Case {
        words,
        err: USAGE,
        ..solve(FIRST, 64, b"")
    };
    is_met(alloc, &case)
}

#[test]
fn words_that_are_no_command(rt: HostRuntime) {
    for number in 0..NO_COMMANDS.len() {
        assert!(rt;
            is_no_command(rt.alloc(), NO_COMMANDS[number]),
            "row {number}"
        );
    }
}

const LONG: &[u8] = b"refused 0 long\n";

/// Whether a text is refused that is longer than the limit.
fn is_long_refused(alloc: Global) -> bool {
    match vec![in alloc; b'#'; 16_777_217] {
        Ok(text) => is_met(alloc, &solve(&text, 2, LONG)),
        Err(_) => false,
    }
}

#[test]
fn refuses_a_long_text(rt: HostRuntime) {
    assert!(rt; is_long_refused(rt.alloc()));
}
