// Hostile use: calls of the outside that fail, one after another; answers and instances that end too soon, or that are as long as
// they may be; answers with another byte. Each row is what the definitions ask for, worked by hand.
use crate::cases::{
    CHECK, Case, Outside, READ_FAILED, SOLVE, SOUND, WRITE_FAILED, call, is_met, solve, written,
};
use crate::shelves::WatchedShelf;
use sfm_check::{Verdict, Wrong, judge};
use sfm_io::MemorySink;
use sfm_kind::Instance;
use sfm_text::{TextEnd, read_instance};
use std::alloc::Global;
use std::process::Abort;

const CUT: &[u8] = b"sfm 1\nground a b\nweight a:-3 b:2\ncut 4 a b\nend\n";

/// A right file for it.
const CUT_ANSWER: &[u8] =
    b"answer 1\nminimum -1\nleast a b\ngreatest a b\nslope -1/2 a b\nat 0/1\nbase 1 -3 2\nbase 2 3 -3\nat -1/2\nbase 1 -6 4\nbase 2 5 -5\nend\n";

/// What fails in a call of the program.
#[derive(Clone, Copy)]
enum Failing {
    /// A call of the shelf.
    Read,
    /// A call of the sink.
    Write,
    /// The sink, once it has taken so many bytes.
    Room,
    /// A call of the shelf, and the first call of the sink that is to say so.
    ReadAndSay,
}

/// Calls that fail, one in each run: from the first number to the last.
#[derive(Clone, Copy)]
struct Faults<'a> {
    words: &'a [&'a str],
    failing: Failing,
    first: usize,
    last: usize,
    code: u8,
}

/// How many of the due bytes are written where the call of that number fails.
fn written_before(failing: Failing, number: usize, code: u8) -> usize {
    match failing {
        Failing::Write => number.saturating_sub(1).saturating_mul(10),
        Failing::Room => number,
        Failing::Read | Failing::ReadAndSay => if code == 0 { 4096 } else { 0 },
    }
}

/// What is said where a call ends with that code.
fn line_of(failing: Failing, code: u8) -> &'static [u8] {
    match (failing, code) {
        (Failing::ReadAndSay, _) => b"",
        (_, 3) => READ_FAILED,
        (_, 4) => WRITE_FAILED,
        _ => b"",
    }
}

const TENS: Outside = Outside {
    read_piece: 10,
    write_piece: 10,
    ..SOUND
};

const FIRST_CALL: &[usize] = &[1];

/// Pieces of 10 bytes, and a call that fails, or room for so many bytes.
fn outside_of<'a>(failing: Failing, number: usize, call: &'a [usize]) -> Outside<'a> {
    match failing {
        Failing::Read => Outside {
            failing_reads: call,
            ..TENS
        },
        Failing::Write => Outside {
            failing_writes: call,
            ..TENS
        },
        Failing::Room => Outside {
            room: number,
            ..TENS
        },
        Failing::ReadAndSay => Outside {
            failing_reads: call,
            failing_says: FIRST_CALL,
            ..TENS
        },
    }
}

/// Whether a run ends as it must in which the call of that number fails; `due` is written where none does.
fn is_fault_met(alloc: Global, row: &Faults, number: usize, due: &[u8]) -> bool {
    let call = [number];
    let outside = outside_of(row.failing, number, &call);
    let written = written_before(row.failing, number, row.code).min(due.len());
    let case = Case {
        words: row.words,
        first: CUT,
        second: CUT_ANSWER,
        outside: &outside,
        code: row.code,
        out: &due[..written],
        err: line_of(row.failing, row.code),
    };
    is_met(alloc, &case)
}

/// Whether the runs of a row end as they must.
fn are_faults_met(alloc: Global, row: &Faults, due: &[u8]) -> bool {
    for number in row.first..=row.last {
        if !is_fault_met(alloc, row, number, due) {
            return false;
        }
    }
    true
}

const SINGLE: Outside = Outside {
    write_piece: 1,
    ..SOUND
};

/// What a run writes that nothing fails: it reads 1, 2 and 3 bytes in turn, and writes one byte at a time.
fn due_of(alloc: Global, words: &[&str]) -> Option<MemorySink> {
    let Ok(mut shelf) = WatchedShelf::new(alloc, CUT, CUT_ANSWER) else {
        return None;
    };
    match call(alloc, words, &mut shelf, &SINGLE) {
        Ok(ended) if ended.code == 0 => Some(ended.out),
        _ => None,
    }
}

/// Whether the runs of a row end as they must, by what a run writes that nothing fails.
fn is_row(alloc: Global, row: &Faults) -> bool {
    match due_of(alloc, row.words) {
        Some(due) => are_faults_met(alloc, row, due.taken()),
        None => false,
    }
}

const CALLS_THAT_FAIL: [Faults; 8] = [
    Faults {
        words: SOLVE,
        failing: Failing::Read,
        first: 1,
        last: 7,
        code: 3,
    },
    Faults {
        words: SOLVE,
        failing: Failing::Read,
        first: 8,
        last: 8,
        code: 0,
    },
    Faults {
        words: CHECK,
        failing: Failing::Read,
        first: 1,
        last: 22,
        code: 3,
    },
    Faults {
        words: CHECK,
        failing: Failing::Read,
        first: 23,
        last: 23,
        code: 0,
    },
    Faults {
        words: SOLVE,
        failing: Failing::Write,
        first: 1,
        last: 13,
        code: 4,
    },
    Faults {
        words: SOLVE,
        failing: Failing::Room,
        first: 20,
        last: 20,
        code: 4,
    },
    Faults {
        words: CHECK,
        failing: Failing::Write,
        first: 1,
        last: 1,
        code: 4,
    },
    Faults {
        words: SOLVE,
        failing: Failing::ReadAndSay,
        first: 1,
        last: 1,
        code: 3,
    },
];

#[test]
fn calls_that_fail(rt: HostRuntime) {
    for number in 0..CALLS_THAT_FAIL.len() {
        assert!(rt;
            is_row(rt.alloc(), &CALLS_THAT_FAIL[number]),
            "row {number}"
        );
    }
}

/// Whether a file for an instance has that verdict.
fn is_judged(alloc: Global, instance: &Instance, file: &[u8], wanted: Verdict) -> bool {
    match judge(alloc, instance, file) {
        Ok(verdict) => verdict == wanted,
        Err(_) => false,
    }
}

/// The number of the last line of a text, which may be an empty one.
fn last_line(text: &[u8]) -> usize {
    let mut line = 1usize;
    for byte in text {
        if *byte == b'\n' {
            line = line.wrapping_add(1);
        }
    }
    line
}

/// Whether the last line of a file is its first that is none of an answer.
fn ends_too_soon(alloc: Global, instance: &Instance, file: &[u8]) -> bool {
    let wanted = Verdict::Invalid {
        line: last_line(file),
        reason: Wrong::Grammar,
    };
    is_judged(alloc, instance, file, wanted)
}

const NEED: &[u8] = b"sfm 1\nground a b\nneed a b\nend\n";

/// A right file for it.
const NEED_ANSWER: &[u8] =
    b"answer 1\nminimum 0\nleast\ngreatest a b\nblock 1 b :\nblock 2 a : 1\nslope 0/1 a b\nat 0/1\nbase 1 0 0\nat 0/1\nbase 1 0 0\nend\n";

/// Asserts that each beginning of that file ends too soon.
fn are_too_short(rt: &impl Abort, alloc: Global, instance: &Instance) {
    for end in 0..NEED_ANSWER.len() {
        assert!(rt;
            ends_too_soon(alloc, instance, &NEED_ANSWER[..end]),
            "the first {end} bytes"
        );
    }
}

/// Whether a file is right with the right byte at a place alone, which it has again then.
fn has_one_byte(
    alloc: Global,
    instance: &Instance,
    file: &mut [u8],
    place: usize,
    right: u8,
) -> bool {
    if file.len() <= place {
        return false;
    }
    for byte in 0..=255u8 {
        file[place] = byte;
        if is_judged(alloc, instance, file, Verdict::Valid) != (byte == right) {
            return false;
        }
    }
    file[place] = right;
    true
}

/// Asserts that a copy of that file is right with no other byte at any place.
fn has_no_other_byte(rt: &impl Abort, alloc: Global, instance: &Instance, file: &mut [u8]) {
    for place in 0..NEED_ANSWER.len() {
        assert!(rt;
            has_one_byte(alloc, instance, file, place, NEED_ANSWER[place]),
            "at {place}"
        );
    }
}

#[test]
fn answers_that_end_too_soon(rt: HostRuntime) {
    let Ok(instance) = read_instance(rt.alloc(), NEED) else {
        panic!(rt; "no instance");
    };
    are_too_short(&rt, rt.alloc(), &instance);
}

#[test]
fn answers_with_another_byte(rt: HostRuntime) {
    let Ok(instance) = read_instance(rt.alloc(), NEED) else {
        panic!(rt; "no instance");
    };
    let Ok(mut file) = Vec::from_slice(rt.alloc(), NEED_ANSWER) else {
        panic!(rt; "no memory");
    };
    has_no_other_byte(&rt, rt.alloc(), &instance, &mut file);
}

const EVERY_WORD: &[u8] =
    b"sfm 1\nground a b c d\nweight a:-3 b:2 c:-1 d:0\ncut 4 a b\nneed c d\ncover 3 a b c\nconcave 2 3 : b d\ntable 0 1 1 1 : a c\nrank 2 uniform 1 : a b\nrank 1 laminar : a b c ; 2 a b c ; 1 a b\nrank 2 graphic : a=u-v b=v-w c=u-w\nrank 1 transversal : c=s,t d=t\nend\n";

/// Whether a text is read, where it is whole, or refused at its last line or behind it, where it is not.
fn is_told(alloc: Global, text: &[u8], is_whole: bool) -> bool {
    let last = last_line(text);
    match read_instance(alloc, text) {
        Ok(_) => is_whole,
        Err(TextEnd::Refused { line, .. }) => {
            !is_whole && (line == last || line == last.wrapping_add(1))
        }
        Err(TextEnd::Memory) => false,
    }
}

/// Only the last line feed may be left out.
#[test]
fn instances_that_end_too_soon(rt: HostRuntime) {
    for end in 0..EVERY_WORD.len() {
        let is_whole = end == EVERY_WORD.len().wrapping_sub(1);
        assert!(rt;
            is_told(rt.alloc(), &EVERY_WORD[..end], is_whole),
            "the first {end} bytes"
        );
    }
}

/// Instances, with the code, and whether the answer is opened.
const OPENED: [(&[u8], u8, bool); 2] = [
    (b"sfm 3\n", 2, false),
    (
        b"sfm 1\nground a b\nweight a:-3 b:2\ncut 4 a b\nend\n",
        0,
        true,
    ),
];

/// Whether a check ends with that code, and asks for the answer or not.
fn is_asked(alloc: Global, text: &[u8], code: u8, asked: bool) -> bool {
    let Ok(mut shelf) = WatchedShelf::new(alloc, text, CUT_ANSWER) else {
        return false;
    };
    match call(alloc, CHECK, &mut shelf, &SOUND) {
        Ok(ended) => ended.code == code && shelf.second == asked,
        Err(_) => false,
    }
}

#[test]
fn a_refused_instance_leaves_the_answer_unopened(rt: HostRuntime) {
    for (text, code, asked) in &OPENED {
        assert!(rt; is_asked(rt.alloc(), text, *code, *asked));
    }
}

const TOO_LONG: Verdict = Verdict::Invalid {
    line: 0,
    reason: Wrong::Long,
};

/// Whether a file longer than the limit is wrong as a whole.
fn is_too_long(alloc: Global, instance: &Instance) -> bool {
    match vec![in alloc; b'a'; 268_435_457] {
        Ok(file) => is_judged(alloc, instance, &file, TOO_LONG),
        Err(_) => false,
    }
}

/// The same over the cut.
fn is_too_long_for_cut(alloc: Global) -> bool {
    match read_instance(alloc, CUT) {
        Ok(instance) => is_too_long(alloc, &instance),
        Err(_) => false,
    }
}

#[test]
fn a_file_longer_than_the_limit(rt: HostRuntime) {
    assert!(rt; is_too_long_for_cut(rt.alloc()));
}

/// Whether the answer of an instance begins so.
fn begins(alloc: Global, text: &[u8], head: &[u8]) -> bool {
    match written(alloc, &solve(text, 0, b"")) {
        Some(answer) => answer.taken().starts_with(head),
        None => false,
    }
}

/// Adds comment lines to a text up to that size.
fn fill_up(text: &mut Vec<u8>, size: usize) -> bool {
    for place in text.len()..size {
        let byte = if place % 64 == 63 { b'\n' } else { b'#' };
        if text.push(byte).is_err() {
            return false;
        }
    }
    true
}

const CUT_HEAD: &[u8] = b"answer 1\nminimum -1\nleast a b\ngreatest a b\nslope -1/2 a b\nat 0/1\n";

/// Whether a text with comments up to the limit is solved.
fn is_filled_solved(alloc: Global) -> bool {
    let Ok(mut text) = Vec::from_slice(alloc, CUT) else {
        return false;
    };
    fill_up(&mut text, 16_777_216) && text.len() == 16_777_216 && begins(alloc, &text, CUT_HEAD)
}

#[test]
fn comments_up_to_the_limit(rt: HostRuntime) {
    assert!(rt; is_filled_solved(rt.alloc()));
}

const BOUND_GROUND: &[u8] = b"sfm 1\nground a\n";

const BOUND_WEIGHT: &[u8] = b"weight a:1000000000000\n";

const BOUND_END: &[u8] = b"end\n";

const MORE_END: &[u8] = b"weight a:1\nend\n";

const MORE_REFUSED: &[u8] = b"refused 1003 total\n";

const BOUND_HEAD: &[u8] =
    b"answer 1\nminimum 0\nleast\ngreatest\nslope 1000000000000000/1 a\nat 0/1\n";

/// Adds as many weights as there may be, and the end of the text.
fn push_weights(text: &mut Vec<u8>, end: &[u8]) -> bool {
    for _ in 0..1000 {
        if text.extend_from_slice(BOUND_WEIGHT).is_err() {
            return false;
        }
    }
    text.extend_from_slice(end).is_ok()
}

/// A text with as many weights as there may be, and that end; nothing where memory lacks.
fn bound_text(alloc: Global, end: &[u8]) -> Option<Vec<u8>> {
    let Ok(mut text) = Vec::from_slice(alloc, BOUND_GROUND) else {
        return None;
    };
    if push_weights(&mut text, end) {
        Some(text)
    } else {
        None
    }
}

/// Whether as many weights as there may be are solved.
fn is_bound_solved(alloc: Global) -> bool {
    match bound_text(alloc, BOUND_END) {
        Some(text) => begins(alloc, &text, BOUND_HEAD),
        None => false,
    }
}

/// Whether one more is refused.
fn is_more_refused(alloc: Global) -> bool {
    match bound_text(alloc, MORE_END) {
        Some(text) => is_met(alloc, &solve(&text, 2, MORE_REFUSED)),
        None => false,
    }
}

#[test]
fn weights_up_to_the_bound(rt: HostRuntime) {
    assert!(rt; is_bound_solved(rt.alloc()) && is_more_refused(rt.alloc()));
}
