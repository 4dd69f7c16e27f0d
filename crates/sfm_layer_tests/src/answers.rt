// The answer to an instance with the layers of a triangle, worked by hand, and verdicts on it and on others that differ in a line.
use crate::layers::instance;
use sfm_due::{due_to_check, due_to_solve};
use sfm_kind::Instance;
use std::alloc::Global;

/// The answer before the bases of the layers at 0.
const HEAD: &str = "answer 1
minimum -4
least a b c
greatest a b c
slope -4/3 a b c
at 0/1
base 1 -4 -2 -2
";

/// The answer behind them.
const TAIL: &str = "at -4/3
base 1 -12 -6 -6
base 2.1 6
base 2.2 2 2 2
end
";

/// The bases of the layers at 0, each with what the check says of the answer that has them. The first three are all that prove
/// the answer.
const ANSWERS: [(&str, &str); 6] = [
    ("base 2.1 2\nbase 2.2 1 1 0\n", "valid\n"),
    ("base 2.1 2\nbase 2.2 1 0 1\n", "valid\n"),
    ("base 2.1 2\nbase 2.2 0 1 1\n", "valid\n"),
    ("base 2 2\nbase 2.2 1 1 0\n", "invalid 8 grammar\n"),
    ("base 2.1 2\nbase 2.2 2 0 0\n", "invalid 9 base\n"),
    ("base 2.1 3\nbase 2.2 1 1 0\n", "invalid 8 base\n"),
];

/// The answer with those bases; nothing where memory lacks.
fn answer_with(alloc: Global, bases: &str) -> Option<Vec<u8>> {
    let mut text = Vec::new(alloc);
    for piece in &[HEAD, bases, TAIL] {
        if text.extend_from_slice(piece.as_bytes()).is_err() {
            return None;
        }
    }
    Some(text)
}

/// Whether the check says this of an answer.
fn is_judged(alloc: Global, instance: &Instance, answer: &Option<Vec<u8>>, verdict: &str) -> bool {
    match due_to_check(alloc, instance, answer) {
        Ok(due) => due.text.as_slice() == verdict.as_bytes(),
        Err(_) => false,
    }
}

/// Whether a row holds.
fn is_met(alloc: Global, instance: &Instance, row: &(&str, &str)) -> bool {
    let answer = answer_with(alloc, row.0);
    answer.is_some() && is_judged(alloc, instance, &answer, row.1)
}

/// Whether each row holds.
fn are_met(alloc: Global) -> bool {
    let Some(instance) = instance(alloc) else {
        return false;
    };
    for row in &ANSWERS {
        if !is_met(alloc, &instance, row) {
            return false;
        }
    }
    true
}

#[test]
fn verdicts(rt: HostRuntime) {
    assert!(rt; are_met(rt.alloc()));
}

/// Whether a text is the answer with those bases.
fn is_answer_with(alloc: Global, text: &[u8], bases: &str) -> bool {
    match answer_with(alloc, bases) {
        Some(answer) => answer.as_slice() == text,
        None => false,
    }
}

/// Whether a text is an answer that a row says is right.
fn is_answer(alloc: Global, text: &[u8]) -> bool {
    for (bases, verdict) in &ANSWERS {
        if *verdict == "valid\n" && is_answer_with(alloc, text, bases) {
            return true;
        }
    }
    false
}

/// Whether the answer to the instance is one of these.
fn is_solved(alloc: Global) -> bool {
    let Some(instance) = instance(alloc) else {
        return false;
    };
    match due_to_solve(alloc, &instance) {
        Ok(due) => is_answer(alloc, due.text.as_slice()),
        Err(_) => false,
    }
}

#[test]
fn solution(rt: HostRuntime) {
    assert!(rt; is_solved(rt.alloc()));
}
