// Demonstrations: one line, which says what the answer of the instance of the seed says.
use crate::cases::{Case, parts_of, solve, solved, written};
use sfm_demo::demo_text;
use sfm_io::MemorySink;
use std::alloc::{AllocError, Global};

const SEED: &[&str] = &["demo", "0"];

const PLAIN: &[&str] = &["demo", "7"];

const PADDED: &[&str] = &["demo", "007"];

const SEED_MINIMUM: &[u8] = b"minimum -9501";

const SEED_HEAD: &[u8] = b"demo 0 minimum -9501 least ";

const PLAIN_HEAD: &[u8] = b"demo 7 minimum ";

const BLOCK: &[u8] = b"block ";

const SLOPE: &[u8] = b"slope ";

/// What the demonstration of a seed writes.
fn shown(alloc: Global, words: &[&str]) -> Option<MemorySink> {
    let case = Case {
        words,
        ..solve(b"", 0, b"")
    };
    written(alloc, &case)
}

/// The line of that number, from 0.
fn line_at<'a>(lines: &[&'a [u8]], number: usize) -> &'a [u8] {
    match lines.get(number) {
        Some(line) => line,
        None => b"",
    }
}

/// How many names stand behind the word of a line.
fn names_in(alloc: Global, line: &[u8]) -> Result<usize, AllocError> {
    Ok(parts_of(alloc, line, b' ')?.len().saturating_sub(1))
}

/// How many lines begin with a word.
fn count(lines: &[&[u8]], word: &[u8]) -> usize {
    let mut count = 0usize;
    for line in lines {
        if line.starts_with(word) {
            count = count.wrapping_add(1);
        }
    }
    count
}

/// How the line of a demonstration ends, by the lines of the answer.
fn rest_of(alloc: Global, lines: &[&[u8]]) -> Result<String, AllocError> {
    let least = names_in(alloc, line_at(lines, 2))?;
    let greatest = names_in(alloc, line_at(lines, 3))?;
    let blocks = count(lines, BLOCK);
    let slopes = count(lines, SLOPE);
    format!(in alloc; "least {least} greatest {greatest} blocks {blocks} slopes {slopes} valid\n")
}

/// Whether the line of the seed says what the lines of the answer say.
fn says_lines(alloc: Global, line: &[u8], lines: &[&[u8]]) -> bool {
    match rest_of(alloc, lines) {
        Ok(rest) => line_at(lines, 1) == SEED_MINIMUM && line.ends_with(rest.as_bytes()),
        Err(_) => false,
    }
}

/// Whether the line of the seed says what the answer says.
fn says_answer(alloc: Global, line: &[u8], answer: &[u8]) -> bool {
    match parts_of(alloc, answer, b'\n') {
        Ok(lines) => line.starts_with(SEED_HEAD) && says_lines(alloc, line, &lines),
        Err(_) => false,
    }
}

/// The answer of the instance of the seed.
fn seed_answer(alloc: Global) -> Option<MemorySink> {
    match demo_text(alloc, 0) {
        Ok(text) => solved(alloc, &solve(&text, 0, b"")),
        Err(_) => None,
    }
}

/// Whether the demonstration of the seed says what the answer of its instance says.
fn says_what_is_solved(alloc: Global) -> bool {
    let Some(answer) = seed_answer(alloc) else {
        return false;
    };
    match shown(alloc, SEED) {
        Some(line) => says_answer(alloc, line.taken(), answer.taken()),
        None => false,
    }
}

#[test]
fn says_what_the_answer_says(rt: HostRuntime) {
    assert!(rt; says_what_is_solved(rt.alloc()));
}

/// Whether the demonstration of a seed with leading zeros is that of the seed without.
fn is_as_plain(alloc: Global) -> bool {
    let Some(plain) = shown(alloc, PLAIN) else {
        return false;
    };
    match shown(alloc, PADDED) {
        Some(padded) => { padded.taken() == plain.taken() && plain.taken().starts_with(PLAIN_HEAD) }
        None => false,
    }
}

#[test]
fn leading_zeros_add_nothing(rt: HostRuntime) {
    assert!(rt; is_as_plain(rt.alloc()));
}
