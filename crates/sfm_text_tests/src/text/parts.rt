// What long texts are made of. Each function that adds something says whether there was memory.
use std::alloc::Global;

/// Adds a piece so many times.
pub(super) fn push_many(text: &mut String, piece: &str, count: u32) -> bool {
    for _ in 0..count {
        if text.push_str(piece).is_err() {
            return false;
        }
    }
    true
}

/// Adds a piece with a number between two others.
fn push_number(alloc: Global, text: &mut String, head: &str, number: u32, tail: &str) -> bool {
    match format!(in alloc; "{head}{number}{tail}") {
        Ok(piece) => text.push_str(piece.as_str()).is_ok(),
        Err(_) => false,
    }
}

/// Adds such pieces with the numbers below a count.
pub(super) fn push_numbered(
    alloc: Global,
    text: &mut String,
    head: &str,
    count: u32,
    tail: &str,
) -> bool {
    for number in 0..count {
        if !push_number(alloc, text, head, number, tail) {
            return false;
        }
    }
    true
}
