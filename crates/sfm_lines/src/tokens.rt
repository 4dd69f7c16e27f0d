// Cutting a line into tokens, all at once or one after another, and telling by the first of them whether the line counts.
ghost use Rattle.std.specs.{Prelude.{◌≡◌, ◌≤◌, ◌<◌, ℕ, List, [], ◌∷◌, length, map, slice_get, Some, IsTrue, IfOk, IfSome, MatchBool, MatchOption}, List.{position_or_len}};
ghost use Rattle.sfm_lines.specs.{Lines.{tokens_of, are_skipped}, Tokens.{is_blank, IsFirstCut}};

use std::alloc::{AllocError, Global};

/// Whether a byte is a space or a tab.
fn is_blank_byte(c: u8) -> bool
    ensures { result ≡ is_blank c }
{
    c == b' ' || c == b'\t'
}

/// The place of the first space or tab, or the length where there is none.
fn blank_place(line: &[u8]) -> usize
    ensures { result ≡ position_or_len is_blank line.now }
{
    for i in 0..line.len() {
        if is_blank_byte(line[i]) {
            return i;
        }
    }
    line.len()
}

/// The first token of a line and the line behind it, or None where there is no token. So tokens can be looked at one after
/// another, and no list of them is made.
pub fn first_token(line: &[u8]) -> Option<(&[u8], &[u8])>
    ensures cut { MatchOption result
        (tokens_of line.now ≡ [])
        (λ r. tokens_of line.now ≡ r.0.now ∷ tokens_of r.1.now) }
    ensures placed { IfSome result (λ r. IsFirstCut line.now r.0.now r.1.now) }
    ensures shorter { IfSome result (λ r. length r.1.now < length line.now) }
{
    let mut left = line;
    let mut end = blank_place(left);
    while end < left.len() {
        let behind = &left[end + 1..];
        if end > 0 {
            return Some((&left[..end], behind));
        }
        left = behind;
        end = blank_place(left);
    }
    if left.is_empty() {
        return None;
    }
    Some((left, &left[left.len()..]))
}

/// The first two tokens of a line and the line behind them, or None where there are fewer.
pub fn first_two(line: &[u8]) -> Option<(&[u8], &[u8], &[u8])>
    ensures { MatchOption result
        (length (tokens_of line.now) < 2)
        (λ r. tokens_of line.now ≡ r.0.now ∷ r.1.now ∷ tokens_of r.2.now) }
{
    let Some((first, rest)) = first_token(line) else {
        return None;
    };
    let Some((second, behind)) = first_token(rest) else {
        return None;
    };
    Some((first, second, behind))
}

/// The token number i of a line, counted from 0, or None past the last.
pub fn token(line: &[u8], i: usize) -> Option<&[u8]>
    ensures { MatchOption result
        (length (tokens_of line.now) ≤ i)
        (λ r. slice_get (tokens_of line.now) i ≡ Some r.now) }
{
    let mut due = i;
    let mut left = line;
    while due > 0 {
        let Some((_, behind)) = first_token(left) else {
            return None;
        };
        due -= 1;
        left = behind;
    }
    match first_token(left) {
        Some((first, _)) => Some(first),
        None => None,
    }
}

/// Whether a line has a token number i.
pub fn has_token(line: &[u8], i: usize) -> bool
    ensures { MatchBool result (i < length (tokens_of line.now)) (length (tokens_of line.now) ≤ i) }
{
    match token(line, i) {
        Some(_) => true,
        None => false,
    }
}

/// The tokens of a line.
pub fn tokens(alloc: Global, line: &[u8]) -> Result<Vec<&[u8]>, AllocError>
    ensures { IfOk result (λ v. map (λ r. r.now) v.items ≡ tokens_of line.now) }
{
    let mut tokens = Vec::new(alloc);
    let mut left = line;
    while let Some((token, behind)) = first_token(left) {
        tokens.push(token)?;
        left = behind;
    }
    Ok(tokens)
}

/// Whether a line is blank or a comment.
pub fn is_skipped(line: &[u8]) -> bool
    ensures { result ≡ are_skipped (tokens_of line.now) }
{
    match token(line, 0) {
        Some(word) => word.first() == Some(&b'#'),
        None => true,
    }
}
