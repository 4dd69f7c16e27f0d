// Cutting a token at the one byte of a kind that it has, as at the colon of a pair.
ghost use Rattle.std.specs.{Prelude.{◌≡◌, ◌==◌, ◌≤◌, ℕ, List, length, MatchOption}, List.{position_or_len}};
ghost use Rattle.sfm_lines.specs.Parts.{IsCutAt, IsPairToken};

/// The place of the first byte b, or the length where there is none.
pub fn place_of_byte(text: &[u8], b: u8) -> usize
    ensures place { result ≡ position_or_len (λ c. c == b) text.now }
    ensures within { result ≤ length text.now }
{
    for i in 0..text.len() {
        if text[i] == b {
            return i;
        }
    }
    text.len()
}

/// What stands before the one byte b of a token and behind it, or None where the token has none or more of them.
pub fn cut_once(token: &[u8], b: u8) -> Option<(&[u8], &[u8])>
    ensures { MatchOption result
        ((before behind : List ℕ) → IsCutAt b token.now before behind → ⊥)
        (λ r. IsCutAt b token.now r.0.now r.1.now) }
{
    let at = place_of_byte(token, b);
    if at >= token.len() {
        return None;
    }
    let behind = &token[at + 1..];
    if place_of_byte(behind, b) < behind.len() {
        return None;
    }
    Some((&token[..at], behind))
}

/// The two parts of a token `name:number`, or None where it is none.
pub fn cut_pair(token: &[u8]) -> Option<(&[u8], &[u8])>
    ensures { MatchOption result
        ((pair : List ℕ × List ℕ) → IsPairToken token.now pair → ⊥)
        (λ r. IsPairToken token.now (r.0.now, r.1.now)) }
{
    if token == b":".as_slice() {
        return None;
    }
    cut_once(token, b':')
}
