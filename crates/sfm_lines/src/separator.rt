// The tokens `:` and `;`, which stand between the parts of a line, and nowhere else.
ghost use Rattle.std.specs.{Prelude.{◌≢◌, ◌↔◌, ℕ, ◌<◌, List, length, codes, IsTrue, IfSome, Any, MatchBool, MatchOption}, List.{All}};
ghost use Rattle.sfm_lines.specs.{Lines.{texts_of}, Parts.{IsSeparator, HaveNoSeparator, IsCutAtColon}, CutParts.{IsFirstColon}};

/// Whether the token is a colon or a semicolon alone.
pub fn is_separator(token: &[u8]) -> bool
    ensures { IsTrue result ↔ IsSeparator token.now }
{
    token == b":".as_slice() || token == b";".as_slice()
}

/// Whether some token is a colon or a semicolon alone.
pub fn has_separator(tokens: &[&[u8]]) -> bool
    ensures { MatchBool result
        (Any IsSeparator (texts_of tokens.now))
        (HaveNoSeparator (texts_of tokens.now)) }
{
    for token in tokens {
        if is_separator(token) {
            return true;
        }
    }
    false
}

/// The place of the first colon alone, or None where there is none.
fn colon_place(tokens: &[&[u8]]) -> Option<usize>
    ensures first { MatchOption result
        (All (λ text. text ≢ codes ":") (texts_of tokens.now))
        (IsFirstColon (texts_of tokens.now)) }
    ensures within { IfSome result (λ at. at < length tokens.now) }
{
    for (i, token) in tokens.iter().enumerate() {
        if *token == b":".as_slice() {
            return Some(i);
        }
    }
    None
}

/// The tokens before and behind the one colon alone, or None where there is none or more of them, or a semicolon alone.
pub fn cut_at_colon<'a, 'b>(tokens: &'b [&'a [u8]]) -> Option<(&'b [&'a [u8]], &'b [&'a [u8]])>
    ensures { MatchOption result
        ((before behind : List (List ℕ)) → IsCutAtColon (texts_of tokens.now) before behind → ⊥)
        (λ r. IsCutAtColon (texts_of tokens.now) (texts_of r.0.now) (texts_of r.1.now)) }
{
    let Some(at) = colon_place(tokens) else {
        return None;
    };
    let before = &tokens[..at];
    let behind = &tokens[at + 1..];
    if has_separator(before) || has_separator(behind) {
        return None;
    }
    Some((before, behind))
}
