// The token of an element: what stands for the element, and the text of its weight behind a star.
ghost use Rattle.std.specs.Prelude.{◌≡◌, ◌≢◌, ◌↔◌, ℕ, List, codes, Option, Some, None, IsSome, ℤ, MatchBool, MatchOption};
ghost use Rattle.sfm_lines.specs.Weights.{IsWeighed, IsWeightText};
ghost use Rattle.sfm_weights.specs.Plain.{IsEntryOf, text_at};

use sfm_base::read_number;
use sfm_lines::pair::{cut_once, place_of_byte};
use sfm_lines::separator::is_separator;

/// The greatest weight of an element.
const MOST_WEIGHT: i128 = 1_000_000_000_000_000;

/// Whether a token is a colon alone.
pub(crate) fn is_colon(token: &[u8]) -> bool
    ensures { MatchBool result (token.now ≡ codes ":") (token.now ≢ codes ":") }
{
    token == b":".as_slice()
}

/// Whether a token is a semicolon alone.
pub(crate) fn is_semicolon(token: &[u8]) -> bool
    ensures { MatchBool result (token.now ≡ codes ";") (token.now ≢ codes ";") }
{
    token == b";".as_slice()
}

/// What stands for the element of a token, and the text of its weight, if it has one; None where the token has more than one star.
fn cut_weight(token: &[u8]) -> Option<(&[u8], Option<&[u8]>)>
    ensures { MatchOption result
        ((entry : List ℕ × Option (List ℕ)) → IsWeighed token.now entry → ⊥)
        (λ r. IsWeighed token.now (r.0.now, text_at r.1)) }
{
    if place_of_byte(token, b'*') >= token.len() {
        return Some((token, None));
    }
    let Some((front, weight)) = cut_once(token, b'*') else {
        return None;
    };
    if front.is_empty() {
        return Some((b"*".as_slice(), Some(weight)));
    }
    Some((front, Some(weight)))
}

/// The same, and None also where what stands for the element is a separator.
pub(crate) fn entry_of(token: &[u8]) -> Option<(&[u8], Option<&[u8]>)>
    ensures { MatchOption result
        ((entry : List ℕ × Option (List ℕ)) → IsEntryOf token.now entry → ⊥)
        (λ r. IsEntryOf token.now (r.0.now, text_at r.1)) }
{
    let Some((element, weight)) = cut_weight(token) else {
        return None;
    };
    if is_separator(element) {
        return None;
    }
    Some((element, weight))
}

/// The weight that a text is, or None where it is none.
fn weight(text: &[u8]) -> Option<i128>
    ensures { (value : ℤ) → (result ≡ Some value) ↔ IsWeightText (Some text.now) value }
{
    let Some(value) = read_number(text) else {
        return None;
    };
    if 1 <= value && value <= MOST_WEIGHT {
        Some(value)
    } else {
        None
    }
}

/// The text of the weight of a token's element, or None where it has none.
pub(crate) fn weight_text(token: &[u8]) -> Option<&[u8]>
    ensures { (entry : List ℕ × Option (List ℕ)) → IsWeighed token.now entry
        → MatchOption result (entry.1 ≡ None) (λ text. entry.1 ≡ Some text.now) }
{
    let at = place_of_byte(token, b'*');
    if at >= token.len() {
        return None;
    }
    Some(&token[at + 1..])
}

/// Whether what stands behind the star of a token is a weight; true where nothing does.
pub(crate) fn is_weight(token: &[u8]) -> bool
    ensures { (entry : List ℕ × Option (List ℕ)) → IsWeighed token.now entry → MatchBool result
        ((value : ℤ) × IsWeightText entry.1 value)
        ((value : ℤ) → IsWeightText entry.1 value → ⊥) }
{
    match weight_text(token) {
        Some(text) => weight(text).is_some(),
        None => true,
    }
}

/// The weight of the element of a token, where what stands behind its star is one; 1 where nothing does.
pub(crate) fn weight_of(token: &[u8]) -> i128
    ensures { (entry : List ℕ × Option (List ℕ)) (value : ℤ) → IsWeighed token.now entry
        → IsWeightText entry.1 value → result ≡ value }
{
    match weight_text(token) {
        Some(text) => weight(text).unwrap_or(1),
        None => 1,
    }
}

/// Whether the element of a token has a weight.
pub(crate) fn has_weight(token: &[u8]) -> bool
    ensures { (entry : List ℕ × Option (List ℕ)) → IsWeighed token.now entry
        → MatchBool result (IsSome entry.1) (entry.1 ≡ None) }
{
    weight_text(token).is_some()
}
