// Texts between separators, which are looked at one after another, so that no list of them is made: the tokens of a line
// between blanks, and the slots of an entry between commas. The slots stand behind the byte before the first of them, so that
// what is left behind a slot begins with the comma behind it, and nothing is left behind the last one.
ghost use Rattle.std.specs.Prelude.{◌≡◌, ◌<◌, [], ◌∷◌, length, IfSome, MatchOption};
ghost use Rattle.sfm_passes.specs.Passes.{slots_behind, texts_between};

use sfm_lines::pair::place_of_byte;
use sfm_lines::tokens::first_token;

/// What stands between the texts of a line.
#[derive(Clone, Copy, PartialEq, Eq)]
pub enum Separator {
    /// Spaces and tabs, as between tokens.
    Blanks,
    /// A comma, as between the slots of an entry.
    Comma,
}

/// The first slot behind the first byte of a text, and what is left behind it, or None where nothing is left.
fn first_slot(text: &[u8]) -> Option<(&[u8], &[u8])>
    ensures cut { MatchOption result
        (slots_behind text.now ≡ [])
        (λ r. slots_behind text.now ≡ r.0.now ∷ slots_behind r.1.now) }
    ensures shorter { IfSome result (λ r. length r.1.now < length text.now) }
{
    if text.is_empty() {
        return None;
    }
    let slots = &text[1..];
    let end = place_of_byte(slots, b',');
    Some((&slots[..end], &slots[end..]))
}

/// The first text of a line and the line behind it, or None where there is none.
pub fn first_between(separator: Separator, line: &[u8]) -> Option<(&[u8], &[u8])>
    ensures cut { MatchOption result
        (texts_between separator line.now ≡ [])
        (λ r. texts_between separator line.now ≡ r.0.now ∷ texts_between separator r.1.now) }
    ensures shorter { IfSome result (λ r. length r.1.now < length line.now) }
{
    match separator {
        Separator::Blanks => first_token(line),
        Separator::Comma => first_slot(line),
    }
}
