// How a line `rank` begins whose third word is followed by a colon: a number, the word, and the colon.
ghost use Rattle.std.specs.Prelude.{ℕ, List, MatchOption};
ghost use Rattle.sfm_lines.specs.{Lines.{texts_of}, Parts.{IsRankHead}};

use crate::separator::is_separator;
use crate::word::is_word;

/// The number and the tokens behind the colon of a line with this word, or None where it does not begin so.
pub fn cut_head<'a, 'b>(word: &[u8], tokens: &'b [&'a [u8]]) -> Option<(&'a [u8], &'b [&'a [u8]])>
    ensures { MatchOption result
        ((number : List ℕ) (behind : List (List ℕ))
        → IsRankHead word.now (texts_of tokens.now) number behind → ⊥)
        (λ r. IsRankHead word.now (texts_of tokens.now) r.0.now (texts_of r.1.now)) }
{
    let [number, kind, colon, rest @ ..] = tokens else {
        return None;
    };
    if is_separator(number) {
        return None;
    }
    if !is_word(kind, word) {
        return None;
    }
    if !is_word(colon, b":") {
        return None;
    }
    Some((*number, rest))
}
