// Passes over the tokens of a line beside an instance. A line that is refused may have millions of tokens, so they are looked
// at one after another, once for each thing that they are tried for, and no list of them is made.
ghost use Rattle.std.specs.{Prelude.{◌≡◌, ◌↔◌, ℕ, List, ℤ, Any, Some, MatchBool}, List.{All}};
ghost use Rattle.sfm_lines.specs.{Lines.{tokens_of}, Parts.{IsPairToken}};
ghost use Rattle.sfm_side.specs.{Sizes.{IsSize}, Passes.{Passes}};

use sfm_base::read_number;
use sfm_kind::Instance;
use sfm_lines::pair::cut_pair;
use sfm_lines::tokens::first_token;
use sfm_passes::{is_known, is_pair, is_pair_element};

/// The greatest size.
pub const MOST_ELEMENT_SIZE: i128 = 1_000_000;

/// What a token may be tried for.
#[derive(Clone, Copy)]
pub enum TokenTest {
    /// It is a pair `name:number`.
    Pair,
    /// It is a pair, and what stands behind its colon is a size.
    PairSize,
    /// It is a pair, and what stands before its colon names an element.
    PairElement,
    /// It names an element.
    Element,
}

/// The size that a text is, or None where it is none.
pub fn size_for(text: &[u8]) -> Option<i128>
    ensures { (value : ℤ) → (result ≡ Some value) ↔ IsSize text.now value }
{
    let Some(value) = read_number(text) else {
        return None;
    };
    if 1 <= value && value <= MOST_ELEMENT_SIZE {
        Some(value)
    } else {
        None
    }
}

/// Whether a text is a size.
fn is_size(text: &[u8]) -> bool
    ensures { MatchBool result
        ((value : ℤ) × IsSize text.now value)
        (((value : ℤ) × IsSize text.now value) → ⊥) }
{
    match size_for(text) {
        Some(_) => true,
        None => false,
    }
}

/// Whether a token is a pair with a size.
fn is_pair_size(token: &[u8]) -> bool
    ensures { MatchBool result
        ((pair : List ℕ × List ℕ) × IsPairToken token.now pair
        × ((value : ℤ) × IsSize pair.1 value))
        (((pair : List ℕ × List ℕ) × IsPairToken token.now pair
        × ((value : ℤ) × IsSize pair.1 value)) → ⊥) }
{
    match cut_pair(token) {
        Some((_, number)) => is_size(number),
        None => false,
    }
}

/// Whether a token passes the test.
fn passes(instance: &Instance, test: TokenTest, token: &[u8]) -> bool
    ensures { MatchBool result
        (Passes instance.now.names test token.now)
        (Passes instance.now.names test token.now → ⊥) }
{
    match test {
        TokenTest::Pair => is_pair(token),
        TokenTest::PairSize => is_pair_size(token),
        TokenTest::PairElement => is_pair_element(instance, token),
        TokenTest::Element => is_known(instance, token),
    }
}

/// Whether each token of a line passes the test.
pub fn all_pass(instance: &Instance, test: TokenTest, line: &[u8]) -> bool
    ensures { MatchBool result
        (All (Passes instance.now.names test) (tokens_of line.now))
        (Any (λ token. Passes instance.now.names test token → ⊥) (tokens_of line.now)) }
{
    let mut left = line;
    while let Some((token, behind)) = first_token(left) {
        if !passes(instance, test, token) {
            return false;
        }
        left = behind;
    }
    true
}
