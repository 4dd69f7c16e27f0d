// The weights of the elements in the line of a rank: whether each that stands there is one, and all of them.
ghost use Rattle.std.specs.{Prelude.{◌≡◌, ◌≢◌, ℕ, List, ◌∷◌, ◌++◌, codes, Option, Some, None, ℤ, Any, IsSome, IfOk, MatchBool, MatchOption}, List.{All}};
ghost use Rattle.sfm_lines.specs.{Lines.{tokens_of}, Weights.{IsUnweighed, IsWeightText, AreWeights}};
ghost use Rattle.sfm_weights.specs.Plain.{IsHeadCut};

use crate::entry::{has_weight, is_colon, is_semicolon, is_weight, weight_of};
use sfm_base::Memory;
use sfm_lines::tokens::first_token;
use std::alloc::Global;

/// What stands behind the first colon alone of a line; nothing where there is none.
fn elements_behind(line: &[u8]) -> &[u8]
    ensures { (head behind : List (List ℕ)) → IsHeadCut (tokens_of line.now) head behind
        → tokens_of result.now ≡ behind }
{
    let mut left = line;
    while let Some((token, behind)) = first_token(left) {
        left = behind;
        if is_colon(token) {
            return left;
        }
    }
    left
}

/// Whether each weight that stands behind an element is one, in a line that is one of a rank without them.
pub fn are_weights(line: &[u8]) -> bool
    ensures { (plain : List (List ℕ)) (entries : List (List ℕ × Option (List ℕ)))
        → IsUnweighed (tokens_of line.now) plain entries → MatchBool result
        (All (λ entry. (value : ℤ) × IsWeightText entry.1 value) entries)
        (Any (λ entry. (value : ℤ) → IsWeightText entry.1 value → ⊥) entries) }
{
    let mut left = elements_behind(line);
    while let Some((token, behind)) = first_token(left) {
        if is_semicolon(token) {
            return true;
        }
        if !is_weight(token) {
            return false;
        }
        left = behind;
    }
    true
}

/// Whether some element of a line has a weight.
fn has_weights(line: &[u8]) -> bool
    ensures { (plain : List (List ℕ)) (entries : List (List ℕ × Option (List ℕ)))
        → IsUnweighed (tokens_of line.now) plain entries → MatchBool result
        (Any (λ entry. IsSome entry.1) entries)
        (All (λ entry. entry.1 ≡ None) entries) }
{
    let mut left = elements_behind(line);
    while let Some((token, behind)) = first_token(left) {
        if is_semicolon(token) {
            return false;
        }
        if has_weight(token) {
            return true;
        }
        left = behind;
    }
    false
}

/// The weights of the elements of a line, of which each that stands there is one; None where none stands there.
///
/// # Errors
///
/// `Memory` where there is none.
pub fn weights_of(alloc: Global, line: &[u8]) -> Result<Option<Vec<i128>>, Memory>
    ensures { IfOk result (λ r. (plain : List (List ℕ))
        (entries : List (List ℕ × Option (List ℕ)))
        → IsUnweighed (tokens_of line.now) plain entries
        → All (λ entry. (value : ℤ) × IsWeightText entry.1 value) entries → MatchOption r
        (AreWeights entries None)
        (λ weights. AreWeights entries (Some weights.items))) }
{
    if !has_weights(line) {
        return Ok(None);
    }
    let mut weights = Vec::new(alloc);
    let mut left = elements_behind(line);
    while let Some((token, behind)) = first_token(left) {
        if is_semicolon(token) {
            return Ok(Some(weights));
        }
        weights.push(weight_of(token))?;
        left = behind;
    }
    Ok(Some(weights))
}
