// The line of a rank without the weights of its elements, copied token by token. It has no more bytes in its tokens than the line,
// and is judged as the line of a rank is, so that a long line is read by passes here too.
ghost use Rattle.std.specs.{Prelude.{◌≡◌, ◌≢◌, ℕ, List, [], ◌∷◌, ◌++◌, map, codes, Option, OnOk, IfOk, MatchOption}, List.{All}};
ghost use Rattle.sfm_lines.specs.{Lines.{tokens_of}, Weights.{IsUnweighed}};
ghost use Rattle.sfm_weights.specs.Plain.{IsToken, IsHeadCut, AreEntriesOf};

use crate::entry::{entry_of, is_colon, is_semicolon};
use sfm_base::Memory;
use sfm_lines::tokens::first_token;
use std::alloc::{AllocError, Global};

/// Puts a token behind those of a line.
fn put_token(line: &mut Vec<u8>, token: &[u8]) -> Result<(), AllocError>
    requires { IsToken token.now }
    ensures { OnOk result (tokens_of line.new.items ≡ tokens_of line.old.items ++ token.now ∷ []) }
{
    line.push(b' ')?;
    line.extend_from_slice(token)
}

/// Puts the tokens of a line behind those of another.
fn put_line(line: &mut Vec<u8>, more: &[u8]) -> Result<(), AllocError>
    ensures { OnOk result (tokens_of line.new.items ≡ tokens_of line.old.items
        ++ tokens_of more.now) }
{
    line.push(b' ')?;
    line.extend_from_slice(more)
}

/// Puts the tokens up to the first colon alone behind those of a line, and it too, and gives the line behind it; None where there
/// is no colon alone.
fn put_head<'a>(plain: &mut Vec<u8>, line: &'a [u8]) -> Result<Option<&'a [u8]>, AllocError>
    ensures { IfOk result (λ r. MatchOption r
        (All (λ token. token ≢ codes ":") (tokens_of line.now))
        (λ behind. (head : List (List ℕ)) × IsHeadCut (tokens_of line.now) head
        (tokens_of behind.now)
        × (tokens_of plain.new.items ≡ tokens_of plain.old.items ++ (head ++ codes ":" ∷ [])))) }
{
    let mut left = line;
    while let Some((token, behind)) = first_token(left) {
        put_token(plain, token)?;
        if is_colon(token) {
            return Ok(Some(behind));
        }
        left = behind;
    }
    Ok(None)
}

/// Puts the elements up to the first semicolon alone behind the tokens of a line, without their weights, and gives the line that
/// begins with it, or an empty one; None where a token is no element with or without a weight.
fn put_elements<'a>(plain: &mut Vec<u8>, line: &'a [u8]) -> Result<Option<&'a [u8]>, AllocError>
    ensures { IfOk result (λ r. MatchOption r
        ((entries : List (List ℕ × Option (List ℕ))) (behind : List (List ℕ))
        → AreEntriesOf (tokens_of line.now) entries behind → ⊥)
        (λ behind. (entries : List (List ℕ × Option (List ℕ)))
        × AreEntriesOf (tokens_of line.now) entries (tokens_of behind.now)
        × (tokens_of plain.new.items ≡ tokens_of plain.old.items
        ++ map (λ entry. entry.0) entries))) }
{
    let mut left = line;
    while let Some((token, behind)) = first_token(left) {
        if is_semicolon(token) {
            return Ok(Some(left));
        }
        let Some((element, _)) = entry_of(token) else {
            return Ok(None);
        };
        put_token(plain, element)?;
        left = behind;
    }
    Ok(Some(left))
}

/// The line of a rank without the weights of its elements, by what stands behind its word; None where it has no such shape.
///
/// # Errors
///
/// `Memory` where there is none.
pub fn without_weights(alloc: Global, line: &[u8]) -> Result<Option<Vec<u8>>, Memory>
    ensures { IfOk result (λ r. MatchOption r
        ((plain : List (List ℕ)) (entries : List (List ℕ × Option (List ℕ)))
        → IsUnweighed (tokens_of line.now) plain entries → ⊥)
        (λ plain. (entries : List (List ℕ × Option (List ℕ)))
        × IsUnweighed (tokens_of line.now) (tokens_of plain.items) entries)) }
{
    let mut plain = Vec::new(alloc);
    let Some(elements) = put_head(&mut plain, line)? else {
        return Ok(None);
    };
    let Some(behind) = put_elements(&mut plain, elements)? else {
        return Ok(None);
    };
    put_line(&mut plain, behind)?;
    Ok(Some(plain))
}
