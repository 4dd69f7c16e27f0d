// The line `rank`, a number, `laminar`, a colon, at least one element, and any number of groups: for each a semicolon, a cap,
// and at least one name of an element of the line.
ghost use Rattle.std.specs.{Prelude.{◌≡◌, ℕ, List, MatchBool, MatchOption, IfOk}, List.{AllZip}};
ghost use Rattle.sfm_lines.specs.{Lines.{texts_of, text_lists_of}, Parts.{IsLaminarLine}, CutParts.{is_semicolon, cut_at_semicolons, IsGroupCut, AreGroupsCut, laminar_parts_of, with_groups}, ReadParts.{HasLineParts, parts_of}};

use crate::parts::Parts;
use crate::rank_head::cut_head;
use crate::separator::has_separator;
use crate::word::RankKind;
use std::alloc::{AllocError, Global};

/// Whether the token is a semicolon alone.
pub fn is_semicolon_token(token: &[u8]) -> bool
    ensures { result ≡ is_semicolon token.now }
{
    token == b";".as_slice()
}

/// The runs of tokens between semicolons alone.
fn pieces<'a, 'b>(alloc: Global, tokens: &'b [&'a [u8]]) -> Result<Vec<&'b [&'a [u8]]>, AllocError>
    ensures { IfOk result (λ v. text_lists_of v.items ≡ cut_at_semicolons (texts_of tokens.now)) }
{
    tokens
        .split(|token| is_semicolon_token(token))
        .collect(alloc)
}

/// The cap and the names of a group, or None where the tokens are not those of one.
fn cut_group<'a, 'b>(tokens: &'b [&'a [u8]]) -> Option<(&'a [u8], &'b [&'a [u8]])>
    ensures { MatchOption result
        ((group : List ℕ × List (List ℕ)) → IsGroupCut (texts_of tokens.now) group → ⊥)
        (λ r. IsGroupCut (texts_of tokens.now) (r.0.now, texts_of r.1.now)) }
{
    let Some((cap, names)) = tokens.split_first() else {
        return None;
    };
    if names.is_empty() || has_separator(tokens) {
        return None;
    }
    Some((*cap, names))
}

/// Puts the caps and the names of the groups that pieces tell behind the numbers and the groups of a line, up to a piece that
/// is no group, and tells whether there is none.
fn add_groups<'a, 'b>(
    parts: &mut Parts<'a, 'b>,
    pieces: &[&'b [&'a [u8]]],
) -> Result<bool, AllocError>
    ensures { IfOk result (λ r. MatchBool r
        ((groups : List (List ℕ × List (List ℕ))) × AllZip IsGroupCut
        (text_lists_of pieces.now) groups × (parts_of parts.new
        ≡ with_groups (parts_of parts.old) groups))
        ((groups : List (List ℕ × List (List ℕ))) → AllZip IsGroupCut
        (text_lists_of pieces.now) groups → ⊥)) }
{
    for piece in pieces {
        let Some((cap, names)) = cut_group(piece) else {
            return Ok(false);
        };
        parts.numbers.push(cap)?;
        parts.groups.push(names)?;
    }
    Ok(true)
}

/// The parts of a line with this first number, of the pieces that its tokens behind the colon are cut into, or None where
/// they do not have the line's shape.
fn group_parts<'a, 'b>(
    alloc: Global,
    number: &'a [u8],
    pieces: &[&'b [&'a [u8]]],
) -> Result<Option<Parts<'a, 'b>>, AllocError>
    ensures { IfOk result (λ r. MatchOption r
        ((elements : List (List ℕ)) (groups : List (List ℕ × List (List ℕ)))
        → AreGroupsCut (text_lists_of pieces.now) elements groups → ⊥)
        (λ parts. (elements : List (List ℕ)) × (groups : List (List ℕ × List (List ℕ)))
        × AreGroupsCut (text_lists_of pieces.now) elements groups
        × (parts_of parts ≡ laminar_parts_of number.now elements groups))) }
{
    let Some((elements, rest)) = pieces.split_first() else {
        return Ok(None);
    };
    if elements.is_empty() || has_separator(elements) {
        return Ok(None);
    }
    let mut parts = Parts::copied(alloc, RankKind::LaminarRank, &[number], elements)?;
    if !add_groups(&mut parts, rest)? {
        return Ok(None);
    }
    Ok(Some(parts))
}

/// The parts of the tokens behind the word, or None where they do not have the line's shape.
pub fn laminar_parts<'a, 'b>(
    alloc: Global,
    tokens: &'b [&'a [u8]],
) -> Result<Option<Parts<'a, 'b>>, AllocError>
    ensures { IfOk result (HasLineParts IsLaminarLine (texts_of tokens.now)) }
{
    let Some((number, behind)) = cut_head(b"laminar", tokens) else {
        return Ok(None);
    };
    let pieces = pieces(alloc, behind)?;
    group_parts(alloc, number, &pieces)
}
