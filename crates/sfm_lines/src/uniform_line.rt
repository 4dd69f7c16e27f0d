// The line `rank`, a number, `uniform`, a cap, a colon, and at least one element.
ghost use Rattle.std.specs.Prelude.{◌≡◌, length, IfOk};
ghost use Rattle.sfm_lines.specs.{Lines.{texts_of}, Parts.{LineParts, IsUniformLine}, ReadParts.{AreGiven, HasLineParts, IsTermOf}, declared.word.TermWord.TheVariants.{RankWord}, declared.word.RankKind.TheVariants.{UniformRank}};

use crate::parts::Parts;
use crate::separator::cut_at_colon;
use crate::word::{RankKind, is_word};
use sfm_base::Memory;
use sfm_concave::Uniform;
use sfm_kind::Kind;
use std::alloc::{AllocError, Global};

/// The parts of the tokens behind the word, or None where they do not have the line's shape.
pub fn uniform_parts<'a, 'b>(
    alloc: Global,
    tokens: &'b [&'a [u8]],
) -> Result<Option<Parts<'a, 'b>>, AllocError>
    ensures { IfOk result (HasLineParts IsUniformLine (texts_of tokens.now)) }
{
    let Some((before, elements)) = cut_at_colon(tokens) else {
        return Ok(None);
    };
    if before.len() != 3 {
        return Ok(None);
    }
    if elements.is_empty() {
        return Ok(None);
    }
    if !is_word(before[1], b"uniform") {
        return Ok(None);
    }
    let parts = Parts::copied(
        alloc,
        RankKind::UniformRank,
        &[before[0], before[2]],
        elements,
    )?;
    Ok(Some(parts))
}

/// The term with the first number for each of these places, up to as many as the second.
pub fn uniform_term(alloc: Global, values: &[i128], places: &[usize]) -> Result<Kind, Memory>
    requires given { AreGiven RankWord values.now places.now }
    requires two { length values.now ≡ 2 }
    ensures { IfOk result (λ term. (parts : LineParts) → parts.rank ≡ UniformRank
        → IsTermOf RankWord parts values.now places.now term) }
{
    let uniform = Uniform::new(alloc, places, values[0], values[1])?;
    Ok(Kind::Uniform(uniform))
}
