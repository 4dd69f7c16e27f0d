// How the tokens behind the word of a term line are cut into its parts, by the word: pairs; so many numbers and then elements; numbers, a
// colon and elements; or the line of a rank, of which each has its own shape. A line of a transversal rank is none of these: its term is
// told by passes, in `sfm_passes`.
ghost use Rattle.std.specs.Prelude.{◌≡◌, ◌↔◌, length, IsTrue, IfOk, MatchOption};
ghost use Rattle.sfm_lines.specs.{Lines.{texts_of}, Parts.{plain_parts, IsColonLine, IsRankLine, IsWeightLine}, CutParts.{AreCounts, IsSplitLine}, Words.{HasParts}, ReadParts.{IsEntryLine, HasLineParts, parts_of}, declared.word.TermWord.TheVariants.{RankWord}};

use crate::graphic_line::graphic_parts;
use crate::laminar_line::laminar_parts;
use crate::pair::cut_pair;
use crate::parts::Parts;
use crate::separator::{cut_at_colon, has_separator};
use crate::uniform_line::uniform_parts;
use crate::word::{RankKind, TermWord};
use std::alloc::{AllocError, Global};

/// Whether the line of a word may have so many numbers and so many elements.
pub fn are_counts(word: TermWord, numbers: usize, elements: usize) -> bool
    ensures { IsTrue result ↔ AreCounts word numbers elements }
{
    match word {
        TermWord::WeightWord => 1 <= elements && numbers == elements,
        TermWord::CutWord => numbers == 1 && elements == 2,
        TermWord::NeedWord => numbers == 0 && elements == 2,
        TermWord::CoverWord => 1 <= elements && numbers == 1,
        TermWord::TableWord => 1 <= elements && elements <= 8 && numbers == 1 << elements,
        TermWord::ConcaveWord => 1 <= elements && numbers == elements,
        TermWord::RankWord => 1 <= elements,
    }
}

/// Numbers and elements alone, or None where a line of the word has not so many.
fn counted_parts<'a, 'b>(
    alloc: Global,
    word: TermWord,
    numbers: &[&'a [u8]],
    elements: &[&'a [u8]],
) -> Result<Option<Parts<'a, 'b>>, AllocError>
    ensures { IfOk result (λ r. MatchOption r
        (AreCounts word (length numbers.now) (length elements.now) → ⊥)
        (λ parts. AreCounts word (length numbers.now) (length elements.now)
        × (parts_of parts ≡ plain_parts (texts_of numbers.now) (texts_of elements.now)))) }
{
    if !are_counts(word, numbers.len(), elements.len()) {
        return Ok(None);
    }
    let parts = Parts::copied(alloc, RankKind::NoRank, numbers, elements)?;
    Ok(Some(parts))
}

/// The parts of tokens that are pairs, of which there is at least one, or None where some token is none.
fn weight_parts<'a, 'b>(
    alloc: Global,
    tokens: &'b [&'a [u8]],
) -> Result<Option<Parts<'a, 'b>>, AllocError>
    ensures { IfOk result (HasLineParts IsWeightLine (texts_of tokens.now)) }
{
    if tokens.is_empty() {
        return Ok(None);
    }
    let mut numbers = Vec::new(alloc);
    let mut elements = Vec::new(alloc);
    for token in tokens {
        let Some((element, number)) = cut_pair(token) else {
            return Ok(None);
        };
        elements.push(element)?;
        numbers.push(number)?;
    }
    Ok(Some(Parts {
        numbers,
        elements,
        rank: RankKind::NoRank,
        groups: Vec::new(alloc),
        labels: Vec::new(alloc),
    }))
}

/// The parts of tokens that are so many numbers and then elements, or None where they are no line of the word.
fn split_parts<'a, 'b>(
    alloc: Global,
    word: TermWord,
    count: usize,
    tokens: &'b [&'a [u8]],
) -> Result<Option<Parts<'a, 'b>>, AllocError>
    ensures { IfOk result (HasLineParts (IsSplitLine word count) (texts_of tokens.now)) }
{
    if tokens.len() < count || has_separator(tokens) {
        return Ok(None);
    }
    counted_parts(alloc, word, &tokens[..count], &tokens[count..])
}

/// The parts of tokens that are numbers, a colon and elements, or None where they are no line of the word.
fn colon_parts<'a, 'b>(
    alloc: Global,
    word: TermWord,
    tokens: &'b [&'a [u8]],
) -> Result<Option<Parts<'a, 'b>>, AllocError>
    ensures { IfOk result (HasLineParts (IsColonLine (AreCounts word)) (texts_of tokens.now)) }
{
    let Some((numbers, elements)) = cut_at_colon(tokens) else {
        return Ok(None);
    };
    counted_parts(alloc, word, numbers, elements)
}

/// The parts of tokens that are those of the line of a rank, or None where they are not.
fn rank_parts<'a, 'b>(
    alloc: Global,
    tokens: &'b [&'a [u8]],
) -> Result<Option<Parts<'a, 'b>>, AllocError>
    requires { IsEntryLine RankWord (texts_of tokens.now) → ⊥ }
    ensures { IfOk result (HasLineParts IsRankLine (texts_of tokens.now)) }
{
    if let Some(parts) = uniform_parts(alloc, tokens)? {
        return Ok(Some(parts));
    }
    if let Some(parts) = laminar_parts(alloc, tokens)? {
        return Ok(Some(parts));
    }
    graphic_parts(alloc, tokens)
}

/// The parts of the tokens behind a word, or None where they do not have the shape of its line.
pub fn line_parts<'a, 'b>(
    alloc: Global,
    word: TermWord,
    tokens: &'b [&'a [u8]],
) -> Result<Option<Parts<'a, 'b>>, AllocError>
    requires { IsEntryLine word (texts_of tokens.now) → ⊥ }
    ensures { IfOk result (HasLineParts (HasParts word) (texts_of tokens.now)) }
{
    match word {
        TermWord::WeightWord => weight_parts(alloc, tokens),
        TermWord::CutWord => split_parts(alloc, word, 1, tokens),
        TermWord::NeedWord => split_parts(alloc, word, 0, tokens),
        TermWord::CoverWord => split_parts(alloc, word, 1, tokens),
        TermWord::TableWord => colon_parts(alloc, word, tokens),
        TermWord::ConcaveWord => colon_parts(alloc, word, tokens),
        TermWord::RankWord => rank_parts(alloc, tokens),
    }
}
