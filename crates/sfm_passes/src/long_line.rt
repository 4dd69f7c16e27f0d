// The first reason of a long term line, told by passes over its tokens, so that no list of them is made. A line that names
// each element at most once has at most 513 tokens behind its word, but where the line of a laminar rank names its groups. So a
// longer line is not good: where its shape, its numbers and its names are, an element stands twice, as there are at most 256.
// A line of a laminar rank may be good however long it is, and its term is told by passes too; so is that of each line of a
// transversal rank, as one entry may have millions of slots.
ghost use Rattle.std.specs.Prelude.{◌<◌, ◌∷◌, codes, length, IsTrue, IfSome};
ghost use Rattle.sfm_kind.specs.Names.{AreElementNames};
ghost use Rattle.sfm_lines.specs.{Lines.{tokens_of}, ReadParts.{IsEntryLine}, declared.word.TermWord.TheVariants.{WeightWord, CoverWord, ConcaveWord, RankWord}};
ghost use Rattle.sfm_passes.specs.{Passes.{IsReasonOf}, GroupPasses.{IsToldBy}};

use crate::entry_line::entry_line_term;
use crate::long_laminar::laminar_line_term;
use crate::long_rank::{elements_reason, rank_kind, rank_reason};
use crate::passes::{all_hold, colon_cut, first_hold, has_separator_in, token_count};
use crate::token_test::{TokenTest, is_number_of};
use sfm_kind::{Instance, Kind};
use sfm_lines::line_parts::are_counts;
use sfm_lines::tokens::{first_token, first_two, has_token};
use sfm_lines::word::{RankKind, TermWord};
use sfm_lines::{LineEnd, Reason};
use std::alloc::Global;

/// The most tokens behind the word of a line that is not long.
const MOST_TOKENS: usize = 1_024;

/// Whether the tokens behind the word of a line are more than a good line has, if it has no groups.
fn is_long(line: &[u8]) -> bool
    ensures { IsTrue result → 1024 < length (tokens_of line.now) }
{
    line.len() > MOST_TOKENS && has_token(line, MOST_TOKENS)
}

/// The first reason of a long line of weights.
fn weight_reason(instance: &Instance, line: &[u8]) -> Reason
    requires names { AreElementNames instance.now.names }
    requires long { 1024 < length (tokens_of line.now) }
    ensures { IsReasonOf instance.now WeightWord (tokens_of line.now) result }
{
    if !all_hold(instance, TokenTest::Pair, line) {
        return Reason::Shape;
    }
    if !all_hold(instance, TokenTest::PairNumber, line) {
        return Reason::Number;
    }
    if !all_hold(instance, TokenTest::PairElement, line) {
        return Reason::Name;
    }
    Reason::Twice
}

/// The first reason of a long line of a cover.
fn cover_reason(instance: &Instance, line: &[u8]) -> Reason
    requires names { AreElementNames instance.now.names }
    requires long { 1024 < length (tokens_of line.now) }
    ensures { IsReasonOf instance.now CoverWord (tokens_of line.now) result }
{
    let Some((number, elements)) = first_token(line) else {
        return Reason::Shape;
    };
    if has_separator_in(line) {
        return Reason::Shape;
    }
    if !is_number_of(instance, TermWord::CoverWord, number) {
        return Reason::Number;
    }
    elements_reason(instance, elements)
}

/// The first reason of a long line of a concave function.
fn concave_reason(instance: &Instance, line: &[u8]) -> Reason
    requires names { AreElementNames instance.now.names }
    requires long { 1024 < length (tokens_of line.now) }
    ensures { IsReasonOf instance.now ConcaveWord (tokens_of line.now) result }
{
    let Some((count, elements)) = colon_cut(line) else {
        return Reason::Shape;
    };
    let places = token_count(elements);
    if !are_counts(TermWord::ConcaveWord, count, places) {
        return Reason::Shape;
    }
    if !first_hold(instance, TokenTest::Value, count, line) {
        return Reason::Number;
    }
    elements_reason(instance, elements)
}

/// The first reason of a long line with this word and these tokens behind it; lines of ranks are told by themselves.
fn long_reason(instance: &Instance, word: TermWord, line: &[u8]) -> Option<Reason>
    requires names { AreElementNames instance.now.names }
    requires long { 1024 < length (tokens_of line.now) }
    ensures { IfSome result (IsReasonOf instance.now word (tokens_of line.now)) }
{
    match word {
        TermWord::WeightWord => Some(weight_reason(instance, line)),
        TermWord::CutWord => Some(Reason::Shape),
        TermWord::NeedWord => Some(Reason::Shape),
        TermWord::CoverWord => Some(cover_reason(instance, line)),
        TermWord::TableWord => Some(Reason::Shape),
        TermWord::ConcaveWord => Some(concave_reason(instance, line)),
        TermWord::RankWord => None,
    }
}

/// The first reason of a line with this word and these tokens behind it, where passes tell it: if the line is long, or that of
/// a rank.
pub fn early_reason(instance: &Instance, word: TermWord, line: &[u8]) -> Option<Reason>
    requires { AreElementNames instance.now.names }
    ensures { IfSome result (IsReasonOf instance.now word (tokens_of line.now)) }
{
    if word == TermWord::RankWord {
        return rank_reason(instance, line);
    }
    if !is_long(line) {
        return None;
    }
    long_reason(instance, word, line)
}

/// The term of a line of a laminar rank with this number and these tokens behind its word, or its first reason; None where the line
/// is not long.
fn long_laminar_term(
    alloc: Global,
    instance: &Instance,
    number: &[u8],
    rest: &[u8],
) -> Result<Option<Kind>, LineEnd>
    requires { AreElementNames instance.now.names }
    ensures { IsToldBy instance.now RankWord (number.now ∷ codes "laminar" ∷ tokens_of rest.now)
        (Unit {0}) result }
{
    if !is_long(rest) {
        return Ok(None);
    }
    let term = laminar_line_term(alloc, instance, number, rest)?;
    Ok(Some(term))
}

/// The term of a line of a rank with these tokens behind its word, or its first reason, where passes tell it: if the line is a long
/// one of a laminar rank, or one of a transversal rank.
fn early_rank_term(alloc: Global, instance: &Instance, line: &[u8]) -> Result<Option<Kind>, LineEnd>
    requires { AreElementNames instance.now.names }
    ensures { IsToldBy instance.now RankWord (tokens_of line.now)
        (IsEntryLine RankWord (tokens_of line.now) → ⊥) result }
{
    let Some((number, kind, rest)) = first_two(line) else {
        return Ok(None);
    };
    match rank_kind(kind) {
        RankKind::NoRank => Ok(None),
        RankKind::UniformRank => Ok(None),
        RankKind::LaminarRank => long_laminar_term(alloc, instance, number, rest),
        RankKind::GraphicRank => Ok(None),
        RankKind::TransversalRank => {
            let term = entry_line_term(alloc, instance, number, rest)?;
            Ok(Some(term))
        }
    }
}

/// The term of a line with this word and these tokens behind it, or its first reason, where passes tell it; None where the line is
/// another, and none of a transversal rank.
pub fn early_term(
    alloc: Global,
    instance: &Instance,
    word: TermWord,
    line: &[u8],
) -> Result<Option<Kind>, LineEnd>
    requires { AreElementNames instance.now.names }
    ensures { IsToldBy instance.now word (tokens_of line.now)
        (IsEntryLine word (tokens_of line.now) → ⊥) result }
{
    if word != TermWord::RankWord {
        return Ok(None);
    }
    early_rank_term(alloc, instance, line)
}
