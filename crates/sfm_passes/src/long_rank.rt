// The first reason of a line of a rank, told by passes over its tokens: of a uniform rank where the line is long, and of a graphic
// rank however long it is. A line of a laminar rank may be good however long it is, and so may one of a transversal rank, as one
// entry may have millions of slots: so their terms are told by passes together with their reasons, in `long_laminar.rt` and
// `entry_line.rt`.
ghost use Rattle.std.specs.Prelude.{◌≡◌, ◌≢◌, ◌<◌, ◌∷◌, [], ℕ, List, length, codes, IfSome, MatchBool, MatchOption};
ghost use Rattle.sfm_kind.specs.Names.{AreElementNames};
ghost use Rattle.sfm_lines.specs.{Lines.{tokens_of}, Parts.{LineParts, IsCutAtColon, IsUniformLine}, declared.word.TermWord.{TermWord}, declared.word.TermWord.TheVariants.{RankWord}};
ghost use Rattle.sfm_passes.specs.Passes.{IsReasonOf, HasTooMany, IsRankNamed, HasLabels, label_word, AreGoodEntries};

use crate::passes::{all_hold, has_separator_in, is_colon};
use crate::token_test::{TokenTest, is_number_of};
use sfm_kind::Instance;
use sfm_lines::Reason;
use sfm_lines::separator::is_separator;
use sfm_lines::tokens::{first_token, first_two, has_token};
use sfm_lines::word::{RankKind, TermWord, is_word};

/// The most elements of a ground.
pub const MOST_ELEMENTS: usize = 256;

/// The most tokens behind the word of a uniform rank in a line that is not long.
const MOST_RANK_TOKENS: usize = 1_000;

/// Which rank a token means.
pub fn rank_kind(token: &[u8]) -> RankKind
    ensures { IsRankNamed result token.now }
{
    if is_word(token, b"uniform") {
        return RankKind::UniformRank;
    }
    if is_word(token, b"laminar") {
        return RankKind::LaminarRank;
    }
    if is_word(token, b"graphic") {
        return RankKind::GraphicRank;
    }
    if is_word(token, b"transversal") {
        return RankKind::TransversalRank;
    }
    RankKind::NoRank
}

/// Whether a line with these tokens around its word is cut at its one colon alone, as that of a uniform rank.
fn is_uniform_cut(number: &[u8], cap: &[u8], colon: &[u8], elements: &[u8]) -> bool
    ensures { MatchBool result
        (IsCutAtColon (number.now ∷ codes "uniform" ∷ cap.now ∷ colon.now ∷ tokens_of elements.now)
        (number.now ∷ codes "uniform" ∷ cap.now ∷ []) (tokens_of elements.now))
        ((parts : LineParts) → IsUniformLine (number.now ∷ codes "uniform" ∷ cap.now ∷ colon.now
        ∷ tokens_of elements.now) parts → ⊥) }
{
    if is_separator(number) {
        return false;
    }
    if is_separator(cap) {
        return false;
    }
    if !is_colon(colon) {
        return false;
    }
    if has_separator_in(elements) {
        return false;
    }
    true
}

/// The first reason of a line whose shape and numbers are good, by its elements, of which it has more than a ground.
pub fn elements_reason(instance: &Instance, elements: &[u8]) -> Reason
    requires { AreElementNames instance.now.names }
    ensures { (word : TermWord) (rest : List (List ℕ))
        → HasTooMany instance.now.version word rest (tokens_of elements.now) → IsReasonOf instance.now word rest result }
{
    if !all_hold(instance, TokenTest::Element, elements) {
        return Reason::Name;
    }
    Reason::Twice
}

/// The first reason of a long line of a uniform rank with this number and these tokens behind its word.
fn uniform_reason(instance: &Instance, number: &[u8], behind: &[u8]) -> Reason
    requires names { AreElementNames instance.now.names }
    requires long { 1000 < length (tokens_of behind.now) }
    ensures { IsReasonOf instance.now RankWord (number.now ∷ codes "uniform" ∷ tokens_of behind.now)
        result }
{
    let Some((cap, colon, elements)) = first_two(behind) else {
        return Reason::Shape;
    };
    if !is_uniform_cut(number, cap, colon, elements) {
        return Reason::Shape;
    }
    if !is_number_of(instance, TermWord::RankWord, number) {
        return Reason::Number;
    }
    if !is_number_of(instance, TermWord::RankWord, cap) {
        return Reason::Number;
    }
    elements_reason(instance, elements)
}

/// The first reason of elements with labels before that something stands twice, or None where there is none.
pub fn entries_fault(
    instance: &Instance,
    rank: RankKind,
    number: &[u8],
    colon: &[u8],
    entries: &[u8],
) -> Option<Reason>
    requires labels { HasLabels rank }
    requires some { 0 < length (tokens_of entries.now) }
    ensures { MatchOption result
        (AreGoodEntries instance.now rank number.now colon.now (tokens_of entries.now))
        (IsReasonOf instance.now RankWord (number.now ∷ label_word rank ∷ colon.now
        ∷ tokens_of entries.now)) }
{
    if is_separator(number) {
        return Some(Reason::Shape);
    }
    if !is_colon(colon) {
        return Some(Reason::Shape);
    }
    if !all_hold(instance, TokenTest::Labelled(rank), entries) {
        return Some(Reason::Shape);
    }
    if !is_number_of(instance, TermWord::RankWord, number) {
        return Some(Reason::Number);
    }
    if !all_hold(instance, TokenTest::LabelledElement(rank), entries) {
        return Some(Reason::Name);
    }
    if !all_hold(instance, TokenTest::NamedLabels(rank), entries) {
        return Some(Reason::Name);
    }
    None
}

/// The first reason of a line of a graphic rank with this number and these tokens behind its word, or None where passes tell none.
fn graphic_reason(instance: &Instance, number: &[u8], behind: &[u8]) -> Option<Reason>
    requires { AreElementNames instance.now.names }
    ensures { IfSome result (IsReasonOf instance.now RankWord
        (number.now ∷ codes "graphic" ∷ tokens_of behind.now)) }
{
    let Some((colon, edges)) = first_token(behind) else {
        return None;
    };
    if !has_token(edges, 0) {
        return None;
    }
    if let Some(reason) = entries_fault(instance, RankKind::GraphicRank, number, colon, edges) {
        return Some(reason);
    }
    if has_token(edges, MOST_ELEMENTS) {
        return Some(Reason::Twice);
    }
    None
}

/// The first reason of a line of a uniform rank with this number and these tokens behind its word, or None where the line is not
/// long.
fn long_uniform_reason(instance: &Instance, number: &[u8], behind: &[u8]) -> Option<Reason>
    requires { AreElementNames instance.now.names }
    ensures { IfSome result (IsReasonOf instance.now RankWord
        (number.now ∷ codes "uniform" ∷ tokens_of behind.now)) }
{
    if !has_token(behind, MOST_RANK_TOKENS) {
        return None;
    }
    Some(uniform_reason(instance, number, behind))
}

/// The first reason of a line of a rank with these tokens behind its word, or None where passes do not tell it.
pub fn rank_reason(instance: &Instance, line: &[u8]) -> Option<Reason>
    requires { AreElementNames instance.now.names }
    ensures { IfSome result (IsReasonOf instance.now RankWord (tokens_of line.now)) }
{
    let Some((number, kind, behind)) = first_two(line) else {
        return None;
    };
    match rank_kind(kind) {
        RankKind::NoRank => Some(Reason::Shape),
        RankKind::UniformRank => long_uniform_reason(instance, number, behind),
        RankKind::LaminarRank | RankKind::TransversalRank => None,
        RankKind::GraphicRank => graphic_reason(instance, number, behind),
    }
}
