// What a token of a long term line is tried for: its form, and whether a part of it is a number, or names an element, or has the
// form of a name.
ghost use Rattle.std.specs.{Prelude.{ℕ, List, [], ◌∷◌, Any, MatchBool, MatchOption}, List.{All}};
ghost use Rattle.sfm_spec.specs.Names.{IsName};
ghost use Rattle.sfm_lines.specs.{Lines.{pieces_of}, Parts.{IsPairToken, IsCutAt, IsLabelToken, AreLabelsOf}, ReadParts.{IsNumberOf, IsKnown}, declared.word.TermWord.TheVariants.{WeightWord}, declared.word.RankKind.TheVariants.{GraphicRank}};
ghost use Rattle.sfm_passes.specs.Passes.{Holds, Fails};

use sfm_kind::{Instance, is_name};
use sfm_lines::pair::{cut_once, cut_pair};
use sfm_lines::term_line::number_for;
use sfm_lines::word::{RankKind, TermWord};

/// What a token may be tried for.
#[derive(Clone, Copy)]
pub enum TokenTest {
    /// It is a pair `name:number`, as in a weight line.
    Pair,
    /// It is a pair, and what stands behind its colon is a number.
    PairNumber,
    /// It is a pair, and what stands before its colon names an element.
    PairElement,
    /// It is a number of a concave line.
    Value,
    /// It names an element.
    Element,
    /// It is an element with labels, as in the line of that rank.
    Labelled(RankKind),
    /// It is an element with labels, and the element is one of the ground.
    LabelledElement(RankKind),
    /// It is an element with labels, and these have the form of names.
    NamedLabels(RankKind),
}

/// Whether a text is a number of the line of that word.
pub fn is_number_of(instance: &Instance, word: TermWord, text: &[u8]) -> bool
    ensures { MatchBool result (IsNumberOf instance.now.version word text.now)
        (IsNumberOf instance.now.version word text.now → ⊥) }
{
    match number_for(instance, word, text) {
        Some(_) => true,
        None => false,
    }
}

/// Whether a text names an element.
pub fn is_known(instance: &Instance, text: &[u8]) -> bool
    ensures { MatchBool result (IsKnown instance.now.names text.now)
        (IsKnown instance.now.names text.now → ⊥) }
{
    match instance.place_of(text) {
        Some(_) => true,
        None => false,
    }
}

/// Whether a token is a pair.
pub fn is_pair(token: &[u8]) -> bool
    ensures { MatchBool result
        ((pair : List ℕ × List ℕ) × IsPairToken token.now pair)
        (((pair : List ℕ × List ℕ) × IsPairToken token.now pair) → ⊥) }
{
    match cut_pair(token) {
        Some(_) => true,
        None => false,
    }
}

/// Whether a token is a pair with a number.
fn is_pair_number(instance: &Instance, token: &[u8]) -> bool
    ensures { MatchBool result
        ((pair : List ℕ × List ℕ) × IsPairToken token.now pair
        × IsNumberOf instance.now.version WeightWord pair.1)
        (((pair : List ℕ × List ℕ) × IsPairToken token.now pair
        × IsNumberOf instance.now.version WeightWord pair.1) → ⊥) }
{
    match cut_pair(token) {
        Some((_, number)) => is_number_of(instance, TermWord::WeightWord, number),
        None => false,
    }
}

/// Whether a token is a pair with an element.
pub fn is_pair_element(instance: &Instance, token: &[u8]) -> bool
    ensures { MatchBool result
        ((pair : List ℕ × List ℕ) × IsPairToken token.now pair × IsKnown instance.now.names pair.0)
        (((pair : List ℕ × List ℕ) × IsPairToken token.now pair × IsKnown instance.now.names pair.0)
        → ⊥) }
{
    match cut_pair(token) {
        Some((element, _)) => is_known(instance, element),
        None => false,
    }
}

/// Whether a text has one such byte.
fn has_once(text: &[u8], b: u8) -> bool
    ensures { MatchBool result
        ((before : List ℕ) × (behind : List ℕ) × IsCutAt b text.now before behind)
        ((before behind : List ℕ) → IsCutAt b text.now before behind → ⊥) }
{
    match cut_once(text, b) {
        Some(_) => true,
        None => false,
    }
}

/// Whether a text is that of the labels of an element, in the line of that rank.
fn has_labels(rank: RankKind, text: &[u8]) -> bool
    ensures { MatchBool result
        ((labels : List (List ℕ)) × AreLabelsOf rank text.now labels)
        ((labels : List (List ℕ)) → AreLabelsOf rank text.now labels → ⊥) }
{
    match rank {
        RankKind::GraphicRank => has_once(text, b'-'),
        RankKind::TransversalRank => true,
        RankKind::NoRank | RankKind::UniformRank | RankKind::LaminarRank => false,
    }
}

/// The element of a token and the text of its labels, or None where it is no such token of that rank.
fn entry_cut(rank: RankKind, token: &[u8]) -> Option<(&[u8], &[u8])>
    ensures { MatchOption result
        ((entry : List ℕ × List (List ℕ)) → IsLabelToken rank token.now entry → ⊥)
        (λ r. (labels : List (List ℕ)) × IsLabelToken rank token.now (r.0.now, labels)
        × AreLabelsOf rank r.1.now labels) }
{
    let Some((element, text)) = cut_once(token, b'=') else {
        return None;
    };
    if !has_labels(rank, text) {
        return None;
    }
    Some((element, text))
}

/// Whether both texts have the form of names.
fn are_both_names(tail: &[u8], head: &[u8]) -> bool
    ensures { MatchBool result
        (All IsName (tail.now ∷ head.now ∷ []))
        (Any (λ text. IsName text → ⊥) (tail.now ∷ head.now ∷ [])) }
{
    if !is_name(tail) {
        return false;
    }
    is_name(head)
}

/// Whether the pieces of a text between commas have the form of names.
fn are_slots(text: &[u8]) -> bool
    ensures { MatchBool result
        (All IsName (pieces_of 44 text.now))
        (Any (λ slot. IsName slot → ⊥) (pieces_of 44 text.now)) }
{
    text.split(|c| *c == b',').all(|slot| is_name(slot))
}

/// Whether the two vertices of an edge have the form of names, by the text of both.
fn are_ends(text: &[u8]) -> bool
    ensures { (labels : List (List ℕ)) → AreLabelsOf GraphicRank text.now labels → MatchBool result
        (All IsName labels)
        (Any (λ label. IsName label → ⊥) labels) }
{
    match cut_once(text, b'-') {
        Some((tail, head)) => are_both_names(tail, head),
        None => false,
    }
}

/// Whether the labels of an element have the form of names, by their text.
fn are_named(rank: RankKind, text: &[u8]) -> bool
    ensures { (labels : List (List ℕ)) → AreLabelsOf rank text.now labels → MatchBool result
        (All IsName labels)
        (Any (λ label. IsName label → ⊥) labels) }
{
    match rank {
        RankKind::GraphicRank => are_ends(text),
        RankKind::TransversalRank => are_slots(text),
        RankKind::NoRank | RankKind::UniformRank | RankKind::LaminarRank => false,
    }
}

/// Whether a token is an element with labels.
fn is_labelled(rank: RankKind, token: &[u8]) -> bool
    ensures { MatchBool result
        ((entry : List ℕ × List (List ℕ)) × IsLabelToken rank token.now entry)
        (((entry : List ℕ × List (List ℕ)) × IsLabelToken rank token.now entry) → ⊥) }
{
    match entry_cut(rank, token) {
        Some(_) => true,
        None => false,
    }
}

/// Whether a token is an element of the ground with labels.
fn is_labelled_element(instance: &Instance, rank: RankKind, token: &[u8]) -> bool
    ensures { MatchBool result
        ((entry : List ℕ × List (List ℕ)) × IsLabelToken rank token.now entry
        × IsKnown instance.now.names entry.0)
        (((entry : List ℕ × List (List ℕ)) × IsLabelToken rank token.now entry
        × IsKnown instance.now.names entry.0) → ⊥) }
{
    match entry_cut(rank, token) {
        Some((element, _)) => is_known(instance, element),
        None => false,
    }
}

/// Whether a token is an element with labels that have the form of names.
fn has_named_labels(rank: RankKind, token: &[u8]) -> bool
    ensures { MatchBool result
        ((entry : List ℕ × List (List ℕ)) × IsLabelToken rank token.now entry × All IsName entry.1)
        ((entry : List ℕ × List (List ℕ)) → IsLabelToken rank token.now entry
        → Any (λ label. IsName label → ⊥) entry.1) }
{
    match entry_cut(rank, token) {
        Some((_, text)) => are_named(rank, text),
        None => false,
    }
}

/// Whether a token passes the test.
pub fn holds(instance: &Instance, test: TokenTest, token: &[u8]) -> bool
    ensures { MatchBool result
        (Holds instance.now test token.now)
        (Fails instance.now test token.now) }
{
    match test {
        TokenTest::Pair => is_pair(token),
        TokenTest::PairNumber => is_pair_number(instance, token),
        TokenTest::PairElement => is_pair_element(instance, token),
        TokenTest::Value => is_number_of(instance, TermWord::ConcaveWord, token),
        TokenTest::Element => is_known(instance, token),
        TokenTest::Labelled(rank) => is_labelled(rank, token),
        TokenTest::LabelledElement(rank) => is_labelled_element(instance, rank, token),
        TokenTest::NamedLabels(rank) => has_named_labels(rank, token),
    }
}
