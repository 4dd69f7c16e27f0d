// One term line, judged against an instance: its term is added behind the others, or the first reason is told for which the
// line has none. A text's term lines are read by this call too, so that a line is judged alike wherever it comes from.
ghost use Rattle.std.specs.{Prelude.{◌≡◌, ◌≢◌, ◌↔◌, ◌<◌, ◌≤◌, ◌^◌, ◌≤ℤ◌, ℕ, pos, List, [], ◌∷◌, ◌++◌, length, IsTrue, Any, Option, Some, None, IfOk, IfErr, MatchBool, MatchOption, MatchResult, OnErr}, List.{All}};
ghost use Rattle.sfm_kind.specs.{Kinds.{kind_places, kind_size}, Limits.{AreInBounds}, Names.{AreElementNames}, declared.version.Version.TheVariants.{Second}};
ghost use Rattle.sfm_lines.specs.{Lines.{tokens_of}, Versions.{most_size}, Words.{word_text}, Reading.{IsBadByte, AreTooMuch}, ReadParts.{bytes_in, state_at, IsTermRead}, Weights.{IsUnweighed}, declared.stage.Stage.TheVariants.{Terms}, declared.word.TermWord.{TermWord}, declared.word.TermWord.TheVariants.{RankWord}};
ghost use Rattle.sfm_passes.specs.GroupPasses.{IsRefusedBy};
ghost use Rattle.sfm_text.specs.{Judging.{IsOutcome}, Weighed.{IsTermSaid, IsRankRead, IsLineRefusedBy, IsPastShape}, GoodText.{text_limit}, Adding.{IsTermAdded, IsTermRefusal}};

use sfm_kind::{Instance, Kind, Layers, Version};
use sfm_law::Term;
use sfm_lines::term_line::read_term;
use sfm_lines::tokens::{first_token, tokens};
use sfm_lines::word::{TermWord, term_word};
use sfm_lines::{LineEnd, Reason};
use sfm_passes::{early_reason, early_term};
use sfm_weights::{are_weights, weights_of, without_weights};
use std::alloc::Global;

/// The most term lines and places of a text in all.
const MOST_LINES: usize = 4_096;

const MOST_PLACES: usize = 16_384;

/// Whether a content line may hold the byte: a tab, or one from the space to `~`.
fn is_good_byte(c: u8) -> bool
    ensures { MatchBool result (IsBadByte c → ⊥) (IsBadByte c) }
{
    c == b'\t' || (b' ' <= c && c <= b'~')
}

/// Whether a content line may hold each of the bytes.
pub fn are_good_bytes(line: &[u8]) -> bool
    ensures { MatchBool result (Any IsBadByte line.now → ⊥) (Any IsBadByte line.now) }
{
    for c in line {
        if !is_good_byte(*c) {
            return false;
        }
    }
    true
}

/// The word of a term line and the line behind it, or None where the first token is none of the words.
fn term_line(line: &[u8]) -> Option<(TermWord, &[u8])>
    ensures { MatchOption result
        ((word : TermWord) (rest : List (List ℕ)) → tokens_of line.now ≢ word_text word ∷ rest)
        (λ r. tokens_of line.now ≡ word_text r.0 ∷ tokens_of r.1.now) }
{
    let Some((first, rest)) = first_token(line) else {
        return None;
    };
    match term_word(first) {
        Some(word) => Some((word, rest)),
        None => None,
    }
}

/// The most that the sizes of a text of that version may add to.
fn size_limit(version: Version) -> i128
    ensures most { result ≡ most_size version }
    ensures low { pos 0 ≤ℤ result }
    ensures small { result ≤ℤ pos (10 ^ 18) }
{
    match version {
        Version::First => 1_000_000_000_000_000,
        Version::Second => 1_000_000_000_000_000_000,
    }
}

/// Whether there is too much in all with one more line, of so many places and that size.
fn is_too_much(instance: &Instance, places: usize, size: i128) -> bool
    ensures much { IsTrue result ↔ AreTooMuch instance.now.version instance.now.lines
        instance.now.terms places size }
    ensures bounded { AreInBounds (length instance.now.names) instance.now.terms }
{
    let _terms = instance.terms();
    let places_left = MOST_PLACES - instance.support();
    let version = instance.text_version();
    let most = size_limit(version);
    let size_left = most - instance.total_size();
    instance.lines().len() >= MOST_LINES || places > places_left || size > size_left
}

/// Whether there is too much in all with one more line, of that term.
fn is_too_much_with(instance: &Instance, term: &Kind) -> bool
    ensures much { IsTrue result ↔ AreTooMuch instance.now.version instance.now.lines
        instance.now.terms (length (kind_places term.now)) (kind_size term.now) }
    ensures bounded { AreInBounds (length instance.now.names) instance.now.terms }
{
    is_too_much(instance, term.elements().len(), term.size())
}

/// Adds the term of a line without weights that has no other reason than that there may be too much with it.
fn add_made(instance: &mut Instance, term: Kind) -> Result<(), LineEnd>
    requires read { (tokens : List (List ℕ)) × IsTermSaid instance.old tokens term None }
    ensures outcome { (tokens : List (List ℕ)) → IsTermSaid instance.old tokens term None
        → IsOutcome (state_at Terms instance.old) tokens result (state_at Terms instance.new) }
    ensures unchanged { OnErr result (instance.new ≡ instance.old) }
{
    let _count = instance.names_len();
    if is_too_much_with(instance, &term) {
        return Err(LineEnd::Fault(Reason::Total));
    }
    instance.add_term(term)?;
    Ok(())
}

/// Adds the layers of the term of a line with these weights that has no other reason than that there may be too much with it.
fn add_layered(
    alloc: Global,
    instance: &mut Instance,
    term: Kind,
    weights: &[i128],
) -> Result<(), LineEnd>
    requires read { (tokens : List (List ℕ))
        × IsTermSaid instance.old tokens term (Some weights.now) }
    ensures outcome { (tokens : List (List ℕ))
        → IsTermSaid instance.old tokens term (Some weights.now)
        → IsOutcome (state_at Terms instance.old) tokens result (state_at Terms instance.new) }
    ensures unchanged { OnErr result (instance.new ≡ instance.old) }
{
    let _count = instance.names_len();
    let brought = term.weigh(alloc, weights)?;
    if is_too_much(instance, brought.places, brought.size) {
        return Err(LineEnd::Fault(Reason::Total));
    }
    instance.add_layers(Layers::new(alloc, term, weights)?)?;
    Ok(())
}

/// The term of a line with this word and these tokens behind it, or the first reason for which it has none but that there may be too
/// much with it.
fn read_behind(
    alloc: Global,
    instance: &Instance,
    word: TermWord,
    rest: &[u8],
) -> Result<Kind, LineEnd>
    requires names { AreElementNames instance.now.names }
    requires short { bytes_in (tokens_of rest.now) < 2 ^ 24 }
    ensures read { IfOk result (IsTermRead instance.now word (tokens_of rest.now)) }
    ensures refused { IfErr result (IsRefusedBy instance.now word (tokens_of rest.now)) }
{
    if let Some(reason) = early_reason(instance, word, rest) {
        return Err(LineEnd::Fault(reason));
    }
    if let Some(term) = early_term(alloc, instance, word, rest)? {
        return Ok(term);
    }
    let tokens = tokens(alloc, rest)?;
    read_term(alloc, instance, word, &tokens)
}

/// Adds the term of a line with this word, whose elements have no weights, and these tokens behind it.
fn add_plain(
    alloc: Global,
    instance: &mut Instance,
    word: TermWord,
    rest: &[u8],
) -> Result<(), LineEnd>
    requires plain { instance.old.version ≡ Second → word ≢ RankWord }
    requires short { bytes_in (tokens_of rest.now) < 2 ^ 24 }
    ensures outcome { IsOutcome (state_at Terms instance.old)
        (word_text word ∷ tokens_of rest.now) result (state_at Terms instance.new) }
    ensures unchanged { OnErr result (instance.new ≡ instance.old) }
{
    let _count = instance.names_len();
    let term = read_behind(alloc, instance, word, rest)?;
    add_made(instance, term)
}

/// Whether a line has the shape of one, as far as its reading tells.
fn is_past_shape(read: &Result<Kind, LineEnd>) -> bool
    ensures { MatchBool result (IsPastShape read.now) (IsPastShape read.now → ⊥) }
{
    match read {
        Ok(_) => true,
        Err(LineEnd::Fault(reason)) => *reason != Reason::Shape,
        Err(LineEnd::Memory) => false,
    }
}

/// The term of a rank line of the second version with these tokens behind its word, of which `plain` has those without the weights of
/// the elements; or the first reason for which it has none but that there may be too much with it.
fn read_weighed(
    alloc: Global,
    instance: &Instance,
    rest: &[u8],
    plain: &[u8],
) -> Result<Kind, LineEnd>
    requires names { AreElementNames instance.now.names }
    requires version { instance.now.version ≡ Second }
    requires short { bytes_in (tokens_of plain.now) < 2 ^ 24 }
    requires plain { (entries : List (List ℕ × Option (List ℕ)))
        × IsUnweighed (tokens_of rest.now) (tokens_of plain.now) entries }
    ensures read { IfOk result (λ term. (entries : List (List ℕ × Option (List ℕ)))
        × IsRankRead instance.now (tokens_of rest.now) (tokens_of plain.now) entries term) }
    ensures refused { IfErr result (IsLineRefusedBy instance.now
        (word_text RankWord ∷ tokens_of rest.now)) }
{
    let read = read_behind(alloc, instance, TermWord::RankWord, plain);
    if is_past_shape(&read) && !are_weights(rest) {
        return Err(LineEnd::Fault(Reason::Number));
    }
    read
}

/// Adds the term of a rank line of the second version with these tokens behind its word, or its layers where elements have weights.
fn add_weighed(alloc: Global, instance: &mut Instance, rest: &[u8]) -> Result<(), LineEnd>
    requires version { instance.old.version ≡ Second }
    requires short { bytes_in (tokens_of rest.now) < 2 ^ 24 }
    ensures outcome { IsOutcome (state_at Terms instance.old)
        (word_text RankWord ∷ tokens_of rest.now) result (state_at Terms instance.new) }
    ensures unchanged { OnErr result (instance.new ≡ instance.old) }
{
    let _count = instance.names_len();
    let Some(plain) = without_weights(alloc, rest)? else {
        return Err(LineEnd::Fault(Reason::Shape));
    };
    let term = read_weighed(alloc, instance, rest, &plain)?;
    match weights_of(alloc, rest)? {
        None => add_made(instance, term),
        Some(weights) => add_layered(alloc, instance, term, &weights),
    }
}

/// Whether the elements of a line with this word may have weights.
fn may_weigh(instance: &Instance, word: TermWord) -> bool
    ensures { MatchBool result ((instance.now.version ≡ Second) × (word ≡ RankWord))
        (instance.now.version ≡ Second → word ≢ RankWord) }
{
    instance.text_version() == Version::Second && word == TermWord::RankWord
}

/// Adds the term of a line with this word and these tokens behind it.
fn add_behind(
    alloc: Global,
    instance: &mut Instance,
    word: TermWord,
    rest: &[u8],
) -> Result<(), LineEnd>
    requires short { bytes_in (tokens_of rest.now) < 2 ^ 24 }
    ensures outcome { IsOutcome (state_at Terms instance.old)
        (word_text word ∷ tokens_of rest.now) result (state_at Terms instance.new) }
    ensures unchanged { OnErr result (instance.new ≡ instance.old) }
{
    if may_weigh(instance, word) {
        return add_weighed(alloc, instance, rest);
    }
    add_plain(alloc, instance, word, rest)
}

/// Adds the term of a term line, which is no longer than a text may be, behind those of an instance, or its layers where its elements
/// have weights.
///
/// # Errors
///
/// `Fault` with the first reason for which the line is no term line behind the others, `word` where its first token is not
/// the word of one or it has no token; `Memory` where there is none. The instance is then as it was.
pub fn add_line(alloc: Global, instance: &mut Instance, line: &[u8]) -> Result<(), LineEnd>
    requires short { length line.now ≤ text_limit }
    ensures judged { MatchResult result (λ _. IsTermAdded instance.old line.now instance.new)
        (IsTermRefusal instance.old line.now) }
    ensures unchanged { OnErr result (instance.new ≡ instance.old) }
{
    if !are_good_bytes(line) {
        return Err(LineEnd::Fault(Reason::Bytes));
    }
    let Some((word, rest)) = term_line(line) else {
        return Err(LineEnd::Fault(Reason::Word));
    };
    add_behind(alloc, instance, word, rest)
}
