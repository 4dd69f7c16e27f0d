// Reading a term line: its parts are cut out by its word, and each kind of part is then read once for all words.
ghost use Rattle.std.specs.{Prelude.{◌≡◌, ◌<◌, ◌↔◌, ◌∷◌, ◌^◌, ℕ, List, ℤ, pos, neg_ℤ, ◌≤ℤ◌, Any, IsTrue, IfOk, IfErr, MatchOption, Some, ◌≢◌, length}, List.{All, AllZip}};
ghost use Rattle.sfm_kind.specs.{Instance.{InstanceData}, Names.{IsNewName, AreElementNames}, declared.version.Version.{Version}};
ghost use Rattle.sfm_lines.specs.{Lines.{texts_of}, Versions.{most_written}, Words.{HasParts, lowest_of, word_text}, TermLines.{IsNumberFor, IsElement, StandsTwice}, PlainLines.{IsPlainRefusal}, ReadParts.{bytes_in, state_at, ArePartsGood, IsPartsReason, IsLineOf, IsTermRead, IsNumberOf, IsKnown, IsEntryLine, parts_of, joined}, declared.stage.Stage.TheVariants.{Terms}, declared.word.RankKind.TheVariants.{TransversalRank}};

use crate::groups::{are_members, has_member_twice};
use crate::labels::are_labels;
use crate::line_fault::LineEnd;
use crate::line_parts::line_parts;
use crate::parts::Parts;
use crate::reason::Reason;
use crate::terms::make_term;
use crate::word::TermWord;
use sfm_base::read_number;
use sfm_kind::{Instance, Kind, Version};
use std::alloc::{AllocError, Global};

/// The greatest number that may be written in a text of that version.
fn highest_number(version: Version) -> i128
    ensures most { result ≡ most_written version }
    ensures low { pos 0 ≤ℤ result }
    ensures small { result ≤ℤ pos (10 ^ 15) }
{
    match version {
        Version::First => 1_000_000_000_000,
        Version::Second => 1_000_000_000_000_000,
    }
}

/// The least number that may stand in the line of a word, in a text of that version.
fn lowest_number(version: Version, word: TermWord) -> i128
    ensures least { result ≡ lowest_of version word }
    ensures small { neg_ℤ (pos (10 ^ 15)) ≤ℤ result }
{
    match word {
        TermWord::WeightWord | TermWord::TableWord | TermWord::ConcaveWord => {
            -highest_number(version)
        }
        TermWord::CutWord | TermWord::NeedWord | TermWord::CoverWord | TermWord::RankWord => 0,
    }
}

/// The number that a text is, or None where it is none or outside the range of the word's line in a text of that version.
fn number_in(version: Version, word: TermWord, text: &[u8]) -> Option<i128>
    ensures { (value : ℤ) → (result ≡ Some value) ↔ IsNumberFor version word text.now value }
{
    let lowest = lowest_number(version, word);
    let highest = highest_number(version);
    let Some(value) = read_number(text) else {
        return None;
    };
    if lowest <= value && value <= highest {
        Some(value)
    } else {
        None
    }
}

/// The number that a text is, or None where it is none or outside the range of the word's line, in a text of the version of the
/// instance.
pub fn number_for(instance: &Instance, word: TermWord, text: &[u8]) -> Option<i128>
    ensures { (value : ℤ) → (result ≡ Some value)
        ↔ IsNumberFor instance.now.version word text.now value }
{
    number_in(instance.text_version(), word, text)
}

/// The number that a text is, which is one in the range of the word's line.
pub fn known_number(instance: &Instance, word: TermWord, text: &[u8]) -> i128
    requires { IsNumberOf instance.now.version word text.now }
    ensures { IsNumberFor instance.now.version word text.now result }
{
    let Some(value) = number_for(instance, word, text) else {
        unreachable!();
    };
    value
}

/// The numbers that the texts are, or None where one is none or outside the range of the word's line.
fn read_numbers(
    alloc: Global,
    instance: &Instance,
    word: TermWord,
    texts: &[&[u8]],
) -> Result<Option<Vec<i128>>, AllocError>
    ensures { IfOk result (λ r. MatchOption r
        (Any (λ text. (value : ℤ) → IsNumberFor instance.now.version word text value → ⊥)
        (texts_of texts.now))
        (λ values. AllZip (IsNumberFor instance.now.version word)
        (texts_of texts.now) values.items)) }
{
    let mut values = Vec::new(alloc);
    for text in texts {
        let Some(value) = number_for(instance, word, text) else {
            return Ok(None);
        };
        values.push(value)?;
    }
    Ok(Some(values))
}

/// The places of the elements that the texts name, or None where one is no element's name.
fn read_places(
    alloc: Global,
    instance: &Instance,
    texts: &[&[u8]],
) -> Result<Option<Vec<usize>>, AllocError>
    ensures { IfOk result (λ r. MatchOption r
        (Any (IsNewName instance.now.names) (texts_of texts.now))
        (λ places. AllZip (IsElement instance.now.names) (texts_of texts.now) places.items)) }
{
    let mut places = Vec::new(alloc);
    for text in texts {
        let Some(place) = instance.place_of(text) else {
            return Ok(None);
        };
        places.push(place)?;
    }
    Ok(Some(places))
}

/// The places of the elements that the texts name, each of which is an element's name.
pub fn known_places(
    alloc: Global,
    instance: &Instance,
    texts: &[&[u8]],
) -> Result<Vec<usize>, AllocError>
    requires { All (IsKnown instance.now.names) (texts_of texts.now) }
    ensures { IfOk result (λ places. AllZip (IsElement instance.now.names)
        (texts_of texts.now) places.items) }
{
    let Some(places) = read_places(alloc, instance, texts)? else {
        unreachable!();
    };
    Ok(places)
}

/// Whether some place stands twice. With places below n it looks at no more than n + 1 of them.
pub fn has_place_twice(places: &[usize]) -> bool
    ensures { IsTrue result ↔ StandsTwice places.now }
{
    for i in 0..places.len() {
        if places[..i].contains(&places[i]) {
            return true;
        }
    }
    false
}

/// The first reason of the groups, the labels and the places of a line with these parts, or None where there is none.
fn parts_reason(parts: &Parts, places: &[usize]) -> Option<Reason>
    ensures { MatchOption result
        (ArePartsGood (parts_of parts.now) places.now)
        (IsPartsReason (parts_of parts.now) places.now) }
{
    if !are_members(&parts.elements, &parts.groups) {
        return Some(Reason::Name);
    }
    if !are_labels(&parts.labels) {
        return Some(Reason::Name);
    }
    if has_place_twice(places) {
        return Some(Reason::Twice);
    }
    if has_member_twice(&parts.groups) {
        return Some(Reason::Twice);
    }
    None
}

/// The term of a line with this word and these parts, whose numbers and places have been read, or the first reason for which it
/// has none.
fn placed_term(
    alloc: Global,
    word: TermWord,
    parts: &Parts,
    values: &[i128],
    places: &[usize],
) -> Result<Kind, LineEnd>
    requires shape { (rest : List (List ℕ)) × HasParts word rest (parts_of parts.now) }
    requires numbers { (version : Version) × AllZip (IsNumberFor version word)
        (parts_of parts.now).numbers values.now }
    requires elements { (names : List (List ℕ)) × AreElementNames names
        × AllZip (IsElement names) (parts_of parts.now).elements places.now }
    requires other { (parts_of parts.now).rank ≢ TransversalRank }
    requires few { length (joined (parts_of parts.now).labels) < 2 ^ 24 }
    ensures read { (instance : InstanceData) → AreElementNames instance.names
        → AllZip (IsNumberFor instance.version word) (parts_of parts.now).numbers values.now
        → AllZip (IsElement instance.names) (parts_of parts.now).elements places.now
        → IfOk result (λ term. (rest : List (List ℕ)) → HasParts word rest (parts_of parts.now)
        → IsTermRead instance word rest term) }
    ensures refused { (instance : InstanceData) → AreElementNames instance.names
        → AllZip (IsNumberFor instance.version word) (parts_of parts.now).numbers values.now
        → AllZip (IsElement instance.names) (parts_of parts.now).elements places.now
        → IfErr result (λ e. (rest : List (List ℕ)) (line : List ℕ)
        → HasParts word rest (parts_of parts.now)
        → IsLineOf line (word_text word ∷ rest)
        → IsPlainRefusal (state_at Terms instance) line e) }
{
    if let Some(reason) = parts_reason(parts, places) {
        return Err(LineEnd::Fault(reason));
    }
    match make_term(alloc, word, parts, values, places)? {
        Some(term) => Ok(term),
        None => Err(LineEnd::Fault(Reason::Law)),
    }
}

/// The term of a line with this word and these parts, or the first reason for which it has none.
fn parts_term(
    alloc: Global,
    instance: &Instance,
    word: TermWord,
    parts: &Parts,
) -> Result<Kind, LineEnd>
    requires names { AreElementNames instance.now.names }
    requires shape { (rest : List (List ℕ)) × HasParts word rest (parts_of parts.now) }
    requires other { (parts_of parts.now).rank ≢ TransversalRank }
    requires few { length (joined (parts_of parts.now).labels) < 2 ^ 24 }
    ensures read { IfOk result (λ term. (rest : List (List ℕ))
        → HasParts word rest (parts_of parts.now) → IsTermRead instance.now word rest term) }
    ensures refused { IfErr result (λ e. (rest : List (List ℕ)) (line : List ℕ)
        → HasParts word rest (parts_of parts.now)
        → IsLineOf line (word_text word ∷ rest)
        → IsPlainRefusal (state_at Terms instance.now) line e) }
{
    let Some(values) = read_numbers(alloc, instance, word, &parts.numbers)? else {
        return Err(LineEnd::Fault(Reason::Number));
    };
    let Some(places) = read_places(alloc, instance, &parts.elements)? else {
        return Err(LineEnd::Fault(Reason::Name));
    };
    placed_term(alloc, word, parts, &values, &places)
}

/// The term that a line with this word stands for, or the first reason for which it has none; a line of a transversal rank is read
/// by itself.
pub fn read_term(
    alloc: Global,
    instance: &Instance,
    word: TermWord,
    tokens: &[&[u8]],
) -> Result<Kind, LineEnd>
    requires names { AreElementNames instance.now.names }
    requires short { bytes_in (texts_of tokens.now) < 2 ^ 24 }
    requires other { IsEntryLine word (texts_of tokens.now) → ⊥ }
    ensures read { IfOk result (IsTermRead instance.now word (texts_of tokens.now)) }
    ensures refused { IfErr result (λ e. (line : List ℕ)
        → IsLineOf line (word_text word ∷ texts_of tokens.now)
        → IsPlainRefusal (state_at Terms instance.now) line e) }
{
    let Some(parts) = line_parts(alloc, word, tokens)? else {
        return Err(LineEnd::Fault(Reason::Shape));
    };
    parts_term(alloc, instance, word, &parts)
}
