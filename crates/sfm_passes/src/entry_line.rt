// The line `rank`, a number, `transversal`, a colon, and at least one entry `name=slot,slot,..`, judged by passes over it, and its
// term. An entry may have millions of slots, so no list of them is made: of each entry as many of its first slots are kept as the
// line has elements. These suffice, since a member of a part that has none of them finds one that no other member has.
ghost use Rattle.std.specs.{Prelude.{◌≡◌, ◌<◌, ◌≤ℤ◌, [], ◌∷◌, ◌++◌, ◌^◌, ℕ, List, codes, length, map, pos, take, IfOk, OnOk, MatchOption, MatchResult}, List.{All, AllZip}};
ghost use Rattle.sfm_spec.specs.Bounds.{IsGiven, AreElements};
ghost use Rattle.sfm_kind.specs.Names.{AreElementNames};
ghost use Rattle.sfm_lines.specs.{Lines.{pieces_of, texts_of, tokens_of}, Parts.{IsLabelToken}, CutParts.{place_among}, LabelTerms.{numbers_of}, ReadParts.{IsTermRead, label_lists_of, joined, parts_of}, declared.word.TermWord.TheVariants.{RankWord}, declared.word.RankKind.TheVariants.{TransversalRank}};
ghost use Rattle.sfm_passes.specs.{Passes.{AreFewEntries, AreCutEntries, IsReasonOf}, GroupPasses.{IsRefusedBy}};

use crate::long_rank::{MOST_ELEMENTS, entries_fault};
use crate::passes::token_count;
use crate::slots::has_repeated_slot;
use indexmap::IndexSet;
use sfm_base::Memory;
use sfm_kind::{Instance, Kind};
use sfm_lines::labels::{Labels, different, numbers};
use sfm_lines::pair::cut_once;
use sfm_lines::parts::Parts;
use sfm_lines::term_line::{has_place_twice, known_number, known_places};
use sfm_lines::tokens::{first_token, has_token};
use sfm_lines::word::{RankKind, TermWord};
use sfm_lines::{LineEnd, Reason};
use sfm_matroid::{Entries, Transversal};
use std::alloc::{AllocError, Global};

/// The first reason of the number and the entries of a line, or None where there is none but perhaps that an element stands
/// twice.
fn entries_reason(
    alloc: Global,
    instance: &Instance,
    number: &[u8],
    colon: &[u8],
    entries: &[u8],
) -> Result<Option<Reason>, Memory>
    requires names { AreElementNames instance.now.names }
    requires some { 0 < length (tokens_of entries.now) }
    ensures { IfOk result (λ r. MatchOption r
        (AreFewEntries instance.now number.now colon.now (tokens_of entries.now))
        (IsReasonOf instance.now RankWord (number.now ∷ codes "transversal" ∷ colon.now
        ∷ tokens_of entries.now))) }
{
    if let Some(reason) = entries_fault(
        instance,
        RankKind::TransversalRank,
        number,
        colon,
        entries,
    ) {
        return Ok(Some(reason));
    }
    if has_token(entries, MOST_ELEMENTS) {
        return Ok(Some(Reason::Twice));
    }
    if has_repeated_slot(alloc, entries)? {
        return Ok(Some(Reason::Twice));
    }
    Ok(None)
}

/// The first so many pieces of a text between commas.
fn first_slots<'a>(alloc: Global, text: &'a [u8], count: usize) -> Result<Vec<&'a [u8]>, AllocError>
    ensures { IfOk result (λ v. texts_of v.items ≡ take count (pieces_of 44 text.now)) }
{
    text.split(|c| *c == b',').take(count).collect(alloc)
}

/// Puts the element of an entry and its first so many slots behind the elements and the labels of a line.
fn add_entry<'a, 'b>(
    alloc: Global,
    parts: &mut Parts<'a, 'b>,
    token: &'a [u8],
    count: usize,
) -> Result<(), AllocError>
    requires { (entry : List ℕ × List (List ℕ)) × IsLabelToken TransversalRank token.now entry }
    ensures { OnOk result ((entry : List ℕ × List (List ℕ))
        × IsLabelToken TransversalRank token.now entry
        × ((parts_of parts.new).elements ≡ (parts_of parts.old).elements ++ entry.0 ∷ [])
        × ((parts_of parts.new).labels ≡ (parts_of parts.old).labels
        ++ take count entry.1 ∷ [])) }
{
    let Some((element, behind)) = cut_once(token, b'=') else {
        unreachable!();
    };
    parts.elements.push(element)?;
    let texts = first_slots(alloc, behind, count)?;
    parts.labels.push(Labels { texts })?;
    Ok(())
}

/// Puts the elements of the entries of a line, and of each its first so many slots, where there were neither elements nor labels.
fn add_entries<'a, 'b>(
    alloc: Global,
    parts: &mut Parts<'a, 'b>,
    line: &'a [u8],
    count: usize,
) -> Result<(), AllocError>
    requires elements { (parts_of parts.old).elements ≡ [] }
    requires labels { (parts_of parts.old).labels ≡ [] }
    requires each { All (λ token. (entry : List ℕ × List (List ℕ))
        × IsLabelToken TransversalRank token entry) (tokens_of line.now) }
    ensures { OnOk result ((entries : List (List ℕ × List (List ℕ)))
        × AllZip (IsLabelToken TransversalRank) (tokens_of line.now) entries
        × ((parts_of parts.new).elements ≡ map (λ entry. entry.0) entries)
        × ((parts_of parts.new).labels ≡ map (λ entry. take count entry.1) entries)) }
{
    let mut left = line;
    while let Some((token, behind)) = first_token(left) {
        add_entry(alloc, parts, token, count)?;
        left = behind;
    }
    Ok(())
}

/// The slots of the elements, by the places of their names among these.
fn entries(alloc: Global, names: &IndexSet<&[u8]>, labels: &[Labels]) -> Result<Entries, Memory>
    requires few { length names.now.keys < 2 ^ 24 }
    ensures { IfOk result (λ r. r ≡ map (λ texts. map (place_among (texts_of names.now.keys)) texts)
        (label_lists_of labels.now)) }
{
    let mut entries = Entries::new(alloc);
    for element in labels {
        let slots = numbers(alloc, names, &element.texts)?;
        entries.push(slots)?;
    }
    Ok(entries)
}

/// The slots of the elements, by the places of their names among the different ones.
fn numbered_entries(alloc: Global, labels: &[Labels]) -> Result<Entries, Memory>
    requires few { length (joined (label_lists_of labels.now)) < 2 ^ 24 }
    ensures { IfOk result (λ r. r ≡ numbers_of (label_lists_of labels.now)) }
{
    let names = different(alloc, labels)?;
    entries(alloc, &names, labels)
}

/// The term with a number for each element of a greatest part with slots of their own, of these slots.
fn transversal(
    alloc: Global,
    places: &[usize],
    w: i128,
    labels: &[Labels],
) -> Result<Transversal, Memory>
    requires few { length (joined (label_lists_of labels.now)) < 2 ^ 24 }
    requires each { length labels.now ≡ length places.now }
    requires elements { AreElements places.now }
    requires low { pos 0 ≤ℤ w }
    requires given { IsGiven w }
    ensures places { IfOk result (λ r. r.places ≡ places.now) }
    ensures number { IfOk result (λ r. r.w ≡ w) }
    ensures entries { IfOk result (λ r. r.entries ≡ numbers_of (label_lists_of labels.now)) }
{
    let entries = numbered_entries(alloc, labels)?;
    Transversal::new(alloc, places, w, entries)
}

/// The term of a line with this number, whose entries have these elements and these first slots, or the first reason of it.
fn cut_term(
    alloc: Global,
    instance: &Instance,
    number: &[u8],
    parts: &Parts,
) -> Result<Kind, LineEnd>
    requires names { AreElementNames instance.now.names }
    requires cut { (colon : List ℕ) × (tokens : List (List ℕ))
        × AreCutEntries instance.now number.now colon tokens (parts_of parts.now) }
    ensures { (colon : List ℕ) (tokens : List (List ℕ))
        → AreCutEntries instance.now number.now colon tokens (parts_of parts.now)
        → MatchResult result
        (IsTermRead instance.now RankWord (number.now ∷ codes "transversal" ∷ colon ∷ tokens))
        (IsRefusedBy instance.now RankWord (number.now ∷ codes "transversal" ∷ colon ∷ tokens)) }
{
    let w = known_number(instance, TermWord::RankWord, number);
    let places = known_places(alloc, instance, &parts.elements)?;
    if has_place_twice(&places) {
        return Err(LineEnd::Fault(Reason::Twice));
    }
    let term = transversal(alloc, &places, w, &parts.labels)?;
    Ok(Kind::Transversal(term))
}

/// The term of a line with this number, this token in the place of the colon and these entries, or the first reason of it.
fn entries_term(
    alloc: Global,
    instance: &Instance,
    number: &[u8],
    colon: &[u8],
    entries: &[u8],
) -> Result<Kind, LineEnd>
    requires names { AreElementNames instance.now.names }
    requires some { 0 < length (tokens_of entries.now) }
    ensures { MatchResult result
        (IsTermRead instance.now RankWord (number.now ∷ codes "transversal" ∷ colon.now
        ∷ tokens_of entries.now))
        (IsRefusedBy instance.now RankWord (number.now ∷ codes "transversal" ∷ colon.now
        ∷ tokens_of entries.now)) }
{
    let fault = entries_reason(alloc, instance, number, colon, entries)?;
    if let Some(reason) = fault {
        return Err(LineEnd::Fault(reason));
    }
    let mut parts = Parts::copied(alloc, RankKind::TransversalRank, &[], &[])?;
    add_entries(alloc, &mut parts, entries, token_count(entries))?;
    cut_term(alloc, instance, number, &parts)
}

/// The term of a line of a transversal rank with this number and these tokens behind its word, or the first reason of it.
pub fn entry_line_term(
    alloc: Global,
    instance: &Instance,
    number: &[u8],
    rest: &[u8],
) -> Result<Kind, LineEnd>
    requires { AreElementNames instance.now.names }
    ensures { MatchResult result
        (IsTermRead instance.now RankWord (number.now ∷ codes "transversal" ∷ tokens_of rest.now))
        (IsRefusedBy instance.now RankWord (number.now ∷ codes "transversal"
        ∷ tokens_of rest.now)) }
{
    let Some((colon, entries)) = first_token(rest) else {
        return Err(LineEnd::Fault(Reason::Shape));
    };
    if !has_token(entries, 0) {
        return Err(LineEnd::Fault(Reason::Shape));
    }
    entries_term(alloc, instance, number, colon, entries)
}
