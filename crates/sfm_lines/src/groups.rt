// The groups of a line: whether their names are those of the line's elements, whether one stands twice, and the term that
// they make. A line of millions of names is told by passes, in `sfm_passes`; so a name is sought here by going through the
// texts. A group's members are found by going through the elements in order, so that they ascend.
ghost use Rattle.std.specs.{Prelude.{◌≡◌, ◌+◌, ◌^◌, ℕ, List, length, pos, ◌≤ℤ◌, Any, Contains, IfOk, MatchBool, MatchOption}, List.{All}};
ghost use Rattle.sfm_laminar.specs.Crossing.{IsCrossing};
ghost use Rattle.sfm_spec.specs.Bounds.{IsAtMost};
ghost use Rattle.sfm_lines.specs.{Lines.{texts_of, text_lists_of}, LabelTerms.{distinct_of}, RankLines.{is_among, members_of, groups_of}, LeastGroups.{least_groups}, TermLines.{StandsTwice}, ReadParts.{AreGiven, IsTermOf, parts_of}, declared.word.TermWord.TheVariants.{RankWord}, declared.word.RankKind.TheVariants.{LaminarRank}};

use crate::least_groups::{keep, with_kept};
use crate::parts::Parts;
use indexmap::IndexSet;
use sfm_base::Memory;
use sfm_kind::Kind;
use sfm_laminar::CappedGroup;
use std::alloc::{AllocError, Global};

/// Whether a text is one of the texts.
fn is_one_of(texts: &[&[u8]], text: &[u8]) -> bool
    ensures { result ≡ is_among (texts_of texts.now) text.now }
{
    for other in texts {
        if *other == text {
            return true;
        }
    }
    false
}

/// Whether a text is one of the texts of which these are the different ones.
pub fn is_known(known: &IndexSet<&[u8]>, text: &[u8]) -> bool
    ensures { (texts : List (List ℕ)) → texts_of known.now.keys ≡ distinct_of texts
        → result ≡ is_among texts text.now }
{
    known.contains(text)
}

/// Whether each name is one of the elements of the line.
fn are_among(elements: &[&[u8]], names: &[&[u8]]) -> bool
    ensures { MatchBool result
        (All (Contains (texts_of elements.now)) (texts_of names.now))
        (Any (λ name. Contains (texts_of elements.now) name → ⊥) (texts_of names.now)) }
{
    for name in names {
        if !is_one_of(elements, name) {
            return false;
        }
    }
    true
}

/// Whether each name of each group is one of the elements of the line.
pub fn are_members(elements: &[&[u8]], groups: &[&[&[u8]]]) -> bool
    ensures { MatchBool result
        (All (λ names. All (Contains (texts_of elements.now)) names) (text_lists_of groups.now))
        (Any (λ names. Any (λ name. Contains (texts_of elements.now) name → ⊥) names)
        (text_lists_of groups.now)) }
{
    for names in groups {
        if !are_among(elements, names) {
            return false;
        }
    }
    true
}

/// Whether some name stands twice.
fn has_repeat(names: &[&[u8]]) -> bool
    ensures { MatchBool result
        (StandsTwice (texts_of names.now))
        (StandsTwice (texts_of names.now) → ⊥) }
{
    for i in 0..names.len() {
        if is_one_of(&names[..i], names[i]) {
            return true;
        }
    }
    false
}

/// Whether a name stands twice in some group.
pub fn has_member_twice(groups: &[&[&[u8]]]) -> bool
    ensures { MatchBool result
        (Any (λ names. StandsTwice names) (text_lists_of groups.now))
        (All (λ names. StandsTwice names → ⊥) (text_lists_of groups.now)) }
{
    for names in groups {
        if has_repeat(names) {
            return true;
        }
    }
    false
}

/// The places in the line of those elements that are among the names, in ascending order.
pub fn members(alloc: Global, elements: &[&[u8]], names: &[&[u8]]) -> Result<Vec<usize>, AllocError>
    ensures members { IfOk result (λ r. r.items ≡ members_of (texts_of elements.now)
        (texts_of names.now)) }
{
    let mut members = Vec::new(alloc);
    for e in 0..elements.len() {
        if is_one_of(names, elements[e]) {
            members.push(e)?;
        }
    }
    Ok(members)
}

/// The groups of a line with these parts and numbers: of those with the same members one with the least cap.
fn line_groups(
    alloc: Global,
    parts: &Parts,
    values: &[i128],
) -> Result<Vec<CappedGroup>, AllocError>
    requires each { length values.now ≡ length (parts_of parts.now).groups + 1 }
    requires low { All (λ value. pos 0 ≤ℤ value) values.now }
    requires small { All (IsAtMost (10 ^ 15)) values.now }
    ensures { IfOk result (λ r. r.items ≡ least_groups
        (groups_of values.now (parts_of parts.now))) }
{
    let mut groups = Vec::new(alloc);
    for i in 0..parts.groups.len() {
        let members = members(alloc, &parts.elements, parts.groups[i])?;
        keep(&mut groups, CappedGroup::new(values[i + 1], members))?;
    }
    Ok(groups)
}

/// The term with the first number for each independent element, or None where two groups cross.
pub fn laminar_term(
    alloc: Global,
    parts: &Parts,
    values: &[i128],
    places: &[usize],
) -> Result<Option<Kind>, Memory>
    requires each { length values.now ≡ length (parts_of parts.now).groups + 1 }
    requires rank { (parts_of parts.now).rank ≡ LaminarRank }
    requires named { length places.now ≡ length (parts_of parts.now).elements }
    requires given { AreGiven RankWord values.now places.now }
    ensures { IfOk result (λ r. MatchOption r
        ((i : ℕ) × (j : ℕ) × IsCrossing (groups_of values.now (parts_of parts.now)) i j)
        (λ term. IsTermOf RankWord (parts_of parts.now) values.now places.now term
        × (((i : ℕ) × (j : ℕ) × IsCrossing (groups_of values.now (parts_of parts.now)) i j) → ⊥))) }
{
    let groups = line_groups(alloc, parts, values)?;
    let made = with_kept(alloc, places, values[0], &groups)?;
    match made {
        Some(laminar) => Ok(Some(Kind::Laminar(laminar))),
        None => Ok(None),
    }
}
