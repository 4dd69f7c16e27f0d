// Passes over the pieces of the groups of a laminar rank: what each piece is tried for.
ghost use Rattle.std.specs.{Prelude.{◌≡◌, ℕ, List, [], Any, Contains, IfOk, MatchBool, MatchOption}, List.{All}};
ghost use Rattle.sfm_lines.specs.{Lines.{texts_of, tokens_of}, LabelTerms.{distinct_of}, TermLines.{StandsTwice}};
ghost use Rattle.sfm_passes.specs.{GroupPasses.{IsWhole, HasCap, IsOnce, GroupHolds, GroupFails, HasMembers, LacksMember, SomeGroup, pieces_left}, declared.group_test.GroupTest.TheVariants.{Cap}};

use crate::between::Separator;
use crate::passes::{has_repeat_in, has_separator_in};
use crate::piece_cut::first_piece;
use crate::token_test::is_number_of;
use indexmap::IndexSet;
use sfm_base::Memory;
use sfm_kind::Instance;
use sfm_lines::groups::is_known;
use sfm_lines::tokens::{first_token, has_token};
use sfm_lines::word::TermWord;
use std::alloc::Global;

/// What the piece of a group may be tried for.
#[derive(Clone, Copy)]
pub enum GroupTest {
    /// It is a cap and at least one name.
    Whole,
    /// Its cap is a number.
    Cap,
    /// No name stands twice in it.
    Once,
}

/// Whether a piece is a cap and at least one name.
fn is_whole(piece: &[u8]) -> bool
    ensures { MatchBool result (IsWhole (tokens_of piece.now))
        (IsWhole (tokens_of piece.now) → ⊥) }
{
    let Some((_, names)) = first_token(piece) else {
        return false;
    };
    if !has_token(names, 0) {
        return false;
    }
    if has_separator_in(piece) {
        return false;
    }
    true
}

/// Whether the cap of a piece is a number.
fn has_cap(instance: &Instance, piece: &[u8]) -> bool
    ensures { MatchBool result (HasCap instance.now.version (tokens_of piece.now))
        (GroupFails instance.now.version Cap (tokens_of piece.now)) }
{
    match first_token(piece) {
        Some((cap, _)) => is_number_of(instance, TermWord::RankWord, cap),
        None => true,
    }
}

/// Whether no name stands twice in a piece.
fn is_once(alloc: Global, piece: &[u8]) -> Result<bool, Memory>
    ensures { IfOk result (λ r. MatchBool r (IsOnce (tokens_of piece.now))
        (SomeGroup (λ cap names. StandsTwice names) (tokens_of piece.now))) }
{
    let Some((_, names)) = first_token(piece) else {
        return Ok(true);
    };
    if has_repeat_in(alloc, Separator::Blanks, names)? {
        return Ok(false);
    }
    Ok(true)
}

/// Whether a piece passes the test.
fn group_holds(
    alloc: Global,
    instance: &Instance,
    test: GroupTest,
    piece: &[u8],
) -> Result<bool, Memory>
    ensures { IfOk result (λ r. MatchBool r
        (GroupHolds instance.now.version test (tokens_of piece.now))
        (GroupFails instance.now.version test (tokens_of piece.now))) }
{
    match test {
        GroupTest::Whole => Ok(is_whole(piece)),
        GroupTest::Cap => Ok(has_cap(instance, piece)),
        GroupTest::Once => is_once(alloc, piece),
    }
}

/// Whether each piece that is left passes the test.
pub fn all_groups(
    alloc: Global,
    instance: &Instance,
    test: GroupTest,
    groups: Option<&[u8]>,
) -> Result<bool, Memory>
    ensures { IfOk result (λ r. MatchBool r
        (All (GroupHolds instance.now.version test) (pieces_left groups.entry))
        (Any (GroupFails instance.now.version test) (pieces_left groups.entry))) }
{
    let mut left = groups;
    while let Some(line) = left {
        let (piece, rest) = first_piece(line);
        let holds = group_holds(alloc, instance, test, piece)?;
        if !holds {
            return Ok(false);
        }
        left = rest;
    }
    Ok(true)
}

/// Whether each token of a line is one of the texts of which these are the different ones.
fn are_known_in(known: &IndexSet<&[u8]>, line: &[u8]) -> bool
    ensures { (texts : List (List ℕ)) → texts_of known.now.keys ≡ distinct_of texts
        → MatchBool result
        (All (Contains texts) (tokens_of line.now))
        (Any (λ name. Contains texts name → ⊥) (tokens_of line.now)) }
{
    let mut left = line;
    while let Some((token, behind)) = first_token(left) {
        if !is_known(known, token) {
            return false;
        }
        left = behind;
    }
    true
}

/// Whether each name of a piece is one of the elements of which these are the different ones.
fn has_members(known: &IndexSet<&[u8]>, piece: &[u8]) -> bool
    ensures { (elements : List (List ℕ)) → texts_of known.now.keys ≡ distinct_of elements
        → MatchBool result
        (HasMembers elements (tokens_of piece.now))
        (LacksMember elements (tokens_of piece.now)) }
{
    match first_token(piece) {
        Some((_, names)) => are_known_in(known, names),
        None => true,
    }
}

/// Whether each name of each piece that is left is one of the elements of which these are the different ones.
fn all_have_members(known: &IndexSet<&[u8]>, groups: Option<&[u8]>) -> bool
    ensures { (elements : List (List ℕ)) → texts_of known.now.keys ≡ distinct_of elements
        → MatchBool result
        (All (HasMembers elements) (pieces_left groups.entry))
        (Any (LacksMember elements) (pieces_left groups.entry)) }
{
    let mut left = groups;
    while let Some(line) = left {
        let (piece, rest) = first_piece(line);
        if !has_members(known, piece) {
            return false;
        }
        left = rest;
    }
    true
}

/// Whether each name of each piece that is left is one of the elements, which are put into a set that holds nothing.
fn are_members_by<'a>(
    known: &mut IndexSet<&'a [u8]>,
    elements: &'a [u8],
    groups: Option<&[u8]>,
) -> Result<bool, Memory>
    requires { known.old.keys ≡ [] }
    ensures { IfOk result (λ r. MatchBool r
        (All (HasMembers (tokens_of elements.now)) (pieces_left groups.entry))
        (Any (LacksMember (tokens_of elements.now)) (pieces_left groups.entry))) }
{
    let mut left = elements;
    while let Some((element, behind)) = first_token(left) {
        known.insert(element)?;
        left = behind;
    }
    Ok(all_have_members(known, groups))
}

/// Whether each name of each piece that is left is one of the elements.
pub fn are_members_in(alloc: Global, elements: &[u8], groups: Option<&[u8]>) -> Result<bool, Memory>
    ensures { IfOk result (λ r. MatchBool r
        (All (HasMembers (tokens_of elements.now)) (pieces_left groups.entry))
        (Any (LacksMember (tokens_of elements.now)) (pieces_left groups.entry))) }
{
    let mut known = IndexSet::new(alloc);
    are_members_by(&mut known, elements, groups)
}
