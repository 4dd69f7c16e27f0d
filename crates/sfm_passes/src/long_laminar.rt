// The line of a laminar rank judged by passes over it, and its term. Such a line may be good however many groups it has, so its
// groups are taken one after another, and of those with the same members one is kept. Where more are kept than there are sets of
// 256 elements of which no two cross, it is told at once whether some cross, so that little is kept of any line.
ghost use Rattle.std.specs.{Prelude.{◌≡◌, [], ◌∷◌, ◌≤ℤ◌, ℕ, List, codes, length, pos, IsTrue, IfOk, MatchBool, MatchOption, MatchResult}, List.{All, AllZip}};
ghost use Rattle.sfm_spec.specs.{Bounds.{IsGiven, AreElements}, Kinds.{Group}};
ghost use Rattle.sfm_kind.specs.Names.{AreElementNames};
ghost use Rattle.sfm_lines.specs.{declared.reason.Reason.TheVariants.{Shape}, Lines.{texts_of, tokens_of}, CutParts.{cut_at_semicolons}, LeastGroups.{least_groups}, ReadParts.{IsTermRead}, declared.word.TermWord.TheVariants.{RankWord}};
ghost use Rattle.sfm_laminar.specs.{Crossing.{IsCrossing}, Groups.{IsBelow, IsGroup}};
ghost use Rattle.sfm_passes.specs.{Passes.{IsReasonOf}, GroupPasses.{AreShapedGroups, AreGoodGroups, IsWhole, HasCap, IsGroupOf, IsRefusedBy, laminar_tokens, pieces_left}};

use crate::between::Separator;
use crate::group_test::{GroupTest, all_groups, are_members_in};
use crate::passes::{all_hold, has_repeat_in, has_separator_in, is_colon};
use crate::piece_cut::first_piece;
use crate::token_test::{TokenTest, is_number_of};
use sfm_base::Memory;
use sfm_kind::{Instance, Kind};
use sfm_laminar::{CappedGroup, Laminar};
use sfm_lines::groups::members;
use sfm_lines::least_groups::{keep, with_kept};
use sfm_lines::separator::is_separator;
use sfm_lines::term_line::{known_number, known_places};
use sfm_lines::tokens::{first_token, has_token, tokens};
use sfm_lines::word::TermWord;
use sfm_lines::{LineEnd, Reason};
use std::alloc::Global;

/// One more than there may be different sets of 256 elements of which no two cross.
const MOST_SETS: usize = 512;

/// Whether the number, the elements and the groups of a line have its shape.
fn are_shaped(
    alloc: Global,
    instance: &Instance,
    number: &[u8],
    elements: &[u8],
    groups: Option<&[u8]>,
) -> Result<bool, Memory>
    ensures { IfOk result (λ r. MatchBool r
        (AreShapedGroups number.now (tokens_of elements.now) (pieces_left groups.entry))
        ((behind : List (List ℕ))
        → cut_at_semicolons behind ≡ tokens_of elements.now ∷ pieces_left groups.entry
        → IsReasonOf instance.now RankWord (laminar_tokens number.now behind) Shape)) }
{
    if is_separator(number) {
        return Ok(false);
    }
    if !has_token(elements, 0) {
        return Ok(false);
    }
    if has_separator_in(elements) {
        return Ok(false);
    }
    all_groups(alloc, instance, GroupTest::Whole, groups)
}

/// The first reason of the number, the elements and the groups of a line before its law, or None where there is none.
fn groups_fault(
    alloc: Global,
    instance: &Instance,
    number: &[u8],
    elements: &[u8],
    groups: Option<&[u8]>,
) -> Result<Option<Reason>, Memory>
    requires { AreElementNames instance.now.names }
    ensures { IfOk result (λ r. MatchOption r
        (AreGoodGroups instance.now number.now (tokens_of elements.now)
        (pieces_left groups.entry))
        (λ reason. (behind : List (List ℕ)) → cut_at_semicolons behind
        ≡ tokens_of elements.now ∷ pieces_left groups.entry
        → IsReasonOf instance.now RankWord (laminar_tokens number.now behind) reason)) }
{
    let shaped = are_shaped(alloc, instance, number, elements, groups)?;
    if !shaped {
        return Ok(Some(Reason::Shape));
    }
    if !is_number_of(instance, TermWord::RankWord, number) {
        return Ok(Some(Reason::Number));
    }
    let capped = all_groups(alloc, instance, GroupTest::Cap, groups)?;
    if !capped {
        return Ok(Some(Reason::Number));
    }
    if !all_hold(instance, TokenTest::Element, elements) {
        return Ok(Some(Reason::Name));
    }
    let named = are_members_in(alloc, elements, groups)?;
    if !named {
        return Ok(Some(Reason::Name));
    }
    let repeated = has_repeat_in(alloc, Separator::Blanks, elements)?;
    if repeated {
        return Ok(Some(Reason::Twice));
    }
    let once = all_groups(alloc, instance, GroupTest::Once, groups)?;
    if !once {
        return Ok(Some(Reason::Twice));
    }
    Ok(None)
}

/// The group that a piece tells.
fn piece_group(
    alloc: Global,
    instance: &Instance,
    elements: &[&[u8]],
    piece: &[u8],
) -> Result<CappedGroup, Memory>
    requires whole { IsWhole (tokens_of piece.now) }
    requires cap { HasCap instance.now.version (tokens_of piece.now) }
    ensures { IfOk result (λ r. IsGroupOf instance.now.version (texts_of elements.now)
        (tokens_of piece.now) r) }
{
    let Some((cap, names)) = first_token(piece) else {
        unreachable!();
    };
    let value = known_number(instance, TermWord::RankWord, cap);
    let names = tokens(alloc, names)?;
    let members = members(alloc, elements, &names)?;
    Ok(CappedGroup::new(value, members))
}

/// Whether more groups are kept than there may be of which no two cross, and some cross.
fn has_early_crossing(alloc: Global, places: &[usize], kept: &[CappedGroup]) -> Result<bool, Memory>
    requires elements { AreElements places.now }
    requires sound { All IsGroup kept.now }
    requires below { All (IsBelow (length places.now)) kept.now }
    ensures { IfOk result (λ r. IsTrue r → (i : ℕ) × (j : ℕ) × IsCrossing kept.now i j) }
{
    if kept.len() < MOST_SETS {
        return Ok(false);
    }
    let made = with_kept(alloc, places, 0, kept)?;
    match made {
        Some(_) => Ok(false),
        None => Ok(true),
    }
}

/// Keeps the groups that the pieces tell, of those with the same members one with the least cap, and tells whether some cross.
fn keep_groups(
    alloc: Global,
    instance: &Instance,
    kept: &mut Vec<CappedGroup>,
    places: &[usize],
    elements: &[&[u8]],
    groups: Option<&[u8]>,
) -> Result<bool, Memory>
    requires none { kept.old.items ≡ [] }
    requires elements { AreElements places.now }
    requires named { length places.now ≡ length elements.now }
    requires whole { All IsWhole (pieces_left groups) }
    requires caps { All (HasCap instance.now.version) (pieces_left groups) }
    ensures { IfOk result (λ r. MatchBool r
        ((all : List Group) × AllZip (IsGroupOf instance.now.version (texts_of elements.now))
        (pieces_left groups.entry) all × ((i : ℕ) × (j : ℕ) × IsCrossing all i j))
        ((all : List Group) × AllZip (IsGroupOf instance.now.version (texts_of elements.now))
        (pieces_left groups.entry) all × (kept.new.items ≡ least_groups all))) }
{
    let mut left = groups;
    while let Some(line) = left {
        let (piece, rest) = first_piece(line);
        let group = piece_group(alloc, instance, elements, piece)?;
        keep(kept, group)?;
        let crosses = has_early_crossing(alloc, places, kept)?;
        if crosses {
            return Ok(true);
        }
        left = rest;
    }
    Ok(false)
}

/// The term with this number at these places and the groups that the pieces tell, or None where some cross.
fn pieces_term(
    alloc: Global,
    instance: &Instance,
    places: &[usize],
    w: i128,
    elements: &[&[u8]],
    groups: Option<&[u8]>,
) -> Result<Option<Laminar>, Memory>
    requires elements { AreElements places.now }
    requires named { length places.now ≡ length elements.now }
    requires low { pos 0 ≤ℤ w }
    requires given { IsGiven w }
    requires whole { All IsWhole (pieces_left groups) }
    requires caps { All (HasCap instance.now.version) (pieces_left groups) }
    ensures { IfOk result (λ r. MatchOption r
        ((all : List Group) × AllZip (IsGroupOf instance.now.version (texts_of elements.now))
        (pieces_left groups.entry) all × ((i : ℕ) × (j : ℕ) × IsCrossing all i j))
        (λ term. (all : List Group) × AllZip (IsGroupOf instance.now.version (texts_of elements.now))
        (pieces_left groups.entry) all
        × (term.places ≡ places.now) × (term.w ≡ w) × (term.groups ≡ least_groups all)
        × ((i j : ℕ) → IsCrossing (least_groups all) i j → ⊥))) }
{
    let mut kept = Vec::new(alloc);
    if keep_groups(alloc, instance, &mut kept, places, elements, groups)? {
        return Ok(None);
    }
    with_kept(alloc, places, w, &kept)
}

/// The term of a line with this number, these elements and these groups, or the first reason of it.
fn groups_term(
    alloc: Global,
    instance: &Instance,
    number: &[u8],
    elements: &[u8],
    groups: Option<&[u8]>,
) -> Result<Kind, LineEnd>
    requires { AreElementNames instance.now.names }
    ensures { (behind : List (List ℕ)) → cut_at_semicolons behind
        ≡ tokens_of elements.now ∷ pieces_left groups.entry → MatchResult result
        (IsTermRead instance.now RankWord (laminar_tokens number.now behind))
        (IsRefusedBy instance.now RankWord (laminar_tokens number.now behind)) }
{
    let fault = groups_fault(alloc, instance, number, elements, groups)?;
    if let Some(reason) = fault {
        return Err(LineEnd::Fault(reason));
    }
    let w = known_number(instance, TermWord::RankWord, number);
    let elements = tokens(alloc, elements)?;
    let places = known_places(alloc, instance, &elements)?;
    match pieces_term(alloc, instance, &places, w, &elements, groups)? {
        Some(laminar) => Ok(Kind::Laminar(laminar)),
        None => Err(LineEnd::Fault(Reason::Law)),
    }
}

/// The term of a line of a laminar rank with this number and these tokens behind its word, or the first reason of it.
pub fn laminar_line_term(
    alloc: Global,
    instance: &Instance,
    number: &[u8],
    rest: &[u8],
) -> Result<Kind, LineEnd>
    requires { AreElementNames instance.now.names }
    ensures { MatchResult result
        (IsTermRead instance.now RankWord (number.now ∷ codes "laminar" ∷ tokens_of rest.now))
        (IsRefusedBy instance.now RankWord (number.now ∷ codes "laminar" ∷ tokens_of rest.now)) }
{
    let Some((colon, behind)) = first_token(rest) else {
        return Err(LineEnd::Fault(Reason::Shape));
    };
    if !is_colon(colon) {
        return Err(LineEnd::Fault(Reason::Shape));
    }
    let (elements, groups) = first_piece(behind);
    groups_term(alloc, instance, number, elements, groups)
}
