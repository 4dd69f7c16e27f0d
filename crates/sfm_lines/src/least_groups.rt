// The groups of a laminar rank as its term has them: of those with the same members one with the least cap. There are fewer than
// twice as many different sets as elements where no two cross, so what is kept is little however many groups a line has.
ghost use Rattle.std.specs.{Prelude.{◌≡◌, ◌≢◌, ℕ, ◌^◌, length, pos, ◌≤ℤ◌, IfOk, OnOk, MatchOption}, List.{All}};
ghost use Rattle.sfm_spec.specs.Bounds.{IsAtMost, IsGiven, AreElements};
ghost use Rattle.sfm_laminar.specs.{Crossing.{IsCrossing}, Groups.{IsBelow, IsGroup}};
ghost use Rattle.sfm_lines.specs.{LeastGroups.{with_group}, CutParts.{IsFirstWith}};

use sfm_base::Memory;
use sfm_laminar::{CappedGroup, Groups, Laminar, LaminarEnd};
use std::alloc::{AllocError, Global};

/// The place of the first group with these members, or None where no group has them.
fn place_with(groups: &[CappedGroup], members: &[usize]) -> Option<usize>
    ensures { MatchOption result
        (All (λ g. g.members ≢ members.now) groups.now)
        (IsFirstWith members.now groups.now) }
{
    for (i, group) in groups.iter().enumerate() {
        if group.members() == members {
            return Some(i);
        }
    }
    None
}

/// Keeps a group behind the others; where one of them has the same members, the one with the lesser cap of the two is kept in its
/// place.
pub fn keep(groups: &mut Vec<CappedGroup>, group: CappedGroup) -> Result<(), AllocError>
    ensures { OnOk result (groups.new.items ≡ with_group groups.old.items group) }
{
    match place_with(groups, group.members()) {
        Some(i) => {
            if group.cap() < groups[i].cap() {
                groups[i] = group;
            }
            Ok(())
        }
        None => {
            groups.push(group)?;
            Ok(())
        }
    }
}

/// The groups, as a term takes them.
fn copied(alloc: Global, kept: &[CappedGroup]) -> Result<Groups, Memory>
    requires { All IsGroup kept.now }
    ensures { IfOk result (λ r. r ≡ kept.now) }
{
    let mut groups = Groups::new(alloc);
    for group in kept {
        let members = Vec::from_slice(alloc, group.members())?;
        groups.push(group.cap(), members)?;
    }
    Ok(groups)
}

/// The term with these groups, or None where two of them cross.
pub fn with_kept(
    alloc: Global,
    places: &[usize],
    w: i128,
    kept: &[CappedGroup],
) -> Result<Option<Laminar>, Memory>
    requires elements { AreElements places.now }
    requires low { pos 0 ≤ℤ w }
    requires given { IsGiven w }
    requires sound { All IsGroup kept.now }
    requires below { All (IsBelow (length places.now)) kept.now }
    ensures { IfOk result (λ r. MatchOption r
        ((i : ℕ) × (j : ℕ) × IsCrossing kept.now i j)
        (λ term. (term.places ≡ places.now) × (term.w ≡ w) × (term.groups ≡ kept.now)
        × ((i j : ℕ) → IsCrossing kept.now i j → ⊥))) }
{
    let groups = copied(alloc, kept)?;
    match Laminar::new(alloc, places, w, groups) {
        Ok(laminar) => Ok(Some(laminar)),
        Err(LaminarEnd::Memory) => Err(Memory),
        Err(LaminarEnd::Crosses { .. }) => Ok(None),
    }
}
