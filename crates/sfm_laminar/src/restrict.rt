// The same rank over some of the elements alone, which each count what is said. The groups are cut down to the kept elements,
// by their numbers among these, and where nothing is left of one it is left out: a part of the kept elements is then within
// the caps where it is so among all. Groups that do not cross do not cross when cut down.
ghost use Rattle.std.specs.{Prelude.{◌≡◌, ℕ, ◌<◌, List, [], ◌∷◌, ◌++◌, length, pos, ◌≤ℤ◌, IfOk, OnOk}, List.{All}};
ghost use Rattle.sfm_spec.specs.{Bounds.{IsGiven}, Sets.{Has}};
ghost use Rattle.sfm_layers.specs.Kept.{kept};
ghost use Rattle.sfm_laminar.specs.{Groups.{IsGroup, IsBelow, AreGroups}, Cut.{cut_members, cut_groups, AreNumbers}};

use crate::groups::{CappedGroup, Groups};
use crate::laminar::Laminar;
use sfm_base::{Memory, Set};
use sfm_layers::kept_of;
use std::alloc::Global;

/// For each place how many kept places are before it.
fn numbers_of(alloc: Global, keep: &Set) -> Result<Vec<usize>, Memory>
    ensures { IfOk result (λ r. AreNumbers keep.now r.items) }
{
    let mut numbers = Vec::new(alloc);
    let mut count = 0;
    for e in 0..keep.len() {
        numbers.push(count)?;
        count += usize::from(keep.contains(e));
    }
    Ok(numbers)
}

/// The members that are kept, by their numbers.
fn kept_members(
    alloc: Global,
    members: &[usize],
    keep: &Set,
    numbers: &[usize],
) -> Result<Vec<usize>, Memory>
    requires below { All (λ e. e < length keep.now) members.now }
    requires numbered { AreNumbers keep.now numbers.now }
    ensures { IfOk result (λ r. r.items ≡ cut_members keep.now members.now) }
{
    let mut cut = Vec::new(alloc);
    for e in members {
        if keep.contains(*e) {
            cut.push(numbers[*e])?;
        }
    }
    Ok(cut)
}

/// Puts what is left of a group at the end, if something is.
fn push_cut(
    alloc: Global,
    group: &CappedGroup,
    keep: &Set,
    numbers: &[usize],
    cut: &mut Groups,
) -> Result<(), Memory>
    requires sound { IsGroup group.now }
    requires below { IsBelow (length keep.now) group.now }
    requires numbered { AreNumbers keep.now numbers.now }
    ensures { OnOk result (cut.new ≡ cut.old ++ cut_groups keep.now (group.now ∷ [])) }
{
    let members = kept_members(alloc, group.members(), keep, numbers)?;
    if members.is_empty() {
        return Ok(());
    }
    cut.push(group.cap(), members)
}

/// What is left of each group.
fn kept_groups(alloc: Global, groups: &Groups, keep: &Set) -> Result<Groups, Memory>
    requires { AreGroups (length keep.now) groups.now }
    ensures { IfOk result (λ r. r ≡ cut_groups keep.now groups.now) }
{
    let numbers = numbers_of(alloc, keep)?;
    let mut cut = Groups::new(alloc);
    for i in 0..groups.len() {
        push_cut(alloc, groups.group(i), keep, &numbers, &mut cut)?;
    }
    Ok(cut)
}

impl Laminar {
    /// The rank over the elements that are kept alone, which each count w where they are independent.
    ///
    /// # Errors
    ///
    /// `Memory` where there is none.
    pub fn restricted(&self, alloc: Global, keep: &Set, w: i128) -> Result<Laminar, Memory>
        requires each { length keep.now ≡ length self.now.places }
        requires some { (e : ℕ) × Has keep.now e }
        requires low { pos 0 ≤ℤ w }
        requires given { IsGiven w }
        ensures places { IfOk result (λ r. r.places ≡ kept keep.now self.now.places) }
        ensures number { IfOk result (λ r. r.w ≡ w) }
        ensures groups { IfOk result (λ r. r.groups ≡ cut_groups keep.now self.now.groups) }
    {
        let elements = kept_of(alloc, keep, self.places.as_slice())?;
        let groups = kept_groups(alloc, &self.groups, keep)?;
        Laminar::uncrossed(alloc, &elements, w, groups)
    }
}
