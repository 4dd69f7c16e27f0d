// For each group its members as a set, made once: a group then tells in one step whether it has a place, and keeps of a set what
// it has of it word by word.
ghost use Rattle.std.specs.{Prelude.{◌≡◌, ◌<◌, [], length, slice_index_or, IfOk}, List.{All}};
ghost use Rattle.sfm_laminar.specs.{Groups.{IsAscending, IsBelow}, Masks.{mask}, Indexes.{AreMasks}};

use crate::groups::Groups;
use crate::place::lists;
use sfm_base::{Memory, Set};
use std::alloc::Global;
use std::marker::Model;

/// The members of groups, each group's as a set, seen as a list of the sets.
#[derive(Drop)]
pub(crate) struct Masks {
    sets: Vec<Set>,
}

impl Model for Masks {
    ghost use Rattle.std.specs.Prelude.{Bool, List};

    ghost Value = { List (List Bool) };

    ghost view = { λ s. s.sets.items };
}

/// The listed places, as a set of k.
fn mask_of(alloc: Global, members: &[usize], k: usize) -> Result<Set, Memory>
    requires ascending { IsAscending members.now }
    requires below { All (λ e. e < k) members.now }
    ensures { IfOk result (λ s. s ≡ mask k members.now) }
{
    let mut s = Set::empty(alloc, k)?;
    for v in 0..k {
        s.put(v, lists(members, v));
    }
    Ok(s)
}

impl Masks {
    /// The members of each group, as a set of k places.
    pub(crate) fn new(alloc: Global, groups: &Groups, k: usize) -> Result<Masks, Memory>
        requires below { All (IsBelow k) groups.now }
        ensures { IfOk result (AreMasks k groups.now) }
    {
        let mut sets = Vec::new(alloc);
        for i in 0..groups.len() {
            let group = groups.group(i);
            sets.push(mask_of(alloc, group.members(), k)?)?;
        }
        Ok(Masks { sets })
    }

    /// The same sets.
    pub(crate) fn copy(&self, alloc: Global) -> Result<Masks, Memory>
        ensures { IfOk result (λ r. r ≡ self.now) }
    {
        let mut sets = Vec::with_capacity(alloc, self.sets.len())?;
        for set in &self.sets {
            sets.push(set.copy(alloc)?)?;
        }
        Ok(Masks { sets })
    }

    /// The members of the group i.
    pub(crate) fn of(&self, i: usize) -> &Set
        requires { i < length self.now }
        ensures { result.now ≡ slice_index_or self.now i [] }
    {
        &self.sets[i]
    }
}
