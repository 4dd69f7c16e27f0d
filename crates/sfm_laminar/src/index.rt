// For each place the numbers of the groups that hold it, made once, so that what is asked of a place goes over its own
// groups alone.
ghost use Rattle.std.specs.Prelude.{◌≡◌, ℕ, ◌<◌, List, [], length, slice_index_or, IfOk};
ghost use Rattle.sfm_spec.specs.Kinds.{Group};
ghost use Rattle.sfm_laminar.specs.Indexes.{holders, IsIndex, AreHoldersOf};

use crate::groups::Groups;
use crate::place::lists;
use sfm_base::Memory;
use std::alloc::Global;
use std::marker::Model;

/// The numbers of the groups that hold a place, seen as a list.
#[derive(Drop)]
pub(crate) struct Holders {
    numbers: Vec<usize>,
}

impl Model for Holders {
    ghost use Rattle.std.specs.Prelude.{ℕ, List};

    ghost Value = { List ℕ };

    ghost view = { λ s. s.numbers.items };
}

/// The groups that hold each place, seen as a list of the lists of their numbers.
#[derive(Drop)]
pub(crate) struct Index {
    holders: Vec<Holders>,
}

impl Model for Index {
    ghost use Rattle.std.specs.Prelude.{ℕ, List};

    ghost Value = { List (List ℕ) };

    ghost view = { λ s. s.holders.items };
}

impl Holders {
    /// The same numbers.
    fn copy(&self, alloc: Global) -> Result<Holders, Memory>
        ensures { IfOk result (λ r. r ≡ self.now) }
    {
        let numbers = Vec::from_slice(alloc, &self.numbers)?;
        Ok(Holders { numbers })
    }
}

/// The groups that hold a place.
fn holders_of(alloc: Global, groups: &Groups, e: usize) -> Result<Holders, Memory>
    ensures { IfOk result (λ r. r ≡ holders groups.now e (length groups.now)) }
{
    let mut numbers = Vec::new(alloc);
    for i in 0..groups.len() {
        if lists(groups.group(i).members(), e) {
            numbers.push(i)?;
        }
    }
    Ok(Holders { numbers })
}

impl Index {
    /// The groups that hold each of k places.
    pub(crate) fn new(alloc: Global, groups: &Groups, k: usize) -> Result<Index, Memory>
        ensures { IfOk result (λ r. IsIndex k groups.now r) }
    {
        let mut holders = Vec::new(alloc);
        for e in 0..k {
            holders.push(holders_of(alloc, groups, e)?)?;
        }
        Ok(Index { holders })
    }

    /// The same lists.
    pub(crate) fn copy(&self, alloc: Global) -> Result<Index, Memory>
        ensures { IfOk result (λ r. r ≡ self.now) }
    {
        let mut holders = Vec::with_capacity(alloc, self.holders.len())?;
        for numbers in &self.holders {
            holders.push(numbers.copy(alloc)?)?;
        }
        Ok(Index { holders })
    }

    /// The numbers of the groups that hold a place.
    pub(crate) fn of(&self, e: usize) -> &[usize]
        requires { e < length self.now }
        ensures { (k : ℕ) (groups : List Group) → IsIndex k groups self.now
            → AreHoldersOf groups e result.now }
    {
        let holders = &self.holders[e];
        holders.numbers.as_slice()
    }
}
