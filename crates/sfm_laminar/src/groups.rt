// Groups of places, each with a cap, in the order in which they come. A group is seen as its cap and its ascending members.
ghost use Rattle.std.specs.{Prelude.{◌≡◌, ◌↔◌, ℕ, ◌<◌, ◌≤◌, List, [], ◌∷◌, ◌++◌, length, slice_index_or, is_ok, ℤ, pos, ◌≤ℤ◌, if◌then◌else◌, IfOk, IsTrue, Contains}, List.{All}};
ghost use Rattle.sfm_spec.specs.Bounds.{IsGiven};
ghost use Rattle.sfm_laminar.specs.{Groups.{IsAscending, IsGroup}, Crossing.{group_at}};

use sfm_base::Memory;
use std::alloc::Global;
use std::marker::Model;

/// Places, and how many of them may be independent together.
#[derive(Drop)]
pub struct CappedGroup {
    cap: i128,
    members: Vec<usize>,
}

impl Model for CappedGroup {
    ghost use Rattle.sfm_spec.specs.Kinds.{Group};

    ghost Value = { Group };

    ghost view = { λ s. record { cap = s.cap; members = s.members.items } };
}

impl CappedGroup {
    /// A group of the members, which are taken over.
    pub fn new(cap: i128, members: Vec<usize>) -> CappedGroup
        ensures { result ≡ record { cap = cap; members = members.items } }
    {
        CappedGroup { cap, members }
    }

    /// A group with the same cap and the same members.
    ///
    /// # Errors
    ///
    /// `Memory` where there is none.
    fn copy(&self, alloc: Global) -> Result<CappedGroup, Memory>
        ensures { IfOk result (λ r. r ≡ self.now) }
    {
        let members = Vec::from_slice(alloc, &self.members)?;
        Ok(CappedGroup::new(self.cap, members))
    }

    /// How many members may be independent together.
    pub fn cap(&self) -> i128
        ensures { result ≡ self.now.cap }
    {
        self.cap
    }

    /// The members.
    pub fn members(&self) -> &[usize]
        ensures { result.now ≡ self.now.members }
    {
        self.members.as_slice()
    }
}

/// Groups in the order in which they came, seen as a list.
#[derive(Drop)]
pub struct Groups {
    items: Vec<CappedGroup>,
}

impl Model for Groups {
    ghost use Rattle.std.specs.{Prelude.{List}, List.{All}};
    ghost use Rattle.sfm_spec.specs.Kinds.{Group};
    ghost use Rattle.sfm_laminar.specs.Groups.{IsGroup};

    ghost Value = { List Group };

    ghost view = { λ s. s.items.items };

    ghost invariant = { λ s. All IsGroup s.items.items };
}

impl Groups {
    /// No groups.
    pub fn new(alloc: Global) -> Groups
        ensures { result ≡ [] }
    {
        Groups {
            items: Vec::new(alloc),
        }
    }

    /// Puts a group at the end. Its members are local places in ascending order, each once.
    ///
    /// # Errors
    ///
    /// `Memory` where there is none; the groups are then as they were.
    pub fn push(&mut self, cap: i128, members: Vec<usize>) -> Result<(), Memory>
        requires low { pos 0 ≤ℤ cap }
        requires given { IsGiven cap }
        requires ascending { IsAscending members.items }
        ensures { self.new ≡ (if is_ok result then self.old ++ record {
          cap = cap;
          members = members.items;
        } ∷ [] else self.old) }
    {
        self.items.push(CappedGroup::new(cap, members))?;
        Ok(())
    }

    /// The same groups in the same order.
    ///
    /// # Errors
    ///
    /// `Memory` where there is none.
    pub fn copy(&self, alloc: Global) -> Result<Groups, Memory>
        ensures { IfOk result (λ r. r ≡ self.now) }
    {
        let mut items = Vec::with_capacity(alloc, self.items.len())?;
        for group in &self.items {
            items.push(group.copy(alloc)?)?;
        }
        Ok(Groups { items })
    }

    /// How many groups there are.
    pub fn len(&self) -> usize
        ensures { result ≡ length self.now }
    {
        self.items.len()
    }

    /// The group i.
    pub(crate) fn group(&self, i: usize) -> &CappedGroup
        requires { i < length self.now }
        ensures group { result.now ≡ group_at self.now i }
        ensures sound { IsGroup (group_at self.now i) }
    {
        &self.items[i]
    }

    /// The groups in order.
    pub(crate) fn as_slice(&self) -> &[CappedGroup]
        ensures groups { result.now ≡ self.now }
        ensures sound { All IsGroup self.now }
    {
        self.items.as_slice()
    }
}
