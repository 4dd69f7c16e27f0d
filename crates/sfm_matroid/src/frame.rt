// A split over the slots of elements in which nothing is asked for: a split of any amounts is made from a copy of it. So what hangs
// on the entries alone is made once, and all splits share it.
ghost use Rattle.std.specs.{Prelude.{◌≡◌, ◌↔◌, ℕ, ◌<◌, ◌≤◌, length, replicate, IfOk, IsTrue}, List.{All}};
ghost use Rattle.sfm_assign.specs.Splits.{CanBeMet, IsAmount, IsCapacity};
ghost use Rattle.sfm_matroid.specs.{Notes.{IsFrame, IsSlotSplit}, Slots.{suited, transversal_basis}};

use crate::entries::Entries;
use crate::matching::{take_each, untaken};
use crate::pair::SplitPair;
use crate::splits::{SlotSplit, bring_split};
use sfm_assign::{Aim, Kept};
use sfm_base::{Memory, Set};
use std::alloc::Global;
use std::marker::Model;
use std::rc::Rc;

/// A split over the slots of elements in which nothing is asked for and each slot holds 1. Seen as the slots of each element.
#[derive(Drop)]
pub struct Frame {
    kept: Rc<Kept>,
}

impl Model for Frame {
    ghost use Rattle.std.specs.Prelude.{List, ℕ};
    ghost use Rattle.sfm_matroid.specs.Notes.{IsFrame};

    ghost Value = { List (List ℕ) };

    ghost view = { λ s. s.kept.value.demand.lists };

    ghost invariant = { λ s. IsFrame s.kept.value.demand.lists s.kept.value.demand };
}

impl Frame {
    /// The split over the slots of entries.
    pub(crate) fn of(alloc: Global, entries: &Entries) -> Result<Frame, Memory>
        requires { length entries.now ≤ 256 }
        ensures { IfOk result (λ r. r ≡ entries.now) }
    {
        let none = untaken(alloc, entries, entries.above())?;
        Frame::new(alloc, none)
    }

    /// Takes over a split in which nothing is asked for.
    fn new(alloc: Global, none: Kept) -> Result<Frame, Memory>
        requires { IsFrame none.demand.lists none.demand }
        ensures { IfOk result (λ r. r ≡ none.demand.lists) }
    {
        let Ok(kept) = Rc::new(alloc, none) else {
            return Err(Memory);
        };
        Ok(Frame { kept })
    }

    /// One owner more of the same split.
    pub(crate) fn share(&self) -> Result<Frame, Memory>
        ensures { IfOk result (λ r. r ≡ self.now) }
    {
        let kept = self.kept.clone()?;
        Ok(Frame { kept })
    }

    /// The split.
    fn none(&self) -> &Kept
        ensures lists { result.now.demand.lists ≡ self.now }
        ensures frame { IsFrame self.now result.now.demand }
    {
        self.kept.as_ref()
    }

    /// The split of amounts, where each slot holds a number.
    pub(crate) fn split(&self, alloc: Global, x: &[i128], most: i128) -> Result<SlotSplit, Memory>
        requires sized { length x.now ≡ length self.now }
        requires amounts { All IsAmount x.now }
        requires bounded { IsCapacity most }
        requires met { (m : ℕ) → All (All (λ v. v < m)) self.now
            → CanBeMet x.now self.now (replicate m most) }
        ensures { IfOk result (IsSlotSplit self.now most x.now) }
    {
        let none = self.none();
        let slots = none.demand.capacities().len();
        let capacities = vec![in alloc; most; slots]?;
        let mut kept = none.copy(alloc)?;
        bring_split(alloc, &mut kept, x, &capacities)?;
        Ok(SlotSplit {
            pair: SplitPair {
                kept,
                spare: None,
                near: None,
            },
            capacities,
        })
    }

    /// Whether amounts can be split, where each slot holds a number.
    pub(crate) fn can_meet(&self, alloc: Global, x: &[i128], most: i128) -> Result<bool, Memory>
        requires sized { length x.now ≡ length self.now }
        requires amounts { All IsAmount x.now }
        requires bounded { IsCapacity most }
        ensures { IfOk result (λ r. (m : ℕ) × All (All (λ v. v < m)) self.now
            × (IsTrue r ↔ CanBeMet x.now self.now (replicate m most))) }
    {
        let none = self.none();
        let slots = none.demand.capacities().len();
        let capacities = vec![in alloc; most; slots]?;
        let aim = Aim {
            demands: x,
            capacities: &capacities,
        };
        let can = none.can_meet(alloc, &aim)?;
        Ok(can)
    }

    /// The places of a set that are taken one after another while their slots suffice: a place is taken where the split of those
    /// that are taken can give it a slot too.
    pub(crate) fn matched(&self, alloc: Global, s: &Set) -> Result<Set, Memory>
        requires { length s.now ≡ length self.now }
        ensures places { IfOk result (λ t. length t ≡ length s.now) }
        ensures taken { IfOk result (λ t. t ≡ suited self.now s.now (length self.now)) }
    {
        let mut kept = self.none().copy(alloc)?;
        take_each(alloc, &mut kept, s)
    }

    /// The places that are taken one after another where all may be.
    pub(crate) fn basis(&self, alloc: Global) -> Result<Set, Memory>
        ensures { IfOk result (λ t. t ≡ transversal_basis self.now) }
    {
        let all = Set::whole(alloc, self.none().demand.demands().len())?;
        self.matched(alloc, &all)
    }
}
