// A split that is kept, and a spare one over the same lists. A room is told in the spare one, which is left near the demands of an
// exchange that may come: that takes it in place of the one that is kept, which is the spare one then, and the next room uses its
// memory.
ghost use Rattle.std.specs.Prelude.{◌≡◌, List, ℤ, length, IfOk, OnOk, MatchBool, Some, None};
ghost use Rattle.sfm_spec.specs.Terms.{exchanged};
ghost use Rattle.sfm_assign.specs.{Lenders.{IsMostUpto}, declared.kept.Kept.{Kept}};
ghost use Rattle.sfm_matroid.specs.{Amounts.{CanMove, IsRaise, IsBeside, CanHold, rest_of}, Notes.{AreBeside, IsNear, CanMultiply, demands_times}};

use crate::room::{Pull, raise};
use sfm_assign::{AssignEnd, Change, Kept};
use sfm_base::Memory;
use sfm_law::Swap;
use std::alloc::Global;
use std::mem;

/// A split that is kept, and a spare one beside it, if there is one: where it was left for demands that are near those of an
/// exchange, it is brought up to these sooner.
pub struct SplitPair {
    pub kept: Kept,
    pub spare: Option<Kept>,
    /// Where the spare one was left apart from the one that is kept, if that is known.
    pub near: Option<Near>,
}

/// Two places at which alone the demands of two splits differ.
#[derive(Clone, Copy)]
pub struct Near {
    pub u: usize,
    pub v: usize,
}

// Written out, so that letting one go is one step, which is proved here once.
impl Drop for SplitPair {
    fn drop(self) {
        let Self {
            kept: _,
            spare: _,
            near: _,
        } = self;
    }
}

/// Sees to it that there is a split beside one that is kept: a copy, where there is none.
fn fill(alloc: Global, kept: &Kept, spare: &mut Option<Kept>) -> Result<(), Memory>
    requires { (k : Kept) → spare.old ≡ Some k → IsBeside kept.now.demand k.demand }
    ensures { OnOk result ((k : Kept) × (spare.new ≡ Some k) × IsBeside kept.now.demand k.demand) }
{
    if spare.is_some() {
        return Ok(());
    }
    let copy = kept.copy(alloc)?;
    *spare = Some(copy);
    Ok(())
}

impl SplitPair {
    /// The split that is kept m times, with no spare one.
    ///
    /// # Errors
    ///
    /// `Memory` where there is none.
    pub fn times(&self, alloc: Global, m: i128) -> Result<SplitPair, Memory>
        requires { CanMultiply m self.now.kept.demand }
        ensures kept { IfOk result (λ r. r.kept.demand ≡ demands_times m self.now.kept.demand) }
        ensures spare { IfOk result (λ r. AreBeside r) }
        ensures near { IfOk result (λ r. r.near ≡ None) }
    {
        let kept = self.kept.times(alloc, m)?;
        Ok(SplitPair {
            kept,
            spare: None,
            near: None,
        })
    }

    /// Writes the split that another pair over the same lists keeps, m times, in place of the one that is kept; the spare one stays.
    pub fn copy_times(&mut self, m: i128, from: &SplitPair)
        requires multiple { CanMultiply m from.now.kept.demand }
        requires lists { self.old.kept.demand.lists ≡ from.now.kept.demand.lists }
        requires slots { length self.old.kept.demand.capacities
            ≡ length from.now.kept.demand.capacities }
        requires spare { AreBeside self.old }
        ensures kept { self.new.kept.demand ≡ demands_times m from.now.kept.demand }
        ensures spare { AreBeside self.new }
        ensures near { self.new.near ≡ None }
    {
        let _sound = self.kept.demand.demands();
        let _other = from.kept.demand.demands();
        self.kept.copy_times(m, &from.kept);
        self.near = None;
    }

    /// Keeps the spare split, if there is one, in place of the one that is kept, which is the spare one then.
    pub fn swap(&mut self)
        requires { AreBeside self.old }
        ensures kept { IsBeside self.old.kept.demand self.new.kept.demand }
        ensures spare { AreBeside self.new }
        ensures near { self.new.near ≡ None }
    {
        self.near = None;
        if let Some(spare) = &mut self.spare {
            mem::swap(&mut self.kept, spare);
        }
    }

    /// Raises a place in the spare split, as `raise` does; if there is none, in a copy of the one that is kept.
    ///
    /// # Errors
    ///
    /// `Memory` where there is none.
    pub fn raise_spare(&mut self, alloc: Global, held: &[i128], pull: &Pull) -> Result<i128, Memory>
        requires raise { IsRaise self.old.kept.demand.demands pull.now.u pull.now.v pull.now.limit }
        requires spare { AreBeside self.old }
        requires held { CanHold self.old.kept.demand self.old.kept.demand.demands pull.now.v
            held.now }
        ensures kept { self.new.kept ≡ self.old.kept }
        ensures most { IfOk result (IsMostUpto (rest_of self.old.kept.demand
            self.old.kept.demand.demands pull.now.v held.now) pull.now.u pull.now.limit) }
        ensures spare { OnOk result (AreBeside self.new) }
        ensures near { OnOk result (IsNear self.new held.now) }
    {
        self.near = None;
        fill(alloc, &self.kept, &mut self.spare)?;
        match &mut self.spare {
            Some(spare) => {
                let most = raise(alloc, &self.kept, spare, held, pull)?;
                self.near = Some(Near {
                    u: pull.u,
                    v: pull.v,
                });
                Ok(most)
            }
            None => unreachable!(),
        }
    }

    /// Brings the spare split to the exchanged entries and keeps it, where it was left for this exchange; tells whether it was.
    ///
    /// # Errors
    ///
    /// `Memory` where there is none.
    pub fn exchange(&mut self, alloc: Global, swap: &Swap) -> Result<bool, Memory>
        requires can { CanMove self.old.kept.demand.demands swap.now.u swap.now.v swap.now.a }
        requires spare { AreBeside self.old }
        requires near { (held : List ℤ) × IsNear self.old held }
        ensures spare { OnOk result (AreBeside self.new) }
        ensures near { OnOk result (self.new.near ≡ None) }
        ensures kept { IfOk result (λ r. MatchBool r ((held : List ℤ) → IsNear self.old held
            → self.new.kept.demand ≡ record {
              demands = exchanged self.old.kept.demand.demands swap.now.u swap.now.v swap.now.a;
              lists = self.old.kept.demand.lists;
              capacities = held;
            }) (self.new.kept.demand ≡ self.old.kept.demand)) }
    {
        let Some(near) = self.near.take() else {
            return Ok(false);
        };
        if near.u != swap.u || near.v != swap.v {
            return Ok(false);
        }
        let Some(spare) = &mut self.spare else {
            return Ok(false);
        };
        let x = self.kept.demand.demands();
        let y = spare.demand.demands();
        let changes = [
            Change {
                k: swap.u,
                more: x[swap.u] + swap.a - y[swap.u],
            },
            Change {
                k: swap.v,
                more: x[swap.v] - swap.a - y[swap.v],
            },
        ];
        match spare.bring_changed(alloc, &changes) {
            Ok(()) => {
                mem::swap(&mut self.kept, spare);
                Ok(true)
            }
            Err(AssignEnd::Shortage { .. }) => Ok(false),
            Err(AssignEnd::Memory) => Err(Memory),
        }
    }
}
