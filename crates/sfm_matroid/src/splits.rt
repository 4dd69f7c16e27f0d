// The split that is kept beside a base of a transversal term, for all searches at it. A base passes the test, so there is a split.
// A room leaves a spare one near the exchange that may come, and an exchange brings that one up, or else the one that is kept.
ghost use Rattle.std.specs.{Prelude.{◌≡◌, ◌↔◌, length, IfOk, IsTrue, OnOk, None}, List.{All}};
ghost use Rattle.sfm_assign.specs.Splits.{IsAmount, IsCapacity, CanBeMet};
ghost use Rattle.sfm_matroid.specs.Notes.{AreBeside, CanMultiply, IsSplitOrNone, demands_times};

use crate::pair::SplitPair;
use sfm_assign::{AssignEnd, Demand, Kept};
use sfm_base::Memory;
use std::alloc::Global;

/// The split over slots, with a spare one, and what each slot holds at most.
pub struct SlotSplit {
    pub pair: SplitPair,
    pub capacities: Vec<i128>,
}

// Written out, so that letting one go is one step, which is proved here once.
impl Drop for SlotSplit {
    fn drop(self) {
        let Self {
            pair: _,
            capacities: _,
        } = self;
    }
}

impl SlotSplit {
    /// The split m times, over slots that hold m times as much, with no spare one.
    ///
    /// # Errors
    ///
    /// `Memory` where there is none.
    pub(crate) fn times(&self, alloc: Global, m: i128) -> Result<SlotSplit, Memory>
        requires { CanMultiply m self.now.pair.kept.demand }
        ensures kept { IfOk result (λ r. r.pair.kept.demand
            ≡ demands_times m self.now.pair.kept.demand) }
        ensures spare { IfOk result (λ r. AreBeside r.pair) }
        ensures near { IfOk result (λ r. r.pair.near ≡ None) }
        ensures holds { IfOk result (λ r. r.capacities.items ≡ r.pair.kept.demand.capacities) }
    {
        let pair = self.pair.times(alloc, m)?;
        let capacities = Vec::from_slice(alloc, pair.kept.demand.capacities())?;
        Ok(SlotSplit { pair, capacities })
    }

    /// Writes another split over the same lists and as many slots m times in place of this one; the spare one stays.
    pub(crate) fn copy_times(&mut self, m: i128, from: &SlotSplit)
        requires multiple { CanMultiply m from.now.pair.kept.demand }
        requires lists { self.old.pair.kept.demand.lists ≡ from.now.pair.kept.demand.lists }
        requires slots { length self.old.pair.kept.demand.capacities
            ≡ length from.now.pair.kept.demand.capacities }
        requires holds { length self.old.capacities.items
            ≡ length from.now.pair.kept.demand.capacities }
        requires spare { AreBeside self.old.pair }
        ensures kept { self.new.pair.kept.demand ≡ demands_times m from.now.pair.kept.demand }
        ensures spare { AreBeside self.new.pair }
        ensures near { self.new.pair.near ≡ None }
        ensures holds { self.new.capacities.items ≡ self.new.pair.kept.demand.capacities }
    {
        self.pair.copy_times(m, &from.pair);
        self.capacities
            .copy_from_slice(self.pair.kept.demand.capacities());
    }
}

/// The split of demands; None where they cannot be met.
///
/// # Errors
///
/// `Memory` where there is none.
pub fn try_split(alloc: Global, demand: Demand) -> Result<Option<Kept>, Memory>
    ensures { IfOk result (IsSplitOrNone demand) }
{
    match Kept::new(alloc, demand) {
        Ok(kept) => {
            kept.are_met();
            Ok(Some(kept))
        }
        Err(AssignEnd::Shortage { .. }) => Ok(None),
        Err(AssignEnd::Memory) => Err(Memory),
    }
}

/// A split of demands that can be met.
///
/// # Errors
///
/// `Memory` where there is none.
pub fn split_of(alloc: Global, demand: Demand) -> Result<Kept, Memory>
    requires { CanBeMet demand.demands demand.lists demand.capacities }
    ensures { IfOk result (λ r. r.demand ≡ demand) }
{
    match Kept::new(alloc, demand) {
        Ok(kept) => Ok(kept),
        Err(AssignEnd::Shortage { .. }) => unreachable!(),
        Err(AssignEnd::Memory) => Err(Memory),
    }
}

/// Brings a split to other demands over the same lists, and to what slots hold then; false where these cannot be met.
///
/// # Errors
///
/// `Memory` where there is none.
pub fn can_bring(
    alloc: Global,
    kept: &mut Kept,
    demands: &[i128],
    capacities: &[i128],
) -> Result<bool, Memory>
    requires sized { length demands.now ≡ length kept.old.demand.demands }
    requires slots { length capacities.now ≡ length kept.old.demand.capacities }
    requires amounts { All IsAmount demands.now }
    requires bounded { All IsCapacity capacities.now }
    ensures told { IfOk result (λ r. IsTrue r ↔ CanBeMet demands.now kept.old.demand.lists
        capacities.now) }
    ensures brought { IfOk result (λ r. IsTrue r → kept.new.demand
        ≡ record {
          demands = demands.now;
          lists = kept.old.demand.lists;
          capacities = capacities.now;
        }) }
{
    match kept.bring(alloc, demands, capacities) {
        Ok(()) => {
            kept.are_met();
            Ok(true)
        }
        Err(AssignEnd::Shortage { .. }) => Ok(false),
        Err(AssignEnd::Memory) => Err(Memory),
    }
}

/// Brings a split to other demands over the same lists that can be met.
pub(crate) fn bring_split(
    alloc: Global,
    kept: &mut Kept,
    demands: &[i128],
    capacities: &[i128],
) -> Result<(), Memory>
    requires sized { length demands.now ≡ length kept.old.demand.demands }
    requires slots { length capacities.now ≡ length kept.old.demand.capacities }
    requires amounts { All IsAmount demands.now }
    requires bounded { All IsCapacity capacities.now }
    requires met { CanBeMet demands.now kept.old.demand.lists capacities.now }
    ensures { OnOk result (kept.new.demand ≡ record {
      demands = demands.now;
      lists = kept.old.demand.lists;
      capacities = capacities.now;
    }) }
{
    if !can_bring(alloc, kept, demands, capacities)? {
        unreachable!();
    }
    Ok(())
}
