// The test that tells what slots of entries may hold: each element is a demand that is split over the slots of its entry, of
// which each holds the same number at most. Where slots hold 1 each, places with a demand of 1 have slots of their own; so places
// are taken one after another by one split, in which each in turn is raised to 1 if the others leave it a slot.
ghost use Rattle.std.specs.{Prelude.{◌≡◌, ◌+◌, ◌<◌, ◌≤◌, ◌^◌, [], length, replicate, pos, IfOk, OnOk}, List.{All}};
ghost use Rattle.sfm_assign.specs.Splits.{IsAmount};
ghost use Rattle.sfm_spec.specs.Sets.{empty_set};
ghost use Rattle.sfm_matroid.specs.{Matched.{IsMatchedTo}, Notes.{AreSlotAmounts, slot_demands}, Slots.{suited}};

use crate::entries::Entries;
use crate::splits::split_of;
use sfm_assign::{Demand, Kept};
use sfm_base::{Memory, Set};
use std::alloc::Global;

/// Writes slots as numbers of capacities.
fn write_numbers(slots: &[u32], numbers: &mut Vec<usize>) -> Result<(), Memory>
    ensures { OnOk result (numbers.new.items ≡ slots.now) }
{
    numbers.clear();
    for v in slots {
        numbers.push(*v as usize)?;
    }
    Ok(())
}

/// Puts the elements as demands that are split over the slots of their entries, where there are none before.
fn push_slots(
    alloc: Global,
    entries: &Entries,
    x: &[i128],
    demand: &mut Demand,
) -> Result<(), Memory>
    requires few { length entries.now ≤ 256 }
    requires sized { length x.now ≡ length entries.now }
    requires amounts { All IsAmount x.now }
    requires below { All (All (λ v. v < length demand.old.capacities)) entries.now }
    requires none { (demand.old.demands ≡ []) × (demand.old.lists ≡ []) }
    ensures { OnOk result (demand.new ≡ record {
      demands = x.now;
      lists = entries.now;
      capacities = demand.old.capacities;
    }) }
{
    let items = entries.as_slice();
    let mut slots = Vec::new(alloc);
    for e in 0..items.len() {
        write_numbers(items[e].as_slice(), &mut slots)?;
        demand.push(x[e], &slots)?;
    }
    Ok(())
}

/// The elements as demands that are split over the slots of their entries, of which each of m holds a number.
fn slot_demand(
    alloc: Global,
    entries: &Entries,
    m: usize,
    x: &[i128],
    most: i128,
) -> Result<Demand, Memory>
    requires { AreSlotAmounts entries.now m most x.now }
    ensures { IfOk result (λ r. r ≡ record {
      demands = x.now;
      lists = entries.now;
      capacities = replicate m most;
    }) }
{
    let capacities = vec![in alloc; most; m]?;
    let mut demand = Demand::with_room(alloc, &capacities, entries.len(), 0)?;
    push_slots(alloc, entries, x, &mut demand)?;
    Ok(demand)
}

/// The split over slots that hold 1 each, where no place has one yet.
pub(crate) fn untaken(alloc: Global, entries: &Entries, m: usize) -> Result<Kept, Memory>
    requires few { length entries.now ≤ 256 }
    requires few_slots { m ≤ 2 ^ 24 }
    requires below { All (All (λ v. v < m)) entries.now }
    ensures { IfOk result (λ r. r.demand ≡ slot_demands entries.now m (pos 1)
        (replicate (length entries.now) (pos 0))) }
{
    let nothing = vec![in alloc; 0; entries.len()]?;
    let demand = slot_demand(alloc, entries, m, &nothing, 1)?;
    split_of(alloc, demand)
}

/// Takes a place of a set to t, if the split of those that are taken can give it a slot too.
fn take(alloc: Global, kept: &mut Kept, s: &Set, t: &mut Set, e: usize) -> Result<(), Memory>
    requires sized { length s.now ≡ length kept.old.demand.lists }
    requires place { e < length s.now }
    requires taken { IsMatchedTo kept.old.demand.lists s.now e t.old kept.old.demand }
    ensures { OnOk result (IsMatchedTo kept.old.demand.lists s.now (e + 1) t.new kept.new.demand) }
{
    if s.contains(e) && kept.grow(alloc, e, 1)? == 1 {
        t.insert(e);
    }
    Ok(())
}

/// Takes the places of a set one after another, if the split of those that are taken can give each a slot too.
pub(crate) fn take_each(alloc: Global, kept: &mut Kept, s: &Set) -> Result<Set, Memory>
    requires sized { length s.now ≡ length kept.old.demand.lists }
    requires none { IsMatchedTo kept.old.demand.lists s.now 0
        (empty_set (length kept.old.demand.lists)) kept.old.demand }
    ensures places { IfOk result (λ t. length t ≡ length s.now) }
    ensures taken { IfOk result (λ t. t ≡ suited kept.old.demand.lists s.now
        (length kept.old.demand.lists)) }
{
    let mut t = Set::empty(alloc, s.len())?;
    for e in 0..s.len() {
        take(alloc, kept, s, &mut t, e)?;
    }
    Ok(t)
}
