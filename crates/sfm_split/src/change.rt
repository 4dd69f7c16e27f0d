// Amounts for other demands, found beside a split that stands, in memory of their own: either those of the split itself, of which
// nothing is lacking, or amounts by which other demands over the same lists are met.
ghost use Rattle.std.specs.{Prelude.{◌≡◌, length, OnOk, MatchResult}, List.{All}};
ghost use Rattle.sfm_cells.specs.{Splits.{Demands, IsAmount, IsCapacity, AreDemands}, Cells.{AreMet}, Left.{AreLeft, ListsLacking}};
ghost use Rattle.sfm_split.specs.{Lowers.{IsStanding}, Changes.{changed, changed_demands, AreChanges, IsBegun, IsEnded}, Ends.{IsAssignEnd}};

use crate::lower::{Change, Side, Turn, change_demands, turn_side};
use crate::splitting::{AssignEnd, raise_all};
use crate::work::{Work, copy_list, write_zeros};
use sfm_base::Memory;
use sfm_cells::{Cells, Demand, Lefts, Shares};
use std::alloc::Global;

/// What the demands of a split are to be, and what its slots are to hold at most.
#[derive(Clone, Copy)]
pub struct Aim<'a> {
    pub demands: &'a [i128],
    pub capacities: &'a [i128],
}

/// Puts other demands and capacities in place of those that amounts are within, lowers what is too much then, and lists the demands
/// that come to lack something.
fn turn(
    cells: &Cells,
    demand: &Demand,
    aim: &Aim,
    left: &mut Lefts,
    y: &mut [i128],
) -> Result<(), Memory>
    requires sized { length aim.now.demands.now ≡ length demand.now.demands }
    requires slots { length aim.now.capacities.now ≡ length demand.now.capacities }
    requires amounts { All IsAmount aim.now.demands.now }
    requires bounded { All IsCapacity aim.now.capacities.now }
    requires stands { IsStanding demand.now.demands demand.now.capacities cells.now.whos.items
        cells.now.slots.items y.old left.old.lacks.items left.old.rooms.items }
    requires listed { ListsLacking left.old.lacks.items left.old.lacking.items }
    ensures stands { OnOk result (IsStanding aim.now.demands.now aim.now.capacities.now
        cells.now.whos.items cells.now.slots.items y.new left.new.lacks.items
        left.new.rooms.items) }
    ensures listed { OnOk result (ListsLacking left.new.lacks.items left.new.lacking.items) }
{
    let slots = Turn {
        side: Side::Slots,
        totals: aim.capacities,
        before: demand.capacities(),
    };
    turn_side(cells, &slots, left, y)?;
    let demands = Turn {
        side: Side::Demands,
        totals: aim.demands,
        before: demand.demands(),
    };
    turn_side(cells, &demands, left, y)?;
    Ok(())
}

/// Raises amounts that are within demands until each gets what it asks for.
fn meet(alloc: Global, cells: &Cells, work: &mut Work) -> Result<(), AssignEnd>
    requires begun { (d : Demands) × IsBegun d cells.now.whos.items cells.now.slots.items
        work.old.y.items work.old.left.lacks.items work.old.left.rooms.items }
    requires listed { ListsLacking work.old.left.lacks.items work.old.left.lacking.items }
    ensures { (d : Demands) → IsBegun d cells.now.whos.items cells.now.slots.items
        work.old.y.items work.old.left.lacks.items work.old.left.rooms.items
        → MatchResult result (λ _. IsEnded d cells.now.whos.items cells.now.slots.items
        work.new.y.items work.new.left.lacks.items work.new.left.rooms.items)
        (IsAssignEnd d.demands d.lists d.capacities) }
{
    let told = raise_all(alloc, cells, &mut work.rest, &mut work.left, &mut work.y)?;
    if let Some(set) = told {
        return Err(AssignEnd::Shortage { set });
    }
    Ok(())
}

/// Finds amounts by which other demands are met, over the same lists and with other capacities, and what slots then have left. The
/// split that stands meets the demands, and its slots have these rooms.
///
/// # Errors
///
/// `Shortage` where there is no split of them, `Memory` where there is none.
pub fn find_amounts(
    alloc: Global,
    work: &mut Work,
    demand: &Demand,
    shares: &Shares,
    rooms: &[i128],
    aim: &Aim,
) -> Result<(), AssignEnd>
    requires sized { length aim.now.demands.now ≡ length demand.now.demands }
    requires slots { length aim.now.capacities.now ≡ length demand.now.capacities }
    requires sound { AreDemands (record {
      demands = aim.now.demands.now;
      lists = demand.now.lists;
      capacities = aim.now.capacities.now;
    }) }
    requires met { AreMet demand.now shares.now.cells.whos.items shares.now.cells.slots.items
        shares.now.y.items }
    requires left { AreLeft demand.now.capacities shares.now.cells.slots.items shares.now.y.items
        rooms.now }
    ensures { MatchResult result (λ _. IsEnded (record {
      demands = aim.now.demands.now;
      lists = demand.now.lists;
      capacities = aim.now.capacities.now;
    }) shares.now.cells.whos.items shares.now.cells.slots.items work.new.y.items
        work.new.left.lacks.items work.new.left.rooms.items)
        (IsAssignEnd aim.now.demands.now demand.now.lists aim.now.capacities.now) }
{
    let _sound = demand.demands();
    begin(work, demand, shares, rooms)?;
    let cells = shares.cells.all();
    turn(cells, demand, aim, &mut work.left, &mut work.y)?;
    meet(alloc, cells, work)
}

/// Demands that change, and what slots are to hold at most.
#[derive(Clone, Copy)]
pub struct Steps<'a> {
    pub changes: &'a [Change],
    pub capacities: &'a [i128],
}

/// Puts other capacities in place of those that amounts are within, changes demands one after another, and lowers what is too
/// much then.
fn take_steps(
    cells: &Cells,
    demand: &Demand,
    steps: &Steps,
    left: &mut Lefts,
    y: &mut [i128],
) -> Result<(), Memory>
    requires changes { AreChanges steps.now.changes.now demand.now.demands }
    requires slots { length steps.now.capacities.now ≡ length demand.now.capacities }
    requires bounded { All IsCapacity steps.now.capacities.now }
    requires stands { IsStanding demand.now.demands demand.now.capacities cells.now.whos.items
        cells.now.slots.items y.old left.old.lacks.items left.old.rooms.items }
    requires listed { ListsLacking left.old.lacks.items left.old.lacking.items }
    ensures stands { OnOk result (IsStanding (changed steps.now.changes.now demand.now.demands)
        steps.now.capacities.now cells.now.whos.items cells.now.slots.items y.new
        left.new.lacks.items left.new.rooms.items) }
    ensures listed { OnOk result (ListsLacking left.new.lacks.items left.new.lacking.items) }
{
    let slots = Turn {
        side: Side::Slots,
        totals: steps.capacities,
        before: demand.capacities(),
    };
    turn_side(cells, &slots, left, y)?;
    change_demands(cells, steps.changes, left, y)?;
    Ok(())
}

/// Finds amounts by which demands are met of which some change, with other capacities, and what slots then have left. The split
/// that stands meets the demands as they were, and its slots have these rooms.
///
/// # Errors
///
/// `Shortage` where there is no split of them, `Memory` where there is none.
pub fn find_changed(
    alloc: Global,
    work: &mut Work,
    demand: &Demand,
    shares: &Shares,
    rooms: &[i128],
    steps: &Steps,
) -> Result<(), AssignEnd>
    requires changes { AreChanges steps.now.changes.now demand.now.demands }
    requires slots { length steps.now.capacities.now ≡ length demand.now.capacities }
    requires bounded { All IsCapacity steps.now.capacities.now }
    requires met { AreMet demand.now shares.now.cells.whos.items shares.now.cells.slots.items
        shares.now.y.items }
    requires left { AreLeft demand.now.capacities shares.now.cells.slots.items shares.now.y.items
        rooms.now }
    ensures { MatchResult result (λ _. IsEnded (changed_demands steps.now.changes.now
        steps.now.capacities.now demand.now) shares.now.cells.whos.items
        shares.now.cells.slots.items work.new.y.items work.new.left.lacks.items
        work.new.left.rooms.items)
        (IsAssignEnd (changed steps.now.changes.now demand.now.demands) demand.now.lists
        steps.now.capacities.now) }
{
    let _sound = demand.demands();
    begin(work, demand, shares, rooms)?;
    let cells = shares.cells.all();
    take_steps(cells, demand, steps, &mut work.left, &mut work.y)?;
    meet(alloc, cells, work)
}

/// Writes the amounts of a split that meets its demands, and what its slots have left; of the demands nothing is lacking.
///
/// # Errors
///
/// `Memory` where there is none.
pub fn begin(
    work: &mut Work,
    demand: &Demand,
    shares: &Shares,
    rooms: &[i128],
) -> Result<(), Memory>
    requires met { AreMet demand.now shares.now.cells.whos.items shares.now.cells.slots.items
        shares.now.y.items }
    ensures amounts { OnOk result (work.new.y.items ≡ shares.now.y.items) }
    ensures lacks { OnOk result (AreLeft demand.now.demands shares.now.cells.whos.items
        shares.now.y.items work.new.left.lacks.items) }
    ensures rooms { OnOk result (work.new.left.rooms.items ≡ rooms.now) }
    ensures listed { OnOk result (ListsLacking work.new.left.lacks.items
        work.new.left.lacking.items) }
{
    work.left.lacking.clear();
    write_zeros(&mut work.left.lacks, demand.demands())?;
    copy_list(&mut work.left.rooms, rooms)?;
    copy_list(&mut work.y, &shares.y)
}
