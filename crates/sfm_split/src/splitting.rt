// A split of all demands, or a set of them that asks for more than its slots have. The amounts on the cells are raised as far as
// they go; where a demand still lacks something, those that were found ask for too much.
ghost use Rattle.std.specs.Prelude.{◌≡◌, IfOk, MatchResult};
ghost use Rattle.sfm_cells.specs.{Splits.{AreDemands, IsAssignment}, Cells.{joined, owners, IsPart, AreMet}, Left.{ListsLacking}};
ghost use Rattle.sfm_split.specs.{Pours.{AreWithin, AreRaised, IsToldOf}, Ends.{IsAssignEnd}};

use crate::fill::fill_from;
use crate::nodes::found_set;
use crate::pour::pour;
use crate::split::Split;
use crate::work::Rest;
use sfm_base::{Memory, Set};
use sfm_cells::{Cells, Demand, Lefts, SharedCells, Shares, lefts_of};
use std::alloc::Global;

/// Why demands are not split.
#[derive(Drop)]
pub enum AssignEnd {
    /// The demands of the set together ask for more than their slots have, each slot counted once.
    Shortage { set: Set },
    /// Want of memory.
    Memory,
}

impl From<Memory> for AssignEnd {
    ghost use Rattle.sfm_split.specs.declared.splitting.AssignEnd.TheVariants.{Memory};

    ghost from_gives = { λ _ e. e ≡ Memory };

    fn from(_: Memory) -> Self {
        AssignEnd::Memory
    }
}

/// Raises amounts until each demand gets what it asks for, first on slots that have room, then by searches; or, where one still
/// lacks something, tells a closed set with all that do. What is left is kept with them.
pub(crate) fn raise_all(
    alloc: Global,
    cells: &Cells,
    rest: &mut Rest,
    left: &mut Lefts,
    y: &mut [i128],
) -> Result<Option<Set>, Memory>
    requires within { AreWithin cells.now.whos.items cells.now.slots.items y.old
        left.old.lacks.items left.old.rooms.items }
    requires listed { ListsLacking left.old.lacks.items left.old.lacking.items }
    ensures raised { IfOk result (λ _. AreRaised cells.now.whos.items cells.now.slots.items y.old
        left.old.lacks.items left.old.rooms.items y.new left.new.lacks.items left.new.rooms.items) }
    ensures told { IfOk result (IsToldOf cells.now.whos.items cells.now.slots.items y.new
        left.new.lacks.items left.new.rooms.items) }
{
    pour(cells, left, y);
    let search = fill_from(alloc, cells, rest, left, y)?;
    if left.first_lacking().is_some() {
        let set = found_set(alloc, &search.nodes)?;
        rest.keep(search);
        return Ok(Some(set));
    }
    rest.keep(search);
    Ok(None)
}

/// Raises amounts until each demand gets what it asks for.
fn raise_to(alloc: Global, demand: &Demand, cells: &Cells, y: &mut [i128]) -> Result<(), AssignEnd>
    requires in_order { cells.now.whos.items ≡ owners 0 demand.now.lists }
    requires in_lists { cells.now.slots.items ≡ joined demand.now.lists }
    requires part { IsPart demand.now.demands demand.now.capacities cells.now.whos.items
        cells.now.slots.items y.old }
    ensures sound { AreDemands demand.now }
    ensures met { MatchResult result (λ _. AreMet demand.now cells.now.whos.items
        cells.now.slots.items y.new) (IsAssignEnd demand.now.demands demand.now.lists
        demand.now.capacities) }
{
    let demands = demand.demands();
    let mut left = lefts_of(alloc, cells, demands, demand.capacities(), y)?;
    left.list_lacking()?;
    let mut rest = Rest::new(alloc);
    if let Some(set) = raise_all(alloc, cells, &mut rest, &mut left, y)? {
        return Err(AssignEnd::Shortage { set });
    }
    Ok(())
}

/// Amounts by which each demand gets what it asks for.
///
/// # Errors
///
/// `Shortage` where there is no split; `Memory` where there is none.
pub fn met_shares(alloc: Global, demand: &Demand) -> Result<Shares, AssignEnd>
    ensures sound { IfOk result (λ _. AreDemands demand.now) }
    ensures shares { MatchResult result (λ r. AreMet demand.now r.cells.whos.items
        r.cells.slots.items r.y.items) (IsAssignEnd demand.now.demands demand.now.lists
        demand.now.capacities) }
{
    let cells = Cells::of(alloc, demand.lists(), demand.capacities().len())?;
    let mut y = cells.nothing(alloc)?;
    raise_to(alloc, demand, &cells, &mut y)?;
    let cells = SharedCells::new(alloc, cells)?;
    Ok(Shares { cells, y })
}

/// Splits each demand over its slots, no slot getting more than its capacity.
///
/// # Errors
///
/// `Shortage` where there is no split; `Memory` where there is none.
pub fn assign(alloc: Global, demand: &Demand) -> Result<Split, AssignEnd>
    ensures { MatchResult result (IsAssignment demand.now.demands demand.now.lists
        demand.now.capacities) (IsAssignEnd demand.now.demands demand.now.lists
        demand.now.capacities) }
{
    let shares = met_shares(alloc, demand)?;
    let split = Split::cut(alloc, demand.lists(), &shares.y)?;
    Ok(split)
}
