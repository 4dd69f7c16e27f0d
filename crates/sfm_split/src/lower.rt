// Amounts that meet demands, brought within other demands and other capacities. Where a total changes, what is left of it changes as
// much; it is below nothing where the amounts are too much then. There the cells of the demand, or of the slot, are gone through,
// and the amounts on them are lowered and given back to their demands and slots. At the end nothing stands on these cells, and
// no demand or capacity is negative, so nothing is too much there. What is left only rises, so what was mended stays so. A demand
// is listed where it comes to lack something, so those that do not change are passed over with one comparison.
ghost use Rattle.std.specs.{Prelude.{◌≡◌, ℕ, ◌+◌, ◌<◌, ◌^◌, List, length, ℤ, pos, ◌+ℤ◌, ◌-ℤ◌, ◌≤ℤ◌, OnOk}, List.{All}};
ghost use Rattle.sfm_cells.specs.{Splits.{amount_at}, Cells.{label_at}, Groups.{AreGroups}, Left.{ListsLacking, turned, CanPut}};
ghost use Rattle.sfm_split.specs.{Lowers.{AreCharged, AreLowered, IsStanding, IsTotal, StandsBy, lacks_put, rooms_put}, Changes.{with_change, changed, AreChanges, CanTurn}, Sides.{of_side}, declared.lower.Side.{Side}};

use sfm_base::Memory;
use sfm_cells::{Cells, Groups, Lefts, put, take};

/// Lowers the amount on a cell, by no more than is too much, and gives it back to its demand and its slot.
fn lower_on(
    cells: &Cells,
    e: usize,
    over: i128,
    left: &mut Lefts,
    y: &mut [i128],
) -> Result<(), Memory>
    requires cell { e < length cells.now.whos.items }
    requires low { pos 0 ≤ℤ over }
    requires charged { AreCharged cells.now.whos.items cells.now.slots.items y.old
        left.old.lacks.items left.old.rooms.items }
    requires listed { ListsLacking left.old.lacks.items left.old.lacking.items }
    ensures lowered { OnOk result (AreLowered cells.now.whos.items cells.now.slots.items y.old
        left.old.lacks.items left.old.rooms.items y.new left.new.lacks.items
        left.new.rooms.items) }
    ensures given { OnOk result (pos 1 ≤ℤ amount_at y.new e → (side : Side)
        → let k = label_at (of_side side cells.now.whos.items cells.now.slots.items) e in amount_at
        (of_side side left.new.lacks.items left.new.rooms.items) k
        ≡ (amount_at (of_side side left.old.lacks.items left.old.rooms.items) k +ℤ over)) }
    ensures listed { OnOk result (ListsLacking left.new.lacks.items left.new.lacking.items) }
{
    let i = cells.whos[e];
    let s = cells.slots[e];
    let a = over.min(y[e]);
    take(y, e, a);
    Side::Demands.put(left, i, a)?;
    Side::Slots.put(left, s, a)?;
    Ok(())
}

/// Of which totals amounts are too much: of the demands, or of the capacities of the slots.
#[derive(Clone, Copy)]
pub(crate) enum Side {
    Demands,
    Slots,
}

impl Side {
    /// What is left of the totals of the side.
    fn of(self, left: &Lefts) -> &[i128]
        ensures { result.now ≡ of_side self left.now.lacks.items left.now.rooms.items }
    {
        match self {
            Side::Demands => left.lacks.as_slice(),
            Side::Slots => left.rooms.as_slice(),
        }
    }

    /// By how much amounts are too much for the total k of the side; no more than 0 where they are not.
    fn excess(self, left: &Lefts, k: usize) -> i128
        requires place { k < length (of_side self left.now.lacks.items left.now.rooms.items) }
        requires small { pos 0 ≤ℤ (amount_at (of_side self left.now.lacks.items
            left.now.rooms.items) k +ℤ pos (10 ^ 32)) }
        ensures { result ≡ (pos 0 -ℤ amount_at (of_side self left.now.lacks.items
            left.now.rooms.items) k) }
    {
        let totals = self.of(left);
        -totals[k]
    }

    /// Adds to what is left of a total of the side.
    fn put(self, left: &mut Lefts, k: usize, a: i128) -> Result<(), Memory>
        requires can { CanPut (of_side self left.old.lacks.items left.old.rooms.items) k a }
        requires listed { ListsLacking left.old.lacks.items left.old.lacking.items }
        ensures lacks { left.new.lacks.items ≡ lacks_put self left.old.lacks.items k a }
        ensures rooms { left.new.rooms.items ≡ rooms_put self left.old.rooms.items k a }
        ensures listed { OnOk result (ListsLacking left.new.lacks.items left.new.lacking.items) }
    {
        match self {
            Side::Demands => left.put_lack(k, a)?,
            Side::Slots => put(&mut left.rooms, k, a),
        }
        Ok(())
    }

    /// The cells of each total of the side.
    fn groups(self, cells: &Cells) -> &Groups
        ensures { AreGroups (of_side self cells.now.whos.items cells.now.slots.items) result.now }
    {
        match self {
            Side::Demands => &cells.by_who,
            Side::Slots => &cells.by_slot,
        }
    }
}

/// One demand, or one slot, and by how much its total changes.
#[derive(Clone, Copy)]
pub struct Change {
    pub k: usize,
    pub more: i128,
}

/// Lowers the amounts on the cells of a demand, or of a slot, until they are no more than its total.
fn lower_along(
    cells: &Cells,
    side: Side,
    k: usize,
    left: &mut Lefts,
    y: &mut [i128],
) -> Result<(), Memory>
    requires place { k < length (of_side side left.old.lacks.items left.old.rooms.items) }
    requires charged { AreCharged cells.now.whos.items cells.now.slots.items y.old
        left.old.lacks.items left.old.rooms.items }
    requires listed { ListsLacking left.old.lacks.items left.old.lacking.items }
    ensures lowered { OnOk result (AreLowered cells.now.whos.items cells.now.slots.items y.old
        left.old.lacks.items left.old.rooms.items y.new left.new.lacks.items
        left.new.rooms.items) }
    ensures mended { OnOk result (pos 0 ≤ℤ amount_at
        (of_side side left.new.lacks.items left.new.rooms.items) k) }
    ensures listed { OnOk result (ListsLacking left.new.lacks.items left.new.lacking.items) }
{
    for e in side.groups(cells).list(k) {
        let over = side.excess(left, k);
        if over <= 0 {
            return Ok(());
        }
        lower_on(cells, *e, over, left, y)?;
    }
    Ok(())
}

/// Other totals of a side, and those before them.
#[derive(Clone, Copy)]
pub(crate) struct Turn<'a> {
    pub side: Side,
    pub totals: &'a [i128],
    pub before: &'a [i128],
}

/// Changes one total of a side, and lowers the amounts on its cells until they are no more than it.
fn change_total(
    cells: &Cells,
    side: Side,
    change: Change,
    left: &mut Lefts,
    y: &mut [i128],
) -> Result<(), Memory>
    requires can { (totals others : List ℤ) × CanTurn side totals others cells.now.whos.items
        cells.now.slots.items y.old left.old.lacks.items left.old.rooms.items change }
    requires listed { ListsLacking left.old.lacks.items left.old.lacking.items }
    ensures stands { OnOk result ((totals others : List ℤ) → CanTurn side totals others
        cells.now.whos.items cells.now.slots.items y.old left.old.lacks.items left.old.rooms.items
        change
        → StandsBy side (with_change change totals) others cells.now.whos.items
        cells.now.slots.items y.new left.new.lacks.items left.new.rooms.items) }
    ensures listed { OnOk result (ListsLacking left.new.lacks.items left.new.lacking.items) }
{
    side.put(left, change.k, change.more)?;
    lower_along(cells, side, change.k, left, y)?;
    Ok(())
}

/// Puts other totals of a side in place of those that amounts are within, and lowers the amounts that then are too much.
pub(crate) fn turn_side(
    cells: &Cells,
    turn: &Turn,
    left: &mut Lefts,
    y: &mut [i128],
) -> Result<(), Memory>
    requires same { length turn.now.before.now ≡ length turn.now.totals.now }
    requires bounded { All (IsTotal turn.now.side) turn.now.totals.now }
    requires stands { (others : List ℤ) × StandsBy turn.now.side turn.now.before.now others
        cells.now.whos.items cells.now.slots.items y.old left.old.lacks.items
        left.old.rooms.items }
    requires listed { ListsLacking left.old.lacks.items left.old.lacking.items }
    ensures stands { OnOk result ((others : List ℤ) → StandsBy turn.now.side turn.now.before.now
        others cells.now.whos.items cells.now.slots.items y.old left.old.lacks.items
        left.old.rooms.items → StandsBy turn.now.side turn.now.totals.now others
        cells.now.whos.items cells.now.slots.items y.new left.new.lacks.items
        left.new.rooms.items) }
    ensures listed { OnOk result (ListsLacking left.new.lacks.items left.new.lacking.items) }
{
    let totals = turn.totals;
    let before = turn.before;
    for k in 0..totals.len() {
        if totals[k] != before[k] {
            let more = totals[k] - before[k];
            change_total(cells, turn.side, Change { k, more }, left, y)?;
        }
    }
    Ok(())
}

/// Changes demands one after another, and lowers the amounts that then are too much.
pub(crate) fn change_demands(
    cells: &Cells,
    changes: &[Change],
    left: &mut Lefts,
    y: &mut [i128],
) -> Result<(), Memory>
    requires can { (demands capacities : List ℤ) × IsStanding demands capacities
        cells.now.whos.items cells.now.slots.items y.old left.old.lacks.items left.old.rooms.items
        × AreChanges changes.now demands }
    requires listed { ListsLacking left.old.lacks.items left.old.lacking.items }
    ensures stands { OnOk result ((demands capacities : List ℤ) → IsStanding demands capacities
        cells.now.whos.items cells.now.slots.items y.old left.old.lacks.items left.old.rooms.items
        → AreChanges changes.now demands
        → IsStanding (changed changes.now demands) capacities cells.now.whos.items
        cells.now.slots.items y.new left.new.lacks.items left.new.rooms.items) }
    ensures listed { OnOk result (ListsLacking left.new.lacks.items left.new.lacking.items) }
{
    for change in changes {
        change_total(cells, Side::Demands, *change, left, y)?;
    }
    Ok(())
}
