// A first filling: one demand after another gets what it still lacks, as far as its slots have room. It leaves little to the
// searches, and takes nothing from any demand. Only the demands that are listed are gone through.
ghost use Rattle.std.specs.Prelude.{◌≡◌, ◌<◌, length};
ghost use Rattle.sfm_split.specs.Pours.{AreWithin, AreRaised};

use sfm_cells::{Cells, Lefts, put, take};

/// Puts on a cell as much of an amount as its demand lacks and its slot has room for.
fn pour_on(cells: &Cells, e: usize, left: &mut Lefts, y: &mut [i128])
    requires cell { e < length cells.now.whos.items }
    requires within { AreWithin cells.now.whos.items cells.now.slots.items y.old
        left.old.lacks.items left.old.rooms.items }
    ensures raised { AreRaised cells.now.whos.items cells.now.slots.items y.old left.old.lacks.items
        left.old.rooms.items y.new left.new.lacks.items left.new.rooms.items }
    ensures same { left.new.lacking.items ≡ left.old.lacking.items }
{
    let i = cells.whos[e];
    let s = cells.slots[e];
    let a = left.lacks[i].min(left.rooms[s]);
    take(&mut left.lacks, i, a);
    take(&mut left.rooms, s, a);
    put(y, e, a);
}

/// Puts on the cells of a demand as much as it lacks and their slots have room for.
fn pour_at(cells: &Cells, i: usize, left: &mut Lefts, y: &mut [i128])
    requires within { AreWithin cells.now.whos.items cells.now.slots.items y.old
        left.old.lacks.items left.old.rooms.items }
    ensures raised { AreRaised cells.now.whos.items cells.now.slots.items y.old left.old.lacks.items
        left.old.rooms.items y.new left.new.lacks.items left.new.rooms.items }
    ensures same { left.new.lacking.items ≡ left.old.lacking.items }
{
    for e in cells.by_who.list(i) {
        pour_on(cells, *e, left, y);
    }
}

/// Puts on the cells of each demand that is listed, in turn, as much as it lacks and its slots have room for, and takes it off
/// what these have left.
pub(crate) fn pour(cells: &Cells, left: &mut Lefts, y: &mut [i128])
    requires within { AreWithin cells.now.whos.items cells.now.slots.items y.old
        left.old.lacks.items left.old.rooms.items }
    ensures raised { AreRaised cells.now.whos.items cells.now.slots.items y.old left.old.lacks.items
        left.old.rooms.items y.new left.new.lacks.items left.new.rooms.items }
    ensures same { left.new.lacking.items ≡ left.old.lacking.items }
{
    for k in 0..left.lacking.len() {
        pour_at(cells, left.lacking[k], left, y);
    }
}
