// Amounts raised as far as they go: a search for room, and what can move from the slot that it comes to, until no slot has room for
// a demand that lacks something. The links that a search finds serve for all cells of that slot: what can move along them is
// seen anew for each. What demands lack and what slots have left is kept from one search to the next, and so is the memory of
// the searches.
ghost use Rattle.std.specs.Prelude.{◌≡◌, ◌<◌, length, ◌<ℤ◌, IfOk, None};
ghost use Rattle.sfm_spec.specs.Bounds.{total_of};
ghost use Rattle.sfm_cells.specs.Left.{ListsLacking};
ghost use Rattle.sfm_split.specs.{Search.{AreQueued, AreBranches, IsOpen, IsSearch}, Pours.{AreWithin, AreRaised}};

use crate::augment::{augment, flow_along};
use crate::nodes::is_found;
use crate::search::Search;
use crate::work::Rest;
use sfm_base::Memory;
use sfm_cells::{Cells, Lefts, take};
use std::alloc::Global;

/// Moves as much as can move now, from the slot of a cell to a demand that lacks something, and takes it off what these have
/// left; where the demand of the cell was found.
fn raise(cells: &Cells, search: &Search, e: usize, left: &mut Lefts, y: &mut [i128])
    requires within { AreWithin cells.now.whos.items cells.now.slots.items y.old
        left.old.lacks.items left.old.rooms.items }
    requires places { length search.now.nodes.items ≡ length left.old.lacks.items }
    requires tree { AreBranches cells.now.whos.items cells.now.slots.items search.now.nodes.items }
    requires cell { e < length cells.now.whos.items }
    ensures raised { AreRaised cells.now.whos.items cells.now.slots.items y.old left.old.lacks.items
        left.old.rooms.items y.new left.new.lacks.items left.new.rooms.items }
    ensures same { left.new.lacking.items ≡ left.old.lacking.items }
    ensures more { IsOpen cells.now.whos.items cells.now.slots.items y.old left.old.lacks.items
        left.old.rooms.items search.now.nodes.items e
        → total_of left.new.lacks.items <ℤ total_of left.old.lacks.items }
{
    let i = cells.whos[e];
    let s = cells.slots[e];
    if !is_found(&search.nodes, i) {
        return;
    }
    let a = flow_along(cells, &search.nodes, y, &left.lacks, i, left.rooms[s]);
    if a <= 0 {
        return;
    }
    augment(cells, &search.nodes, e, a, &mut left.lacks, y);
    take(&mut left.rooms, s, a);
}

/// Moves as much as can move from a slot along the links that a search found, to whichever demands have a cell there, as long as
/// the slot has room.
fn drain(cells: &Cells, search: &Search, s: usize, left: &mut Lefts, y: &mut [i128])
    requires within { AreWithin cells.now.whos.items cells.now.slots.items y.old
        left.old.lacks.items left.old.rooms.items }
    requires places { length search.now.nodes.items ≡ length left.old.lacks.items }
    requires tree { AreBranches cells.now.whos.items cells.now.slots.items search.now.nodes.items }
    ensures raised { AreRaised cells.now.whos.items cells.now.slots.items y.old left.old.lacks.items
        left.old.rooms.items y.new left.new.lacks.items left.new.rooms.items }
    ensures same { left.new.lacking.items ≡ left.old.lacking.items }
{
    for e in cells.by_slot.list(s) {
        if left.rooms[s] <= 0 {
            return;
        }
        raise(cells, search, *e, left, y);
    }
}

/// Raises amounts until no demand that lacks something can get more, and keeps what is left with them; tells the last search,
/// whose memory is taken out and can be kept for the next filling.
pub(crate) fn fill_from(
    alloc: Global,
    cells: &Cells,
    rest: &mut Rest,
    left: &mut Lefts,
    y: &mut [i128],
) -> Result<Search, Memory>
    requires within { AreWithin cells.now.whos.items cells.now.slots.items y.old
        left.old.lacks.items left.old.rooms.items }
    requires listed { ListsLacking left.old.lacks.items left.old.lacking.items }
    ensures raised { AreRaised cells.now.whos.items cells.now.slots.items y.old left.old.lacks.items
        left.old.rooms.items y.new left.new.lacks.items left.new.rooms.items }
    ensures listed { IfOk result (λ _. ListsLacking left.new.lacks.items left.new.lacking.items) }
    ensures queued { IfOk result (λ r. AreQueued r.nodes.items r.queue.items) }
    ensures stuck { IfOk result (λ r. IsSearch cells.now.whos.items cells.now.slots.items y.new
        left.new.lacks.items left.new.rooms.items r.nodes.items None) }
{
    let mut search = rest.ready(alloc, left.lacks.len(), left.rooms.len())?;
    while let Some(last) = search.run(cells, y, left)? {
        raise(cells, &search, last, left, y);
        drain(cells, &search, cells.slots[last], left, y);
    }
    Ok(search)
}
