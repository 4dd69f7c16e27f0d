// An amount put on a slot with room, and moved from demand to demand along the links, until a demand gets it that lacks it. How
// much can move is seen on the way itself, so links that were found serve as long as amounts are on their own cells.
ghost use Rattle.std.specs.Prelude.{◌≡◌, ℕ, ◌<◌, ◌^◌, length, pos, ◌+ℤ◌, ◌-ℤ◌, ◌≤ℤ◌, Some, slice_set};
ghost use Rattle.sfm_cells.specs.{Splits.{sum_at, amount_at}, Cells.{label_at, AreCells}};
ghost use Rattle.sfm_split.specs.Search.{node_at, IsFound, AreNodes, AreRoots, AreBranches, Carries, IsRaised};

use crate::nodes::{Node, link_of};
use sfm_cells::{Cells, put, take};

/// How much of an amount can move from a demand that was found, along the links, to one that lacks something.
pub(crate) fn flow_along(
    cells: &Cells,
    nodes: &[Option<Node>],
    y: &[i128],
    lacks: &[i128],
    i: usize,
    most: i128,
) -> i128
    requires cells { (m : ℕ) × AreCells (length nodes.now) m cells.now.whos.items
        cells.now.slots.items }
    requires same { length y.now ≡ length cells.now.whos.items }
    requires places { length nodes.now ≡ length lacks.now }
    requires tree { AreBranches cells.now.whos.items cells.now.slots.items nodes.now }
    requires found { IsFound nodes.now i }
    ensures most { result ≤ℤ most }
    ensures way { Carries cells.now.whos.items nodes.now y.now lacks.now result i }
    ensures some { AreNodes cells.now.whos.items cells.now.slots.items y.now nodes.now
        → AreRoots lacks.now nodes.now → pos 1 ≤ℤ most → pos 1 ≤ℤ result }
{
    let mut flow = most;
    let mut who = i;
    while let Some(link) = link_of(nodes, who) {
        flow = flow.min(y[link.own]);
        who = cells.whos[link.other];
    }
    flow.min(lacks[who])
}

/// Puts the amount on the last cell, whose slot has room for it. Each demand on the way gets the amount on a slot of its
/// own and gives it up on the slot of its link, to the demand that it was found from. The one that gets it lacks it no more.
pub(crate) fn augment(
    cells: &Cells,
    nodes: &[Option<Node>],
    last: usize,
    a: i128,
    lacks: &mut [i128],
    y: &mut [i128],
)
    requires cells { (m : ℕ) × AreCells (length nodes.now) m cells.now.whos.items
        cells.now.slots.items }
    requires same { length y.old ≡ length cells.now.whos.items }
    requires places { length nodes.now ≡ length lacks.old }
    requires amounts { (e : ℕ) → pos 0 ≤ℤ amount_at y.old e }
    requires tree { AreBranches cells.now.whos.items cells.now.slots.items nodes.now }
    requires last { last < length cells.now.whos.items }
    requires some { pos 0 ≤ℤ a }
    requires way { Carries cells.now.whos.items nodes.now y.old lacks.old a
        (label_at cells.now.whos.items last) }
    requires small { (e : ℕ) → e < length cells.now.whos.items
        → sum_at (label_at cells.now.slots.items e) cells.now.slots.items y.old ≤ℤ pos (10 ^ 24) }
    requires room { (sum_at (label_at cells.now.slots.items last) cells.now.slots.items y.old +ℤ a)
        ≤ℤ pos (10 ^ 24) }
    ensures { (r : IsRaised cells.now.whos.items cells.now.slots.items nodes.now lacks.old last a
        y.old y.new) × (lacks.new ≡ slice_set lacks.old r.root (amount_at lacks.old r.root -ℤ a)) }
{
    put(y, last, a);
    let mut who = cells.whos[last];
    while let Some(link) = link_of(nodes, who) {
        put(y, link.own, -a);
        put(y, link.other, a);
        who = cells.whos[link.other];
    }
    take(lacks, who, a);
}
