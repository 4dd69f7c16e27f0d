// The search for room on a slot, from all demands that lack something: the demands that were found stand in a queue, and each is
// handled once. One that is handled marks its slots, each with all cells that have something on it, whose demands are found
// then; it ends the search where one of its slots has room. So each cell is looked at no more than twice. Where the queue runs
// out, the demands that were found share their slots with no other that has something there, and these slots are full.
ghost use Rattle.std.specs.Prelude.{◌≡◌, ℕ, ◌+◌, ◌<◌, ◌≤◌, true, false, List, [], length, replicate, slice_set, pos, ◌≤ℤ◌, IfOk, OnOk, MatchOption, Option, Some, None};
ghost use Rattle.sfm_spec.specs.Sets.{Has};
ghost use Rattle.sfm_cells.specs.{Splits.{amount_at}, Cells.{label_at, AreCells}, Left.{ListsLacking}};
ghost use Rattle.sfm_split.specs.Search.{node_at, IsFound, AreRootsOf, AreQueued, IsProgress, IsFurther, IsHandled, IsEnd, IsSearch};

use crate::nodes::{Link, Node, is_found};
use sfm_base::Memory;
use sfm_cells::{Cells, Lefts};
use std::alloc::Global;

/// The memory of a search, which the next one uses again: the node of each demand that was found, whether each slot is marked,
/// and the demands that were found, in this order. So the next one has to clear the nodes of these alone.
pub(crate) struct Search {
    pub nodes: Vec<Option<Node>>,
    pub marks: Vec<bool>,
    pub queue: Vec<usize>,
}

// Written out, so that letting one go is one step, which is proved here once.
impl Drop for Search {
    fn drop(self) {
        let Self {
            nodes: _,
            marks: _,
            queue: _,
        } = self;
    }
}

impl Search {
    /// Memory for searches among n demands and m slots.
    pub(crate) fn new(alloc: Global, n: usize, m: usize) -> Result<Search, Memory>
        ensures nodes { IfOk result (λ r. length r.nodes.items ≡ n) }
        ensures marks { IfOk result (λ r. length r.marks.items ≡ m) }
        ensures queued { IfOk result (λ r. AreQueued r.nodes.items r.queue.items) }
    {
        Ok(Search {
            nodes: vec![in alloc; None; n]?,
            marks: vec![in alloc; false; m]?,
            queue: Vec::with_capacity(alloc, n)?,
        })
    }

    /// No memory, for searches among nothing.
    pub(crate) fn none(alloc: Global) -> Search
        ensures nodes { result.nodes.items ≡ [] }
        ensures queue { result.queue.items ≡ [] }
    {
        Search {
            nodes: Vec::new(alloc),
            marks: Vec::new(alloc),
            queue: Vec::new(alloc),
        }
    }

    /// Forgets the demands that were found.
    pub(crate) fn clear(&mut self)
        requires queued { AreQueued self.old.nodes.items self.old.queue.items }
        ensures places { length self.new.nodes.items ≡ length self.old.nodes.items }
        ensures none { (i : ℕ) → node_at self.new.nodes.items i ≡ None }
        ensures marks { self.new.marks.items ≡ self.old.marks.items }
        ensures queue { self.new.queue.items ≡ [] }
    {
        for k in 0..self.queue.len() {
            self.nodes[self.queue[k]] = None;
        }
        self.queue.clear();
    }

    /// Finds the demands that lack something.
    fn find_roots(&mut self, left: &Lefts) -> Result<(), Memory>
        requires listed { ListsLacking left.now.lacks.items left.now.lacking.items }
        requires places { length self.old.nodes.items ≡ length left.now.lacks.items }
        requires none { (i : ℕ) → node_at self.old.nodes.items i ≡ None }
        requires queue { self.old.queue.items ≡ [] }
        ensures nodes { OnOk result (AreRootsOf left.now.lacks.items self.new.nodes.items) }
        ensures marks { self.new.marks.items ≡ self.old.marks.items }
        ensures queue { OnOk result (AreQueued self.new.nodes.items self.new.queue.items) }
    {
        for k in 0..left.lacking.len() {
            let i = left.lacking[k];
            if left.lacks[i] > 0 && !is_found(&self.nodes, i) {
                self.queue.push(i)?;
                self.nodes[i] = Some(Node {
                    level: 0,
                    link: None,
                });
            }
        }
        Ok(())
    }

    /// Begins: the demands that lack something were found, and no slot is marked.
    fn begin(&mut self, left: &Lefts) -> Result<(), Memory>
        requires listed { ListsLacking left.now.lacks.items left.now.lacking.items }
        requires places { length self.old.nodes.items ≡ length left.now.lacks.items }
        requires queued { AreQueued self.old.nodes.items self.old.queue.items }
        ensures nodes { OnOk result (AreRootsOf left.now.lacks.items self.new.nodes.items) }
        ensures marks { OnOk result (self.new.marks.items ≡ replicate
            (length self.old.marks.items) false) }
        ensures queue { OnOk result (AreQueued self.new.nodes.items self.new.queue.items) }
    {
        self.clear();
        self.find_roots(left)?;
        self.marks.fill(false);
        Ok(())
    }

    /// Searches for a slot with room: a cell of a demand that was found whose slot has room, if there is one.
    pub(crate) fn run(
        &mut self,
        cells: &Cells,
        y: &[i128],
        left: &Lefts,
    ) -> Result<Option<usize>, Memory>
        requires listed { ListsLacking left.now.lacks.items left.now.lacking.items }
        requires cells { AreCells (length left.now.lacks.items)
            (length left.now.rooms.items) cells.now.whos.items cells.now.slots.items }
        requires same { length y.now ≡ length cells.now.whos.items }
        requires nodes { length self.old.nodes.items ≡ length left.now.lacks.items }
        requires places { length self.old.marks.items ≡ length left.now.rooms.items }
        requires queued { AreQueued self.old.nodes.items self.old.queue.items }
        ensures places { OnOk result (length self.new.marks.items ≡ length left.now.rooms.items) }
        ensures queued { OnOk result (AreQueued self.new.nodes.items self.new.queue.items) }
        ensures search { IfOk result (IsSearch cells.now.whos.items cells.now.slots.items y.now
            left.now.lacks.items left.now.rooms.items self.new.nodes.items) }
    {
        self.begin(left)?;
        let mut next = 0;
        while next < self.queue.len() {
            let i = self.queue[next];
            if let Some(last) = self.handle(cells, y, &left.rooms, i)? {
                return Ok(Some(last));
            }
            next += 1;
        }
        Ok(None)
    }

    /// Finds the demand of a cell from another on its slot, where it has something there and was not found before.
    fn find(&mut self, cells: &Cells, y: &[i128], link: Link) -> Result<(), Memory>
        requires cells { AreCells (length self.old.nodes.items)
            (length self.old.marks.items) cells.now.whos.items cells.now.slots.items }
        requires same { length y.now ≡ length cells.now.whos.items }
        requires own { link.own < length cells.now.whos.items }
        requires other { link.other < length cells.now.whos.items }
        requires shared { label_at cells.now.slots.items link.own
            ≡ label_at cells.now.slots.items link.other }
        requires found { IsFound self.old.nodes.items (label_at cells.now.whos.items link.other) }
        requires progress { IsProgress cells.now.whos.items cells.now.slots.items y.now
            self.old.nodes.items self.old.marks.items self.old.queue.items }
        ensures marks { self.new.marks.items ≡ self.old.marks.items }
        ensures progress { OnOk result (IsProgress cells.now.whos.items cells.now.slots.items y.now
            self.new.nodes.items self.new.marks.items self.new.queue.items) }
        ensures further { OnOk result (IsFurther self.old.nodes.items self.old.queue.items
            self.new.nodes.items self.new.queue.items) }
        ensures seen { OnOk result (node_at self.new.nodes.items
            (label_at cells.now.whos.items link.own) ≡ None → amount_at y.now link.own ≤ℤ pos 0) }
    {
        if y[link.own] <= 0 {
            return Ok(());
        }
        let i = cells.whos[link.own];
        if is_found(&self.nodes, i) {
            return Ok(());
        }
        let node = Node {
            level: self.queue.len(),
            link: Some(link),
        };
        self.queue.push(i)?;
        self.nodes[i] = Some(node);
        Ok(())
    }

    /// Marks the slot of a cell of a found demand, and finds all demands that have something on it.
    fn sweep(&mut self, cells: &Cells, y: &[i128], e: usize) -> Result<(), Memory>
        requires cells { AreCells (length self.old.nodes.items)
            (length self.old.marks.items) cells.now.whos.items cells.now.slots.items }
        requires same { length y.now ≡ length cells.now.whos.items }
        requires cell { e < length cells.now.whos.items }
        requires found { IsFound self.old.nodes.items (label_at cells.now.whos.items e) }
        requires progress { IsProgress cells.now.whos.items cells.now.slots.items y.now
            self.old.nodes.items self.old.marks.items self.old.queue.items }
        ensures marks { OnOk result (self.new.marks.items ≡ slice_set self.old.marks.items
            (label_at cells.now.slots.items e) true) }
        ensures progress { OnOk result (IsProgress cells.now.whos.items cells.now.slots.items y.now
            self.new.nodes.items self.new.marks.items self.new.queue.items) }
        ensures further { OnOk result (IsFurther self.old.nodes.items self.old.queue.items
            self.new.nodes.items self.new.queue.items) }
    {
        let s = cells.slots[e];
        for own in cells.by_slot.list(s) {
            let link = Link {
                own: *own,
                other: e,
            };
            self.find(cells, y, link)?;
        }
        self.marks[s] = true;
        Ok(())
    }

    /// Handles a demand that was found: marks its slots, or tells its cell whose slot has room.
    fn handle(
        &mut self,
        cells: &Cells,
        y: &[i128],
        rooms: &[i128],
        i: usize,
    ) -> Result<Option<usize>, Memory>
        requires cells { AreCells (length self.old.nodes.items)
            (length rooms.now) cells.now.whos.items cells.now.slots.items }
        requires same { length y.now ≡ length cells.now.whos.items }
        requires places { length self.old.marks.items ≡ length rooms.now }
        requires found { IsFound self.old.nodes.items i }
        requires progress { IsProgress cells.now.whos.items cells.now.slots.items y.now
            self.old.nodes.items self.old.marks.items self.old.queue.items }
        requires full { (s : ℕ) → Has self.old.marks.items s → amount_at rooms.now s ≤ℤ pos 0 }
        ensures handled { OnOk result (IsHandled cells.now.whos.items cells.now.slots.items y.now
            rooms.now self.old.nodes.items self.old.marks.items self.old.queue.items
            self.new.nodes.items self.new.marks.items self.new.queue.items) }
        ensures told { IfOk result (λ r. MatchOption r
            ((e : ℕ) → e < length cells.now.whos.items → label_at cells.now.whos.items e ≡ i
            → Has self.new.marks.items (label_at cells.now.slots.items e))
            (IsEnd cells.now.whos.items cells.now.slots.items rooms.now self.new.nodes.items)) }
    {
        for e in cells.by_who.list(i) {
            let s = cells.slots[*e];
            if !self.marks[s] {
                if rooms[s] > 0 {
                    return Ok(Some(*e));
                }
                self.sweep(cells, y, *e)?;
            }
        }
        Ok(None)
    }
}
