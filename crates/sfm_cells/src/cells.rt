// The cells of demands in one list: a cell is a demand with one entry of its list. The cells of each demand and those of each
// slot stand in a list, so that they are gone through without a look at the others.
ghost use Rattle.std.specs.{Prelude.{◌≡◌, ◌<◌, ◌++◌, length, pos, replicate, IfOk, OnOk}, List.{All}};
ghost use Rattle.sfm_cells.specs.{Cells.{joined, owners}, Groups.{AreGroups}};

use crate::groups::Groups;
use sfm_base::{Lists, Memory};
use std::alloc::Global;

/// The demand and the slot of each cell, in the order of the demands and of their lists, and the list of the cells of each demand
/// and of each slot.
pub struct Cells {
    pub whos: Vec<usize>,
    pub slots: Vec<usize>,
    pub by_who: Groups,
    pub by_slot: Groups,
    ghost whos_grouped: { AreGroups whos.items by_who },
    ghost slots_grouped: { AreGroups slots.items by_slot },
}

// Written out, so that letting one go is one step, which is proved here once.
impl Drop for Cells {
    fn drop(self) {
        let Self {
            whos: _,
            slots: _,
            by_who: _,
            by_slot: _,
        } = self;
    }
}

/// Puts the cells of a demand at the end.
fn add(
    whos: &mut Vec<usize>,
    slots: &mut Vec<usize>,
    i: usize,
    list: &[usize],
) -> Result<(), Memory>
    ensures whos { OnOk result (whos.new.items ≡ whos.old.items ++ replicate (length list.now) i) }
    ensures slots { OnOk result (slots.new.items ≡ slots.old.items ++ list.now) }
{
    slots.extend_from_slice(list)?;
    for _ in 0..list.len() {
        whos.push(i)?;
    }
    Ok(())
}

impl Cells {
    /// The cells of lists of slots below m.
    ///
    /// # Errors
    ///
    /// `Memory` where there is none.
    pub fn of(alloc: Global, lists: &Lists, m: usize) -> Result<Cells, Memory>
        requires exist { All (All (λ s. s < m)) lists.now }
        ensures whos { IfOk result (λ r. r.whos.items ≡ owners 0 lists.now) }
        ensures slots { IfOk result (λ r. r.slots.items ≡ joined lists.now) }
    {
        let count = lists.room();
        let mut whos = Vec::with_capacity(alloc, count)?;
        let mut slots = Vec::with_capacity(alloc, count)?;
        for i in 0..lists.len() {
            add(&mut whos, &mut slots, i, lists.at(i))?;
        }
        let by_who = Groups::of(alloc, lists.len(), &whos)?;
        let by_slot = Groups::of(alloc, m, &slots)?;
        Ok(Cells {
            whos,
            slots,
            by_who,
            by_slot,
        })
    }

    /// Nothing on each cell.
    ///
    /// # Errors
    ///
    /// `Memory` where there is none.
    pub fn nothing(&self, alloc: Global) -> Result<Vec<i128>, Memory>
        ensures { IfOk result (λ y. y.items ≡ replicate (length self.now.whos.items) (pos 0)) }
    {
        let y = vec![in alloc; 0; self.whos.len()]?;
        Ok(y)
    }
}
