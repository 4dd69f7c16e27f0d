// What is left of demands or of capacities once the amounts on the cells are taken off. Of many demands few lack something. Each is
// listed where it comes to lack something, so what goes over those that lack something does not look at the others.
ghost use Rattle.std.specs.Prelude.{◌≡◌, ℕ, ◌<◌, length, slice_set, pos, ◌+ℤ◌, ◌-ℤ◌, ◌≤ℤ◌, ◌<ℤ◌, IfOk, OnOk, MatchOption};
ghost use Rattle.sfm_cells.specs.{Splits.{sum_at, amount_at}, Cells.{label_at, AreCells, IsPart}, Left.{AreLeft, ListsLacking, CanPut}};

use crate::amount::put;
use crate::cells::Cells;
use sfm_base::Memory;
use std::alloc::Global;

/// What demands lack, and what slots have left.
pub struct Lefts {
    pub lacks: Vec<i128>,
    pub rooms: Vec<i128>,
    /// The demands that lack something, once they are listed; those that are met since stay, and one can stand here twice.
    pub lacking: Vec<usize>,
}

// Written out, so that letting one go is one step, which is proved here once.
impl Drop for Lefts {
    fn drop(self) {
        let Self {
            lacks: _,
            rooms: _,
            lacking: _,
        } = self;
    }
}

impl Lefts {
    /// Lists the demands that lack something.
    ///
    /// # Errors
    ///
    /// `Memory` where there is none.
    pub fn list_lacking(&mut self) -> Result<(), Memory>
        ensures lacks { self.new.lacks.items ≡ self.old.lacks.items }
        ensures rooms { self.new.rooms.items ≡ self.old.rooms.items }
        ensures listed { OnOk result (ListsLacking self.new.lacks.items self.new.lacking.items) }
    {
        self.lacking.clear();
        for i in 0..self.lacks.len() {
            if self.lacks[i] > 0 {
                self.lacking.push(i)?;
            }
        }
        Ok(())
    }

    /// Adds to what a demand lacks, and lists it where it comes to lack something.
    ///
    /// # Errors
    ///
    /// `Memory` where there is none.
    pub fn put_lack(&mut self, i: usize, a: i128) -> Result<(), Memory>
        requires can { CanPut self.old.lacks.items i a }
        requires listed { ListsLacking self.old.lacks.items self.old.lacking.items }
        ensures lacks { self.new.lacks.items ≡ slice_set self.old.lacks.items i
            (amount_at self.old.lacks.items i +ℤ a) }
        ensures rooms { self.new.rooms.items ≡ self.old.rooms.items }
        ensures listed { OnOk result (ListsLacking self.new.lacks.items self.new.lacking.items) }
    {
        let before = self.lacks[i];
        put(&mut self.lacks, i, a);
        if before <= 0 && self.lacks[i] > 0 {
            self.lacking.push(i)?;
        }
        Ok(())
    }

    /// A demand that lacks something.
    pub fn first_lacking(&self) -> Option<usize>
        requires listed { ListsLacking self.now.lacks.items self.now.lacking.items }
        ensures { MatchOption result ((i : ℕ) → i < length self.now.lacks.items
            → amount_at self.now.lacks.items i ≤ℤ pos 0)
            (λ i. (i < length self.now.lacks.items) × (pos 0 <ℤ amount_at self.now.lacks.items i)) }
    {
        for k in 0..self.lacking.len() {
            let i = self.lacking[k];
            if self.lacks[i] > 0 {
                return Some(i);
            }
        }
        None
    }
}

/// Each total less the amounts that have its number.
///
/// # Errors
///
/// `Memory` where there is none.
pub fn left_of(
    alloc: Global,
    totals: &[i128],
    labels: &[usize],
    y: &[i128],
) -> Result<Vec<i128>, Memory>
    requires same { length y.now ≡ length labels.now }
    requires below { (e : ℕ) → e < length labels.now → label_at labels.now e < length totals.now }
    requires amounts { (e : ℕ) → pos 0 ≤ℤ amount_at y.now e }
    requires within { (k : ℕ) → k < length totals.now → sum_at k labels.now y.now
        ≤ℤ amount_at totals.now k }
    ensures { IfOk result (λ r. AreLeft totals.now labels.now y.now r.items) }
{
    let mut left = Vec::from_slice(alloc, totals)?;
    for e in 0..labels.len() {
        left[labels[e]] -= y[e];
    }
    Ok(left)
}

/// What amounts on the cells leave of demands and of capacities; the demands that lack something are not listed yet.
///
/// # Errors
///
/// `Memory` where there is none.
pub fn lefts_of(
    alloc: Global,
    cells: &Cells,
    demands: &[i128],
    capacities: &[i128],
    y: &[i128],
) -> Result<Lefts, Memory>
    requires cells { AreCells (length demands.now) (length capacities.now) cells.now.whos.items
        cells.now.slots.items }
    requires part { IsPart demands.now capacities.now cells.now.whos.items cells.now.slots.items
        y.now }
    ensures lacks { IfOk result (λ r. AreLeft demands.now cells.now.whos.items y.now
        r.lacks.items) }
    ensures rooms { IfOk result (λ r. AreLeft capacities.now cells.now.slots.items y.now
        r.rooms.items) }
{
    Ok(Lefts {
        lacks: left_of(alloc, demands, &cells.whos, y)?,
        rooms: left_of(alloc, capacities, &cells.slots, y)?,
        lacking: Vec::new(alloc),
    })
}
