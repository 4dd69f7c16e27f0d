// The slots of elements, entry by entry in the order in which they come, with a number above all slots.
ghost use Rattle.std.specs.{Prelude.{◌≡◌, ℕ, ◌<◌, ◌≤◌, ◌^◌, List, [], ◌∷◌, ◌++◌, length, slice_index_or, is_ok, IfOk, if◌then◌else◌}, List.{All}};
ghost use Rattle.sfm_layers.specs.Kept.{kept};

use sfm_base::{Memory, Set};
use std::alloc::Global;
use std::marker::Model;

/// The slots of an element, seen as a list of numbers.
#[derive(Drop)]
pub(crate) struct Slots {
    items: Vec<u32>,
}

impl Model for Slots {
    ghost use Rattle.std.specs.Prelude.{List, ℕ};

    ghost Value = { List ℕ };

    ghost view = { λ s. s.items.items };
}

impl Slots {
    /// The slots in their order.
    pub(crate) fn as_slice(&self) -> &[u32]
        ensures { result.now ≡ self.now }
    {
        self.items.as_slice()
    }

    /// A copy.
    fn copy(&self, alloc: Global) -> Result<Slots, Memory>
        ensures { IfOk result (λ r. r ≡ self.now) }
    {
        let items = Vec::from_slice(alloc, &self.items)?;
        Ok(Slots { items })
    }
}

/// The slots of each element, seen as a list of lists. A slot may stand more than once in an entry.
#[derive(Drop)]
pub struct Entries {
    items: Vec<Slots>,
    above: usize,
}

impl Model for Entries {
    ghost use Rattle.std.specs.{Prelude.{List, ℕ, ◌<◌, ◌≤◌, ◌^◌}, List.{All}};

    ghost Value = { List (List ℕ) };

    ghost view = { λ s. s.items.items };

    ghost invariant = { λ s. All (All (λ v. v < s.above)) s.items.items × (s.above ≤ 2 ^ 24) };
}

impl Entries {
    /// No entries.
    pub fn new(alloc: Global) -> Entries
        ensures { result ≡ [] }
    {
        Entries {
            items: Vec::new(alloc),
            above: 0,
        }
    }

    /// Puts an entry with these slots at the end.
    ///
    /// # Errors
    ///
    /// `Memory` where there is none; the entries are then as they were.
    pub fn push(&mut self, slots: Vec<u32>) -> Result<(), Memory>
        requires { All (λ v. v < 2 ^ 24) slots.items }
        ensures { self.new ≡ (if is_ok result then self.old ++ slots.items ∷ [] else self.old) }
    {
        let above = above(&slots, self.above);
        self.items.push(Slots { items: slots })?;
        self.above = above;
        Ok(())
    }

    /// A copy.
    ///
    /// # Errors
    ///
    /// `Memory` where there is none.
    pub(crate) fn copy(&self, alloc: Global) -> Result<Entries, Memory>
        ensures { IfOk result (λ r. r ≡ self.now) }
    {
        let mut items = Vec::with_capacity(alloc, self.items.len())?;
        for slots in &self.items {
            items.push(slots.copy(alloc)?)?;
        }
        Ok(Entries {
            items,
            above: self.above,
        })
    }

    /// The entries that are kept, in their order.
    ///
    /// # Errors
    ///
    /// `Memory` where there is none.
    pub(crate) fn restricted(&self, alloc: Global, keep: &Set) -> Result<Entries, Memory>
        requires { length keep.now ≡ length self.now }
        ensures { IfOk result (λ r. r ≡ kept keep.now self.now) }
    {
        let mut items = Vec::new(alloc);
        for e in 0..self.items.len() {
            if keep.contains(e) {
                items.push(self.items[e].copy(alloc)?)?;
            }
        }
        Ok(Entries {
            items,
            above: self.above,
        })
    }

    /// How many entries there are.
    pub fn len(&self) -> usize
        ensures { result ≡ length self.now }
    {
        self.items.len()
    }

    /// A number above each slot.
    pub(crate) fn above(&self) -> usize
        ensures below { All (All (λ v. v < result)) self.now }
        ensures high { result ≤ 2 ^ 24 }
    {
        self.above
    }

    /// The entries in order.
    pub(crate) fn as_slice(&self) -> &[Slots]
        ensures { result.now ≡ self.now }
    {
        self.items.as_slice()
    }
}

/// The least number above each slot of a list and not below another.
fn above(slots: &[u32], least: usize) -> usize
    requires low { least ≤ 2 ^ 24 }
    requires bounded { All (λ v. v < 2 ^ 24) slots.now }
    ensures slots { All (λ v. v < result) slots.now }
    ensures least { least ≤ result }
    ensures high { result ≤ 2 ^ 24 }
{
    let mut above = least;
    for v in slots {
        above = above.max(*v as usize + 1);
    }
    above
}
