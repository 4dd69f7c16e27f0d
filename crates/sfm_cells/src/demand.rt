// Demands in the order in which they come, each with the list of the slots that it may use, and the capacities of the slots.
ghost use Rattle.std.specs.{Prelude.{◌≡◌, ◌<◌, ◌≤◌, ◌^◌, [], ◌∷◌, ◌++◌, length, map, is_ok, slice_set, ◌+ℤ◌, ◌*ℤ◌, IfOk, if◌then◌else◌}, List.{All}};
ghost use Rattle.sfm_cells.specs.Splits.{amount_at, IsAmount, IsCapacity, AreDemands};

use crate::multiples::{copy_times, list_times};
use sfm_base::{Lists, Memory};
use std::alloc::Global;
use std::marker::Model;

/// Puts a list at the end; false where there is no memory for it.
fn put_list(lists: &mut Lists, slots: &[usize]) -> bool
    ensures { lists.new ≡ (if result then lists.old ++ slots.now ∷ [] else lists.old) }
{
    lists.push(slots).is_ok()
}

/// Demands, the slots that each may use, and what each slot holds at most. A slot may stand more than once in a list.
pub struct Demand {
    demands: Vec<i128>,
    lists: Lists,
    capacities: Vec<i128>,
}

// Written out, so that letting one go is one step, which is proved here once.
impl Drop for Demand {
    fn drop(self) {
        let Self {
            demands: _,
            lists: _,
            capacities: _,
        } = self;
    }
}

impl Model for Demand {
    ghost use Rattle.sfm_cells.specs.Splits.{Demands, AreDemands};

    ghost Value = { Demands };

    ghost view = { λ s. record {
      demands = s.demands.items;
      lists = s.lists;
      capacities = s.capacities.items;
    } };

    ghost invariant = { λ s. AreDemands (record {
      demands = s.demands.items;
      lists = s.lists;
      capacities = s.capacities.items;
    }) };
}

impl Demand {
    /// No demands, over slots with these capacities, which are copied.
    ///
    /// # Errors
    ///
    /// `Memory` where there is none.
    pub fn new(alloc: Global, capacities: &[i128]) -> Result<Demand, Memory>
        requires few { length capacities.now ≤ 2 ^ 24 }
        requires bounded { All IsCapacity capacities.now }
        ensures { IfOk result (λ r. r ≡ record {
          demands = [];
          lists = [];
          capacities = capacities.now;
        }) }
    {
        Demand::with_room(alloc, capacities, 0, 0)
    }

    /// The same with room for so many demands, whose lists have so many slots in all.
    ///
    /// # Errors
    ///
    /// `Memory` where there is none.
    pub fn with_room(
        alloc: Global,
        capacities: &[i128],
        demands: usize,
        slots: usize,
    ) -> Result<Demand, Memory>
        requires few { length capacities.now ≤ 2 ^ 24 }
        requires bounded { All IsCapacity capacities.now }
        ensures { IfOk result (λ r. r ≡ record {
          demands = [];
          lists = [];
          capacities = capacities.now;
        }) }
    {
        Ok(Demand {
            demands: Vec::with_capacity(alloc, demands)?,
            lists: Lists::with_room(alloc, demands, slots)?,
            capacities: Vec::from_slice(alloc, capacities)?,
        })
    }

    /// Puts a demand at the end, with the slots that it may use, which are copied.
    ///
    /// # Errors
    ///
    /// `Memory` where there is none; the demands are then as they were.
    pub fn push(&mut self, d: i128, slots: &[usize]) -> Result<(), Memory>
        requires few { length self.old.demands < 256 }
        requires amount { IsAmount d }
        requires exist { All (λ s. s < length self.old.capacities) slots.now }
        ensures { self.new ≡ (if is_ok result then record {
          demands = self.old.demands ++ d ∷ [];
          lists = self.old.lists ++ slots.now ∷ [];
          capacities = self.old.capacities;
        } else self.old) }
    {
        self.demands.push(d)?;
        if put_list(&mut self.lists, slots) {
            return Ok(());
        }
        self.demands.pop();
        Err(Memory)
    }

    /// A copy.
    ///
    /// # Errors
    ///
    /// `Memory` where there is none.
    pub fn copy(&self, alloc: Global) -> Result<Demand, Memory>
        ensures { IfOk result (λ r. r ≡ self.now) }
    {
        Ok(Demand {
            demands: Vec::from_slice(alloc, &self.demands)?,
            lists: self.lists.copy(alloc)?,
            capacities: Vec::from_slice(alloc, &self.capacities)?,
        })
    }

    /// Demands that are m times these over the same lists, with capacities that are m times these.
    ///
    /// # Errors
    ///
    /// `Memory` where there is none.
    pub fn times(&self, alloc: Global, m: i128) -> Result<Demand, Memory>
        requires amounts { All IsAmount (map (λ a. m *ℤ a) self.now.demands) }
        requires bounded { All IsCapacity (map (λ a. m *ℤ a) self.now.capacities) }
        ensures { IfOk result (λ r. r ≡ record {
          demands = map (λ a. m *ℤ a) self.now.demands;
          lists = self.now.lists;
          capacities = map (λ a. m *ℤ a) self.now.capacities;
        }) }
    {
        Ok(Demand {
            demands: list_times(alloc, m, &self.demands)?,
            lists: self.lists.copy(alloc)?,
            capacities: list_times(alloc, m, &self.capacities)?,
        })
    }

    /// Writes demands that are m times those of another, and capacities that are m times its capacities, in place of these, over the
    /// same lists.
    pub fn copy_times(&mut self, m: i128, from: &Demand)
        requires places { length self.old.demands ≡ length from.now.demands }
        requires slots { length self.old.capacities ≡ length from.now.capacities }
        requires amounts { All IsAmount (map (λ a. m *ℤ a) from.now.demands) }
        requires bounded { All IsCapacity (map (λ a. m *ℤ a) from.now.capacities) }
        ensures { self.new ≡ record {
          demands = map (λ a. m *ℤ a) from.now.demands;
          lists = self.old.lists;
          capacities = map (λ a. m *ℤ a) from.now.capacities;
        } }
    {
        copy_times(m, &from.demands, &mut self.demands);
        copy_times(m, &from.capacities, &mut self.capacities);
    }

    /// Writes other demands and other capacities in place of these, over the same lists.
    pub fn copy_from(&mut self, demands: &[i128], capacities: &[i128])
        requires places { length demands.now ≡ length self.old.demands }
        requires slots { length capacities.now ≡ length self.old.capacities }
        requires amounts { All IsAmount demands.now }
        requires bounded { All IsCapacity capacities.now }
        ensures { self.new ≡ record {
          demands = demands.now;
          lists = self.old.lists;
          capacities = capacities.now;
        } }
    {
        self.demands.copy_from_slice(demands);
        self.capacities.copy_from_slice(capacities);
    }

    /// Adds to the demand u.
    pub fn raise(&mut self, u: usize, a: i128)
        requires place { u < length self.old.demands }
        requires amount { IsAmount (amount_at self.old.demands u +ℤ a) }
        ensures { self.new ≡ record {
          demands = slice_set self.old.demands u
              (amount_at self.old.demands u +ℤ a);
          lists = self.old.lists;
          capacities = self.old.capacities;
        } }
    {
        self.demands[u] += a;
    }

    /// The demands in order.
    pub fn demands(&self) -> &[i128]
        ensures value { result.now ≡ self.now.demands }
        ensures sound { AreDemands self.now }
    {
        self.demands.as_slice()
    }

    /// The lists in order.
    pub fn lists(&self) -> &Lists
        ensures value { result.now ≡ self.now.lists }
        ensures sound { AreDemands self.now }
    {
        &self.lists
    }

    /// The capacities of the slots.
    pub fn capacities(&self) -> &[i128]
        ensures { result.now ≡ self.now.capacities }
    {
        self.capacities.as_slice()
    }
}
