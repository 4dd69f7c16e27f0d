// Lists of places of the ground that do not change once made, as the elements of a term.
ghost use Rattle.std.specs.Prelude.{◌≡◌, ℕ, List, length, IfOk};

use crate::Memory;
use std::alloc::Global;
use std::marker::Model;

/// Places of the ground, seen as a list of numbers.
#[derive(Drop)]
pub struct Places {
    items: Vec<usize>,
}

impl Model for Places {
    ghost Value = { List ℕ };

    ghost view = { λ s. s.items.items };
}

impl Places {
    /// A copy of the places.
    ///
    /// # Errors
    ///
    /// `Memory` where there is none.
    pub fn from_slice(alloc: Global, places: &[usize]) -> Result<Places, Memory>
        ensures { IfOk result (λ r. r ≡ places.now) }
    {
        let items = Vec::from_slice(alloc, places)?;
        Ok(Places { items })
    }

    /// The places.
    pub fn as_slice(&self) -> &[usize]
        ensures { result.now ≡ self.now }
    {
        self.items.as_slice()
    }

    /// How many places there are.
    pub fn len(&self) -> usize
        ensures { result ≡ length self.now }
    {
        self.items.len()
    }
}
