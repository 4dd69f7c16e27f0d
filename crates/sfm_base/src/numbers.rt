// Lists of whole numbers that keep their length, as the weights of a term or one row of a base.
ghost use Rattle.std.specs.{Prelude.{◌≡◌, List, ℤ, length, IfOk}, Borrow.{sem}};
ghost use Rattle.sfm_base.specs.Lending.{LendsNumbers};

use crate::Memory;
use std::alloc::Global;
use std::marker::Model;

/// Whole numbers, seen as a list of them.
#[derive(Drop)]
pub struct Numbers {
    items: Vec<i128>,
}

impl Model for Numbers {
    ghost use Rattle.std.specs.Prelude.{List, ℤ};

    ghost Value = { List ℤ };

    ghost view = { λ s. s.items.items };
}

impl Numbers {
    /// A copy of the numbers.
    ///
    /// # Errors
    ///
    /// `Memory` where there is none.
    pub fn from_slice(alloc: Global, numbers: &[i128]) -> Result<Numbers, Memory>
        ensures { IfOk result (λ r. r ≡ numbers.now) }
    {
        let items = Vec::from_slice(alloc, numbers)?;
        Ok(Numbers { items })
    }

    /// The numbers of a vector, which is taken over.
    pub fn from_vec(items: Vec<i128>) -> Numbers
        ensures { result ≡ items.items }
    {
        Numbers { items }
    }

    /// The vector of the numbers.
    pub fn into_vec(self) -> Vec<i128>
        ensures { result.items ≡ self }
    {
        self.items
    }

    /// The numbers.
    pub fn as_slice(&self) -> &[i128]
        ensures { result.now ≡ self.now }
    {
        self.items.as_slice()
    }

    /// The numbers, to be written.
    pub fn as_mut_slice(&mut self) -> &mut [i128]
        ensures* writes_back { sem 𝓛 (LendsNumbers self.entry result) }
        ensures value { result.now ≡ self.old }
    {
        self.items.as_mut_slice()
    }

    /// How many numbers there are.
    pub fn len(&self) -> usize
        ensures { result ≡ length self.now }
    {
        self.items.len()
    }
}
