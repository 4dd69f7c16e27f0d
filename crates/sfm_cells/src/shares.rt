// Amounts on cells: the cells, which are shared, and the amount on each.
ghost use Rattle.std.specs.{Prelude.{◌≡◌, ◌*ℤ◌, map, IfOk}, List.{All}};
ghost use Rattle.sfm_cells.specs.Splits.{IsAmount};

use crate::multiples::list_times;
use crate::shared::SharedCells;
use sfm_base::Memory;
use std::alloc::Global;

/// The cells of demands, and the amount on each.
#[derive(Drop)]
pub struct Shares {
    pub cells: SharedCells,
    pub y: Vec<i128>,
}

impl Shares {
    /// A copy.
    ///
    /// # Errors
    ///
    /// `Memory` where there is none.
    pub fn copy(&self, alloc: Global) -> Result<Shares, Memory>
        ensures whos { IfOk result (λ r. r.cells.whos.items ≡ self.now.cells.whos.items) }
        ensures slots { IfOk result (λ r. r.cells.slots.items ≡ self.now.cells.slots.items) }
        ensures amounts { IfOk result (λ r. r.y.items ≡ self.now.y.items) }
    {
        Ok(Shares {
            cells: self.cells.share()?,
            y: Vec::from_slice(alloc, &self.y)?,
        })
    }

    /// The same cells, with m times the amount on each.
    ///
    /// # Errors
    ///
    /// `Memory` where there is none.
    pub fn times(&self, alloc: Global, m: i128) -> Result<Shares, Memory>
        requires { All IsAmount (map (λ a. m *ℤ a) self.now.y.items) }
        ensures whos { IfOk result (λ r. r.cells.whos.items ≡ self.now.cells.whos.items) }
        ensures slots { IfOk result (λ r. r.cells.slots.items ≡ self.now.cells.slots.items) }
        ensures amounts { IfOk result (λ r. r.y.items ≡ map (λ a. m *ℤ a) self.now.y.items) }
    {
        Ok(Shares {
            cells: self.cells.share()?,
            y: list_times(alloc, m, &self.y)?,
        })
    }
}
