// Cells that several splits over the same lists share: nothing is changed in them once they are made, so a copy of a split takes
// these over as they are, and copies its amounts alone.
ghost use Rattle.std.specs.Prelude.{◌≡◌, IfOk};

use crate::cells::Cells;
use sfm_base::Memory;
use std::alloc::Global;
use std::marker::Model;
use std::rc::Rc;

/// Cells with several owners, seen as the cells.
#[derive(Drop)]
pub struct SharedCells {
    cells: Rc<Cells>,
}

impl Model for SharedCells {
    ghost use Rattle.sfm_cells.specs.declared.cells.Cells.{Cells};

    ghost Value = { Cells };

    ghost view = { λ s. s.cells.value };
}

impl SharedCells {
    /// Takes cells over.
    ///
    /// # Errors
    ///
    /// `Memory` where there is none.
    pub fn new(alloc: Global, cells: Cells) -> Result<SharedCells, Memory>
        ensures { IfOk result (λ r. r ≡ cells) }
    {
        let Ok(cells) = Rc::new(alloc, cells) else {
            return Err(Memory);
        };
        Ok(SharedCells { cells })
    }

    /// One owner more.
    pub(crate) fn share(&self) -> Result<SharedCells, Memory>
        ensures { IfOk result (λ r. r ≡ self.now) }
    {
        let cells = self.cells.clone()?;
        Ok(SharedCells { cells })
    }

    /// The cells.
    #[inline(always)]
    pub fn all(&self) -> &Cells
        ensures { result.now ≡ self.now }
    {
        self.cells.as_ref()
    }
}
