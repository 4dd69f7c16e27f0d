// One demand raised as far as it goes, up to a limit, while all others stay met: it alone lacks something, and amounts are raised
// until it can get no more.
ghost use Rattle.std.specs.Prelude.{IfOk};
ghost use Rattle.sfm_cells.specs.Splits.{Demands};
ghost use Rattle.sfm_split.specs.Grown.{MayGrow, IsGrown};

use crate::fill::fill_from;
use crate::work::Work;
use sfm_base::Memory;
use sfm_cells::Cells;
use std::alloc::Global;

/// Raises the demand u by as much as can be met with all others, up to a limit, and tells by how much. The demands are met by the
/// amounts in the memory, so that none lacks anything.
///
/// # Errors
///
/// `Memory` where there is none.
pub fn raise_most(
    alloc: Global,
    cells: &Cells,
    work: &mut Work,
    u: usize,
    limit: i128,
) -> Result<i128, Memory>
    requires { (d : Demands) × MayGrow d cells.now.whos.items cells.now.slots.items work.old.y.items
        work.old.left.lacks.items work.old.left.rooms.items u limit }
    ensures { IfOk result (λ more. (d : Demands) → MayGrow d cells.now.whos.items
        cells.now.slots.items work.old.y.items work.old.left.lacks.items work.old.left.rooms.items u
        limit
        → IsGrown d cells.now.whos.items cells.now.slots.items work.new.y.items
        work.new.left.rooms.items u limit more) }
{
    work.left.lacks[u] = limit;
    work.left.lacking.clear();
    work.left.lacking.push(u)?;
    let search = fill_from(alloc, cells, &mut work.rest, &mut work.left, &mut work.y)?;
    work.rest.keep(search);
    let more = limit - work.left.lacks[u];
    Ok(more)
}
