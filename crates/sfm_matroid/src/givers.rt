// Who can give something to a place u at a base. A place can if it is another one that has something, u has less than any may
// have, and it can lend to u in the test that tells what u may get. One search in that test tells this of all places at once:
// those that lend are others that ask for something, and what they ask for is what they have.
ghost use Rattle.std.specs.Prelude.{◌≡◌, ◌<◌, length, OnOk};
ghost use Rattle.sfm_matroid.specs.Givers.{IsRowIn};

use sfm_assign::Kept;
use sfm_base::{Memory, Set};
use std::alloc::Global;

/// Writes the places other than u that have something and can lend to u where the entries are split, if u has less than a
/// number; none otherwise.
///
/// # Errors
///
/// `Memory` where there is none.
pub fn row(
    alloc: Global,
    kept: &mut Kept,
    x: &[i128],
    cap: i128,
    u: usize,
    to: &mut Set,
) -> Result<(), Memory>
    requires entries { kept.old.demand.demands ≡ x.now }
    requires place { u < length x.now }
    requires sized { length to.old ≡ length x.now }
    ensures places { length to.new ≡ length x.now }
    ensures row { OnOk result (IsRowIn kept.old.demand cap u to.new) }
    ensures same { kept.new.demand ≡ kept.old.demand }
{
    if x[u] >= cap {
        to.clear();
        return Ok(());
    }
    kept.reach(alloc, u, to)?;
    Ok(())
}
