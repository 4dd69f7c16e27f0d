// The items of a list whose places are kept, as a list of its own.
ghost use Rattle.std.specs.Prelude.{◌≡◌, length, IfOk};
ghost use Rattle.sfm_layers.specs.Kept.{kept};

use sfm_base::{Memory, Set};
use std::alloc::Global;

/// The items whose places are kept, in order.
///
/// # Errors
///
/// `Memory` where there is none.
pub fn kept_of<X: Copy>(alloc: Global, keep: &Set, items: &[X]) -> Result<Vec<X>, Memory>
    requires { length keep.now ≡ length items.now }
    ensures { IfOk result (λ r. r.items ≡ kept keep.now items.now) }
{
    let mut list = Vec::new(alloc);
    for j in 0..keep.len() {
        if keep.contains(j) {
            list.push(items[j])?;
        }
    }
    Ok(list)
}
