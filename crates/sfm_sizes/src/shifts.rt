// Shifts by sizes: at a slope p/q each element takes p times its size from the value of a set. With p of magnitude at most 10^30
// no number exceeds 10^36, nor do all magnitudes together.
ghost use Rattle.std.specs.Prelude.{◌≡◌, ◌≤◌, ◌^◌, length, IfOk};
ghost use Rattle.sfm_spec.specs.{Bounds.{IsAtMost}, Families.{sized_shift}, Laws.{ones}};
ghost use Rattle.sfm_sizes.specs.Sizes.{AreElementSizes};

use std::alloc::{AllocError, Global};

/// Writes p times the size of each element.
pub fn write_sized(shift: &mut [i128], sizes: &[i128], p: i128)
    requires sizes { AreElementSizes (length shift.old) sizes.now }
    requires small { IsAtMost (10 ^ 30) p }
    ensures { shift.new ≡ sized_shift sizes.now p }
{
    for (e, to) in shift.iter_mut().enumerate() {
        *to = p * sizes[e];
    }
}

/// A list of p times the size of each element.
///
/// # Errors
///
/// `AllocError` where there is no memory.
pub fn shift_by(alloc: Global, sizes: &[i128], p: i128) -> Result<Vec<i128>, AllocError>
    requires sizes { AreElementSizes (length sizes.now) sizes.now }
    requires small { IsAtMost (10 ^ 30) p }
    ensures { IfOk result (λ r. r.items ≡ sized_shift sizes.now p) }
{
    let mut shift = vec![in alloc; 0i128; sizes.len()]?;
    write_sized(&mut shift, sizes, p);
    Ok(shift)
}

/// The sizes of n elements that count one each.
///
/// # Errors
///
/// `AllocError` where there is no memory.
pub fn ones(alloc: Global, n: usize) -> Result<Vec<i128>, AllocError>
    requires few { n ≤ 256 }
    ensures ones { IfOk result (λ r. r.items ≡ ones n) }
    ensures sizes { IfOk result (λ r. AreElementSizes n r.items) }
{
    let sizes = vec![in alloc; 1; n]?;
    Ok(sizes)
}
