// Amounts that are so many times others.
ghost use Rattle.std.specs.{Prelude.{◌≡◌, ◌*ℤ◌, length, map, IfOk}, List.{All}};
ghost use Rattle.sfm_cells.specs.Splits.{IsAmount};

use sfm_base::Memory;
use std::alloc::Global;

/// Multiplies each number by m.
fn scale(m: i128, numbers: &mut [i128])
    requires { All IsAmount (map (λ a. m *ℤ a) numbers.old) }
    ensures { numbers.new ≡ map (λ a. m *ℤ a) numbers.old }
{
    for i in 0..numbers.len() {
        numbers[i] = m * numbers[i];
    }
}

/// Each number times m.
pub(crate) fn list_times(alloc: Global, m: i128, numbers: &[i128]) -> Result<Vec<i128>, Memory>
    requires { All IsAmount (map (λ a. m *ℤ a) numbers.now) }
    ensures { IfOk result (λ r. r.items ≡ map (λ a. m *ℤ a) numbers.now) }
{
    let mut multiples = Vec::from_slice(alloc, numbers)?;
    scale(m, &mut multiples);
    Ok(multiples)
}

/// Writes each number times m over a list that is as long.
pub fn copy_times(m: i128, numbers: &[i128], to: &mut [i128])
    requires places { length to.old ≡ length numbers.now }
    requires amounts { All IsAmount (map (λ a. m *ℤ a) numbers.now) }
    ensures { to.new ≡ map (λ a. m *ℤ a) numbers.now }
{
    to.copy_from_slice(numbers);
    scale(m, to);
}
