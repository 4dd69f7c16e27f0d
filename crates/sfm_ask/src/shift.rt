// The shift that stands for pins. An element that must be in is shifted by the penalty, one that must be out by its negative, so
// a set that breaks no pin pays nothing, and any other pays the penalty at least once.
ghost use Rattle.std.specs.Prelude.{◌≡◌, ◌<◌, ◌^◌, length, slice_index_or, false, IfOk, pos, ◌≤ℤ◌};
ghost use Rattle.sfm_spec.specs.Bounds.{IsAtMost};
ghost use Rattle.sfm_ask.specs.Shifts.{shift_for, shift_of_pins};

use sfm_side::Pins;
use std::alloc::{AllocError, Global};

/// The shift of the element e.
fn shift_at(pins: &Pins, penalty: i128, e: usize) -> i128
    requires inside { e < length pins.now.inside }
    requires outside { e < length pins.now.outside }
    requires small { IsAtMost (10 ^ 20) penalty }
    ensures { result ≡ shift_for penalty (slice_index_or pins.now.inside e false)
        (slice_index_or pins.now.outside e false) }
{
    let mut shift = 0;
    if pins.inside.contains(e) {
        shift += penalty;
    }
    if pins.outside.contains(e) {
        shift -= penalty;
    }
    shift
}

/// Writes the shift of each element.
fn write_shift(shift: &mut [i128], pins: &Pins, penalty: i128)
    requires inside { length pins.now.inside ≡ length shift.old }
    requires outside { length pins.now.outside ≡ length shift.old }
    requires small { IsAtMost (10 ^ 20) penalty }
    ensures { shift.new ≡ shift_of_pins penalty pins.now.inside pins.now.outside }
{
    for e in 0..shift.len() {
        shift[e] = shift_at(pins, penalty, e);
    }
}

/// A list of the shift of each element.
///
/// # Errors
///
/// `AllocError` where there is no memory.
pub fn pin_shift(alloc: Global, pins: &Pins, penalty: i128) -> Result<Vec<i128>, AllocError>
    requires both { length pins.now.outside ≡ length pins.now.inside }
    requires small { IsAtMost (10 ^ 20) penalty }
    ensures { IfOk result (λ r. r.items ≡ shift_of_pins penalty pins.now.inside
        pins.now.outside) }
{
    let mut shift = vec![in alloc; 0i128; pins.inside.len()]?;
    write_shift(&mut shift, pins, penalty);
    Ok(shift)
}
