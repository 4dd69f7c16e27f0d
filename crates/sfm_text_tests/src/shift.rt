// Minima at a shift for each element, worked out by hand: the bases that prove them are forced.
use sfm_base::Memory;
use sfm_simple::{Cover, Weight};
use sfm_walk::{Optimum, minimise_at};
use std::alloc::Global;

/// 3 where a set is not empty, less 1 and 2: no set is below 0, so z is 0 at both places.
fn at_small_shifts(alloc: Global) -> Result<Optimum, Memory> {
    let terms = [Cover::new(alloc, 3, &[0, 1])?];
    minimise_at(alloc, &terms, 2, 1, &[1, 2])
}

/// Twice some weights, less a shift whose magnitudes add to 10^27, nearly all at one place.
fn at_a_large_shift(alloc: Global) -> Result<Optimum, Memory> {
    let terms = [Weight::new(alloc, &[0, 1, 2], &[1, 1, -2])?];
    let shift = [999_999_999_999_999_999_999_999_993, -5, -2];
    minimise_at(alloc, &terms, 3, 2, &shift)
}

/// Whether there is a minimum with that base of the one term, and that z; no where memory lacks.
fn is_proved_by(found: Result<Optimum, Memory>, base: &[i128], z: &[i128]) -> bool {
    match found {
        Ok(optimum) => {
            optimum.bases.len() == 1 && optimum.bases.row(0) == base && optimum.z.as_slice() == z
        }
        Err(_) => false,
    }
}

/// Whether the minima are those that were worked out.
fn are_proved(alloc: Global) -> bool {
    is_proved_by(at_small_shifts(alloc), &[1, 2], &[0, 0])
        && is_proved_by(
            at_a_large_shift(alloc),
            &[2, 2, -4],
            &[-999_999_999_999_999_999_999_999_991, 7, -2],
        )
}

#[test]
fn minima_at_shifts_are_those_worked_out(rt: HostRuntime) {
    assert!(rt; are_proved(rt.alloc()));
}
