// The values of parts, told by their numbers, place j counting 2^j.
ghost use Rattle.std.specs.Prelude.{◌≡◌, length, IfOk};

use sfm_base::{Memory, Set};
use sfm_law::Term;
use std::alloc::Global;

/// What stands for a value that a part has not, since it is not allowed, and for a room without a bound.
pub const NO: i128 = i128::MAX;

/// The part of k places with a number.
///
/// # Errors
///
/// `Memory` where there is none.
pub fn part(alloc: Global, k: usize, number: usize) -> Result<Set, Memory>
    ensures { IfOk result (λ s. length s ≡ k) }
{
    let mut s = Set::empty(alloc, k)?;
    let mut rest = number;
    for e in 0..k {
        if rest % 2 == 1 {
            s.insert(e);
        }
        rest /= 2;
    }
    Ok(s)
}

/// The value of a part by its number.
///
/// # Errors
///
/// `Memory` where there is none.
pub fn value_at<T: Term>(alloc: Global, term: &T, number: usize) -> Result<i128, Memory> {
    let s = part(alloc, term.elements().len(), number)?;
    Ok(term.value(alloc, &s)?.unwrap_or(NO))
}

/// Whether these are the values of the parts, by their numbers.
pub fn has_values<T: Term>(alloc: Global, term: &T, values: &[i128]) -> bool {
    for number in 0..values.len() {
        if value_at(alloc, term, number) != Ok(values[number]) {
            return false;
        }
    }
    true
}
