// z at each place of the ground: the sum of the rows there, less the shift. Each row is added to the places of its term
// in turn, so each entry is read once. At most 16,384 entries of at most 10^30 come to a place with a shift of at most
// 10^36, so no sum leaves 128 bits.
ghost use Rattle.std.specs.{Prelude.{◌≡◌, ℕ, ◌<◌, ◌≤◌, ◌*◌, ◌^◌, ℤ, length, map, sum, slice_index_or, pos, neg_ℤ, ◌+ℤ◌, ◌≤ℤ◌, IfOk}, List.{All}};
ghost use Rattle.sfm_spec.specs.{Sets.{IsPlaced, magnitudes}, Bounds.{IsAtMost, IsEntry}, Families.{meanings, entry_at, rest_at}, Walks.{base_at, term_at}};
ghost use Rattle.sfm_law.specs.Rest.{IsRest};

use crate::term::Term;
use sfm_base::{Memory, Rows};
use std::alloc::Global;

/// z at each place, for as many places as there are shifts.
///
/// Err: want of memory.
pub fn rest_of<T: Term>(
    alloc: Global,
    terms: &[T],
    shift: &[i128],
    bases: &Rows,
) -> Result<Vec<i128>, Memory>
    requires placed { All (IsPlaced (length shift.now)) (map T.places terms.now) }
    requires few { sum (map length (map T.places terms.now)) ≤ 16384 }
    requires rows { length bases.now ≡ length terms.now }
    requires entries { (i : ℕ) → i < length terms.now → length (base_at bases.now i)
        ≡ length (term_at (meanings T.places T.value_of terms.now) i).places }
    requires small { All (λ x. All IsEntry x) bases.now }
    requires shifts { magnitudes shift.now ≤ℤ pos (10 ^ 36) }
    ensures { IfOk result (λ z. IsRest (meanings T.places T.value_of terms.now) shift.now bases.now
        z.items) }
{
    let mut z = negated(alloc, shift)?;
    for (i, term) in terms.iter().enumerate() {
        add_row(term.elements(), bases.row(i), &mut z);
    }
    Ok(z)
}

/// The numbers with their signs turned.
fn negated(alloc: Global, numbers: &[i128]) -> Result<Vec<i128>, Memory>
    requires { magnitudes numbers.now ≤ℤ pos (10 ^ 36) }
    ensures { IfOk result (λ z. z.items ≡ map neg_ℤ numbers.now) }
{
    let mut z = Vec::with_capacity(alloc, numbers.len())?;
    for a in numbers {
        z.push(-*a)?;
    }
    Ok(z)
}

/// Adds each entry of a term's row at its place.
fn add_row(places: &[usize], row: &[i128], z: &mut [i128])
    requires placed { IsPlaced (length z.old) places.now }
    requires few { length places.now ≤ 16384 }
    requires entries { length row.now ≡ length places.now }
    requires small { All IsEntry row.now }
    requires room { All (IsAtMost (2 * 10 ^ 36)) z.old }
    ensures { (e : ℕ) → e < length z.old → slice_index_or z.new e (pos 0)
        ≡ slice_index_or z.old e (pos 0) +ℤ entry_at places.now row.now e }
{
    for (j, place) in places.iter().enumerate() {
        z[*place] += row[j];
    }
}
