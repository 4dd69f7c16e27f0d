// z, by what bases add up to, and at the two ends of a walk: how much it allows to be moved, and z brought up once that has moved.
ghost use Rattle.std.specs.{Prelude.{◌≡◌, ◌≢◌, ◌<ℤ◌, ℕ, ◌<◌, ◌*◌, ◌^◌, ℤ, length, slice_index_or, pos, neg_ℤ, ◌-ℤ◌, ◌≤ℤ◌, IfOk}, List.{All}};
ghost use Rattle.sfm_spec.specs.{Sets.{magnitudes}, Bounds.{IsAtMost}, Terms.{exchanged}};

use sfm_base::Memory;
use std::alloc::Global;

/// z at each place: what bases add up to there, less the shift.
///
/// # Errors
///
/// `Memory` where there is none.
pub fn rest_from(alloc: Global, sums: &[i128], shift: &[i128]) -> Result<Vec<i128>, Memory>
    requires same { length sums.now ≡ length shift.now }
    requires small { All (IsAtMost (10 ^ 35)) sums.now }
    requires shifts { magnitudes shift.now ≤ℤ pos (10 ^ 36) }
    ensures places { IfOk result (λ z. length z.items ≡ length shift.now) }
    ensures exact { IfOk result (λ z. (e : ℕ) → e < length shift.now
        → slice_index_or z.items e (pos 0)
        ≡ (slice_index_or sums.now e (pos 0) -ℤ slice_index_or shift.now e (pos 0))) }
{
    let mut z = Vec::with_capacity(alloc, shift.len())?;
    for e in 0..shift.len() {
        z.push(sums[e] - shift[e])?;
    }
    Ok(z)
}

/// The most that the ends of a walk allow.
pub fn most_of(z: &[i128], first: usize, last: usize) -> i128
    requires first { first < length z.now }
    requires last { last < length z.now }
    requires under { slice_index_or z.now first (pos 0) <ℤ pos 0 }
    requires over { pos 0 <ℤ slice_index_or z.now last (pos 0) }
    requires small { All (IsAtMost (2 * 10 ^ 36)) z.now }
    ensures some { pos 1 ≤ℤ result }
    ensures under { result ≤ℤ neg_ℤ (slice_index_or z.now first (pos 0)) }
    ensures over { result ≤ℤ slice_index_or z.now last (pos 0) }
    ensures greatest { (b : ℤ) → b ≤ℤ neg_ℤ (slice_index_or z.now first (pos 0))
        → b ≤ℤ slice_index_or z.now last (pos 0) → b ≤ℤ result }
{
    z[last].min(-z[first])
}

/// Brings z up at the ends of a walk.
pub fn move_rest(z: &mut [i128], first: usize, last: usize, a: i128)
    requires first { first < length z.old }
    requires last { last < length z.old }
    requires apart { first ≢ last }
    requires low { pos 0 ≤ℤ a }
    requires under { a ≤ℤ neg_ℤ (slice_index_or z.old first (pos 0)) }
    requires over { a ≤ℤ slice_index_or z.old last (pos 0) }
    ensures { z.new ≡ exchanged z.old first last a }
{
    z[first] += a;
    z[last] -= a;
}
