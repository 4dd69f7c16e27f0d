// What the bases of a graph add up to at each place of the ground, which is kept beside them. An exchange changes it at two places,
// and it is multiplied with the bases. So z at any shift is told without a look at the bases.
ghost use Rattle.std.specs.{Prelude.{◌≡◌, ◌≢◌, ◌<◌, ◌^◌, ℤ, length, map, pos, ◌*ℤ◌, ◌≤ℤ◌, IfOk}, List.{All}};
ghost use Rattle.sfm_spec.specs.{Bounds.{AreBounded, IsAtMost, IsEntry}, Families.{meanings, AreBases}, Terms.{exchanged}};
ghost use Rattle.sfm_exchange.specs.Sums.{AreSums};

use sfm_base::{Memory, Rows};
use sfm_law::{Term, rest_of};
use std::alloc::Global;

/// The sum of the bases at each of n places.
///
/// # Errors
///
/// `Memory` where there is none.
pub fn sums_of<T: Term>(
    alloc: Global,
    terms: &[T],
    n: usize,
    bases: &Rows,
) -> Result<Vec<i128>, Memory>
    requires bounded { AreBounded n (map T.places terms.now) (map T.size_of terms.now) }
    requires bases { (q : ℤ) × AreBases q (meanings T.places T.value_of terms.now) bases.now }
    requires small { All (λ x. All IsEntry x) bases.now }
    ensures { IfOk result (λ z. AreSums (meanings T.places T.value_of terms.now) n bases.now
        z.items) }
{
    let nothing = vec![in alloc; 0i128; n]?;
    rest_of(alloc, terms, &nothing, bases)
}

/// Brings sums up to an exchange, by the places of the ground that it raises and lowers.
pub(crate) fn move_sums(sums: &mut [i128], u: usize, v: usize, a: i128)
    requires apart { u ≢ v }
    requires from { u < length sums.old }
    requires onto { v < length sums.old }
    requires small { All (IsAtMost (10 ^ 35)) sums.old }
    requires low { pos 0 ≤ℤ a }
    requires high { a ≤ℤ pos (10 ^ 30) }
    ensures { sums.new ≡ exchanged sums.old u v a }
{
    sums[u] += a;
    sums[v] -= a;
}

/// Each sum multiplied.
pub(crate) fn multiply(alloc: Global, m: i128, sums: &[i128]) -> Result<Vec<i128>, Memory>
    requires small { All (λ a. IsAtMost (10 ^ 35) (m *ℤ a)) sums.now }
    ensures { IfOk result (λ r. r.items ≡ map (λ a. m *ℤ a) sums.now) }
{
    let mut all = Vec::with_capacity(alloc, sums.len())?;
    for a in sums {
        all.push(m * *a)?;
    }
    Ok(all)
}
