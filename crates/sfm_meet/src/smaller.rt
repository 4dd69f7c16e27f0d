// The smaller of two sums of bases at each place of the ground.
ghost use Rattle.std.specs.{Prelude.{◌≡◌, ℕ, ◌<◌, length, slice_index_or, pos, IfOk}, Int.{int_min}, List.{All}};
ghost use Rattle.sfm_spec.specs.{Bounds.{IsEntry}, Families.{AreBases, base_sum_at}};
ghost use Rattle.sfm_meet.specs.Told.{side_terms};

use crate::told::Bases;
use sfm_base::{Memory, Numbers};
use sfm_exchange::sums_of;
use sfm_kind::Instance;
use std::alloc::Global;

/// The smaller of two numbers.
fn smaller(a: i128, b: i128) -> i128
    ensures { result ≡ int_min a b }
{
    a.min(b)
}

// Leaves at each place the smaller of two numbers.
fn lessen(least: &mut [i128], other: &[i128])
    requires { length other.now ≡ length least.old }
    ensures count { length least.new ≡ length least.old }
    ensures each { (e : ℕ) → e < length least.old → slice_index_or least.new e (pos 0)
        ≡ int_min (slice_index_or least.old e (pos 0)) (slice_index_or other.now e (pos 0)) }
{
    for e in 0..least.len() {
        least[e] = smaller(least[e], other[e]);
    }
}

/// The smaller of the two sums of bases, at each place of the ground that both sums are over.
pub(crate) fn smaller_sums(
    alloc: Global,
    left: &Instance,
    right: &Instance,
    bases: &Bases,
) -> Result<Numbers, Memory>
    requires same { left.now.names ≡ right.now.names }
    requires left { AreBases (pos 1) (side_terms left.now.terms) bases.now.left }
    requires right { AreBases (pos 1) (side_terms right.now.terms) bases.now.right }
    requires left_small { All (λ x. All IsEntry x) bases.now.left }
    requires right_small { All (λ x. All IsEntry x) bases.now.right }
    ensures count { IfOk result (λ r. length r ≡ length left.now.names) }
    ensures each { IfOk result (λ r. (e : ℕ) → e < length left.now.names
        → slice_index_or r e (pos 0) ≡ int_min
        (base_sum_at (side_terms left.now.terms) bases.now.left e)
        (base_sum_at (side_terms right.now.terms) bases.now.right e)) }
{
    let n = left.names_len();
    let mut least = sums_of(alloc, left.terms(), n, &bases.left)?;
    let other = sums_of(alloc, right.terms(), n, &bases.right)?;
    lessen(&mut least, &other);
    Ok(Numbers::from_vec(least))
}
