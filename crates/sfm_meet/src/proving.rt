// Whether bases of two instances prove that a common vector is a greatest one. Nothing of the search stands here.
ghost use Rattle.std.specs.{Prelude.{◌≡◌, ◌↔◌, ◌+◌, ◌++◌, ◌≤◌, ◌^◌, length, map, pos, ◌+ℤ◌, ◌*ℤ◌, ◌≤ℤ◌, IfOk, IfSome, IfNone, IsTrue}, List.{All}};
ghost use Rattle.sfm_spec.specs.{Bounds.{IsEntry}, Sets.{sum_over, whole_set}, Families.{AreBases, IsLeast, Prove, even_shift}};
ghost use Rattle.sfm_kind.specs.{Instance.{support_of}, Limits.{AreInBounds, total_size_of}};
ghost use Rattle.sfm_flip.specs.Flipped.{negated};
ghost use Rattle.sfm_meet.specs.{Both.{both_terms}, Common.{IsLeastSplit}, Meetable.{AreMeetable}, Met.{IsProvedMet}, Told.{met_of, side_terms}};

use crate::sides::{joined, sides_of};
use crate::smaller::smaller_sums;
use crate::told::{Bases, Met};
use sfm_base::{Memory, Set};
use sfm_extreme::{Certified, certify};
use sfm_kind::{Instance, Kind};
use std::alloc::Global;

/// Whether two lists of numbers are the same.
fn are_equal(a: &[i128], b: &[i128]) -> bool
    ensures { IsTrue result ↔ (a.now ≡ b.now) }
{
    a == b
}

// The least minimiser of the terms of both sums over a ground of n places, those of the right turned round, where bases of both
// sums prove their minimum; or None where they do not prove it.
fn certified(
    alloc: Global,
    left: &[Kind],
    right: &[Kind],
    n: usize,
    bases: &Bases,
) -> Result<Option<Set>, Memory>
    requires bounded_left { AreInBounds n left.now }
    requires bounded_right { AreInBounds n right.now }
    requires places { support_of left.now + support_of right.now ≤ 16384 }
    requires sizes { (total_size_of left.now +ℤ pos 2 *ℤ total_size_of right.now) ≤ℤ pos (10 ^ 18) }
    requires left { AreBases (pos 1) (side_terms left.now) bases.now.left }
    requires right { AreBases (pos 1) (side_terms right.now) bases.now.right }
    requires left_small { All (λ x. All IsEntry x) bases.now.left }
    requires right_small { All (λ x. All IsEntry x) bases.now.right }
    ensures least { IfOk result (λ r. IfSome r (IsLeast (both_terms left.now right.now) n (pos 1)
        (even_shift n (pos 0)))) }
    ensures proves { IfOk result (λ r. IfSome r (λ t. Prove (both_terms left.now right.now) n
        (pos 1) (even_shift n (pos 0)) (bases.now.left ++ map negated bases.now.right))) }
    ensures unproved { IfOk result (λ r. IfNone r (Prove (both_terms left.now right.now) n (pos 1)
        (even_shift n (pos 0)) (bases.now.left ++ map negated bases.now.right) → ⊥)) }
{
    let sides = sides_of(alloc, left, right)?;
    let rows = joined(alloc, bases)?;
    match certify(alloc, &sides, n, 0, 1, &rows)? {
        Certified::Proved(proved) => Ok(Some(proved.least)),
        Certified::NotOptimal { .. } => Ok(None),
    }
}

/// The least set at which one sum there and the other on its rest are as much as the common vector adds up to, where the bases
/// prove that no such value is less, and so that no common vector is greater; or None where they do not prove it.
///
/// # Errors
///
/// `Memory` where there is none.
pub fn proved_split(
    alloc: Global,
    left: &Instance,
    right: &Instance,
    met: &Met,
) -> Result<Option<Set>, Memory>
    requires meetable { AreMeetable left.now right.now }
    requires left { AreBases (pos 1) (side_terms left.now.terms) met.now.bases.left }
    requires right { AreBases (pos 1) (side_terms right.now.terms) met.now.bases.right }
    requires left_small { All (λ x. All IsEntry x) met.now.bases.left }
    requires right_small { All (λ x. All IsEntry x) met.now.bases.right }
    ensures proved { IfOk result (λ r. IfSome r (λ t. IsProvedMet (side_terms left.now.terms)
        (side_terms right.now.terms) (length left.now.names) (met_of met.now)
        × IsLeastSplit (side_terms left.now.terms) (side_terms right.now.terms)
        (length left.now.names) (sum_over (whole_set (length left.now.names)) met.now.common) t)) }
    ensures unproved { IfOk result (λ r. IfNone r (IsProvedMet (side_terms left.now.terms)
        (side_terms right.now.terms) (length left.now.names) (met_of met.now) → ⊥)) }
{
    let least = smaller_sums(alloc, left, right, &met.bases)?;
    if !are_equal(least.as_slice(), met.common.as_slice()) {
        return Ok(None);
    }
    let n = left.names_len();
    let lefts = left.terms();
    let rights = right.terms();
    certified(alloc, lefts, rights, n, &met.bases)
}
