// A greatest common vector of two instances, found by the minimum of one sum.
ghost use Rattle.std.specs.{Prelude.{◌+◌, ◌≤◌, ◌^◌, length, pos, ◌+ℤ◌, ◌*ℤ◌, ◌≤ℤ◌, IfOk}, List.{All}};
ghost use Rattle.sfm_spec.specs.{Bounds.{IsAtMost, IsEntry}, Families.{AreBases, IsLeast, Prove, even_shift}};
ghost use Rattle.sfm_kind.specs.{Instance.{support_of}, Limits.{AreInBounds, total_size_of}};
ghost use Rattle.sfm_meet.specs.{Both.{both_terms}, Common.{IsGreatestCommon}, Meetable.{AreMeetable}, Met.{IsTrueMet}, Told.{met_of, side_terms}};

use crate::lowest::{Minimum, lowest};
use crate::sides::{apart, sides_of};
use crate::smaller::smaller_sums;
use crate::told::Met;
use sfm_base::Memory;
use sfm_kind::{Instance, Kind};
use sfm_law::sum_of;
use std::alloc::Global;

// Bases of the terms of both sums over a ground of n places, those of the right turned round, that prove their minimum, with the
// least minimiser.
fn minimum_of(alloc: Global, left: &[Kind], right: &[Kind], n: usize) -> Result<Minimum, Memory>
    requires left { AreInBounds n left.now }
    requires right { AreInBounds n right.now }
    requires places { support_of left.now + support_of right.now ≤ 16384 }
    requires sizes { (total_size_of left.now +ℤ pos 2 *ℤ total_size_of right.now) ≤ℤ pos (10 ^ 18) }
    ensures bases { IfOk result (λ r. AreBases (pos 1) (both_terms left.now right.now) r.bases) }
    ensures small { IfOk result (λ r. All (λ x. All (IsAtMost (10 ^ 25)) x) r.bases) }
    ensures least { IfOk result (λ r. IsLeast (both_terms left.now right.now) n (pos 1)
        (even_shift n (pos 0)) r.members) }
    ensures proves { IfOk result (λ r. Prove (both_terms left.now right.now) n (pos 1)
        (even_shift n (pos 0)) r.bases) }
{
    let sides = sides_of(alloc, left, right)?;
    lowest(alloc, &sides, n)
}

/// A greatest common vector of two instances, with the least value of one sum on a set and the other on its rest, the least set
/// that has it, and bases of the terms of both that prove it (Edmonds' min-max; Schrijver, Combinatorial Optimization,
/// section 46). All numbers told are at most 10^30 in magnitude.
///
/// # Errors
///
/// `Memory` where there is none.
pub fn common(alloc: Global, left: &Instance, right: &Instance) -> Result<Met, Memory>
    requires { AreMeetable left.now right.now }
    ensures is_true { IfOk result (λ r. IsTrueMet (side_terms left.now.terms)
        (side_terms right.now.terms) (length left.now.names) (met_of r)) }
    ensures greatest { IfOk result (λ r. IsGreatestCommon (side_terms left.now.terms)
        (side_terms right.now.terms) (length left.now.names) r.common) }
    ensures value { IfOk result (λ r. IsEntry r.value) }
    ensures common { IfOk result (λ r. All IsEntry r.common) }
    ensures left { IfOk result (λ r. All (λ x. All IsEntry x) r.bases.left) }
    ensures right { IfOk result (λ r. All (λ x. All IsEntry x) r.bases.right) }
{
    let n = left.names_len();
    let lefts = left.terms();
    let rights = right.terms();
    let found = minimum_of(alloc, lefts, rights, n)?;
    let bases = apart(alloc, &found.bases, lefts.len())?;
    let common = smaller_sums(alloc, left, right, &bases)?;
    let value = sum_of(common.as_slice());
    Ok(Met {
        value,
        members: found.members,
        common,
        bases,
    })
}
