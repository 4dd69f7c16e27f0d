// What both kinds of rank do alike: w for each member of a greatest independent part, the base with q·w at the members of that of
// all elements, and what is asked of the entries of a base before they are tested by the kind.
ghost use Rattle.std.specs.{Prelude.{◌≡◌, ◌↔◌, ◌<◌, ◌≤◌, ◌^◌, IsTrue, length, slice_index_or, pos, ◌*ℤ◌, ◌≤ℤ◌}, List.{All}};
ghost use Rattle.sfm_assign.specs.Splits.{IsAmount};
ghost use Rattle.sfm_spec.specs.{Bounds.{IsAtMost, IsFactor, IsGiven, total_of}, Sets.{size}};
ghost use Rattle.sfm_rank.specs.Terms.{at_places};
ghost use Rattle.sfm_matroid.specs.Amounts.{AreFactors, CanAdd, CanWeigh};

use sfm_base::Set;
use sfm_law::{are_within, has_sum, product};

/// The value of a count of elements that are independent together.
fn ranked(w: i128, count: i128) -> i128
    requires low { pos 0 ≤ℤ w }
    requires given { IsGiven w }
    requires none { pos 0 ≤ℤ count }
    requires few { count ≤ℤ pos 256 }
    ensures value { result ≡ w *ℤ count }
    ensures small { IsAtMost (10 ^ 21) result }
{
    w * count
}

/// The value of elements that are independent together.
pub fn worth(w: i128, set: &Set) -> i128
    requires { CanWeigh w set.now }
    ensures value { result ≡ w *ℤ pos (size set.now) }
    ensures small { IsAtMost (10 ^ 21) result }
{
    ranked(w, set.size() as i128)
}

/// What no entry of a base of q times the term exceeds.
pub fn cap_of(q: i128, w: i128) -> i128
    requires { AreFactors q w }
    ensures value { result ≡ q *ℤ w }
    ensures low { pos 0 ≤ℤ result }
    ensures high { result ≤ℤ pos (10 ^ 24) }
{
    product(q, w)
}

/// A number for a member of a set, and 0 for what is none.
fn share(m: i128, set: &Set, j: usize) -> i128
    requires { j < length set.now }
    ensures { result ≡ slice_index_or (at_places m set.now) j (pos 0) }
{
    if !set.contains(j) {
        return 0;
    }
    m
}

/// Writes a number at the members of a set, and 0 elsewhere.
fn write_at(m: i128, set: &Set, x: &mut [i128])
    requires { length x.old ≡ length set.now }
    ensures { x.new ≡ at_places m set.now }
{
    for (j, a) in x.iter_mut().enumerate() {
        *a = share(m, set, j);
    }
}

/// Writes q·w at the members of a set, and 0 elsewhere.
pub fn write_start(q: i128, w: i128, set: &Set, x: &mut [i128])
    requires factor { IsFactor q }
    requires given { IsGiven w }
    requires entries { length x.old ≡ length set.now }
    ensures { x.new ≡ at_places (q *ℤ w) set.now }
{
    write_at(product(q, w), set, x);
}

/// Whether each entry is from 0 to q·w, and all together are q times the value of a set.
pub fn adds_up(x: &[i128], q: i128, w: i128, set: &Set) -> bool
    requires { CanAdd q w x.now set.now }
    ensures told { IsTrue result ↔ (All (λ a. (pos 0 ≤ℤ a) × (a ≤ℤ (q *ℤ w))) x.now
        × (total_of x.now ≡ (q *ℤ (w *ℤ pos (size set.now))))) }
    ensures amounts { IsTrue result → All IsAmount x.now }
{
    let most = product(q, w);
    if !are_within(x, most) {
        return false;
    }
    let whole = worth(w, set);
    let sum = product(q, whole);
    has_sum(x, sum)
}
