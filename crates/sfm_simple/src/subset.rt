// Sets of at most eight places by their numbers, place j counting 2^j: their members, their sums and their parts.
ghost use Rattle.std.specs.{Prelude.{◌≡◌, ℕ, ◌<◌, ◌≤◌, ◌^◌, false, length, slice_index_or}, List.{All}};
ghost use Rattle.sfm_spec.specs.{Bounds.{IsAtMost, IsEntry}, Kinds.{binary}, Sets.{intersection, sum_over}};
ghost use Rattle.sfm_simple.specs.Subsets.{members};

use sfm_base::Set;

/// What the place j counts.
pub(crate) fn unit(j: usize) -> usize
    requires { j ≤ 8 }
    ensures { result ≡ 2 ^ j }
{
    1 << j
}

/// Whether the place j is in the set with the number s, over any number of places above j.
pub(crate) fn has(s: usize, j: usize) -> bool
    requires { j < 8 }
    ensures { (k : ℕ) → j < k → result ≡ slice_index_or (members k s) j false }
{
    (s >> j) % 2 == 1
}

/// The number of a set.
pub(crate) fn number_of(s: &Set) -> usize
    requires { length s.now ≤ 8 }
    ensures { result ≡ binary s.now }
{
    let mut number = 0;
    for j in 0..s.len() {
        if s.contains(j) {
            number += unit(j);
        }
    }
    number
}

/// The sum of the entries at the places of the set with the number s.
pub(crate) fn sum_at(x: &[i128], s: usize) -> i128
    requires few { length x.now ≤ 8 }
    requires small { All IsEntry x.now }
    ensures sum { result ≡ sum_over (members (length x.now) s) x.now }
    ensures small { IsAtMost (10 ^ 31) result }
{
    let mut sum = 0;
    let mut rest = s;
    for a in x {
        if rest % 2 == 1 {
            sum += *a;
        }
        rest /= 2;
    }
    sum
}

/// Takes out what is not in the set with the number s.
pub(crate) fn keep_members(to: &mut Set, s: usize)
    requires { length to.old ≤ 8 }
    ensures { to.new ≡ intersection to.old (members (length to.old) s) }
{
    for j in 0..to.len() {
        if !has(s, j) {
            to.remove(j);
        }
    }
}
