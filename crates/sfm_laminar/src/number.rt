// What a group gets at the most, and what its members have together.
ghost use Rattle.std.specs.{Prelude.{◌≡◌, ◌↔◌, ◌<◌, ◌≤◌, ◌^◌, IsTrue, length, ℤ, ◌*ℤ◌, ◌≤ℤ◌, pos}, Int.{int_min}, List.{All}};
ghost use Rattle.sfm_spec.specs.Bounds.{IsAtMost, IsEntry, IsFactor, IsGiven, total_of};
ghost use Rattle.sfm_laminar.specs.{Groups.{IsGroup}, Masks.{sum_listed}};

use crate::groups::CappedGroup;

/// The most that a group gets: a number for each member, or for as many as its cap where that is less. The lesser is taken
/// before multiplying, so that the product stays small.
pub(crate) fn bound(most: i128, group: &CappedGroup) -> i128
    requires low { pos 0 ≤ℤ most }
    requires high { most ≤ℤ pos (10 ^ 24) }
    requires sound { IsGroup group.now }
    requires few { length group.now.members ≤ 256 }
    ensures value { result ≡ most *ℤ int_min group.now.cap (pos (length group.now.members)) }
    ensures small { IsAtMost (10 ^ 27) result }
{
    most * group.cap().min(group.members().len() as i128)
}

/// The sum of the entries at listed places.
pub(crate) fn sum_listed(members: &[usize], x: &[i128]) -> i128
    requires below { All (λ e. e < length x.now) members.now }
    requires few { length members.now ≤ 256 }
    requires small { All IsEntry x.now }
    ensures sum { result ≡ sum_listed members.now x.now }
    ensures small { IsAtMost (10 ^ 33) result }
{
    let mut sum = 0;
    for e in members {
        sum += x[*e];
    }
    sum
}
