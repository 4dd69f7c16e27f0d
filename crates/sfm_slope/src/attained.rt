// What a minimiser is worth, by the least value, which it attains: q times the sum there, less what the slope takes from it. So no
// term is asked for its value. The weight of a set is at most 10^6, and no slope has a number above 10^21, so nothing exceeds 10^28.
ghost use Rattle.std.specs.Prelude.{◌≡◌, ◌^◌, ℤ, length, ◌*ℤ◌, ◌-ℤ◌};
ghost use Rattle.sfm_spec.specs.{Bounds.{IsAtMost, IsFactor, IsGiven}, Sets.{size, sum_over}};
ghost use Rattle.sfm_sizes.specs.Sizes.{AreElementSizes};

use crate::worth::Worth;
use sfm_base::Set;
use sfm_sizes::weight_of;

/// A minimiser of q times the sum less a shift, with the least value, which it attains.
#[derive(Drop)]
pub struct Attained {
    pub set: Set,
    pub value: i128,
}

/// The slope p/q, by numbers that may have a common divisor.
#[derive(Clone, Copy)]
pub struct Ratio {
    pub p: i128,
    pub q: i128,
    pub ghost small: { IsAtMost (10 ^ 21) p },
    pub ghost factor: { IsFactor q },
}

/// What a minimiser is worth, where its shift is that of the slope p/q: the sum is what q times it, less p times the weight of the
/// set, makes the least value.
pub fn worth_by(found: Attained, sizes: &[i128], ratio: Ratio) -> Worth
    requires sizes { AreElementSizes (length found.set) sizes.now }
    requires value { (sum : ℤ) × IsGiven sum
        × (found.value ≡ (ratio.q *ℤ sum -ℤ ratio.p *ℤ sum_over found.set sizes.now)) }
    ensures same { result.set ≡ found.set }
    ensures size { result.size ≡ size found.set }
    ensures weight { result.weight ≡ sum_over found.set sizes.now }
    ensures sum { (sum : ℤ) → IsGiven sum
        → found.value ≡ (ratio.q *ℤ sum -ℤ ratio.p *ℤ sum_over found.set sizes.now)
        → result.sum ≡ sum }
{
    let Attained { set, value } = found;
    let size = set.size();
    let weight = weight_of(&set, sizes);
    let sum = (value + ratio.p * weight).div_euclid(ratio.q);
    Worth {
        set,
        size,
        weight,
        sum,
    }
}
