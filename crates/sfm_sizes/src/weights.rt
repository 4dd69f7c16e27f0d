// The weight of a set. Sizes are not below 0, so no sum of some of them exceeds that of all, which is small.
ghost use Rattle.std.specs.Prelude.{◌≡◌, length, pos, ◌≤ℤ◌};
ghost use Rattle.sfm_spec.specs.{Bounds.{total_of}, Sets.{sum_over}};
ghost use Rattle.sfm_sizes.specs.Sizes.{AreElementSizes};

use sfm_base::Set;

/// The sizes of all members of a set together, from 0 to 1,000,000.
pub fn weight_of(set: &Set, sizes: &[i128]) -> i128
    requires sizes { AreElementSizes (length set.now) sizes.now }
    ensures weight { result ≡ sum_over set.now sizes.now }
    ensures low { pos 0 ≤ℤ result }
    ensures high { result ≤ℤ total_of sizes.now }
{
    let mut weight = 0;
    for (e, size) in sizes.iter().enumerate() {
        if set.contains(e) {
            weight += *size;
        }
    }
    weight
}
