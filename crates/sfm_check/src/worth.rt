// What a set is worth: how many places it has, their sizes together, and the sum of all terms there, or nothing where a
// term does not allow its part. The sizes of all terms add to at most 10^18, so no sum of values exceeds that.
ghost use Rattle.std.specs.Prelude.{◌≡◌, length, IfOk, IfSome};
ghost use Rattle.sfm_spec.specs.Families.{meanings, sum_at, IsAllowed};
ghost use Rattle.sfm_kind.specs.{Kinds.{kind_places, kind_value}, Limits.{AreInBounds}};
ghost use Rattle.sfm_sizes.specs.Sizes.{AreElementSizes};
ghost use Rattle.sfm_check.specs.Values.{IsWorth, IsSmall};

use sfm_base::{Memory, Set};
use sfm_kind::{Instance, Kind};
use sfm_law::Term;
use sfm_sizes::weight_of;
use std::alloc::Global;

/// How many places an allowed set has, their sizes together, and the sum of all terms there.
#[derive(Clone, Copy)]
pub struct Worth {
    pub size: usize,
    pub weight: i128,
    pub sum: i128,
}

/// The sum of all terms at a set, or None where a term does not allow its part.
fn sum_at(alloc: Global, terms: &[Kind], set: &Set) -> Result<Option<i128>, Memory>
    requires { AreInBounds (length set.now) terms.now }
    ensures { IfOk result (λ r. IfSome r (λ a. IsAllowed
        (meanings kind_places kind_value terms.now) set.now
        × (a ≡ sum_at (meanings kind_places kind_value terms.now) set.now))) }
{
    let mut sum = 0;
    let mut part = Set::empty(alloc, 0)?;
    for term in terms {
        part.take_part(alloc, set, term.elements())?;
        match term.value(alloc, &part)? {
            Some(value) => sum += value,
            None => return Ok(None),
        }
    }
    Ok(Some(sum))
}

/// What a set of the ground is worth, or None where it is not allowed.
pub fn worth_of(
    alloc: Global,
    instance: &Instance,
    sizes: &[i128],
    set: &Set,
) -> Result<Option<Worth>, Memory>
    requires sizes { AreElementSizes (length instance.now.names) sizes.now }
    requires places { length set.now ≡ length instance.now.names }
    ensures worth { IfOk result (λ r. IfSome r (IsWorth (meanings kind_places kind_value
        instance.now.terms) sizes.now set.now)) }
    ensures small { IfOk result (λ r. IfSome r IsSmall) }
{
    match sum_at(alloc, instance.terms(), set)? {
        Some(sum) => Ok(Some(Worth {
            size: set.size(),
            weight: weight_of(set, sizes),
            sum,
        })),
        None => Ok(None),
    }
}
