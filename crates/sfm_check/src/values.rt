// The slopes of an answer, judged by values alone. No allowed set is worth less than the sum of min(z, 0) at any bases; so
// where the set before a slope and the set of the slope are worth just that, both are minimisers there and the bases prove.
// Where slopes rise and sets grow so, from the empty set to the whole ground, each slope is the next one: a minimiser at a
// smaller slope lies within those at a greater one. Where a test fails, nothing is told.
ghost use Rattle.std.specs.Prelude.{◌≡◌, ◌<◌, length, map, slice_index_or, pos, ◌-ℤ◌, ◌*ℤ◌, IsTrue, IfOk, IfSome};
ghost use Rattle.sfm_spec.specs.{Bounds.{IsEntry}, Slopes.{IsLowerSlope}, Families.{meanings, deficit, rest_at, sized_shift}};
ghost use Rattle.sfm_kind.specs.Kinds.{kind_places, kind_value};
ghost use Rattle.sfm_cert.specs.{Form.{AreFormedRows, IsFormedBreak}, Solved.{break_of, form_of}};
ghost use Rattle.sfm_sizes.specs.Sizes.{AreElementSizes};
ghost use Rattle.sfm_check.specs.{Findings.{AllRowsAreBases}, Values.{AreRightSlopes, Ascends, Attains, IsSmall, IsWorth}, Offers.{IsOffer, meant, of_offer, said}};

use crate::instance::tell_kept;
use crate::offer::Offer;
use crate::worth::{Worth, worth_of};
use sfm_base::{Memory, Rows, Set, Slope};
use sfm_extreme::deficit_of;
use sfm_kind::Instance;
use sfm_law::{Break, rest_of};
use sfm_sizes::shift_by;
use std::alloc::Global;
use std::cmp::Ordering;

/// The sum of min(z, 0) over all places, at bases and at a slope with this numerator.
pub fn deficit_at(
    alloc: Global,
    instance: &Instance,
    sizes: &[i128],
    num: i128,
    bases: &Rows,
) -> Result<i128, Memory>
    requires sizes { AreElementSizes (length instance.now.names) sizes.now }
    requires entry { IsEntry num }
    requires bases { AreFormedRows (form_of instance.now).widths bases.now }
    ensures { IfOk result (λ r. r ≡ deficit (length instance.now.names)
        (rest_at (meanings kind_places kind_value instance.now.terms) bases.now
        (sized_shift sizes.now num))) }
{
    let shift = shift_by(alloc, sizes, num)?;
    let z = rest_of(alloc, instance.terms(), &shift, bases)?;
    Ok(deficit_of(&z))
}

/// What a set is worth at a slope p/q: q times the sum, less p for each unit of size.
fn value_at(slope: &Slope, worth: &Worth) -> i128
    requires { IsSmall worth.now }
    ensures { result ≡ (slope.now.den *ℤ worth.now.sum -ℤ slope.now.num *ℤ worth.now.weight) }
{
    let values = slope.den * worth.sum;
    let shift = slope.num * worth.weight;
    values - shift
}

/// Whether two sets are worth the sum of min(z, 0) at the bases of a slope.
fn attain(
    alloc: Global,
    instance: &Instance,
    sizes: &[i128],
    found: &Break,
    before: &Worth,
    here: &Worth,
) -> Result<bool, Memory>
    requires sizes { AreElementSizes (length instance.now.names) sizes.now }
    requires formed { IsFormedBreak (length instance.now.names) (form_of instance.now).widths
        (break_of found.now) }
    requires before { IsSmall before.now }
    requires here { IsSmall here.now }
    ensures { IfOk result (λ r. IsTrue r → Attains (meanings kind_places kind_value
        instance.now.terms) (length instance.now.names) sizes.now (break_of found.now) before.now
        × Attains (meanings kind_places kind_value instance.now.terms) (length instance.now.names)
        sizes.now (break_of found.now) here.now) }
{
    let least = deficit_at(alloc, instance, sizes, found.slope.num, &found.bases)?;
    Ok(value_at(&found.slope, before) == least && value_at(&found.slope, here) == least)
}

/// Whether a slope is below another.
fn is_lower(slope: &Slope, other: &Slope) -> bool
    ensures { IsTrue result → IsLowerSlope slope.now.num slope.now.den other.now.num other.now.den }
{
    matches!(slope.compare(other), Ordering::Less)
}

/// Whether slope k is above the one before.
fn ascends(breaks: &[Break], k: usize) -> bool
    requires { k < length breaks.now }
    ensures { IsTrue result → Ascends (map break_of breaks.now) k }
{
    k == 0 || is_lower(&breaks[k - 1].slope, &breaks[k].slope)
}

/// Whether values tell that each slope is the next one, up to the whole ground, and that its bases prove.
pub fn are_slopes_right(alloc: Global, offer: &Offer<'_>) -> Result<bool, Memory>
    requires offer { IsOffer offer.now }
    requires bases { AllRowsAreBases (meant offer.now) (said offer.now) }
    ensures { IfOk result (λ r. IsTrue r → of_offer AreRightSlopes offer.now) }
{
    tell_kept(offer.instance);
    let n = offer.instance.names_len();
    let empty = Set::empty(alloc, n)?;
    let Some(mut before) = worth_of(alloc, offer.instance, offer.sizes, &empty)? else {
        return Ok(false);
    };
    for k in 0..offer.solved.breaks.len() {
        let found = &offer.solved.breaks[k];
        let Some(here) = worth_of(alloc, offer.instance, offer.sizes, &found.set)? else {
            return Ok(false);
        };
        if before.size >= here.size || !ascends(&offer.solved.breaks, k) {
            return Ok(false);
        }
        if !attain(alloc, offer.instance, offer.sizes, found, &before, &here)? {
            return Ok(false);
        }
        before = here;
    }
    Ok(before.size == n)
}
