// The slopes of an answer, against those that are due. A slope is the next one exactly where the set before it is its
// least minimiser and a larger one its greatest; so the slopes are judged one after the other, and none is sought.
ghost use Rattle.std.specs.Prelude.{◌≡◌, ◌≢◌, ◌↔◌, ◌<◌, ◌≤◌, ℕ, length, map, IsTrue, IfOk, MatchOption};
ghost use Rattle.sfm_cert.specs.{Answer.{mark_of}, Form.{IsFormed}, Solved.{form_of}};
ghost use Rattle.sfm_check.specs.{Before.{members_before}, Findings.{AreOfOneGround, AreTold, IsFirstWrongSlope, IsFullChain}, Offers.{elements, meant, of_offer, said}};

use crate::offer::Offer;
use crate::same::are_same;
use sfm_base::{Memory, Set};
use sfm_extreme::Proved;
use sfm_law::Break;
use std::alloc::Global;

/// The set of the slope before, or the empty one before the first.
pub fn before<'a>(empty: &'a Set, breaks: &'a [Break], k: usize) -> &'a Set
    requires { k ≤ length breaks.now }
    ensures { result.now ≡ members_before empty.now breaks.now k }
{
    if k == 0 { empty } else { &breaks[k - 1].set }
}

/// Whether a slope has that set before as its least minimiser and a larger one, which it tells, as its greatest.
fn is_next(found: &Proved, before: &Set, set: &Set) -> bool
    requires { AreOfOneGround found.now before.now set.now }
    ensures { IsTrue result ↔ ((found.now.least ≡ before.now) × (found.now.greatest ≡ set.now)
        × (set.now ≢ before.now)) }
{
    are_same(&found.least, before) && are_same(&found.greatest, set) && !are_same(set, before)
}

/// The first slope, counted from 0, that is not the next one, or the number of slopes where one is missing.
pub fn first_wrong_slope(
    alloc: Global,
    offer: &Offer<'_>,
    found: &[Proved],
) -> Result<Option<usize>, Memory>
    requires formed { IsFormed (form_of offer.now.instance.now) (said offer.now) }
    requires told { of_offer AreTold offer.now found.now }
    ensures { IfOk result (λ r. MatchOption r
        (IsFullChain (meant offer.now) (elements offer.now) offer.now.sizes.now
        (map mark_of (said offer.now).breaks))
        (IsFirstWrongSlope (meant offer.now) (elements offer.now) offer.now.sizes.now
        (map mark_of (said offer.now).breaks))) }
{
    let n = offer.instance.names_len();
    let empty = Set::empty(alloc, n)?;
    let breaks = offer.solved.breaks.as_slice();
    for k in 0..breaks.len() {
        if !is_next(&found[k + 1], before(&empty, breaks, k), &breaks[k].set) {
            return Ok(Some(k));
        }
    }
    if before(&empty, breaks, breaks.len()).size() == n {
        Ok(None)
    } else {
        Ok(Some(breaks.len()))
    }
}
