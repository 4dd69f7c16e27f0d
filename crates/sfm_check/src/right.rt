// An answer judged without the exchange graphs of its sections: its slopes by values, and then what is said of the
// minimum by where the slopes pass 0, by values, and by the blocks that the bases at 0/1 tell. What is not found right here
// is judged section by section.
ghost use Rattle.std.specs.Prelude.{IsTrue, IfOk};
ghost use Rattle.sfm_check.specs.{Truth.{IsTrueHead}, Findings.{AllAreProved, AllRowsAreBases}, Offers.{IsOffer, meant, of_offer, said}};

use crate::instance::tell_kept;
use crate::minimum::is_minimum_right;
use crate::offer::Offer;
use crate::values::are_slopes_right;
use sfm_base::Memory;
use std::alloc::Global;

/// Whether values and the bases at 0/1 tell that an answer is true and that its sections prove it.
pub fn is_right(alloc: Global, offer: &Offer<'_>) -> Result<bool, Memory>
    requires offer { IsOffer offer.now }
    requires bases { AllRowsAreBases (meant offer.now) (said offer.now) }
    ensures { IfOk result (λ r. IsTrue r → of_offer IsTrueHead offer.now
        × of_offer AllAreProved offer.now) }
{
    tell_kept(offer.instance);
    if !are_slopes_right(alloc, offer)? {
        return Ok(false);
    }
    is_minimum_right(alloc, offer)
}
