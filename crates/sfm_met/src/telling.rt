// The text that is due for two instances: a greatest common vector is found and written.
ghost use Rattle.std.specs.Prelude.{length, IfOk};
ghost use Rattle.sfm_meet.specs.{Common.{IsGreatestCommon}, Meetable.{AreMeetable}, Told.{side_terms}};
ghost use Rattle.sfm_met.specs.{MetVerdict.{IsRightMet}, Sums.{sum_of_instance}};

use crate::write::write_met;
use sfm_base::Memory;
use sfm_kind::Instance;
use sfm_meet::common;
use std::alloc::Global;

/// The text of a greatest common vector of two instances, with the least split and the bases that prove both.
///
/// # Errors
///
/// `Memory` where there is none.
pub fn met_text(alloc: Global, left: &Instance, right: &Instance) -> Result<Vec<u8>, Memory>
    requires { AreMeetable left.now right.now }
    ensures { IfOk result (λ text. (told : IsRightMet (sum_of_instance left.now)
        (sum_of_instance right.now) text.items)
        × IsGreatestCommon (side_terms left.now.terms) (side_terms right.now.terms)
        (length left.now.names) told.answer.common) }
{
    let met = common(alloc, left, right)?;
    write_met(alloc, left, right, &met)
}
