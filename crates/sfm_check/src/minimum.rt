// The minimum at 0/1, judged by slopes that are right and by values. The set behind the slopes below 0 lies within each
// minimiser, as it is empty or a minimiser at a smaller slope; and the set before the slopes above 0 has each within, as it
// is the whole ground or a minimiser at a greater slope. Where both are worth the sum of min(z, 0) at the bases at 0/1, they
// are the extreme minimisers and the bases prove. Where the two are one set, there is no block; else the bases tell them.
// Where a test fails, nothing is told.
ghost use Rattle.std.specs.Prelude.{◌≡◌, length, map, pos, IsTrue, IfOk};
ghost use Rattle.sfm_spec.specs.{Blocks.{AreBlocks}, Families.{meanings, even_shift, AreBases, IsGreatest, IsLeast, Prove}};
ghost use Rattle.sfm_kind.specs.Kinds.{kind_places, kind_value};
ghost use Rattle.sfm_cert.specs.{Answer.{mark_of}, Form.{IsFormed}, Solved.{answer_of, break_of, form_of}};
ghost use Rattle.sfm_check.specs.{Truth.{IsProvedSection}, Findings.{AllRowsAreBases, IsFullChain, IsTrueMinimum}, Zero.{AreBetween, AreWorthLeast, IsCut}, Offers.{IsOffer, elements, meant, of_offer, of_section, said}};

use crate::chain::before;
use crate::head::first_unlike;
use crate::instance::tell_kept;
use crate::offer::Offer;
use crate::same::are_same;
use crate::values::deficit_at;
use crate::worth::worth_of;
use sfm_base::{Memory, Set};
use sfm_cert::Solved;
use sfm_extreme::blocks;
use sfm_kind::Instance;
use sfm_law::Break;
use std::alloc::Global;

/// How many slopes stand before the first whose numerator is not below a number.
fn count_below(breaks: &[Break], limit: i128) -> usize
    ensures { IsCut (map mark_of (map break_of breaks.now)) limit result }
{
    for (k, found) in breaks.iter().enumerate() {
        if found.slope.num >= limit {
            return k;
        }
    }
    breaks.len()
}

/// Whether the extreme sets are those behind the slopes below 0 and before the slopes above it.
fn are_between(alloc: Global, instance: &Instance, solved: &Solved) -> Result<bool, Memory>
    requires { IsFormed (form_of instance.now) (answer_of solved.now) }
    ensures { IfOk result (λ r. IsTrue r → AreBetween (length instance.now.names)
        (answer_of solved.now)) }
{
    let breaks = solved.breaks.as_slice();
    let empty = Set::empty(alloc, instance.names_len())?;
    let least = before(&empty, breaks, count_below(breaks, 0));
    let greatest = before(&empty, breaks, count_below(breaks, 1));
    Ok(are_same(&solved.least, least) && are_same(&solved.greatest, greatest))
}

/// Whether the value and those of the extreme sets are the sum of min(z, 0) at the bases at 0/1.
fn are_worth_least(alloc: Global, offer: &Offer<'_>) -> Result<bool, Memory>
    requires offer { IsOffer offer.now }
    ensures { IfOk result (λ r. IsTrue r → of_offer AreWorthLeast offer.now) }
{
    let Some(low) = worth_of(alloc, offer.instance, offer.sizes, &offer.solved.least)? else {
        return Ok(false);
    };
    let Some(high) = worth_of(alloc, offer.instance, offer.sizes, &offer.solved.greatest)? else {
        return Ok(false);
    };
    let least = deficit_at(alloc, offer.instance, offer.sizes, 0, &offer.solved.bases)?;
    Ok(offer.solved.value == least && low.sum == least && high.sum == least)
}

/// Whether the blocks are those of the minimisers.
fn are_blocks_right(alloc: Global, instance: &Instance, solved: &Solved) -> Result<bool, Memory>
    requires formed { IsFormed (form_of instance.now) (answer_of solved.now) }
    requires bases { AreBases (pos 1) (meanings kind_places kind_value instance.now.terms)
        solved.now.bases }
    requires prove { Prove (meanings kind_places kind_value instance.now.terms)
        (length instance.now.names) (pos 1) (even_shift (length instance.now.names) (pos 0))
        solved.now.bases }
    requires least { IsLeast (meanings kind_places kind_value instance.now.terms)
        (length instance.now.names) (pos 1) (even_shift (length instance.now.names) (pos 0))
        solved.now.least }
    requires greatest { IsGreatest (meanings kind_places kind_value instance.now.terms)
        (length instance.now.names) (pos 1) (even_shift (length instance.now.names) (pos 0))
        solved.now.greatest }
    ensures { IfOk result (λ r. IsTrue r → AreBlocks (meanings kind_places kind_value
        instance.now.terms) (length instance.now.names) (pos 1)
        (even_shift (length instance.now.names) (pos 0)) (answer_of solved.now).blocks) }
{
    if are_same(&solved.least, &solved.greatest) {
        return Ok(solved.blocks.is_empty());
    }
    let due = blocks(alloc, instance.terms(), instance.names_len(), &solved.bases)?;
    let unlike = first_unlike(&solved.blocks, &due);
    Ok(unlike.is_none())
}

/// Whether what is said of the minimum is found true, and proved by the bases at 0/1, where the slopes are right.
pub fn is_minimum_right(alloc: Global, offer: &Offer<'_>) -> Result<bool, Memory>
    requires offer { IsOffer offer.now }
    requires bases { AllRowsAreBases (meant offer.now) (said offer.now) }
    requires chain { IsFullChain (meant offer.now) (elements offer.now) offer.now.sizes.now
        (map mark_of (said offer.now).breaks) }
    ensures { IfOk result (λ r. IsTrue r → of_offer IsTrueMinimum offer.now
        × of_section IsProvedSection offer.now 0) }
{
    tell_kept(offer.instance);
    if !are_between(alloc, offer.instance, offer.solved)? {
        return Ok(false);
    }
    if !are_worth_least(alloc, offer)? {
        return Ok(false);
    }
    are_blocks_right(alloc, offer.instance, offer.solved)
}
