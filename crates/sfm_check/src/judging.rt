// The judge. A text that is read as an answer has its rows tested as bases of their terms. It may then be found right by
// values; where it is not, each section's bases are tested as a proof, and then what it says against what the proved bases
// tell, which gives the first fault. Nothing here finds bases of its own.
ghost use Rattle.std.specs.Prelude.{◌≡◌, ◌≤◌, ℕ, List, codes, length, IfOk};
ghost use Rattle.sfm_spec.specs.{Families.{meanings}, Laws.{ones}};
ghost use Rattle.sfm_kind.specs.Kinds.{kind_places, kind_value};
ghost use Rattle.sfm_cert.specs.{Grammar.{answer_limit}, Header.{header_text}, Solved.{form_of, form_with}};
ghost use Rattle.sfm_sizes.specs.Sizes.{AreElementSizes};
ghost use Rattle.sfm_check.specs.{Verdict.{IsVerdict}, Findings.{AllRowsAreBases, IsFound}, Offers.{IsOffer, IsShort, meant, said}};

use crate::bases::first_no_base;
use crate::head::first_wrong;
use crate::instance::tell_kept;
use crate::offer::Offer;
use crate::right::is_right;
use crate::sections::{Sections, prove_sections};
use crate::verdicts::{Verdict, Wrong};
use sfm_base::Memory;
use sfm_cert::{AnswerEnd, Header};
use sfm_kind::Instance;
use sfm_readback::{ANSWER_LIMIT, read_with};
use sfm_sizes::ones;
use std::alloc::Global;

/// What is to be said of what a text says, section by section.
fn judge_sections(alloc: Global, offer: &Offer<'_>) -> Result<Verdict, Memory>
    requires offer { IsOffer offer.now }
    requires few { IsShort offer.now }
    requires bases { AllRowsAreBases (meant offer.now) (said offer.now) }
    ensures { IfOk result (λ v. (header : List ℕ) → IsFound
        (form_with header offer.now.instance.now) (meant offer.now) offer.now.sizes.now
        (said offer.now) v) }
{
    match prove_sections(alloc, offer)? {
        Sections::Unproved { line } => Ok(Verdict::Invalid {
            line,
            reason: Wrong::Unproved,
        }),
        Sections::Proved(proved) => match first_wrong(alloc, offer, &proved)? {
            Some(line) => Ok(Verdict::Invalid {
                line,
                reason: Wrong::Answer,
            }),
            None => Ok(Verdict::Valid),
        },
    }
}

/// What is to be said of what a text says.
fn judge_solved(alloc: Global, offer: &Offer<'_>) -> Result<Verdict, Memory>
    requires offer { IsOffer offer.now }
    requires few { IsShort offer.now }
    ensures { IfOk result (λ v. (header : List ℕ) → IsFound
        (form_with header offer.now.instance.now) (meant offer.now) offer.now.sizes.now
        (said offer.now) v) }
{
    if let Some(line) = first_no_base(alloc, offer.instance, offer.solved)? {
        return Ok(Verdict::Invalid {
            line,
            reason: Wrong::Base,
        });
    }
    if is_right(alloc, offer)? {
        return Ok(Verdict::Valid);
    }
    judge_sections(alloc, offer)
}

/// What is to be said of a text that is offered as the answer of an instance, whoever wrote it: that it is right, or
/// the first reason against it with its first line. Each element counts one.
///
/// # Errors
///
/// `Memory` where there is none.
pub fn judge(alloc: Global, instance: &Instance, text: &[u8]) -> Result<Verdict, Memory>
    ensures verdict { IfOk result (IsVerdict (form_of instance.now)
        (meanings kind_places kind_value instance.now.terms) (ones (length instance.now.names))
        text.now) }
    ensures short { IfOk result (λ v. v ≡ Verdict.Valid → length text.now ≤ answer_limit) }
{
    tell_kept(instance);
    let sizes = ones(alloc, instance.names_len())?;
    judge_with(alloc, Header::Answer, instance, &sizes, text)
}

/// The same where each element counts its size.
///
/// # Errors
///
/// `Memory` where there is none.
pub fn judge_weighed(
    alloc: Global,
    instance: &Instance,
    sizes: &[i128],
    text: &[u8],
) -> Result<Verdict, Memory>
    requires sizes { AreElementSizes (length instance.now.names) sizes.now }
    ensures verdict { IfOk result (IsVerdict (form_with (codes "weighed 1") instance.now)
        (meanings kind_places kind_value instance.now.terms) sizes.now text.now) }
    ensures short { IfOk result (λ v. v ≡ Verdict.Valid → length text.now ≤ answer_limit) }
{
    judge_with(alloc, Header::Weighed, instance, sizes, text)
}

/// The same of a text with that first line.
///
/// # Errors
///
/// `Memory` where there is none.
pub fn judge_with(
    alloc: Global,
    header: Header,
    instance: &Instance,
    sizes: &[i128],
    text: &[u8],
) -> Result<Verdict, Memory>
    requires sizes { AreElementSizes (length instance.now.names) sizes.now }
    ensures verdict { IfOk result (IsVerdict (form_with (header_text header) instance.now)
        (meanings kind_places kind_value instance.now.terms) sizes.now text.now) }
    ensures short { IfOk result (λ v. v ≡ Verdict.Valid → length text.now ≤ answer_limit) }
{
    tell_kept(instance);
    if text.len() > ANSWER_LIMIT {
        return Ok(Verdict::Invalid {
            line: 0,
            reason: Wrong::Long,
        });
    }
    match read_with(alloc, header, instance, text) {
        Ok(solved) => {
            let offer = Offer {
                instance,
                sizes,
                solved: &solved,
            };
            judge_solved(alloc, &offer)
        }
        Err(AnswerEnd::BadLine { line }) => Ok(Verdict::Invalid {
            line,
            reason: Wrong::Grammar,
        }),
        Err(AnswerEnd::Memory) => Err(Memory),
    }
}
