// Whether the bases of each section prove the minimum at its slope.
ghost use Rattle.std.specs.Prelude.{◌≡◌, ◌<◌, ℕ, length, map, IfOk, MatchOption};
ghost use Rattle.sfm_cert.specs.Solved.{answer_of};
ghost use Rattle.sfm_check.specs.{Truth.{section_at, sections_of, IsProvedSection}, Findings.{AllRowsAreBases, IsSection, IsToldOf, AreSections}, Offers.{IsOffer, IsShort, meant, of_offer, of_section, said}};

use crate::offer::Offer;
use sfm_base::{Memory, Rows};
use sfm_cert::{Solved, line_of_at};
use sfm_extreme::{Certified, Proved, certify_at};
use sfm_sizes::shift_by;
use std::alloc::Global;

/// A slope, and the bases that are to prove the minimum there.
#[derive(Clone, Copy)]
pub struct Section<'a> {
    pub num: i128,
    pub den: i128,
    pub bases: &'a Rows,
}

/// What the bases of the sections tell.
#[derive(Drop)]
pub enum Sections {
    /// All prove: the minimum at each slope, with its extreme minimisers.
    Proved(Vec<Proved>),
    /// The line of the first section whose bases do not prove.
    Unproved { line: usize },
}

/// Section s of an answer: that of 0/1, and then one for each slope.
pub fn section_of<'a>(solved: &'a Solved, s: usize) -> Section<'a>
    requires { s < length (sections_of (answer_of solved.now)) }
    ensures { IsSection (section_at (answer_of solved.now) s) result.num result.den
        result.bases.now }
{
    if s == 0 {
        return Section {
            num: 0,
            den: 1,
            bases: &solved.bases,
        };
    }
    let found = &solved.breaks[s - 1];
    Section {
        num: found.slope.num,
        den: found.slope.den,
        bases: &found.bases,
    }
}

/// What the bases of section s tell, or None where they do not prove the minimum at its slope.
pub fn prove_section(alloc: Global, offer: &Offer<'_>, s: usize) -> Result<Option<Proved>, Memory>
    requires offer { IsOffer offer.now }
    requires bases { AllRowsAreBases (meant offer.now) (said offer.now) }
    requires at { s < length (sections_of (said offer.now)) }
    ensures { IfOk result (λ r. MatchOption r (of_section IsProvedSection offer.now s → ⊥)
        (of_section IsToldOf offer.now s)) }
{
    let section = section_of(offer.solved, s);
    let shift = shift_by(alloc, offer.sizes, section.num)?;
    match certify_at(
        alloc,
        offer.instance.terms(),
        offer.instance.names_len(),
        section.den,
        &shift,
        section.bases,
    )? {
        Certified::Proved(found) => Ok(Some(found)),
        Certified::NotOptimal { walk: _ } => Ok(None),
    }
}

/// What the bases of each section tell, or the line of the first section that they do not prove.
pub fn prove_sections(alloc: Global, offer: &Offer<'_>) -> Result<Sections, Memory>
    requires offer { IsOffer offer.now }
    requires few { IsShort offer.now }
    requires bases { AllRowsAreBases (meant offer.now) (said offer.now) }
    ensures { IfOk result (of_offer AreSections offer.now) }
{
    let mut proved = Vec::new(alloc);
    for s in 0..offer.solved.breaks.len() + 1 {
        match prove_section(alloc, offer, s)? {
            Some(found) => proved.push(found)?,
            None => {
                let line = line_of_at(
                    offer.solved.blocks.len(),
                    offer.solved.breaks.len(),
                    offer.instance.terms().len(),
                    s,
                );
                return Ok(Sections::Unproved { line });
            }
        }
    }
    Ok(Sections::Proved(proved))
}
