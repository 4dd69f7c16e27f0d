// What an answer says, against what is due: the least value, the extreme minimisers, the blocks and the slopes, line by line.
// The first line was read, so it is the due one, whatever it is.
ghost use Rattle.std.specs.Prelude.{◌≡◌, ◌↔◌, ◌<◌, ◌≤◌, ℕ, List, length, map, IsTrue, IfOk, MatchOption};
ghost use Rattle.sfm_spec.specs.{Bounds.{IsEntry}, Blocks.{block_at}, Laws.{Mark}};
ghost use Rattle.sfm_kind.specs.Names.{AreElementNames};
ghost use Rattle.sfm_extreme.specs.Blocks.{block_of};
ghost use Rattle.sfm_cert.specs.{Form.{IsFormed, IsFormedBlock}, Solved.{answer_of, form_of, form_with}, Answer.{answer_lines}, Grammar.{answer_limit}};
ghost use Rattle.sfm_check.specs.{Truth.{IsTrueHead}, Verdict.{IsFirstWrong}, Findings.{IsFirstUnlike, IsToldOf, IsTrueMinimum, AreTold, IsWrongLine, SaysTheSame}, Due.{due_answer}, Offers.{IsOffer, IsShort, meant, of_offer, of_section, said}};

use crate::chain::first_wrong_slope;
use crate::instance::tell_kept;
use crate::offer::Offer;
use crate::same::are_same;
use sfm_base::Memory;
use sfm_cert::Solved;
use sfm_extreme::{Block, Proved, blocks};
use sfm_kind::Instance;
use std::alloc::Global;

/// Whether two blocks have the same places and needs.
fn is_same_block(a: &Block, b: &Block) -> bool
    requires { length a.now.members ≡ length b.now.members }
    ensures { IsTrue result ↔ (block_of a.now ≡ block_of b.now) }
{
    are_same(&a.members, &b.members) && a.needs.as_slice() == b.needs.as_slice()
}

/// Where a list of blocks first differs from the one that is due, or one of the two ends.
pub fn first_unlike(given: &[Block], due: &[Block]) -> Option<usize>
    requires { (i : ℕ) → i < length given.now → i < length due.now
        → length (block_at (map block_of given.now) i).members
        ≡ length (block_at (map block_of due.now) i).members }
    ensures { MatchOption result (map block_of given.now ≡ map block_of due.now)
        (IsFirstUnlike (map block_of given.now) (map block_of due.now)) }
{
    for (i, block) in due.iter().enumerate() {
        if i == given.len() || !is_same_block(&given[i], block) {
            return Some(i);
        }
    }
    if given.len() > due.len() {
        Some(due.len())
    } else {
        None
    }
}

/// The first line before those of slopes that is not the due one, counted from 1.
fn first_wrong_line(
    instance: &Instance,
    solved: &Solved,
    found: &Proved,
    due: &[Block],
) -> Option<usize>
    requires formed { IsFormed (form_of instance.now) (answer_of solved.now) }
    requires few { length (answer_lines (form_of instance.now) (answer_of solved.now))
        ≤ answer_limit }
    requires least { length found.now.least ≡ length instance.now.names }
    requires greatest { length found.now.greatest ≡ length instance.now.names }
    requires value { IsEntry found.now.value }
    requires named { AreElementNames instance.now.names }
    requires blocks { (i : ℕ) → i < length due.now → IsFormedBlock (length instance.now.names) i
        (block_at (map block_of due.now) i) }
    ensures { (header : List ℕ) (marks : List Mark) → MatchOption result
        (SaysTheSame (answer_of solved.now) (due_answer found.now due.now marks))
        (IsWrongLine (form_with header instance.now) (answer_of solved.now)
        (due_answer found.now due.now marks)) }
{
    if solved.value != found.value {
        return Some(2);
    }
    if !are_same(&solved.least, &found.least) {
        return Some(3);
    }
    if !are_same(&solved.greatest, &found.greatest) {
        return Some(4);
    }
    let i = first_unlike(&solved.blocks, due)?;
    Some(5 + i)
}

/// The first line before those of slopes that is not the due one, from what the bases at 0/1 tell.
pub fn first_wrong_before_slopes(
    alloc: Global,
    offer: &Offer<'_>,
    found: &Proved,
) -> Result<Option<usize>, Memory>
    requires offer { IsOffer offer.now }
    requires few { IsShort offer.now }
    requires told { of_section IsToldOf offer.now 0 found.now }
    ensures { IfOk result (λ r. (header : List ℕ) → MatchOption r
        (of_offer IsTrueMinimum offer.now)
        (IsFirstWrong (form_with header offer.now.instance.now)
        (meant offer.now) offer.now.sizes.now (said offer.now))) }
{
    let instance = offer.instance;
    let bases = &offer.solved.bases;
    let due = blocks(alloc, instance.terms(), instance.names_len(), bases)?;
    Ok(first_wrong_line(instance, offer.solved, found, &due))
}

/// The first line of an answer that is not the due one, from what its sections tell.
pub fn first_wrong(
    alloc: Global,
    offer: &Offer<'_>,
    found: &[Proved],
) -> Result<Option<usize>, Memory>
    requires offer { IsOffer offer.now }
    requires few { IsShort offer.now }
    requires told { of_offer AreTold offer.now found.now }
    ensures { IfOk result (λ r. (header : List ℕ) → MatchOption r (of_offer IsTrueHead offer.now)
        (IsFirstWrong (form_with header offer.now.instance.now)
        (meant offer.now) offer.now.sizes.now (said offer.now))) }
{
    tell_kept(offer.instance);
    if let Some(line) = first_wrong_before_slopes(alloc, offer, &found[0])? {
        return Ok(Some(line));
    }
    match first_wrong_slope(alloc, offer, found)? {
        Some(k) => Ok(Some(5 + offer.solved.blocks.len() + k)),
        None => Ok(None),
    }
}
