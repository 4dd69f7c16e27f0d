// The calls of a term by the note that is kept beside its base, or made now where none is, which is kept then.
ghost use Rattle.std.specs.Prelude.{◌≡◌, List, length, ℤ, pos, ◌*ℤ◌, ◌≤ℤ◌, IfOk, OnOk};
ghost use Rattle.sfm_spec.specs.{Bounds.{IsFactor}, Terms.{exchanged, times}};
ghost use Rattle.sfm_law.specs.{Based.{IsBased, IsPair, CanSwap}, Room.{IsCapacityUpto}};
ghost use Rattle.sfm_reach.specs.{Based.{IsPlacedBase}, Reach.{kept_fits}};
ghost use Rattle.sfm_exchange.specs.{Renewed.{AreClaimsBefore, AreRenewed}, Scaled.{row_times}};

use crate::path::Hop;
use crate::renewing::{Changes, renew_rows};
use sfm_base::Memory;
use sfm_law::{Swap, Term};
use sfm_reach::{Based, BitRows, Bits, keep_note};
use std::alloc::Global;

/// How much of an amount can be exchanged at a base. After want of memory nothing is said of what is kept.
pub(crate) fn room_kept<T: Term>(
    alloc: Global,
    at: &Based<'_, '_, T>,
    kept: &mut Option<T::Note>,
    swap: &Swap,
) -> Result<i128, Memory>
    requires based { IsBased T.places T.value_of T.size_of at.now.term.now at.now.base.q
        at.now.base.x.now }
    requires noted { kept_fits T.fits at.now.term.now kept.old at.now.base.q at.now.base.x.now }
    requires pair { IsPair swap.now.u swap.now.v at.now.base.x.now }
    requires wanted { pos 0 ≤ℤ swap.now.a }
    ensures room { IfOk result (IsCapacityUpto (times at.now.base.q (T.value_of at.now.term.now))
        at.now.base.x.now swap.now.u swap.now.v swap.now.a) }
    ensures noted { OnOk result (kept_fits T.fits at.now.term.now kept.new at.now.base.q
        at.now.base.x.now) }
{
    keep_note(alloc, at, kept)?;
    match kept {
        Some(note) => at.term.room_by(alloc, &at.base, note, swap),
        None => unreachable!(),
    }
}

/// What is kept beside the base to which an exchange leads. After want of memory nothing is said of it.
pub(crate) fn move_kept<T: Term>(
    alloc: Global,
    at: &Based<'_, '_, T>,
    kept: &mut Option<T::Note>,
    swap: &Swap,
) -> Result<(), Memory>
    requires based { IsBased T.places T.value_of T.size_of at.now.term.now at.now.base.q
        at.now.base.x.now }
    requires noted { kept_fits T.fits at.now.term.now kept.old at.now.base.q at.now.base.x.now }
    requires can { CanSwap (times at.now.base.q (T.value_of at.now.term.now)) at.now.base.x.now
        swap.now.u swap.now.v swap.now.a }
    ensures { OnOk result (kept_fits T.fits at.now.term.now kept.new at.now.base.q
        (exchanged at.now.base.x.now swap.now.u swap.now.v swap.now.a)) }
{
    keep_note(alloc, at, kept)?;
    match kept {
        Some(note) => at.term.moved(alloc, &at.base, note, swap),
        None => unreachable!(),
    }
}

/// Makes what is kept beside m times a base of what is kept beside the base: in place of what was kept beside another base, and in
/// the memory of that where the term can; nothing where the term makes nothing of it. After want of memory nothing is said of it.
pub(crate) fn kept_times<T: Term>(
    alloc: Global,
    at: &Based<'_, '_, T>,
    m: i128,
    kept: &Option<T::Note>,
    to: &mut Option<T::Note>,
) -> Result<(), Memory>
    requires times { IsFactor m }
    requires based { IsBased T.places T.value_of T.size_of at.now.term.now at.now.base.q
        at.now.base.x.now }
    requires multiple { IsBased T.places T.value_of T.size_of at.now.term.now
        (m *ℤ at.now.base.q) (row_times m at.now.base.x.now) }
    requires noted { kept_fits T.fits at.now.term.now kept.now at.now.base.q at.now.base.x.now }
    requires other { (q : ℤ) × (x : List ℤ) × kept_fits T.fits at.now.term.now to.old q x }
    ensures { OnOk result (kept_fits T.fits at.now.term.now to.new (m *ℤ at.now.base.q)
        (row_times m at.now.base.x.now)) }
{
    let Some(note) = kept else {
        *to = None;
        return Ok(());
    };
    if let Some(over) = to {
        if at.term.note_over(m, &at.base, note, over) {
            return Ok(());
        }
    }
    *to = at.term.note_times(alloc, m, &at.base, note)?;
    Ok(())
}

/// Brings the rows of a term up to the base that came by an exchange, as `renew_rows` does. After want of memory nothing is said of
/// what is kept.
pub(crate) fn renew_kept<T: Term>(
    alloc: Global,
    at: &Based<'_, '_, T>,
    kept: &mut Option<T::Note>,
    hop: Hop,
    rows: &mut BitRows,
    claimed: &mut Bits,
) -> Result<Changes, Memory>
    requires based { IsPlacedBase T.places T.value_of T.size_of at.now.term.now at.now.base.q
        at.now.base.x.now }
    requires noted { kept_fits T.fits at.now.term.now kept.old at.now.base.q at.now.base.x.now }
    requires rows { length rows.old ≡ length at.now.base.x.now }
    requires before { AreClaimsBefore (T.places at.now.term.now) (times at.now.base.q
        (T.value_of at.now.term.now)) at.now.base.x.now hop.u hop.v claimed.old rows.old }
    ensures rows { OnOk result (length rows.new ≡ length rows.old) }
    ensures noted { OnOk result (kept_fits T.fits at.now.term.now kept.new at.now.base.q
        at.now.base.x.now) }
    ensures raised { IfOk result (λ r. AreRenewed (T.places at.now.term.now)
        (times at.now.base.q (T.value_of at.now.term.now)) at.now.base.x.now claimed.new r rows.old
        rows.new) }
{
    keep_note(alloc, at, kept)?;
    match kept {
        Some(note) => renew_rows(alloc, at, note, hop, rows, claimed),
        None => unreachable!(),
    }
}
