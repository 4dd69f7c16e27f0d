// The note of a term beside its base, made once it is wanted first. A graph at bases that were not asked, as one whose rows are those of
// another graph, makes none for the terms that no walk goes by.
ghost use Rattle.std.specs.Prelude.{◌≡◌, ◌≢◌, ◌<◌, ℤ, List, length, IfOk, None, OnOk};
ghost use Rattle.sfm_spec.specs.Terms.{times};
ghost use Rattle.sfm_law.specs.Based.{IsBased};
ghost use Rattle.sfm_reach.specs.{Based.{IsPlacedBase}, Reach.{AreNotes, IsReachTable, IsRow, kept_fits}};

use crate::bits::Bits;
use crate::reach::{Based, BitRows, ask, row_by};
use sfm_base::Memory;
use sfm_law::Term;
use std::alloc::Global;

/// Sees to it that a note of a term at its base is kept: one is made now where there is none.
///
/// # Errors
///
/// `Memory` where there is none.
pub fn keep_note<T: Term>(
    alloc: Global,
    at: &Based<'_, '_, T>,
    kept: &mut Option<T::Note>,
) -> Result<(), Memory>
    requires based { IsBased T.places T.value_of T.size_of at.now.term.now at.now.base.q
        at.now.base.x.now }
    requires noted { kept_fits T.fits at.now.term.now kept.old at.now.base.q at.now.base.x.now }
    ensures some { OnOk result (kept.new ≢ None) }
    ensures noted { OnOk result (kept_fits T.fits at.now.term.now kept.new at.now.base.q
        at.now.base.x.now) }
{
    if kept.is_some() {
        return Ok(());
    }
    let note = at.term.note(alloc, &at.base)?;
    *kept = Some(note);
    Ok(())
}

/// The row of the place u, as `row_by` tells it, by the note that is kept or made now, which is kept then. After want of memory
/// nothing is said of what is kept.
///
/// # Errors
///
/// `Memory` where there is none.
pub fn row_kept<T: Term>(
    alloc: Global,
    at: &Based<'_, '_, T>,
    kept: &mut Option<T::Note>,
    u: usize,
    rows: &mut BitRows,
) -> Result<Bits, Memory>
    requires based { IsPlacedBase T.places T.value_of T.size_of at.now.term.now at.now.base.q
        at.now.base.x.now }
    requires noted { kept_fits T.fits at.now.term.now kept.old at.now.base.q at.now.base.x.now }
    requires from { u < length at.now.base.x.now }
    requires rows { length rows.old ≡ length at.now.base.x.now }
    ensures same { OnOk result (rows.new ≡ rows.old) }
    ensures row { IfOk result (IsRow (T.places at.now.term.now)
        (times at.now.base.q (T.value_of at.now.term.now)) at.now.base.x.now u) }
    ensures noted { OnOk result (kept_fits T.fits at.now.term.now kept.new at.now.base.q
        at.now.base.x.now) }
{
    keep_note(alloc, at, kept)?;
    match kept {
        Some(note) => row_by(alloc, at, note, u, rows),
        None => unreachable!(),
    }
}

/// Asks for each row of a term at its base, as `ask` does, by the note that is kept or made now, which is kept then. After want
/// of memory nothing is said of what is kept.
///
/// # Errors
///
/// `Memory` where there is none.
pub fn ask_kept<T: Term>(
    alloc: Global,
    at: &Based<'_, '_, T>,
    kept: &mut Option<T::Note>,
    rows: &mut BitRows,
) -> Result<(), Memory>
    requires based { IsPlacedBase T.places T.value_of T.size_of at.now.term.now at.now.base.q
        at.now.base.x.now }
    requires noted { kept_fits T.fits at.now.term.now kept.old at.now.base.q at.now.base.x.now }
    requires rows { length rows.old ≡ length at.now.base.x.now }
    ensures rows { OnOk result (length rows.new ≡ length rows.old) }
    ensures asked { OnOk result (IsReachTable (T.places at.now.term.now)
        (times at.now.base.q (T.value_of at.now.term.now)) at.now.base.x.now
        (length (T.places at.now.term.now)) rows.new) }
    ensures noted { OnOk result (kept_fits T.fits at.now.term.now kept.new at.now.base.q
        at.now.base.x.now) }
{
    keep_note(alloc, at, kept)?;
    match kept {
        Some(note) => ask(alloc, at, note, rows),
        None => unreachable!(),
    }
}

/// For each term no note, which is right beside all bases.
///
/// # Errors
///
/// `Memory` where there is none.
pub fn no_notes<T: Term>(alloc: Global, terms: &[T]) -> Result<Vec<Option<T::Note>>, Memory>
    ensures count { IfOk result (λ r. length r.items ≡ length terms.now) }
    ensures fit { IfOk result (λ r. (q : ℤ) (bases : List (List ℤ))
        → AreNotes (kept_fits T.fits) q terms.now r.items bases) }
{
    let mut notes = Vec::with_capacity(alloc, terms.len())?;
    for _ in terms {
        notes.push(None)?;
    }
    Ok(notes)
}
