// The rows of all terms, as they are asked where a graph is made at some bases.
ghost use Rattle.std.specs.Prelude.{◌≡◌, map, length, OnOk};
ghost use Rattle.sfm_reach.specs.{Asked.{AreAllAsked}, Based.{AreBased}, Reach.{AreNotes, AreSized, kept_fits}};

use crate::noted::ask_kept;
use crate::reach::{Based, BitRows};
use sfm_base::{Memory, Rows};
use sfm_law::{At, Term};
use std::alloc::Global;

/// Asks all terms for their rows, by the notes that are kept beside their bases, or made now and then kept. After want of memory
/// nothing is said of the notes.
pub fn ask_all<T: Term>(
    alloc: Global,
    terms: &[T],
    q: i128,
    bases: &Rows,
    notes: &mut Vec<Option<T::Note>>,
    rows: &mut Vec<BitRows>,
) -> Result<(), Memory>
    requires based { AreBased T.places T.value_of T.size_of terms.now q bases.now }
    requires count { length notes.old.items ≡ length terms.now }
    requires noted { AreNotes (kept_fits T.fits) q terms.now notes.old.items bases.now }
    requires rows { AreSized (map T.places terms.now) rows.old.items }
    ensures { OnOk result (AreAllAsked T.Term terms.now q bases.now notes.new.items rows.new.items) }
{
    for (i, term) in terms.iter().enumerate() {
        let x = bases.row(i);
        let note = &mut notes[i];
        let base = At { q, x };
        ask_kept(alloc, &Based { term, base }, note, &mut rows[i])?;
    }
    Ok(())
}
