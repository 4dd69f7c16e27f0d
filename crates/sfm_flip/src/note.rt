// What is kept beside a base of a term that is turned round: the negated base, what the term keeps beside that, and the rows of the
// term there. A row here is a column of these. They are asked once, as the note is made; after an exchange they are brought up as those
// of a term in the exchange graph are: one is asked, and the others are joined by words, or only claimed, where the exchange has used up
// its room (Fujishige, Submodular Functions and Optimization, section 2). A claim lacks nothing, so what lacks a place needs no question,
// and a column asks those claims alone that have its place. The bounds of the entries of a base are known only to a call that is given
// it, so an exchange is owed until the next call.
ghost use Rattle.std.specs.Prelude.{◌≡◌, ◌≢◌, ◌↔◌, ℕ, ◌<◌, List, length, slice_index_or, IfOk, OnOk};
ghost use Rattle.sfm_spec.specs.{Sets.{Has, IsPlaced}, Terms.{times}};
ghost use Rattle.sfm_reach.specs.{Bits.{bit_in, set_at}, Reach.{IsRow}};
ghost use Rattle.sfm_kind.specs.{Meanings.{kind_places}, Kinds.{kind_value}};
ghost use Rattle.sfm_flip.specs.Known.{AreTrueAt, IsBaseOf, IsColumn, IsNoted, IsSettled};

use sfm_base::{Memory, Numbers, Set};
use sfm_exchange::{Hop, renew_rows};
use sfm_kind::{Kind, KindNote};
use sfm_law::{At, Term};
use sfm_reach::{Based, BitRows, Bits, ask, no_bits, row_by};
use std::alloc::Global;

/// An exchange of a term, by its places.
#[derive(Clone, Copy)]
pub struct Owed {
    /// The place that is raised.
    pub raised: usize,
    /// The place that is lowered.
    pub lowered: usize,
}

/// What is kept beside a base of a term turned round.
pub struct FlipNote {
    /// What the term keeps beside the negated base.
    pub inner: KindNote,
    /// The negated base.
    pub base: Numbers,
    /// The rows of the term there, as sets of ground places.
    pub rows: BitRows,
    /// The ground places whose rows are only claimed: they lack nothing, and may have too much.
    pub claimed: Bits,
    /// An exchange of the term up to which the rows are still to be brought.
    pub owed: Option<Owed>,
}

// Written out, so that letting one go is one step, which is proved here once.
impl Drop for FlipNote {
    fn drop(self) {
        let Self {
            inner: _,
            base: _,
            rows: _,
            claimed: _,
            owed: _,
        } = self;
    }
}

/// The note of a term turned round whose negated base this is, with each row asked.
///
/// # Errors
///
/// `Memory` where there is none.
pub(crate) fn note_at(
    alloc: Global,
    term: &Kind,
    q: i128,
    base: Numbers,
) -> Result<FlipNote, Memory>
    requires { IsBaseOf term.now q base }
    ensures base { IfOk result (λ r. r.base ≡ base) }
    ensures noted { IfOk result (IsNoted term.now q) }
{
    let mut rows = BitRows::blank(alloc, base.len())?;
    let x = base.as_slice();
    let at = Based {
        term,
        base: At { q, x },
    };
    let mut inner = term.note(alloc, &at.base)?;
    ask(alloc, &at, &mut inner, &mut rows)?;
    Ok(FlipNote {
        inner,
        base,
        rows,
        claimed: no_bits(),
        owed: None,
    })
}

/// Brings the rows up to the exchange that is owed, if one is.
pub(crate) fn settle(alloc: Global, term: &Kind, q: i128, note: &mut FlipNote) -> Result<(), Memory>
    requires based { IsBaseOf term.now q note.old.base }
    requires noted { IsNoted term.now q note.old }
    ensures base { note.new.base ≡ note.old.base }
    ensures settled { OnOk result (IsSettled term.now q note.new) }
{
    match note.owed {
        Some(owed) => pay(alloc, term, q, note, owed),
        None => Ok(()),
    }
}

/// Brings the rows up to an exchange that is owed.
fn pay(alloc: Global, term: &Kind, q: i128, note: &mut FlipNote, owed: Owed) -> Result<(), Memory>
    requires based { IsBaseOf term.now q note.old.base }
    requires noted { IsNoted term.now q note.old }
    requires owed { note.old.owed ≡ Some owed }
    ensures base { note.new.base ≡ note.old.base }
    ensures settled { OnOk result (IsSettled term.now q note.new) }
{
    let x = note.base.as_slice();
    let base = At { q, x };
    let hop = Hop {
        to: 0,
        term: 0,
        u: owed.raised,
        v: owed.lowered,
    };
    renew_rows(
        alloc,
        &Based { term, base },
        &mut note.inner,
        hop,
        &mut note.rows,
        &mut note.claimed,
    )?;
    note.owed = None;
    Ok(())
}

/// Asks for the row of v where it is only claimed and has a ground place.
fn ask_claim(
    alloc: Global,
    term: &Kind,
    q: i128,
    note: &mut FlipNote,
    v: usize,
    place: usize,
) -> Result<(), Memory>
    requires based { IsBaseOf term.now q note.old.base }
    requires settled { IsSettled term.now q note.old }
    requires from { v < length note.old.base }
    requires place { place < 256 }
    ensures base { note.new.base ≡ note.old.base }
    ensures settled { OnOk result (IsSettled term.now q note.new) }
    ensures told { OnOk result (bit_in (set_at note.new.rows v) place ≡ 1
        → IsRow (kind_places term.now) (times q (kind_value term.now)) note.old.base v
        (set_at note.new.rows v)) }
    ensures others { OnOk result ((w : ℕ) → w ≢ v → set_at note.new.rows w
        ≡ set_at note.old.rows w) }
{
    let own = term.elements()[v];
    if !note.claimed.contains(own) {
        return Ok(());
    }
    let claim = note.rows.row(v);
    if !claim.contains(place) {
        return Ok(());
    }
    let x = note.base.as_slice();
    let base = At { q, x };
    let row = row_by(
        alloc,
        &Based { term, base },
        &mut note.inner,
        v,
        &mut note.rows,
    )?;
    note.rows.set(v, row);
    note.claimed.remove(own);
    Ok(())
}

/// Asks for the rows that are only claimed and have a ground place: then each row that has it is a true one.
fn ask_claims(
    alloc: Global,
    term: &Kind,
    q: i128,
    note: &mut FlipNote,
    place: usize,
) -> Result<(), Memory>
    requires based { IsBaseOf term.now q note.old.base }
    requires settled { IsSettled term.now q note.old }
    requires place { place < 256 }
    ensures base { note.new.base ≡ note.old.base }
    ensures settled { OnOk result (IsSettled term.now q note.new) }
    ensures told { OnOk result (AreTrueAt (kind_places term.now)
        (times q (kind_value term.now)) note.old.base note.new.rows place
        (length note.old.base)) }
{
    if note.claimed.is_empty() {
        return Ok(());
    }
    for v in 0..note.base.len() {
        ask_claim(alloc, term, q, note, v, place)?;
    }
    Ok(())
}

/// Writes the places whose rows have the ground place of u.
fn put_column(places: &[usize], rows: &[Bits], u: usize, to: &mut Set)
    requires placed { IsPlaced 256 places.now }
    requires count { length rows.now ≡ length places.now }
    requires from { u < length places.now }
    requires room_for_answer { length to.old ≡ length places.now }
    ensures places { length to.new ≡ length to.old }
    ensures column { (v : ℕ) → v < length places.now → Has to.new v
        ↔ (bit_in (set_at rows.now v) (slice_index_or places.now u 0) ≡ 1) }
{
    let place = places[u];
    for v in 0..rows.len() {
        to.put(v, rows[v].contains(place));
    }
}

/// Writes the places other than u that have room to u at the negated base.
pub(crate) fn tell_column(
    alloc: Global,
    term: &Kind,
    q: i128,
    note: &mut FlipNote,
    u: usize,
    to: &mut Set,
) -> Result<(), Memory>
    requires based { IsBaseOf term.now q note.old.base }
    requires noted { IsNoted term.now q note.old }
    requires from { u < length note.old.base }
    requires room_for_answer { length to.old ≡ length note.old.base }
    ensures base { note.new.base ≡ note.old.base }
    ensures noted { OnOk result (IsNoted term.now q note.new) }
    ensures places { length to.new ≡ length to.old }
    ensures column { OnOk result (IsColumn (times q (kind_value term.now)) note.old.base u
        to.new) }
{
    settle(alloc, term, q, note)?;
    let places = term.elements();
    ask_claims(alloc, term, q, note, places[u])?;
    put_column(places, note.rows.as_slice(), u, to);
    Ok(())
}
