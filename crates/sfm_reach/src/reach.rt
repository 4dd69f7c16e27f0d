// What each place of each term reaches at its base, kept as sets of ground places: one row for each place of the term.
// Only the terms whose base has changed are asked again.
ghost use Rattle.std.specs.Prelude.{◌≡◌, ℕ, ◌<◌, List, length, map, IfOk, OnOk, slice_set};
ghost use Rattle.sfm_spec.specs.{Sets.{IsPlaced}, Rows.{Depends}, Terms.{times}};
ghost use Rattle.sfm_reach.specs.{Based.{IsPlacedBase}, declared.bits.Bits.{Bits}, Bits.{HasPlaces, IsUnionBut, bit_in, set_at}, Image.{IsImage}, Reach.{IsReachTable, IsRow, AreRowsOf, AreSized}};

use crate::bits::{Bits, no_bits, of_words};
use crate::image::{Image, are_in_order, write_changed};
use sfm_base::{Memory, Set};
use sfm_law::{At, Lead, Term};
use std::alloc::Global;
use std::marker::Model;

/// A term, and a base of q times it.
#[derive(Drop)]
pub struct Based<'t, 'a, T> {
    pub term: &'t T,
    pub base: At<'a>,
}

/// The rows of one term, seen as a list of sets, with memory for the parts that the term tells.
pub struct BitRows {
    rows: Vec<Bits>,
    part: Set,
    image: Option<Image>,
}

// Written out, so that letting one go is one step, which is proved here once.
impl Drop for BitRows {
    fn drop(self) {
        let Self {
            rows: _,
            part: _,
            image: _,
        } = self;
    }
}

impl Model for BitRows {
    ghost use Rattle.std.specs.Prelude.{◌≡◌, List, length, Some};
    ghost use Rattle.sfm_reach.specs.{declared.bits.Bits.{Bits}, declared.image.Image.{Image}};

    ghost Value = { List Bits };

    ghost view = { λ s. s.rows.items };

    ghost invariant = { λ s. (length s.part ≡ length s.rows.items)
        × ((i : Image) → s.image ≡ Some i → length i.part ≡ length s.rows.items) };
}

impl BitRows {
    /// So many rows, each with no place.
    pub fn blank(alloc: Global, len: usize) -> Result<BitRows, Memory>
        ensures { IfOk result (λ r. length r ≡ len) }
    {
        let rows = vec![in alloc; no_bits(); len]?;
        let part = Set::empty(alloc, len)?;
        Ok(BitRows {
            rows,
            part,
            image: None,
        })
    }

    /// The memory for parts that are told one after another, with no place in it, of the term with these places.
    pub fn lend_image(&mut self, alloc: Global, places: &[usize]) -> Result<Image, Memory>
        requires { length places.now ≡ length self.old }
        ensures same { self.new ≡ self.old }
        ensures image { IfOk result (λ r. IsImage places.now r.part r.bits r.in_order) }
    {
        match self.image.take() {
            Some(mut image) => {
                image.clear(places);
                Ok(image)
            }
            None => Image::blank(alloc, places),
        }
    }

    /// Keeps that memory, to be lent again.
    pub fn keep_image(&mut self, image: Image)
        requires { length image.part ≡ length self.old }
        ensures { self.new ≡ self.old }
    {
        self.image = Some(image);
    }

    /// Puts another row in the place u.
    pub fn set(&mut self, u: usize, row: Bits)
        requires { u < length self.old }
        ensures { self.new ≡ slice_set self.old u row }
    {
        self.rows[u] = row;
    }

    /// Puts the places of a set into the row of the place u, where it stands, and takes one place out of it.
    pub fn join(&mut self, u: usize, more: &Bits, out: usize)
        requires place { u < length self.old }
        requires out { out < 256 }
        ensures { (row : Bits) × (self.new ≡ slice_set self.old u row)
            × IsUnionBut (set_at self.old u) more.now out row }
    {
        let row = &mut self.rows[u];
        row.union_with(more);
        row.remove(out);
    }

    /// The row of the place u.
    pub fn row(&self, u: usize) -> Bits
        requires { u < length self.now }
        ensures { result ≡ set_at self.now u }
    {
        self.rows[u]
    }

    /// The rows, by place of the term.
    pub fn as_slice(&self) -> &[Bits]
        ensures { result.now ≡ self.now }
    {
        self.rows.as_slice()
    }

    /// Takes over other rows, into the memory that stands.
    pub fn copy_from(&mut self, other: &BitRows)
        requires { length self.old ≡ length other.now }
        ensures { self.new ≡ other.now }
    {
        self.rows.copy_from_slice(&other.rows);
    }
}

/// The ground places of a part of a term.
pub fn placed_bits(places: &[usize], part: &Set) -> Bits
    requires placed { IsPlaced 256 places.now }
    requires part { length part.now ≡ length places.now }
    ensures { HasPlaces places.now part.now (length places.now) result }
{
    let own = of_words(part.words());
    if are_in_order(places) {
        return own;
    }
    let mut bits = no_bits();
    write_changed(places, &own, &own, &mut bits);
    bits
}

/// The row of the place u, by a note that fits the base, which fits it still. After want of memory nothing is said of the
/// note.
pub fn row_by<T: Term>(
    alloc: Global,
    at: &Based<'_, '_, T>,
    note: &mut T::Note,
    u: usize,
    rows: &mut BitRows,
) -> Result<Bits, Memory>
    requires based { IsPlacedBase T.places T.value_of T.size_of at.now.term.now at.now.base.q
        at.now.base.x.now }
    requires noted { T.fits at.now.term.now note.old at.now.base.q at.now.base.x.now }
    requires from { u < length at.now.base.x.now }
    requires rows { length rows.old ≡ length at.now.base.x.now }
    ensures same { rows.new ≡ rows.old }
    ensures row { IfOk result (IsRow (T.places at.now.term.now)
        (times at.now.base.q (T.value_of at.now.term.now)) at.now.base.x.now u) }
    ensures noted { OnOk result (T.fits at.now.term.now note.new at.now.base.q at.now.base.x.now) }
{
    let lead = Lead { from: u, onto: u };
    at.term
        .reach_by(alloc, &at.base, note, &lead, &mut rows.part)?;
    Ok(placed_bits(at.term.elements(), &rows.part))
}

/// The row of the first place of a lead, beside the parts that were told before it. The note fits the base, and fits it still;
/// after want of memory nothing is said of it.
pub fn row_beside<T: Term>(
    alloc: Global,
    at: &Based<'_, '_, T>,
    note: &mut T::Note,
    lead: &Lead,
    image: &mut Image,
) -> Result<Bits, Memory>
    requires based { IsPlacedBase T.places T.value_of T.size_of at.now.term.now at.now.base.q
        at.now.base.x.now }
    requires noted { T.fits at.now.term.now note.old at.now.base.q at.now.base.x.now }
    requires from { lead.now.from < length at.now.base.x.now }
    requires onto { lead.now.onto < length at.now.base.x.now }
    requires leads { Depends (times at.now.base.q (T.value_of at.now.term.now)) at.now.base.x.now
        lead.now.from lead.now.onto }
    requires image { IsImage (T.places at.now.term.now) image.old.part image.old.bits
        image.old.in_order }
    ensures image { OnOk result (IsImage (T.places at.now.term.now) image.new.part image.new.bits
        image.new.in_order) }
    ensures row { IfOk result (IsRow (T.places at.now.term.now)
        (times at.now.base.q (T.value_of at.now.term.now)) at.now.base.x.now lead.now.from) }
    ensures noted { OnOk result (T.fits at.now.term.now note.new at.now.base.q at.now.base.x.now) }
{
    at.term
        .reach_by(alloc, &at.base, note, lead, &mut image.next)?;
    Ok(image.turn(at.term.elements()))
}

// Asks for the row of the place u, if there is such a place and its row was not asked for.
fn ask_row<T: Term>(
    alloc: Global,
    at: &Based<'_, '_, T>,
    note: &mut T::Note,
    u: usize,
    asked: &mut Bits,
    rows: &mut BitRows,
) -> Result<(), Memory>
    requires based { IsPlacedBase T.places T.value_of T.size_of at.now.term.now at.now.base.q
        at.now.base.x.now }
    requires noted { T.fits at.now.term.now note.old at.now.base.q at.now.base.x.now }
    requires rows { length rows.old ≡ length at.now.base.x.now }
    requires known { AreRowsOf (T.places at.now.term.now)
        (times at.now.base.q (T.value_of at.now.term.now)) at.now.base.x.now asked.old rows.old }
    ensures rows { length rows.new ≡ length rows.old }
    ensures known { OnOk result (AreRowsOf (T.places at.now.term.now)
        (times at.now.base.q (T.value_of at.now.term.now)) at.now.base.x.now asked.new rows.new) }
    ensures kept { (v : ℕ) → bit_in asked.old v ≡ 1 → bit_in asked.new v ≡ 1 }
    ensures told { OnOk result (u < length at.now.base.x.now → bit_in asked.new u ≡ 1) }
    ensures noted { OnOk result (T.fits at.now.term.now note.new at.now.base.q at.now.base.x.now) }
{
    if u >= at.base.x.len() {
        return Ok(());
    }
    if asked.contains(u) {
        return Ok(());
    }
    let row = row_by(alloc, at, note, u, rows)?;
    rows.set(u, row);
    asked.insert(u);
    Ok(())
}

/// Asks for each row of a term at its base, those of the places that the term names first before all others, by a note that fits
/// it, which fits it still. After want of memory nothing is said of the note.
pub fn ask<T: Term>(
    alloc: Global,
    at: &Based<'_, '_, T>,
    note: &mut T::Note,
    rows: &mut BitRows,
) -> Result<(), Memory>
    requires based { IsPlacedBase T.places T.value_of T.size_of at.now.term.now at.now.base.q
        at.now.base.x.now }
    requires noted { T.fits at.now.term.now note.old at.now.base.q at.now.base.x.now }
    requires rows { length rows.old ≡ length at.now.base.x.now }
    ensures rows { length rows.new ≡ length rows.old }
    ensures asked { OnOk result (IsReachTable (T.places at.now.term.now)
        (times at.now.base.q (T.value_of at.now.term.now)) at.now.base.x.now
        (length (T.places at.now.term.now)) rows.new) }
    ensures noted { OnOk result (T.fits at.now.term.now note.new at.now.base.q at.now.base.x.now) }
{
    let mut asked = no_bits();
    if let Some(order) = at.term.order() {
        for first in order {
            ask_row(alloc, at, note, *first, &mut asked, rows)?;
        }
    }
    for u in 0..at.base.x.len() {
        ask_row(alloc, at, note, u, &mut asked, rows)?;
    }
    Ok(())
}

/// Rows for each term, none of them asked.
pub fn blank_rows<T: Term>(alloc: Global, terms: &[T]) -> Result<Vec<BitRows>, Memory>
    ensures { IfOk result (λ r. AreSized (map T.places terms.now) r.items) }
{
    let mut rows = Vec::with_capacity(alloc, terms.len())?;
    for term in terms {
        rows.push(BitRows::blank(alloc, term.elements().len())?)?;
    }
    Ok(rows)
}
