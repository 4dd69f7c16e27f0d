// The rows of one term after an exchange that raises s and lowers t at its base. A place depends on what the least tight set
// with it has (Fujishige, Submodular Functions and Optimization, section 2). Only places that depended on t have other rows
// afterwards. The row of s is asked. Where s still depends on t, no set has become tight, so each such row is joined with
// that of s. Else the exchange has used up its room, and some of what these rows had may be gone. No row gains more than s
// had, so each takes in what s had, and is claimed: it lacks nothing, but may have too much, and is asked once a walk takes
// it. Where s depends on a place that depends on it, the two have the same least tight set, so the row is that of s, and neither
// asked nor claimed. A term whose rows are cheap, or cheaper one after another, is asked for the others at once, so none of its rows
// is ever claimed.
ghost use Rattle.std.specs.Prelude.{◌≡◌, ◌≢◌, ◌↔◌, ◌⊎◌, IsTrue, true, ◌<◌, ◌-◌, max, ℕ, length, IfOk, OnOk, MatchBool, slice_index_or, slice_set};
ghost use Rattle.sfm_spec.specs.{Sets.{IsPlaced}, Rows.{Depends}, Terms.{times}};
ghost use Rattle.sfm_reach.specs.{Based.{IsPlacedBase}, Bits.{bit_in, set_at}, Image.{IsImage}, Reach.{IsRow}};
ghost use Rattle.sfm_exchange.specs.Renewed.{AreAsked, AreClaimsBefore, AreDepending, AreJoined, AreRenewed, AreShared, AreTakenIn, IsJoined, IsRaised};

use crate::path::Hop;
use sfm_base::Memory;
use sfm_law::{Lead, Term};
use sfm_reach::{Based, BitRows, Bits, Image, no_bits, only, row_beside, row_by};
use std::alloc::Global;

/// The rows that an exchange may have changed, by their ground places.
#[derive(Clone, Copy)]
pub struct Changes {
    /// Rows that have what they had, and maybe more.
    pub grown: Bits,
    /// Rows that may lack what they had.
    pub anew: Bits,
}

/// The place that an exchange has raised: its place in the term, that in the ground, and its row at the base that came.
#[derive(Clone, Copy)]
pub struct Raised {
    pub local: usize,
    pub place: usize,
    pub row: Bits,
}

// Whether the place u of a row is t, or the row has the ground place of t.
fn has_place(row: &Bits, u: usize, t: usize, to: usize) -> bool
    requires { to < 256 }
    ensures { IsTrue result ↔ ((u ≡ t) ⊎ (bit_in row.now to ≡ 1)) }
{
    u == t || row.contains(to)
}

// The ground places of t and of the places whose rows have it.
fn depending(places: &[usize], rows: &[Bits], t: usize) -> Bits
    requires placed { IsPlaced 256 places.now }
    requires rows { length rows.now ≡ length places.now }
    requires lowered { t < length places.now }
    ensures { AreDepending places.now rows.now t (length places.now) result }
{
    let to = places[t];
    let mut found = no_bits();
    for (u, place) in places.iter().enumerate() {
        if has_place(&rows[u], u, t, to) {
            found.insert(*place);
        }
    }
    found
}

// The places of two rows, with one place put in and one taken out.
fn joined(row: &Bits, more: &Bits, to: usize, out: usize) -> Bits
    requires to { to < 256 }
    requires out { out < 256 }
    ensures { IsJoined row.now more.now to out result }
{
    let mut all = *row;
    all.union_with(more);
    all.insert(to);
    all.remove(out);
    all
}

// Joins the rows of some places with one row and with the place of that.
fn join_rows(places: &[usize], changed: &Bits, more: &Bits, to: usize, rows: &mut BitRows)
    requires placed { IsPlaced 256 places.now }
    requires rows { length rows.old ≡ length places.now }
    requires to { to < 256 }
    ensures { AreJoined places.now changed.now more.now to (length places.now) rows.old rows.new }
{
    let mut all = *more;
    all.insert(to);
    for (u, place) in places.iter().enumerate() {
        if changed.contains(*place) {
            rows.join(u, &all, *place);
        }
    }
}

// Joins the rows of some places with one row and with the place that was raised, and puts in the row of that.
fn take_in_raised(
    places: &[usize],
    changed: &Bits,
    more: &Bits,
    raised: &Raised,
    rows: &mut BitRows,
)
    requires placed { IsPlaced 256 places.now }
    requires rows { length rows.old ≡ length places.now }
    requires local { raised.now.local < length places.now }
    requires place { raised.now.place < 256 }
    ensures count { length rows.new ≡ length rows.old }
    ensures taken { AreTakenIn places.now changed.now more.now raised.now rows.old rows.new }
{
    join_rows(places, changed, more, raised.place, rows);
    rows.set(raised.local, raised.row);
}

// The row of the place that was raised is true, and may be any; those of the other places that may have changed have grown.
fn settle_raised(changed: &Bits, place: usize, claimed: &mut Bits) -> Changes
    requires { place < 256 }
    ensures claimed { (e : ℕ) → e ≢ place → bit_in claimed.new e ≡ bit_in claimed.old e }
    ensures anew { (e : ℕ) → (bit_in result.anew e ≡ 1) ↔ (e ≡ place) }
    ensures grown { (e : ℕ) → (bit_in result.grown e ≡ 1)
        ↔ ((e ≢ place) × (bit_in changed.now e ≡ 1)) }
{
    claimed.remove(place);
    let mut grown = *changed;
    grown.remove(place);
    Changes {
        grown,
        anew: only(place),
    }
}

// Rows that have changed, where those that may be any have what they had.
fn all_grown(changes: Changes) -> Changes
    ensures grown { (e : ℕ) → bit_in result.grown e ≡ max (bit_in changes.grown e)
        (bit_in changes.anew e) }
    ensures anew { (e : ℕ) → bit_in result.anew e ≡ 0 }
{
    let Changes { mut grown, anew } = changes;
    grown.union_with(&anew);
    Changes {
        grown,
        anew: no_bits(),
    }
}

// Whether a term is asked for rows at once: it says so, and none of its rows is claimed.
fn asks_at_once<T: Term>(term: &T, claimed: &Bits) -> bool
    ensures { result ≡ true → (e : ℕ) → bit_in claimed.now e ≢ 1 }
{
    term.asks_at_once() && claimed.is_empty()
}

// Of the places whose rows may have changed those that depend on the place that was raised for certain, and on which it depends.
fn shared_places(changed: &Bits, of_s: &Bits, claimed: &Bits) -> Bits
    ensures { (e : ℕ) → (bit_in result e ≡ 1) ↔ ((bit_in changed.now e ≡ 1)
        × (bit_in of_s.now e ≡ 1) × (bit_in claimed.now e ≢ 1)) }
{
    let mut shared = *changed;
    shared.remove_all(claimed);
    shared.meet_with(of_s);
    shared
}

// Takes over the row of the place that was raised for some places.
fn share_row(places: &[usize], shared: &Bits, raised: &Raised, rows: &mut BitRows)
    requires placed { IsPlaced 256 places.now }
    requires rows { length rows.old ≡ length places.now }
    requires place { raised.now.place < 256 }
    ensures { AreShared places.now shared.now raised.now (length places.now) rows.old rows.new }
{
    if shared.is_empty() {
        return;
    }
    let mut all = raised.row;
    all.insert(raised.place);
    for (u, place) in places.iter().enumerate() {
        if shared.contains(*place) {
            rows.set(u, raised.row);
            rows.join(u, &all, *place);
        }
    }
}

// Settles the rows of those places that depend on the place that was raised and on which it depends: each is its row, so it is not
// claimed any more, and may lack what it had.
fn settle_shared(
    places: &[usize],
    shared: &Bits,
    raised: &Raised,
    rows: &mut BitRows,
    claimed: &mut Bits,
    changes: Changes,
) -> Changes
    requires placed { IsPlaced 256 places.now }
    requires rows { length rows.old ≡ length places.now }
    requires place { raised.now.place < 256 }
    ensures rows { AreShared places.now shared.now raised.now
        (length places.now) rows.old rows.new }
    ensures claimed { (e : ℕ) → bit_in claimed.new e ≡ bit_in claimed.old e - bit_in shared.now e }
    ensures grown { (e : ℕ) → bit_in result.grown e ≡ bit_in changes.grown e - bit_in shared.now e }
    ensures anew { (e : ℕ) → bit_in result.anew e ≡ max (bit_in changes.anew e)
        (bit_in shared.now e) }
{
    share_row(places, shared, raised, rows);
    claimed.remove_all(shared);
    let Changes {
        mut grown,
        mut anew,
    } = changes;
    grown.remove_all(shared);
    anew.union_with(shared);
    Changes { grown, anew }
}

// The row of the place u, which depends on the place that was raised. Where that depends on u as well, both depend on the same.
fn row_after<T: Term>(
    alloc: Global,
    at: &Based<'_, '_, T>,
    note: &mut T::Note,
    raised: &Raised,
    u: usize,
    image: &mut Image,
) -> Result<Bits, Memory>
    requires based { IsPlacedBase T.places T.value_of T.size_of at.now.term.now at.now.base.q
        at.now.base.x.now }
    requires noted { T.fits at.now.term.now note.old at.now.base.q at.now.base.x.now }
    requires raised { IsRaised (T.places at.now.term.now) (times at.now.base.q
        (T.value_of at.now.term.now)) at.now.base.x.now raised.now }
    requires from { u < length at.now.base.x.now }
    requires leads { Depends (times at.now.base.q (T.value_of at.now.term.now)) at.now.base.x.now u
        raised.now.local }
    requires image { IsImage (T.places at.now.term.now) image.old.part image.old.bits
        image.old.in_order }
    ensures image { OnOk result (IsImage (T.places at.now.term.now) image.new.part image.new.bits
        image.new.in_order) }
    ensures row { IfOk result (IsRow (T.places at.now.term.now)
        (times at.now.base.q (T.value_of at.now.term.now)) at.now.base.x.now u) }
    ensures noted { OnOk result (T.fits at.now.term.now note.new at.now.base.q at.now.base.x.now) }
{
    let places = at.term.elements();
    let place = places[u];
    if raised.row.contains(place) {
        return Ok(joined(&raised.row, &raised.row, raised.place, place));
    }
    let lead = Lead {
        from: u,
        onto: raised.local,
    };
    row_beside(alloc, at, note, &lead, image)
}

// Puts a row in place of that of the place u, where the two differ; tells whether they do.
fn put_row(rows: &mut BitRows, u: usize, row: Bits) -> bool
    requires { u < length rows.old }
    ensures { MatchBool result (rows.new ≡ slice_set rows.old u row)
        ((rows.new ≡ rows.old) × ((e : ℕ) → bit_in (set_at rows.old u) e ≡ bit_in row e)) }
{
    if rows.as_slice()[u].differing(&row).is_empty() {
        return false;
    }
    rows.set(u, row);
    true
}

// Asks for the rows of some places, each of which depends on the place that was raised, by a note that fits the base, which fits
// it still; tells those whose rows are others than before.
fn ask_rows<T: Term>(
    alloc: Global,
    at: &Based<'_, '_, T>,
    note: &mut T::Note,
    raised: &Raised,
    changed: &Bits,
    rows: &mut BitRows,
) -> Result<Bits, Memory>
    requires based { IsPlacedBase T.places T.value_of T.size_of at.now.term.now at.now.base.q
        at.now.base.x.now }
    requires noted { T.fits at.now.term.now note.old at.now.base.q at.now.base.x.now }
    requires raised { IsRaised (T.places at.now.term.now) (times at.now.base.q
        (T.value_of at.now.term.now)) at.now.base.x.now raised.now }
    requires leads { (u : ℕ) → u < length at.now.base.x.now → bit_in changed.now
        (slice_index_or (T.places at.now.term.now) u 0) ≡ 1
        → Depends (times at.now.base.q (T.value_of at.now.term.now)) at.now.base.x.now u
        raised.now.local }
    requires rows { length rows.old ≡ length at.now.base.x.now }
    ensures asked { IfOk result (λ r. AreAsked (T.places at.now.term.now)
        (times at.now.base.q (T.value_of at.now.term.now)) at.now.base.x.now changed.now r
        (length (T.places at.now.term.now)) rows.old rows.new) }
    ensures noted { OnOk result (T.fits at.now.term.now note.new at.now.base.q at.now.base.x.now) }
{
    let places = at.term.elements();
    let mut image = rows.lend_image(alloc, places)?;
    let mut anew = no_bits();
    for u in 0..places.len() {
        if changed.contains(places[u]) {
            let row = row_after(alloc, at, note, raised, u, &mut image)?;
            if put_row(rows, u, row) {
                anew.insert(places[u]);
            }
        }
    }
    rows.keep_image(image);
    Ok(anew)
}

/// Brings the rows of a term up to the base that came by the exchange of a step, which raises its first place and lowers its
/// last, and tells which rows may have changed. Some rows are only claimed, before and afterwards; that of the first place is
/// true. The note fits the base, and fits it still; after want of memory nothing is said of it.
pub fn renew_rows<T: Term>(
    alloc: Global,
    at: &Based<'_, '_, T>,
    note: &mut T::Note,
    hop: Hop,
    rows: &mut BitRows,
    claimed: &mut Bits,
) -> Result<Changes, Memory>
    requires based { IsPlacedBase T.places T.value_of T.size_of at.now.term.now at.now.base.q
        at.now.base.x.now }
    requires noted { T.fits at.now.term.now note.old at.now.base.q at.now.base.x.now }
    requires rows { length rows.old ≡ length at.now.base.x.now }
    requires before { AreClaimsBefore (T.places at.now.term.now) (times at.now.base.q
        (T.value_of at.now.term.now)) at.now.base.x.now hop.u hop.v claimed.old rows.old }
    ensures rows { OnOk result (length rows.new ≡ length rows.old) }
    ensures noted { OnOk result (T.fits at.now.term.now note.new at.now.base.q at.now.base.x.now) }
    ensures raised { IfOk result (λ r. AreRenewed (T.places at.now.term.now)
        (times at.now.base.q (T.value_of at.now.term.now)) at.now.base.x.now claimed.new r rows.old
        rows.new) }
{
    let places = at.term.elements();
    let to = places[hop.u];
    let changed = depending(places, rows.as_slice(), hop.v);
    let before = rows.row(hop.u);
    let of_s = row_by(alloc, at, note, hop.u, rows)?;
    let raised = Raised {
        local: hop.u,
        place: to,
        row: of_s,
    };
    if of_s.contains(places[hop.v]) {
        take_in_raised(places, &changed, &of_s, &raised, rows);
        let changes = settle_raised(&changed, to, claimed);
        if before.is_within(&of_s) {
            return Ok(all_grown(changes));
        }
        return Ok(changes);
    }
    if asks_at_once(at.term, claimed) {
        rows.set(hop.u, of_s);
        let mut others = changed;
        others.remove(to);
        let mut anew = ask_rows(alloc, at, note, &raised, &others, rows)?;
        anew.insert(to);
        return Ok(Changes {
            grown: no_bits(),
            anew,
        });
    }
    take_in_raised(places, &changed, &before, &raised, rows);
    let shared = shared_places(&changed, &of_s, claimed);
    claimed.union_with(&changed);
    let changes = settle_raised(&changed, to, claimed);
    Ok(settle_shared(places, &shared, &raised, rows, claimed, changes))
}
