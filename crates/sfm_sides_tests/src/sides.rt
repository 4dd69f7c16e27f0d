// What terms turned round answer, worked by hand; and walks over bases of terms of every kind, on either side: from the first base as
// much as can be is exchanged between each two places in turn, and after each exchange a note that came along is to tell the rows and
// the rooms that the term tells without it. Each is tried by a function that answers yes or no, and no where memory lacks.
ghost use Rattle.std.specs.Prelude.{◌≡◌, ◌<◌, ◌*◌, ◌^◌, ◌≤ℤ◌, length, pos, IsTrue};
ghost use Rattle.sfm_spec.specs.{Bounds.{IsFactor}, Terms.{times}};
ghost use Rattle.sfm_law.specs.Based.{IsBased, IsPair, CanSwap};

use sfm_base::Memory;
use sfm_concave::{Concave, Uniform};
use sfm_flip::Flip;
use sfm_graphic::Graphic;
use sfm_kind::Kind;
use sfm_laminar::{Groups, Laminar};
use sfm_law::{At, Room, Swap, Term, exchange};
use sfm_matroid::{Entries, Transversal};
use sfm_sides::Side;
use sfm_simple::{Cover, Cut, Need, Table, Weight};
use sfm_trial::{
    MOST_ENTRY, first_base, has_values, is_base, is_reach, is_small, part, starts, tells_room,
    tells_row,
};
use std::alloc::Global;

const MOST_HALF: i128 = 500_000_000_000_000_000;

/// The factor of the walks.
const Q: i128 = 2;

/// How many kinds there are.
const KINDS: usize = 10;

/// Whether a note tells each row at a base.
fn tells_rows<T: Term>(alloc: Global, term: &T, at: &At<'_>, note: &mut T::Note) -> bool
    requires based { IsBased T.places T.value_of T.size_of term.now at.now.q at.now.x.now }
    requires noted { T.fits term.now note.old at.now.q at.now.x.now }
    ensures noted { IsTrue result → T.fits term.now note.new at.now.q at.now.x.now }
{
    for u in 0..at.x.len() {
        if !tells_row(alloc, term, at, note, u) {
            return false;
        }
    }
    true
}

/// Exchanges an amount between two places of a base, and brings a note up to that.
fn exchange_by<T: Term>(
    alloc: Global,
    term: &T,
    q: i128,
    x: &mut Vec<i128>,
    note: &mut T::Note,
    swap: &Swap,
) -> bool
    requires based { IsBased T.places T.value_of T.size_of term.now q x.old.items }
    requires noted { T.fits term.now note.old q x.old.items }
    requires can { CanSwap (times q (T.value_of term.now)) x.old.items swap.now.u swap.now.v
        swap.now.a }
    ensures count { length x.new.items ≡ length x.old.items }
    ensures based { IsTrue result → IsBased T.places T.value_of T.size_of term.now q x.new.items }
    ensures noted { IsTrue result → T.fits term.now note.new q x.new.items }
{
    let at = At { q, x: x.as_slice() };
    let moved = term.moved(alloc, &at, note, swap).is_ok();
    exchange(term, q, x, swap.u, swap.v, swap.a);
    moved && is_base(alloc, term, &At { q, x })
}

/// A place that is raised and one that is lowered.
#[derive(Clone, Copy)]
struct Pair {
    u: usize,
    v: usize,
}

/// Exchanges as much as can be between two places of a base, where there is a bound, and brings a note up to that, which is to tell
/// that room.
fn step<T: Term>(
    alloc: Global,
    term: &T,
    q: i128,
    x: &mut Vec<i128>,
    note: &mut T::Note,
    pair: Pair,
) -> bool
    requires based { IsBased T.places T.value_of T.size_of term.now q x.old.items }
    requires noted { T.fits term.now note.old q x.old.items }
    requires pair { IsPair pair.u pair.v x.old.items }
    ensures count { length x.new.items ≡ length x.old.items }
    ensures based { IsTrue result → IsBased T.places T.value_of T.size_of term.now q x.new.items }
    ensures noted { IsTrue result → T.fits term.now note.new q x.new.items }
{
    let at = At { q, x: x.as_slice() };
    let Ok(room) = term.room(alloc, &at, pair.u, pair.v) else {
        return false;
    };
    if !tells_room(alloc, term, &at, note, pair.u, pair.v) {
        return false;
    }
    match room {
        Room::Upto(a) => {
            let swap = Swap {
                u: pair.u,
                v: pair.v,
                a,
            };
            0 <= a && a <= MOST_ENTRY && exchange_by(alloc, term, q, x, note, &swap)
        }
        Room::Unbounded => true,
    }
}

/// Whether a note tells each row after an exchange between two places, unless they are one.
fn tells_step<T: Term>(
    alloc: Global,
    term: &T,
    q: i128,
    x: &mut Vec<i128>,
    note: &mut T::Note,
    pair: Pair,
) -> bool
    requires based { IsBased T.places T.value_of T.size_of term.now q x.old.items }
    requires noted { T.fits term.now note.old q x.old.items }
    requires from { pair.u < length x.old.items }
    requires onto { pair.v < length x.old.items }
    ensures count { length x.new.items ≡ length x.old.items }
    ensures based { IsTrue result → IsBased T.places T.value_of T.size_of term.now q x.new.items }
    ensures noted { IsTrue result → T.fits term.now note.new q x.new.items }
{
    if pair.u == pair.v {
        return true;
    }
    if !step(alloc, term, q, x, note, pair) {
        return false;
    }
    let at = At { q, x: x.as_slice() };
    tells_rows(alloc, term, &at, note)
}

/// Whether a note tells what it is to tell after exchanges between one place and each other one in turn.
fn tells_steps<T: Term>(
    alloc: Global,
    term: &T,
    q: i128,
    x: &mut Vec<i128>,
    note: &mut T::Note,
    u: usize,
) -> bool
    requires based { IsBased T.places T.value_of T.size_of term.now q x.old.items }
    requires noted { T.fits term.now note.old q x.old.items }
    requires from { u < length x.old.items }
    ensures count { length x.new.items ≡ length x.old.items }
    ensures based { IsTrue result → IsBased T.places T.value_of T.size_of term.now q x.new.items }
    ensures noted { IsTrue result → T.fits term.now note.new q x.new.items }
{
    for v in 0..x.len() {
        if !tells_step(alloc, term, q, x, note, Pair { u, v }) {
            return false;
        }
    }
    true
}

/// Whether a new note tells what it is to tell along exchanges from a base.
fn tells_from<T: Term>(alloc: Global, term: &T, q: i128, x: &mut Vec<i128>) -> bool
    requires { IsBased T.places T.value_of T.size_of term.now q x.old.items }
{
    let at = At { q, x: x.as_slice() };
    let Ok(mut note) = term.note(alloc, &at) else {
        return false;
    };
    for u in 0..x.len() {
        if !tells_steps(alloc, term, q, x, &mut note, u) {
            return false;
        }
    }
    true
}

/// Whether the first base of a term is one, and notes tell what they are to tell along exchanges from there.
fn walks<T: Term>(alloc: Global, term: &T) -> bool {
    if !is_small(term) {
        return false;
    }
    match first_base(alloc, term, Q) {
        Some(mut x) => {
            is_base(alloc, term, &At { q: Q, x: &x }) && tells_from(alloc, term, Q, &mut x)
        }
        None => false,
    }
}

/// A rank of four places with groups: one of the first two, and two of the first three.
fn laminar(alloc: Global) -> Result<Option<Kind>, Memory> {
    let mut groups = Groups::new(alloc);
    groups.push(2, vec![in alloc; 0, 1, 2]?)?;
    groups.push(1, vec![in alloc; 0, 1]?)?;
    match Laminar::new(alloc, &[0, 1, 2, 3], 3, groups) {
        Ok(term) => Ok(Some(Kind::Laminar(term))),
        Err(_) => Ok(None),
    }
}

/// A rank of four places with three slots.
fn transversal(alloc: Global) -> Result<Kind, Memory> {
    let mut entries = Entries::new(alloc);
    entries.push(vec![in alloc; 5u32]?)?;
    entries.push(vec![in alloc; 5u32, 7]?)?;
    entries.push(vec![in alloc; 7u32, 9]?)?;
    entries.push(vec![in alloc; 9u32]?)?;
    Ok(Kind::Transversal(Transversal::new(alloc, &[0, 1, 2, 3], 2, entries)?))
}

/// A square with one diagonal.
const EDGES: [(u32, u32); 5] = [(3, 8), (8, 4), (4, 9), (9, 3), (3, 4)];

/// A term of the kind with that number, if memory is there.
fn kind_of(alloc: Global, number: usize) -> Option<Kind> {
    match number {
        0 => Some(Kind::Weight(Weight::new(alloc, &[0, 1], &[-3, 2]).ok()?)),
        1 => Some(Kind::Cut(Cut::new(3, 0, 1))),
        2 => Some(Kind::Cover(Cover::new(alloc, 5, &[2, 0, 1]).ok()?)),
        3 => Some(Kind::Need(Need::new(0, 1))),
        4 => Some(Kind::Table(Table::new(alloc, &[0, 1], &[0, 4, 3, 5]).ok()?)),
        5 => Some(Kind::Concave(Concave::new(alloc, &[0, 1, 2], &[4, 7, 8]).ok()?)),
        6 => Some(Kind::Uniform(Uniform::new(alloc, &[0, 1, 2, 3], 3, 2).ok()?)),
        7 => laminar(alloc).ok()?,
        8 => Some(Kind::Graphic(Graphic::new(alloc, &[0, 1, 2, 3, 4], 2, &EDGES).ok()?)),
        _ => transversal(alloc).ok(),
    }
}

/// A term turned round, if it is not too large for that.
fn flip_of(kind: Kind) -> Option<Flip> {
    if kind.size() <= MOST_HALF {
        Some(Flip::new(kind))
    } else {
        None
    }
}

/// A place that is raised, one that is lowered, and how much can be exchanged between them.
#[derive(Clone, Copy)]
struct Told {
    u: usize,
    v: usize,
    a: i128,
}

/// The rooms of a concave term turned round at its first base: each is that of the other order at 4, 3 and 1.
const ROOMS: [Told; 3] = [
    Told { u: 1, v: 2, a: 2 },
    Told { u: 0, v: 1, a: 1 },
    Told { u: 1, v: 0, a: 0 },
];

/// Whether the room of two places of a base is that.
fn has_room<T: Term>(alloc: Global, term: &T, at: &At<'_>, told: Told) -> bool
    requires { IsBased T.places T.value_of T.size_of term.now at.now.q at.now.x.now }
{
    if told.u == told.v || told.u >= at.x.len() || told.v >= at.x.len() {
        return false;
    }
    term.room(alloc, at, told.u, told.v) == Ok(Room::Upto(told.a))
}

/// Whether the rooms between places of a base are those.
fn has_rooms<T: Term>(alloc: Global, term: &T, at: &At<'_>, rooms: &[Told]) -> bool
    requires { IsBased T.places T.value_of T.size_of term.now at.now.q at.now.x.now }
{
    for told in rooms {
        if !has_room(alloc, term, at, *told) {
            return false;
        }
    }
    true
}

/// Whether a term has those rooms at what is to be a base of it, and there room from the first place to the other two.
fn answers<T: Term>(alloc: Global, term: &T, at: &At<'_>, rooms: &[Told]) -> bool {
    if at.x.len() != 3 || !is_base(alloc, term, at) || !has_rooms(alloc, term, at, rooms) {
        return false;
    }
    match part(alloc, 3, 6) {
        Ok(others) => is_reach(alloc, term, at, 0, &others),
        Err(_) => false,
    }
}

/// A term of the kind with that number, turned round.
fn flipped(alloc: Global, number: usize) -> Option<Flip> {
    flip_of(kind_of(alloc, number)?)
}

/// Whether a concave term turned round answers what was worked by hand.
fn is_concave_right(alloc: Global) -> bool {
    let Some(term) = flipped(alloc, 5) else {
        return false;
    };
    let first = At {
        q: 1,
        x: &[-4, -3, -1],
    };
    term.size() == 16
        && has_values(alloc, &term, &[0, -1, -1, -4, -1, -4, -4, -8])
        && starts(alloc, &term, &first)
        && answers(alloc, &term, &first, &ROOMS)
}

/// Whether a cut turned round answers what was worked by hand.
fn is_cut_right(alloc: Global) -> bool {
    let Some(term) = flipped(alloc, 1) else {
        return false;
    };
    let first = At { q: 1, x: &[-3, 3] };
    term.size() == 6 && has_values(alloc, &term, &[0, 0, 3, 0]) && starts(alloc, &term, &first)
}

/// Whether the term of the kind with that number walks, turned round and on either side.
fn all_walk(alloc: Global, number: usize) -> bool {
    let Some(kind) = kind_of(alloc, number) else {
        return false;
    };
    let Some(flip) = flipped(alloc, number) else {
        return false;
    };
    let Some(turned) = flipped(alloc, number) else {
        return false;
    };
    walks(alloc, &flip) && walks(alloc, &Side::Left(kind)) && walks(alloc, &Side::Right(turned))
}

/// Whether the left side names the order of a graphic rank and the right side does not, and both are asked for rows at once.
fn are_orders_right(alloc: Global) -> bool {
    let Some(kind) = kind_of(alloc, 8) else {
        return false;
    };
    let Some(turned) = flipped(alloc, 8) else {
        return false;
    };
    let left = Side::Left(kind);
    let right = Side::Right(turned);
    left.order().is_some() && left.asks_at_once() && right.order().is_none() && right.asks_at_once()
}

#[test]
fn answers_by_hand(rt: HostRuntime) {
    assert!(rt; is_concave_right(rt.alloc()));
    assert!(rt; is_cut_right(rt.alloc()));
}

#[test]
fn orders(rt: HostRuntime) {
    assert!(rt; are_orders_right(rt.alloc()));
}

#[test]
fn notes_come_along(rt: HostRuntime) {
    for number in 0..KINDS {
        assert!(rt; all_walk(rt.alloc(), number), "{}", number);
    }
}
