// What a term is asked for in a test: its places and its size, the rooms and the reach of places at a base, and that notes tell the
// same, at the base and after an exchange. Each is asked by a function that answers yes or no, and no where memory lacks.
ghost use Rattle.std.specs.{Prelude.{◌≡◌, ◌↔◌, ◌<◌, ◌^◌, ◌*ℤ◌, ◌≤ℤ◌, ◌∷◌, [], length, map, pos, IsTrue, IfOk, IfSome}, List.{All}};
ghost use Rattle.sfm_spec.specs.{Bounds.{IsAtMost, IsFactor}, Terms.{times, exchanged}};
ghost use Rattle.sfm_law.specs.Based.{IsBased, IsPair, CanSwap};

use crate::numbers::count_at;
use sfm_base::{Memory, Rows};
use sfm_law::{At, Room, Swap, Term, exchange};
use sfm_trial::{
    MOST_ENTRY, NO, is_base, is_fit, is_reach, part, tells_base, tells_room, tells_row,
};
use std::alloc::Global;

/// Whether the elements of the places are these.
fn are_places(elements: &[usize], places: &[i128]) -> bool {
    for (element, place) in elements.iter().zip(places) {
        if *element as i128 != *place {
            return false;
        }
    }
    elements.len() == places.len()
}

/// Whether these are the elements of the places.
pub(crate) fn has_places<T: Term>(term: &T, places: &[i128]) -> bool {
    are_places(term.elements(), places)
}

/// Whether this is the size.
pub(crate) fn has_size<T: Term>(term: &T, size: &[i128]) -> bool {
    size.len() == 1 && term.size() == size[0]
}

/// Whether bases of q times a term can be asked for, and a vector is none.
pub(crate) fn is_no_base<T: Term>(alloc: Global, term: &T, at: &At<'_>) -> bool {
    match tells_base(alloc, term, at) {
        Ok(found) => !found && is_fit(term, at),
        Err(_) => false,
    }
}

/// Whether a note tells the row of u and the room of (u, v) at a base.
fn tells<T: Term>(
    alloc: Global,
    term: &T,
    at: &At<'_>,
    note: &mut T::Note,
    u: usize,
    v: usize,
) -> bool
    requires based { IsBased T.places T.value_of T.size_of term.now at.now.q at.now.x.now }
    requires noted { T.fits term.now note.old at.now.q at.now.x.now }
    requires pair { IsPair u v at.now.x.now }
{
    tells_row(alloc, term, at, note, u) && tells_room(alloc, term, at, note, u, v)
}

/// Whether a new note tells the row of u and the room of (u, v) at a base.
fn tells_at<T: Term>(alloc: Global, term: &T, at: &At<'_>, u: usize, v: usize) -> bool
    requires based { IsBased T.places T.value_of T.size_of term.now at.now.q at.now.x.now }
    requires pair { IsPair u v at.now.x.now }
{
    match term.note(alloc, at) {
        Ok(mut note) => tells(alloc, term, at, &mut note, u, v),
        Err(_) => false,
    }
}

/// A new note that was brought up to an exchange, and was asked for its room before, or was not.
fn note_behind<T: Term>(
    alloc: Global,
    term: &T,
    at: &At<'_>,
    swap: &Swap,
    asked: bool,
) -> Result<T::Note, Memory>
    requires based { IsBased T.places T.value_of T.size_of term.now at.now.q at.now.x.now }
    requires can { CanSwap (times at.now.q (T.value_of term.now)) at.now.x.now swap.now.u swap.now.v
        swap.now.a }
    ensures { IfOk result (λ note. T.fits term.now note at.now.q
        (exchanged at.now.x.now swap.now.u swap.now.v swap.now.a)) }
{
    let mut note = term.note(alloc, at)?;
    if asked {
        term.room_by(alloc, at, &mut note, swap)?;
    }
    term.moved(alloc, at, &mut note, swap)?;
    Ok(note)
}

/// The base that an exchange makes of another.
fn behind<T: Term>(alloc: Global, term: &T, at: &At<'_>, swap: &Swap) -> Result<Vec<i128>, Memory>
    requires based { IsBased T.places T.value_of T.size_of term.now at.now.q at.now.x.now }
    requires can { CanSwap (times at.now.q (T.value_of term.now)) at.now.x.now swap.now.u swap.now.v
        swap.now.a }
    ensures { IfOk result (λ y. y.items
        ≡ exchanged at.now.x.now swap.now.u swap.now.v swap.now.a) }
{
    let mut y = Vec::from_slice(alloc, at.x)?;
    exchange(term, at.q, &mut y, swap.u, swap.v, swap.a);
    Ok(y)
}

/// Whether a note tells what it is to tell at the base that an exchange makes of another, where it was asked for its room before, or
/// was not.
fn tells_behind<T: Term>(alloc: Global, term: &T, at: &At<'_>, swap: &Swap, asked: bool) -> bool
    requires based { IsBased T.places T.value_of T.size_of term.now at.now.q at.now.x.now }
    requires can { CanSwap (times at.now.q (T.value_of term.now)) at.now.x.now swap.now.u swap.now.v
        swap.now.a }
{
    let Ok(y) = behind(alloc, term, at, swap) else {
        return false;
    };
    let Ok(mut note) = note_behind(alloc, term, at, swap, asked) else {
        return false;
    };
    let moved = At {
        q: at.q,
        x: y.as_slice(),
    };
    is_base(alloc, term, &moved) && tells(alloc, term, &moved, &mut note, swap.v, swap.u)
}

/// Whether the room of two places at a base is of that number, and notes tell the same after as much as can be is exchanged between
/// them.
fn is_room<T: Term>(alloc: Global, term: &T, at: &At<'_>, u: usize, v: usize, number: i128) -> bool
    requires based { IsBased T.places T.value_of T.size_of term.now at.now.q at.now.x.now }
    requires pair { IsPair u v at.now.x.now }
{
    match term.room(alloc, at, u, v) {
        Ok(Room::Upto(a)) => {
            a == number
                && 0 <= a
                && a <= MOST_ENTRY
                && tells_behind(alloc, term, at, &Swap { u, v, a }, false)
                && tells_behind(alloc, term, at, &Swap { u, v, a }, true)
        }
        Ok(Room::Unbounded) => number == NO,
        Err(_) => false,
    }
}

/// Whether the room of two places at what is to be a base is of that number, and notes tell the same there and after an exchange.
fn is_told_room<T: Term>(
    alloc: Global,
    term: &T,
    at: &At<'_>,
    u: usize,
    v: usize,
    number: i128,
) -> bool
    requires { IsPair u v at.now.x.now }
{
    is_base(alloc, term, at)
        && tells_at(alloc, term, at, u, v)
        && is_room(alloc, term, at, u, v, number)
}

const MOST_MULTIPLIED: i128 = 1_000_000_000_000_000_000_000;

/// Whether each number can be multiplied.
fn are_small(x: &[i128]) -> bool
    ensures { IsTrue result ↔ All (IsAtMost (10 ^ 21)) x.now }
{
    x.iter()
        .all(|a| -MOST_MULTIPLIED <= *a && *a <= MOST_MULTIPLIED)
}

/// A row that has three times each number.
fn thrice(alloc: Global, x: &[i128]) -> Result<Rows, Memory>
    requires { All (IsAtMost (10 ^ 21)) x.now }
    ensures { IfOk result (λ r. r ≡ map (λ a. pos 3 *ℤ a) x.now ∷ []) }
{
    let mut rows = Rows::new(alloc);
    rows.push(x)?;
    rows.times(alloc, 3)
}

/// Whether a note is made of a new one for three times a base, and tells the row of u and the room of (u, v) there; and whether it
/// is written over another note, which tells the same then.
fn tells_next<T: Term>(
    alloc: Global,
    term: &T,
    at: &At<'_>,
    next: &At<'_>,
    u: usize,
    v: usize,
) -> bool
    requires based { IsBased T.places T.value_of T.size_of term.now at.now.q at.now.x.now }
    requires multiple { IsBased T.places T.value_of T.size_of term.now next.now.q next.now.x.now }
    requires factor { next.now.q ≡ (pos 3 *ℤ at.now.q) }
    requires entries { next.now.x.now ≡ map (λ a. pos 3 *ℤ a) at.now.x.now }
    requires pair { IsPair u v next.now.x.now }
{
    let Ok(note) = term.note(alloc, at) else {
        return false;
    };
    let Ok(mut other) = term.note(alloc, at) else {
        return false;
    };
    match term.note_times(alloc, 3, at, &note) {
        Ok(Some(mut made)) => {
            tells(alloc, term, next, &mut made, u, v)
                && term.note_over(3, at, &note, &mut other)
                && tells(alloc, term, next, &mut other, u, v)
        }
        _ => false,
    }
}

/// Whether three times a base is a base, and a note that is made for it of one at the base tells the row of u and the room of (u, v).
fn tells_thrice<T: Term>(alloc: Global, term: &T, at: &At<'_>, u: usize, v: usize) -> bool
    requires based { IsBased T.places T.value_of T.size_of term.now at.now.q at.now.x.now }
    requires small { All (IsAtMost (10 ^ 21)) at.now.x.now }
    requires pair { IsPair u v at.now.x.now }
{
    let Ok(rows) = thrice(alloc, at.x) else {
        return false;
    };
    let next = At {
        q: 3 * at.q,
        x: rows.row(0),
    };
    is_base(alloc, term, &next) && tells_next(alloc, term, at, &next, u, v)
}

/// Whether a vector is a base of q times a term, and a note that is made of one there, or written over another, tells at three
/// times the base the row of a place and the room of two.
pub(crate) fn has_times<T: Term>(alloc: Global, term: &T, at: &At<'_>, numbers: &[i128]) -> bool {
    let u = count_at(numbers, 0);
    let v = count_at(numbers, 1);
    if u == v || u >= at.x.len() || v >= at.x.len() {
        return false;
    }
    is_base(alloc, term, at) && are_small(at.x) && tells_thrice(alloc, term, at, u, v)
}

/// The place of that number among k.
fn place_at(numbers: &[i128], i: usize, k: usize) -> Option<usize>
    ensures { IfSome result (λ place. place < k) }
{
    let place = count_at(numbers, i);
    if place < k { Some(place) } else { None }
}

/// Whether the room of two places at a base is of that number, and notes tell the same.
pub(crate) fn has_room<T: Term>(alloc: Global, term: &T, at: &At<'_>, numbers: &[i128]) -> bool {
    let Some(u) = place_at(numbers, 0, at.x.len()) else {
        return false;
    };
    let Some(v) = place_at(numbers, 1, at.x.len()) else {
        return false;
    };
    if u == v || numbers.len() != 3 {
        return false;
    }
    is_told_room(alloc, term, at, u, v, numbers[2])
}

/// Whether the part to which a place has room at what is to be a base is that one.
fn is_told_reach<T: Term>(alloc: Global, term: &T, at: &At<'_>, u: usize, number: usize) -> bool
    requires { u < length at.now.x.now }
{
    match part(alloc, at.x.len(), number) {
        Ok(wanted) => is_base(alloc, term, at) && is_reach(alloc, term, at, u, &wanted),
        Err(_) => false,
    }
}

/// Whether the part to which a place has room at a base is that one.
pub(crate) fn has_reach<T: Term>(alloc: Global, term: &T, at: &At<'_>, numbers: &[i128]) -> bool {
    let Some(u) = place_at(numbers, 0, at.x.len()) else {
        return false;
    };
    is_told_reach(alloc, term, at, u, count_at(numbers, 1))
}
