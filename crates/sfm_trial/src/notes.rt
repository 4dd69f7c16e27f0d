// Whether a note tells the rows and the rooms that the term tells without it. A part that a row is written over has every place
// before, so that a place that is left there is seen.
ghost use Rattle.std.specs.Prelude.{◌<◌, ◌≤ℤ◌, length, pos, IsTrue};
ghost use Rattle.sfm_law.specs.Based.{IsBased, IsPair};

use crate::bases::MOST_ENTRY;
use sfm_base::Set;
use sfm_law::{At, Lead, Room, Swap, Term};
use std::alloc::Global;

/// Whether two parts are the same.
fn is_same(s: &Set, other: &Set) -> bool {
    s.len() == other.len() && s.is_within(other) && other.is_within(s)
}

/// Whether the part to which a place has room at a base is that one.
pub fn is_reach<T: Term>(alloc: Global, term: &T, at: &At<'_>, u: usize, wanted: &Set) -> bool
    requires based { IsBased T.places T.value_of T.size_of term.now at.now.q at.now.x.now }
    requires from { u < length at.now.x.now }
{
    let Ok(mut to) = Set::whole(alloc, at.x.len()) else {
        return false;
    };
    let reached = term.reach(alloc, at, u, &mut to).is_ok();
    reached && is_same(&to, wanted)
}

/// Whether a note tells the row of u at a base.
pub fn tells_row<T: Term>(
    alloc: Global,
    term: &T,
    at: &At<'_>,
    note: &mut T::Note,
    u: usize,
) -> bool
    requires based { IsBased T.places T.value_of T.size_of term.now at.now.q at.now.x.now }
    requires noted { T.fits term.now note.old at.now.q at.now.x.now }
    requires from { u < length at.now.x.now }
    ensures noted { IsTrue result → T.fits term.now note.new at.now.q at.now.x.now }
{
    let Ok(mut to) = Set::whole(alloc, at.x.len()) else {
        return false;
    };
    let lead = Lead { from: u, onto: u };
    let Ok(()) = term.reach_by(alloc, at, note, &lead, &mut to) else {
        return false;
    };
    is_reach(alloc, term, at, u, &to)
}

/// Whether a note tells how much of an amount a room has.
fn tells_upto<T: Term>(
    alloc: Global,
    term: &T,
    at: &At<'_>,
    note: &mut T::Note,
    swap: &Swap,
    room: Room,
) -> bool
    requires based { IsBased T.places T.value_of T.size_of term.now at.now.q at.now.x.now }
    requires noted { T.fits term.now note.old at.now.q at.now.x.now }
    requires pair { IsPair swap.now.u swap.now.v at.now.x.now }
    requires wanted { pos 0 ≤ℤ swap.now.a }
    ensures noted { IsTrue result → T.fits term.now note.new at.now.q at.now.x.now }
{
    match term.room_by(alloc, at, note, swap) {
        Ok(most) => most == room.upto(swap.a),
        Err(_) => false,
    }
}

/// Whether a note tells the room of (u, v) at a base, where a lot is wanted and where 1 is.
pub fn tells_room<T: Term>(
    alloc: Global,
    term: &T,
    at: &At<'_>,
    note: &mut T::Note,
    u: usize,
    v: usize,
) -> bool
    requires based { IsBased T.places T.value_of T.size_of term.now at.now.q at.now.x.now }
    requires noted { T.fits term.now note.old at.now.q at.now.x.now }
    requires pair { IsPair u v at.now.x.now }
    ensures noted { IsTrue result → T.fits term.now note.new at.now.q at.now.x.now }
{
    let Ok(room) = term.room(alloc, at, u, v) else {
        return false;
    };
    let a = MOST_ENTRY;
    tells_upto(alloc, term, at, note, &Swap { u, v, a }, room)
        && tells_upto(alloc, term, at, note, &Swap { u, v, a: 1 }, room)
}
