// One type for the terms of two sums of which the one is turned round. Each call of a term passes on to the kind or to the kind turned
// round, and each member and law of a term goes by these two cases (specs/Sides.antt).
ghost use Rattle.sfm_sides.specs.Sides.{side_places, side_value, side_size, side_start, side_lean_value, side_lean_calls, side_fits, side-family, side-submodular, side-bounded, side-starts, side-starts_small, side-starts_times};

use sfm_base::{Memory, Set};
use sfm_flip::{Flip, FlipNote};
use sfm_kind::{Kind, KindNote};
use sfm_law::{At, Lead, Room, Swap, Term};
use std::alloc::Global;

/// A term of the left sum as it is, or one of the right sum turned round.
pub enum Side {
    /// A term as it is.
    Left(Kind),
    /// A term turned round.
    Right(Flip),
}

/// What is kept beside a base of a term of either side.
pub enum SideNote {
    /// Beside a base of a term as it is.
    Left(KindNote),
    /// Beside a base of a term turned round.
    Right(FlipNote),
}

// Written out, so that letting one go is one step, which is proved here once.
impl Drop for Side {
    fn drop(self) {
        match self {
            Side::Left(_) | Side::Right(_) => {}
        }
    }
}

// As above.
impl Drop for SideNote {
    fn drop(self) {
        match self {
            SideNote::Left(_) | SideNote::Right(_) => {}
        }
    }
}

// What a side's term answers, whichever side it is.
macro_rules! by_side {
    ($side:expr, $term:ident => $answer:expr) => {
        match $side {
            Side::Left($term) => $answer,
            Side::Right($term) => $answer,
        }
    };
}

// What is answered by a note of this side: a note that fits a base is of the term's side.
macro_rules! by_note_of {
    ($note:ident, $variant:ident => $answer:expr) => {
        match $note {
            SideNote::$variant($note) => $answer,
            _ => unreachable!(),
        }
    };
}

// What a side's term answers by a note of its side.
macro_rules! by_note {
    ($side:expr, $note:ident, $term:ident => $answer:expr) => {
        match $side {
            Side::Left($term) => by_note_of!($note, Left => $answer),
            Side::Right($term) => by_note_of!($note, Right => $answer),
        }
    };
}

impl Term for Side {
    type Note = SideNote;

    ghost places = { side_places };

    ghost value_of = { side_value };

    ghost size_of = { side_size };

    ghost start_of = { side_start };

    ghost lean_value = { side_lean_value };

    ghost lean_calls = { side_lean_calls };

    ghost fits = { side_fits };

    ghost family = { side-family };

    ghost submodular = { side-submodular };

    ghost bounded = { side-bounded };

    ghost starts = { side-starts };

    ghost starts_small = { side-starts_small };

    ghost starts_times = { side-starts_times };

    fn elements(&self) -> &[usize] {
        by_side!(self, term => term.elements())
    }

    fn order(&self) -> Option<&[usize]> {
        match self {
            Side::Left(term) => term.order(),
            Side::Right(_) => None,
        }
    }

    fn asks_at_once(&self) -> bool {
        by_side!(self, term => term.asks_at_once())
    }

    fn size(&self) -> i128 {
        by_side!(self, term => term.size())
    }

    fn value(&self, alloc: Global, s: &Set) -> Result<Option<i128>, Memory> {
        by_side!(self, term => term.value(alloc, s))
    }

    fn start(&self, alloc: Global, q: i128, x: &mut [i128]) -> Result<(), Memory> {
        by_side!(self, term => term.start(alloc, q, x))
    }

    fn is_base(&self, alloc: Global, q: i128, x: &[i128]) -> Result<bool, Memory> {
        by_side!(self, term => term.is_base(alloc, q, x))
    }

    fn room(&self, alloc: Global, at: &At<'_>, u: usize, v: usize) -> Result<Room, Memory> {
        by_side!(self, term => term.room(alloc, at, u, v))
    }

    fn reach(&self, alloc: Global, at: &At<'_>, u: usize, to: &mut Set) -> Result<(), Memory> {
        by_side!(self, term => term.reach(alloc, at, u, to))
    }

    fn note(&self, alloc: Global, at: &At<'_>) -> Result<SideNote, Memory> {
        match self {
            Side::Left(term) => Ok(SideNote::Left(term.note(alloc, at)?)),
            Side::Right(term) => Ok(SideNote::Right(term.note(alloc, at)?)),
        }
    }

    fn reach_by(
        &self,
        alloc: Global,
        at: &At<'_>,
        note: &mut SideNote,
        lead: &Lead,
        to: &mut Set,
    ) -> Result<(), Memory> {
        by_note!(self, note, term => term.reach_by(alloc, at, note, lead, to))
    }

    fn room_by(
        &self,
        alloc: Global,
        at: &At<'_>,
        note: &mut SideNote,
        swap: &Swap,
    ) -> Result<i128, Memory> {
        by_note!(self, note, term => term.room_by(alloc, at, note, swap))
    }

    fn moved(
        &self,
        alloc: Global,
        at: &At<'_>,
        note: &mut SideNote,
        swap: &Swap,
    ) -> Result<(), Memory> {
        by_note!(self, note, term => term.moved(alloc, at, note, swap))
    }
}
