// A term turned round: what a part is worth is what its rest is worth, less the whole. So its bases are the negated ones, and its room
// of (u, v) is that of (v, u) at the negated base (Fujishige, Submodular Functions and Optimization, section 2.3). It is seen as the
// term that is turned. The row of a place is its column in the term: the places whose rows have it (note.rt).
ghost use Rattle.std.specs.{Prelude.{◌≡◌, ◌*◌, ◌^◌, pos, ◌≤ℤ◌, IfOk}, List.{All}};
ghost use Rattle.sfm_spec.specs.Bounds.{IsEntry};
ghost use Rattle.sfm_kind.specs.{Meanings.{kind_places}, Kinds.{kind_size}};
ghost use Rattle.sfm_flip.specs.{Flipped.{negated}, Flips.{flip_value, flip_size, flip_start, flip_fits, flip-family, flip-submodular, flip-bounded, flip-starts, flip-starts_small, flip-starts_times}};

use crate::note::{FlipNote, Owed, note_at, settle, tell_column};
use sfm_base::{Memory, Numbers, Set};
use sfm_kind::Kind;
use sfm_law::{At, Lead, Room, Swap, Term, exchange};
use std::alloc::Global;
use std::marker::Model;

/// A term turned round, seen as the term that is turned. The size of that is at most 5·10^17.
pub struct Flip {
    term: Kind,
}

// Written out, so that letting one go is one step, which is proved here once.
impl Drop for Flip {
    fn drop(self) {
        let Self { term: _ } = self;
    }
}

impl Model for Flip {
    ghost use Rattle.std.specs.Prelude.{◌*◌, ◌^◌, pos, ◌≤ℤ◌};
    ghost use Rattle.sfm_kind.specs.{Kinds.{kind_size}, declared.kind.Kind.{Kind}};

    ghost Value = { Kind };

    ghost view = { λ s. s.term };

    ghost invariant = { λ s. kind_size s.term ≤ℤ pos (5 * 10 ^ 17) };
}

impl Flip {
    /// The term turned round. Its size is twice that of the term.
    pub fn new(term: Kind) -> Flip
        requires { kind_size term ≤ℤ pos (5 * 10 ^ 17) }
        ensures { result ≡ term }
    {
        Flip { term }
    }
}

/// Turns the sign of each number.
fn turn(x: &mut [i128])
    requires { All IsEntry x.old }
    ensures { x.new ≡ negated x.old }
{
    for a in x.iter_mut() {
        *a = -*a;
    }
}

/// The numbers with their signs turned.
///
/// # Errors
///
/// `Memory` where there is none.
pub fn turned(alloc: Global, x: &[i128]) -> Result<Numbers, Memory>
    requires { All IsEntry x.now }
    ensures { IfOk result (λ r. r ≡ negated x.now) }
{
    let mut numbers = Numbers::from_slice(alloc, x)?;
    turn(numbers.as_mut_slice());
    Ok(numbers)
}

impl Term for Flip {
    type Note = FlipNote;

    ghost places = { kind_places };

    ghost value_of = { flip_value };

    ghost size_of = { flip_size };

    ghost start_of = { flip_start };

    ghost lean_value = { λ s. ⊥ };

    ghost lean_calls = { λ s. ⊥ };

    ghost fits = { flip_fits };

    ghost family = { flip-family };

    ghost submodular = { flip-submodular };

    ghost bounded = { flip-bounded };

    ghost starts = { flip-starts };

    ghost starts_small = { flip-starts_small };

    ghost starts_times = { flip-starts_times };

    fn elements(&self) -> &[usize] {
        self.term.elements()
    }

    fn asks_at_once(&self) -> bool {
        self.term.asks_at_once()
    }

    fn size(&self) -> i128 {
        2 * self.term.size()
    }

    fn value(&self, alloc: Global, s: &Set) -> Result<Option<i128>, Memory> {
        let rest = s.complement(alloc)?;
        let whole = Set::whole(alloc, s.len())?;
        let Some(all) = self.term.value(alloc, &whole)? else {
            return Ok(None);
        };
        match self.term.value(alloc, &rest)? {
            Some(value) => Ok(Some(value - all)),
            None => Ok(None),
        }
    }

    fn start(&self, alloc: Global, q: i128, x: &mut [i128]) -> Result<(), Memory> {
        self.term.start(alloc, q, x)?;
        turn(x);
        Ok(())
    }

    fn is_base(&self, alloc: Global, q: i128, x: &[i128]) -> Result<bool, Memory> {
        let base = turned(alloc, x)?;
        self.term.is_base(alloc, q, base.as_slice())
    }

    fn room(&self, alloc: Global, at: &At<'_>, u: usize, v: usize) -> Result<Room, Memory> {
        let base = turned(alloc, at.x)?;
        let x = base.as_slice();
        self.term.room(alloc, &At { q: at.q, x }, v, u)
    }

    fn reach(&self, alloc: Global, at: &At<'_>, u: usize, to: &mut Set) -> Result<(), Memory> {
        let mut note = self.note(alloc, at)?;
        self.reach_by(alloc, at, &mut note, &Lead { from: u, onto: u }, to)
    }

    fn note(&self, alloc: Global, at: &At<'_>) -> Result<FlipNote, Memory> {
        let base = turned(alloc, at.x)?;
        note_at(alloc, &self.term, at.q, base)
    }

    fn reach_by(
        &self,
        alloc: Global,
        at: &At<'_>,
        note: &mut FlipNote,
        lead: &Lead,
        to: &mut Set,
    ) -> Result<(), Memory> {
        tell_column(alloc, &self.term, at.q, note, lead.from, to)
    }

    fn room_by(
        &self,
        alloc: Global,
        at: &At<'_>,
        note: &mut FlipNote,
        swap: &Swap,
    ) -> Result<i128, Memory> {
        let Swap { u, v, a } = *swap;
        let turned = Swap { u: v, v: u, a };
        let x = note.base.as_slice();
        self.term
            .room_by(alloc, &At { q: at.q, x }, &mut note.inner, &turned)
    }

    fn moved(
        &self,
        alloc: Global,
        at: &At<'_>,
        note: &mut FlipNote,
        swap: &Swap,
    ) -> Result<(), Memory> {
        let Swap { u, v, a } = *swap;
        if a == 0 {
            return Ok(());
        }
        settle(alloc, &self.term, at.q, note)?;
        let x = note.base.as_slice();
        let turned = Swap { u: v, v: u, a };
        self.term
            .moved(alloc, &At { q: at.q, x }, &mut note.inner, &turned)?;
        exchange(&self.term, at.q, note.base.as_mut_slice(), v, u, a);
        note.owed = Some(Owed {
            raised: v,
            lowered: u,
        });
        Ok(())
    }
}
