// One type for all kinds of term. Each call of a term passes on to the kind's own, and each member and law of a term goes
// by cases over the kinds (specs/Kinds.antt), so a kind that is added brings one case to each law, and one to the macro by
// which the calls pass on. The plain kinds keep nothing beside a base: what is asked by a note is asked of them as without
// one.
ghost use Rattle.std.specs.Prelude.{◌≡◌, Bool, List, length, map, ℤ, pos, ◌*ℤ◌, ◌≤ℤ◌, IfOk, IfSome};
ghost use Rattle.sfm_spec.specs.{Bounds.{IsFactor}, Terms.{SetFunction, times}};
ghost use Rattle.sfm_law.specs.{Based.{IsBased, IsPair}, Room.{IsCapacityUpto}};
ghost use Rattle.sfm_kind.specs.{Meanings.{kind_places, IsValueOf, IsMeaningOf, size_by, IsStartOf}, Kinds.{kind_value, kind_size, kind_start, kind_lean_value, kind_lean_calls, kind_fits, kind-family, kind-submodular, kind-bounded, kind-starts, kind-starts_small, kind-starts_times}};

use sfm_base::{Memory, Set};
use sfm_concave::{Concave, Uniform};
use sfm_graphic::Graphic;
use sfm_laminar::Laminar;
use sfm_law::{At, Lead, Room, Swap, Term};
use sfm_matroid::Transversal;
use sfm_simple::{Cover, Cut, Need, Table, Weight};
use std::alloc::Global;

/// A term of any kind.
pub enum Kind {
    /// A number for each element.
    Weight(Weight),
    /// A cost where a part has the first of two elements and not the second.
    Cut(Cut),
    /// A cost where a part has one of some elements.
    Cover(Cover),
    /// A condition: a part with the first of two elements has the second.
    Need(Need),
    /// A number for each part of a few elements.
    Table(Table),
    /// A number for each count of elements, where no increment is above the one before.
    Concave(Concave),
    /// A number for each element of a part, up to so many of them.
    Uniform(Uniform),
    /// A number for each element that is independent, where groups have caps.
    Laminar(Laminar),
    /// A number for each edge of a greatest forest.
    Graphic(Graphic),
    /// A number for each element of a greatest part with slots of their own.
    Transversal(Transversal),
}

/// What is kept beside a base of a kind, so that its reach is found sooner. The splits, which are large, are boxed: so a note
/// of any other kind is small, and costs little to make and to move.
pub enum KindNote {
    /// Nothing, as beside the plain kinds.
    Nothing,
    /// What the groups of a laminar rank lack.
    Laminar(<Laminar as Term>::Note),
    /// The split in the test of one vertex of a graphic rank.
    Graphic(Box<<Graphic as Term>::Note>),
    /// The split in the test of a transversal rank.
    Transversal(Box<<Transversal as Term>::Note>),
    /// The entries of a concave term in order.
    Concave(<Concave as Term>::Note),
}

// What is derived is proved in each crate that lets such a value go, with all that lies in it; what is written out, here alone.
impl Drop for Kind {
    fn drop(self) {
        match self {
            Kind::Weight(_) | Kind::Cut(_) | Kind::Cover(_) | Kind::Need(_) | Kind::Table(_) => {}
            Kind::Concave(_) | Kind::Uniform(_) | Kind::Laminar(_) => {}
            Kind::Graphic(_) | Kind::Transversal(_) => {}
        }
    }
}

// As above.
impl Drop for KindNote {
    fn drop(self) {
        match self {
            KindNote::Nothing | KindNote::Laminar(_) | KindNote::Concave(_) => {}
            KindNote::Graphic(_) | KindNote::Transversal(_) => {}
        }
    }
}

/// For how many places a split is copied and multiplied at the least.
const FEWEST: usize = 32;

/// A note that fits a base, on the heap. This stands apart, since a function pays as it begins for the room of all that it
/// holds, and a large note would make each small one dear.
#[inline(never)]
fn boxed_note<T: Term>(alloc: Global, term: &T, at: &At<'_>) -> Result<Box<T::Note>, Memory>
    requires { IsBased T.places T.value_of T.size_of term.now at.now.q at.now.x.now }
    ensures { IfOk result (λ r. T.fits term.now r.value at.now.q at.now.x.now) }
{
    let note = term.note(alloc, at)?;
    Ok(Box::new(alloc, note)?)
}

/// A note that fits m times a base, on the heap, made of one that fits the base; None where none is made so. It stands apart as
/// the one above does.
#[inline(never)]
fn boxed_times<T: Term>(
    alloc: Global,
    term: &T,
    m: i128,
    at: &At<'_>,
    note: &T::Note,
) -> Result<Option<Box<T::Note>>, Memory>
    requires times { IsFactor m }
    requires based { IsBased T.places T.value_of T.size_of term.now at.now.q at.now.x.now }
    requires multiple { IsBased T.places T.value_of T.size_of term.now (m *ℤ at.now.q)
        (map (λ a. m *ℤ a) at.now.x.now) }
    requires noted { T.fits term.now note.now at.now.q at.now.x.now }
    ensures { IfOk result (λ r. IfSome r (λ n. T.fits term.now n.value (m *ℤ at.now.q)
        (map (λ a. m *ℤ a) at.now.x.now))) }
{
    match term.note_times(alloc, m, at, note)? {
        Some(made) => Ok(Some(Box::new(alloc, made)?)),
        None => Ok(None),
    }
}

impl Kind {
    /// What a term tells of itself is what its meaning says by definition (Schrijver, Combinatorial Optimization, sections 39
    /// and 44): its places and values are a meaning, any two meanings have the same value on each part of its places, and the
    /// size and the first base are those of each meaning. A law, with nothing to do.
    pub fn means(&self)
        ensures meaning { IsMeaningOf self.now (record {
          places = kind_places self.now;
          value = kind_value self.now;
        }) }
        ensures agree { (f g : SetFunction) → IsValueOf self.now f → IsValueOf self.now g
            → (s : List Bool) → length s ≡ length (kind_places self.now) → f s ≡ g s }
        ensures size { (f : SetFunction) → IsValueOf self.now f
            → size_by self.now f ≡ kind_size self.now }
        ensures starts { (f : SetFunction) (q : ℤ) → IsValueOf self.now f
            → IsStartOf self.now f q (kind_start self.now q) }
    {}

    /// A term that is equal in every part, what its kind keeps to itself too: so all that is proved of a term holds of its copy.
    ///
    /// # Errors
    ///
    /// `Memory` where there is none.
    pub fn copy(&self, alloc: Global) -> Result<Kind, Memory>
        ensures { IfOk result (λ r. r ≡ self.now) }
    {
        match self {
            Kind::Weight(term) => Ok(Kind::Weight(term.copy(alloc)?)),
            Kind::Cut(term) => Ok(Kind::Cut(term.copy())),
            Kind::Cover(term) => Ok(Kind::Cover(term.copy(alloc)?)),
            Kind::Need(term) => Ok(Kind::Need(term.copy())),
            Kind::Table(term) => Ok(Kind::Table(term.copy(alloc)?)),
            Kind::Concave(term) => Ok(Kind::Concave(term.copy(alloc)?)),
            Kind::Uniform(term) => Ok(Kind::Uniform(term.copy(alloc)?)),
            Kind::Laminar(term) => Ok(Kind::Laminar(term.copy(alloc)?)),
            Kind::Graphic(term) => Ok(Kind::Graphic(term.copy(alloc)?)),
            Kind::Transversal(term) => Ok(Kind::Transversal(term.copy(alloc)?)),
        }
    }
}

// What a kind's term answers, whichever kind it is.
macro_rules! by_kind {
    ($kind:expr, $term:ident => $answer:expr) => {
        match $kind {
            Kind::Weight($term) => $answer,
            Kind::Cut($term) => $answer,
            Kind::Cover($term) => $answer,
            Kind::Need($term) => $answer,
            Kind::Table($term) => $answer,
            Kind::Concave($term) => $answer,
            Kind::Uniform($term) => $answer,
            Kind::Laminar($term) => $answer,
            Kind::Graphic($term) => $answer,
            Kind::Transversal($term) => $answer,
        }
    };
}

// What is answered by a note of this kind: a note that fits a base is of the term's kind.
macro_rules! by_note_of {
    ($note:ident, $variant:ident => $answer:expr) => {
        match $note {
            KindNote::$variant($note) => $answer,
            _ => unreachable!(),
        }
    };
}

// What a kind's term answers by a note of its kind, and what is answered where the kind keeps nothing.
macro_rules! by_note {
    ($kind:expr, $note:ident, $term:ident => $answer:expr, _ => $plain:expr) => {
        match $kind {
            Kind::Laminar($term) => by_note_of!($note, Laminar => $answer),
            Kind::Graphic($term) => by_note_of!($note, Graphic => $answer),
            Kind::Transversal($term) => by_note_of!($note, Transversal => $answer),
            Kind::Concave($term) => by_note_of!($note, Concave => $answer),
            _ => $plain,
        }
    };
}

/// How much of an amount can be exchanged at a base, told by the term alone.
fn room_upto(alloc: Global, kind: &Kind, at: &At<'_>, swap: &Swap) -> Result<i128, Memory>
    requires based { IsBased kind_places kind_value kind_size kind.now at.now.q at.now.x.now }
    requires pair { IsPair swap.now.u swap.now.v at.now.x.now }
    requires wanted { pos 0 ≤ℤ swap.now.a }
    ensures { IfOk result (IsCapacityUpto (times at.now.q (kind_value kind.now)) at.now.x.now
        swap.now.u swap.now.v swap.now.a) }
{
    let room = kind.room(alloc, at, swap.u, swap.v)?;
    Ok(room.upto(swap.a))
}

impl Term for Kind {
    type Note = KindNote;

    ghost places = { kind_places };

    ghost value_of = { kind_value };

    ghost size_of = { kind_size };

    ghost start_of = { kind_start };

    ghost lean_value = { kind_lean_value };

    ghost lean_calls = { kind_lean_calls };

    ghost fits = { kind_fits };

    ghost family = { kind-family };

    ghost submodular = { kind-submodular };

    ghost bounded = { kind-bounded };

    ghost starts = { kind-starts };

    ghost starts_small = { kind-starts_small };

    ghost starts_times = { kind-starts_times };

    fn elements(&self) -> &[usize] {
        by_kind!(self, term => term.elements())
    }

    fn order(&self) -> Option<&[usize]> {
        match self {
            Kind::Graphic(term) => term.order(),
            _ => None,
        }
    }

    fn asks_at_once(&self) -> bool {
        match self {
            Kind::Laminar(term) => term.asks_at_once(),
            Kind::Graphic(term) => term.asks_at_once(),
            _ => false,
        }
    }

    fn size(&self) -> i128 {
        by_kind!(self, term => term.size())
    }

    fn value(&self, alloc: Global, s: &Set) -> Result<Option<i128>, Memory> {
        by_kind!(self, term => term.value(alloc, s))
    }

    fn start(&self, alloc: Global, q: i128, x: &mut [i128]) -> Result<(), Memory> {
        by_kind!(self, term => term.start(alloc, q, x))
    }

    fn is_base(&self, alloc: Global, q: i128, x: &[i128]) -> Result<bool, Memory> {
        by_kind!(self, term => term.is_base(alloc, q, x))
    }

    fn room(&self, alloc: Global, at: &At<'_>, u: usize, v: usize) -> Result<Room, Memory> {
        by_kind!(self, term => term.room(alloc, at, u, v))
    }

    fn reach(&self, alloc: Global, at: &At<'_>, u: usize, to: &mut Set) -> Result<(), Memory> {
        by_kind!(self, term => term.reach(alloc, at, u, to))
    }

    fn note(&self, alloc: Global, at: &At<'_>) -> Result<KindNote, Memory> {
        match self {
            Kind::Laminar(term) => Ok(KindNote::Laminar(term.note(alloc, at)?)),
            Kind::Graphic(term) => Ok(KindNote::Graphic(boxed_note(alloc, term, at)?)),
            Kind::Transversal(term) => Ok(KindNote::Transversal(boxed_note(alloc, term, at)?)),
            Kind::Concave(term) => Ok(KindNote::Concave(term.note(alloc, at)?)),
            _ => Ok(KindNote::Nothing),
        }
    }

    fn reach_by(
        &self,
        alloc: Global,
        at: &At<'_>,
        note: &mut KindNote,
        lead: &Lead,
        to: &mut Set,
    ) -> Result<(), Memory> {
        by_note!(self, note, term => term.reach_by(alloc, at, note, lead, to), _ => self.reach(alloc, at, lead.from, to))
    }

    fn room_by(
        &self,
        alloc: Global,
        at: &At<'_>,
        note: &mut KindNote,
        swap: &Swap,
    ) -> Result<i128, Memory> {
        by_note!(self, note, term => term.room_by(alloc, at, note, swap), _ => room_upto(alloc, self, at, swap))
    }

    fn moved(
        &self,
        alloc: Global,
        at: &At<'_>,
        note: &mut KindNote,
        swap: &Swap,
    ) -> Result<(), Memory> {
        by_note!(self, note, term => term.moved(alloc, at, note, swap), _ => Ok(()))
    }

    /// By the splits of some size alone: what other kinds keep is soon made anew, and so is a small split, if a walk goes by its
    /// term at all.
    fn note_times(
        &self,
        alloc: Global,
        m: i128,
        at: &At<'_>,
        note: &KindNote,
    ) -> Result<Option<KindNote>, Memory> {
        if at.x.len() < FEWEST {
            return Ok(None);
        }
        match (self, note) {
            (Kind::Graphic(term), KindNote::Graphic(split)) => {
                match boxed_times(alloc, term, m, at, split)? {
                    Some(made) => Ok(Some(KindNote::Graphic(made))),
                    None => Ok(None),
                }
            }
            (Kind::Transversal(term), KindNote::Transversal(split)) => {
                match boxed_times(alloc, term, m, at, split)? {
                    Some(made) => Ok(Some(KindNote::Transversal(made))),
                    None => Ok(None),
                }
            }
            _ => Ok(None),
        }
    }

    /// By the splits that `note_times` multiplies.
    fn note_over(&self, m: i128, at: &At<'_>, note: &KindNote, over: &mut KindNote) -> bool {
        if at.x.len() < FEWEST {
            return false;
        }
        match (self, note, over) {
            (Kind::Graphic(term), KindNote::Graphic(split), KindNote::Graphic(over)) => {
                term.note_over(m, at, split, over)
            }
            (Kind::Transversal(term), KindNote::Transversal(split), KindNote::Transversal(over)) =>
                term.note_over(m, at, split, over),
            _ => false,
        }
    }
}
