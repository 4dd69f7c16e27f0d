// The plain terms: what is asked of them at a base takes no memory. A note that is kept beside the base tells it where there is
// one, and else the base alone. So the calls with a note and those without one are one call here. What such a term gives is
// said once, and makes it a term: each call of a term passes on to the plain one. An allocator is handed on only where a value
// is found or a note is made. A term that keeps nothing has the note `()`, which fits each base.
ghost use Rattle.std.specs.{Prelude.{◌≡◌, ◌≢◌, ◌↔◌, ℕ, ◌<◌, Bool, List, length, map, ℤ, pos, neg_ℤ, ◌*ℤ◌, ◌≤ℤ◌, IfOk, IfSome, IsOk, IsTrue, Some, None}, List.{All}};
ghost use Rattle.sfm_spec.specs.{Bounds.{IsEntry, IsFactor}, Terms.{SetFunction, times, IsBase, IsFamily, IsSubmodular, exchanged}};
ghost use Rattle.sfm_law.specs.{Based.{CanSwap}, Room.{IsRoom, IsReach}};

use crate::at::{At, Lead, Swap};
use crate::room::Room;
use crate::term::Term;
use sfm_base::{Memory, Set};
use std::alloc::Global;

/// A term that takes no memory but where a value is found or a note is made. What its members and calls mean is said at `Term`.
pub trait Plain {
    /// What is kept beside a base, so that its rooms and its reach are found sooner; `()` where nothing is kept.
    type Note: Drop;

    /// The places of the ground, by local place.
    ghost places: { Self → List ℕ };

    /// The value at each allowed part.
    ghost value_of: { Self → SetFunction };

    /// A bound on the magnitude of each value.
    ghost size_of: { Self → ℤ };

    /// The base that `start_of` gives at a factor.
    ghost start_of: { Self → ℤ → List ℤ };

    /// Where it holds, `value_of` takes no memory and answers Ok.
    ghost lean_value: { Self → Type 0 } = { λ _. Unit {0} };

    /// What a note keeps is true of a base at a factor.
    ghost fits: { Self → Self.Note → ℤ → List ℤ → Type 0 } = { λ _ _ _ _. Unit {0} };

    /// The places of the ground, by local place: distinct.
    fn elements_of(&self) -> &[usize]
        ensures { result.now ≡ places self.now };

    /// Whether a row is cheap, or cheaper beside others, so that it is to be found again at once. Nothing hangs on it.
    fn has_cheap_rows(&self) -> bool {
        false
    }

    /// A bound on the magnitude of each value.
    fn size_of(&self) -> i128
        ensures { result ≡ size_of self.now };

    /// The value of a part, or None exactly where the part is not allowed.
    ///
    /// # Errors
    ///
    /// `Memory` where there is none, and never where the value is lean.
    fn value_of(&self, alloc: Global, s: &Set) -> Result<Option<i128>, Memory>
        requires { length s.now ≡ length (places self.now) }
        ensures value { IfOk result (λ r. r ≡ value_of self.now s.now) }
        ensures sure { lean_value self.now → IsOk result };

    /// Writes a first base of q times the term.
    fn start_of(&self, q: i128, x: &mut [i128])
        requires factor { IsFactor q }
        requires entries { length x.old ≡ length (places self.now) }
        ensures start { x.new ≡ start_of self.now q };

    /// Whether x is a base of q times the term.
    fn is_base_of(&self, q: i128, x: &[i128]) -> bool
        requires factor { IsFactor q }
        requires entries { length x.now ≡ length (places self.now) }
        requires small { All IsEntry x.now }
        ensures { IsTrue result ↔ IsBase (times q (value_of self.now)) x.now };

    /// The room of (u, v) at a base, by a note that fits it if there is one.
    fn room_of(&self, at: &At<'_>, note: Option<&Self::Note>, u: usize, v: usize) -> Room
        requires factor { IsFactor at.now.q }
        requires entries { length at.now.x.now ≡ length (places self.now) }
        requires small { All IsEntry at.now.x.now }
        requires base { IsBase (times at.now.q (value_of self.now)) at.now.x.now }
        requires noted { IfSome note (λ n. fits self.now n.now at.now.q at.now.x.now) }
        requires apart { u ≢ v }
        requires from { u < length at.now.x.now }
        requires onto { v < length at.now.x.now }
        ensures { IsRoom (times at.now.q (value_of self.now)) at.now.x.now u v result };

    /// Writes the places other than u to which u has room at a base, by a note that fits it if there is one.
    fn reach_of(&self, at: &At<'_>, note: Option<&Self::Note>, u: usize, to: &mut Set)
        requires factor { IsFactor at.now.q }
        requires entries { length at.now.x.now ≡ length (places self.now) }
        requires small { All IsEntry at.now.x.now }
        requires base { IsBase (times at.now.q (value_of self.now)) at.now.x.now }
        requires noted { IfSome note (λ n. fits self.now n.now at.now.q at.now.x.now) }
        requires from { u < length at.now.x.now }
        requires room_for_answer { length to.old ≡ length at.now.x.now }
        ensures places { length to.new ≡ length to.old }
        ensures reached { IsReach (times at.now.q (value_of self.now)) at.now.x.now u to.new };

    /// A note that fits a base.
    ///
    /// # Errors
    ///
    /// `Memory` where there is none.
    fn note_of(&self, alloc: Global, at: &At<'_>) -> Result<Self::Note, Memory>
        requires factor { IsFactor at.now.q }
        requires entries { length at.now.x.now ≡ length (places self.now) }
        requires small { All IsEntry at.now.x.now }
        requires base { IsBase (times at.now.q (value_of self.now)) at.now.x.now }
        ensures { IfOk result (λ r. fits self.now r at.now.q at.now.x.now) };

    /// Brings a note that fits a base up to the base that an exchange makes.
    fn note_moved(&self, at: &At<'_>, note: &mut Self::Note, swap: &Swap)
        requires factor { IsFactor at.now.q }
        requires entries { length at.now.x.now ≡ length (places self.now) }
        requires small { All IsEntry at.now.x.now }
        requires base { IsBase (times at.now.q (value_of self.now)) at.now.x.now }
        requires noted { fits self.now note.old at.now.q at.now.x.now }
        requires can { CanSwap (times at.now.q (value_of self.now)) at.now.x.now swap.now.u
            swap.now.v swap.now.a }
        ensures { fits self.now note.new at.now.q (exchanged at.now.x.now swap.now.u swap.now.v
            swap.now.a) };

    /// The empty and the whole part are allowed, and unions and intersections of allowed parts are.
    ghost family: { (term : Self) → IsFamily (length (places term)) (value_of term) };

    /// No two allowed parts have less in all than their union and their intersection, and the empty part has 0.
    ghost submodular: { (term : Self) → IsSubmodular (length (places term)) (value_of term) };

    /// Each value lies between -size and size.
    ghost bounded: { (term : Self) (s : List Bool) (a : ℤ) → length s ≡ length (places term)
        → value_of term s ≡ Some a → (neg_ℤ (size_of term) ≤ℤ a) × (a ≤ℤ size_of term) };

    /// The start is a base.
    ghost starts: { (term : Self) (q : ℤ) → pos 1 ≤ℤ q → (length (start_of term q)
        ≡ length (places term)) × IsBase (times q (value_of term)) (start_of term q) };

    /// Each entry of the start lies between -2·q·size and 2·q·size.
    ghost starts_small: { (term : Self) (q : ℤ) → pos 1 ≤ℤ q
        → All (λ a. (neg_ℤ (pos 2 *ℤ q *ℤ size_of term) ≤ℤ a) × (a ≤ℤ (pos 2 *ℤ q *ℤ size_of term)))
        (start_of term q) };

    /// The start at a factor is so many times that of the term itself.
    ghost starts_times: { (term : Self) (q : ℤ)
        → start_of term q ≡ map (λ a. q *ℤ a) (start_of term (pos 1)) };
}

/// No note. The term tells how long one might live.
fn no_note<T: Plain>(_term: &T) -> Option<&T::Note>
    ensures { result ≡ None }
{
    None
}

impl<T: Plain> Term for T {
    type Note = T::Note;

    ghost places = { T.places };

    ghost value_of = { T.value_of };

    ghost size_of = { T.size_of };

    ghost start_of = { T.start_of };

    ghost lean_value = { T.lean_value };

    ghost lean_calls = { λ s. Unit {0} };

    ghost fits = { T.fits };

    ghost family = { T.family };

    ghost submodular = { T.submodular };

    ghost bounded = { T.bounded };

    ghost starts = { T.starts };

    ghost starts_small = { T.starts_small };

    ghost starts_times = { T.starts_times };

    fn elements(&self) -> &[usize] {
        self.elements_of()
    }

    fn asks_at_once(&self) -> bool {
        self.has_cheap_rows()
    }

    fn size(&self) -> i128 {
        self.size_of()
    }

    fn value(&self, alloc: Global, s: &Set) -> Result<Option<i128>, Memory> {
        self.value_of(alloc, s)
    }

    fn start(&self, _alloc: Global, q: i128, x: &mut [i128]) -> Result<(), Memory> {
        self.start_of(q, x);
        Ok(())
    }

    fn is_base(&self, _alloc: Global, q: i128, x: &[i128]) -> Result<bool, Memory> {
        Ok(self.is_base_of(q, x))
    }

    fn room(&self, _alloc: Global, at: &At<'_>, u: usize, v: usize) -> Result<Room, Memory> {
        Ok(self.room_of(at, no_note(self), u, v))
    }

    fn reach(&self, _alloc: Global, at: &At<'_>, u: usize, to: &mut Set) -> Result<(), Memory> {
        self.reach_of(at, no_note(self), u, to);
        Ok(())
    }

    fn note(&self, alloc: Global, at: &At<'_>) -> Result<T::Note, Memory> {
        self.note_of(alloc, at)
    }

    fn reach_by(
        &self,
        _alloc: Global,
        at: &At<'_>,
        note: &mut T::Note,
        lead: &Lead,
        to: &mut Set,
    ) -> Result<(), Memory> {
        self.reach_of(at, Some(note), lead.from, to);
        Ok(())
    }

    fn room_by(
        &self,
        _alloc: Global,
        at: &At<'_>,
        note: &mut T::Note,
        swap: &Swap,
    ) -> Result<i128, Memory> {
        let room = self.room_of(at, Some(note), swap.u, swap.v);
        Ok(room.upto(swap.a))
    }

    fn moved(
        &self,
        _alloc: Global,
        at: &At<'_>,
        note: &mut T::Note,
        swap: &Swap,
    ) -> Result<(), Memory> {
        self.note_moved(at, note, swap);
        Ok(())
    }
}
