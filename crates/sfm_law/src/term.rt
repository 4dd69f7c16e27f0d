// What a term of a sum is: a submodular function of a few places, with a test of bases, exchange capacities,
// and a first base. Everything above speaks of terms by this trait alone.
ghost use Rattle.std.specs.{Prelude.{◌≡◌, ◌↔◌, ℕ, ◌<◌, ◌^◌, Bool, List, length, map, ℤ, pos, neg_ℤ, ◌*ℤ◌, ◌≤ℤ◌, IfOk, IfSome, IsOk, OnOk, IsTrue, Some}, List.{All}};
ghost use Rattle.sfm_spec.specs.{Bounds.{IsEntry, IsFactor}, Rows.{Depends}, Terms.{SetFunction, times, IsBase, IsFamily, IsSubmodular, exchanged}};
ghost use Rattle.sfm_law.specs.{Based.{IsBased, IsPair, CanSwap}, Room.{IsRoom, IsCapacityUpto, IsReach}};

use crate::at::{At, Lead, Swap};
use crate::room::Room;
use sfm_base::{Memory, Set};
use std::alloc::Global;

/// A term of k elements. Its calls speak of the local places 0 to k-1; a part is a set of them.
///
/// A base of q times the term is a vector that gives no allowed part more than q times its value, and the whole
/// exactly that (Schrijver, Combinatorial Optimization, section 44).
pub trait Term {
    /// What is kept beside a base, so that its reach is found sooner.
    type Note: Drop;

    /// The places of the ground, by local place.
    ghost places: { Self → List ℕ };

    /// The value at each allowed part.
    ghost value_of: { Self → SetFunction };

    /// A bound on the magnitude of each value.
    ghost size_of: { Self → ℤ };

    /// The base that `start` gives at a factor.
    ghost start_of: { Self → ℤ → List ℤ };

    /// Where it holds, `value` takes no memory and answers Ok.
    ghost lean_value: { Self → Type 0 };

    /// Where it holds, `start`, `is_base`, `room` and `reach` take no memory and answer Ok.
    ghost lean_calls: { Self → Type 0 };

    /// What a note keeps is true of a base at a factor.
    ghost fits: { Self → Self.Note → ℤ → List ℤ → Type 0 };

    /// The places of the ground, by local place: distinct.
    fn elements(&self) -> &[usize]
        ensures { result.now ≡ places self.now };

    /// Places in an order in which their rows are found sooner, one after another. Nothing hangs on it.
    fn order(&self) -> Option<&[usize]> {
        None
    }

    /// Whether rows that may have changed are to be found again at once, and not only once a walk wants them: where a row is
    /// cheap, or cheaper beside others. Nothing hangs on it.
    fn asks_at_once(&self) -> bool {
        false
    }

    /// A bound on the magnitude of each value.
    fn size(&self) -> i128
        ensures { result ≡ size_of self.now };

    /// The value of a part, or None exactly where the part is not allowed.
    fn value(&self, alloc: Global, s: &Set) -> Result<Option<i128>, Memory>
        requires { length s.now ≡ length (places self.now) }
        ensures value { IfOk result (λ r. r ≡ value_of self.now s.now) }
        ensures sure { lean_value self.now → IsOk result };

    /// Writes a first base of q times the term.
    fn start(&self, alloc: Global, q: i128, x: &mut [i128]) -> Result<(), Memory>
        requires factor { IsFactor q }
        requires entries { length x.old ≡ length (places self.now) }
        requires bounded { size_of self.now ≤ℤ pos (10 ^ 18) }
        ensures start { OnOk result (x.new ≡ start_of self.now q) }
        ensures sure { lean_calls self.now → IsOk result };

    /// Whether x is a base of q times the term.
    fn is_base(&self, alloc: Global, q: i128, x: &[i128]) -> Result<bool, Memory>
        requires factor { IsFactor q }
        requires entries { length x.now ≡ length (places self.now) }
        requires bounded { size_of self.now ≤ℤ pos (10 ^ 18) }
        requires small { All IsEntry x.now }
        ensures told { IfOk result (λ r. IsTrue r ↔ IsBase (times q (value_of self.now)) x.now) }
        ensures sure { lean_calls self.now → IsOk result };

    /// The room of (u, v) at a base.
    fn room(&self, alloc: Global, at: &At<'_>, u: usize, v: usize) -> Result<Room, Memory>
        requires based { IsBased places value_of size_of self.now at.now.q at.now.x.now }
        requires pair { IsPair u v at.now.x.now }
        ensures room { IfOk result (IsRoom (times at.now.q (value_of self.now)) at.now.x.now u v) }
        ensures sure { lean_calls self.now → IsOk result };

    /// Writes the places other than u to which u has room at a base.
    fn reach(&self, alloc: Global, at: &At<'_>, u: usize, to: &mut Set) -> Result<(), Memory>
        requires based { IsBased places value_of size_of self.now at.now.q at.now.x.now }
        requires from { u < length at.now.x.now }
        requires room_for_answer { length to.old ≡ length at.now.x.now }
        ensures places { length to.new ≡ length to.old }
        ensures reached { OnOk result (IsReach (times at.now.q (value_of self.now)) at.now.x.now u
            to.new) }
        ensures sure { lean_calls self.now → IsOk result };

    /// A note that fits a base.
    fn note(&self, alloc: Global, at: &At<'_>) -> Result<Self::Note, Memory>
        requires { IsBased places value_of size_of self.now at.now.q at.now.x.now }
        ensures { IfOk result (λ r. fits self.now r at.now.q at.now.x.now) };

    /// Writes the places other than the first of a lead to which that has room, by a note that fits the base, which fits it
    /// still: it may remember what was found. A note that was last moved to raise the second may find that sooner. After want
    /// of memory nothing is said of the note.
    fn reach_by(
        &self,
        alloc: Global,
        at: &At<'_>,
        note: &mut Self::Note,
        lead: &Lead,
        to: &mut Set,
    ) -> Result<(), Memory>
        requires based { IsBased places value_of size_of self.now at.now.q at.now.x.now }
        requires noted { fits self.now note.old at.now.q at.now.x.now }
        requires from { lead.now.from < length at.now.x.now }
        requires onto { lead.now.onto < length at.now.x.now }
        requires leads { Depends (times at.now.q (value_of self.now)) at.now.x.now lead.now.from
            lead.now.onto }
        requires room_for_answer { length to.old ≡ length at.now.x.now }
        ensures places { length to.new ≡ length to.old }
        ensures reached { OnOk result (IsReach (times at.now.q (value_of self.now)) at.now.x.now
            lead.now.from to.new) }
        ensures noted { OnOk result (fits self.now note.new at.now.q at.now.x.now) };

    /// How much of an amount a place can be raised by and another one lowered at a base: their room, as far as it is wanted. It is
    /// told by a note that fits the base, which fits it still. After want of memory nothing is said of the note.
    fn room_by(
        &self,
        alloc: Global,
        at: &At<'_>,
        _note: &mut Self::Note,
        swap: &Swap,
    ) -> Result<i128, Memory>
        requires based { IsBased places value_of size_of self.now at.now.q at.now.x.now }
        requires noted { fits self.now _note.old at.now.q at.now.x.now }
        requires pair { IsPair swap.now.u swap.now.v at.now.x.now }
        requires wanted { pos 0 ≤ℤ swap.now.a }
        ensures room { IfOk result (IsCapacityUpto (times at.now.q (value_of self.now)) at.now.x.now
            swap.now.u swap.now.v swap.now.a) }
        ensures noted { OnOk result (fits self.now _note.new at.now.q at.now.x.now) }
    {
        let room = self.room(alloc, at, swap.u, swap.v)?;
        Ok(room.upto(swap.a))
    }

    /// Brings a note that fits a base up to the base that an exchange makes. After want of memory nothing is said of the note.
    fn moved(
        &self,
        alloc: Global,
        at: &At<'_>,
        note: &mut Self::Note,
        swap: &Swap,
    ) -> Result<(), Memory>
        requires based { IsBased places value_of size_of self.now at.now.q at.now.x.now }
        requires noted { fits self.now note.old at.now.q at.now.x.now }
        requires can { CanSwap (times at.now.q (value_of self.now)) at.now.x.now swap.now.u
            swap.now.v swap.now.a }
        ensures { OnOk result (fits self.now note.new at.now.q (exchanged at.now.x.now swap.now.u
            swap.now.v swap.now.a)) };

    /// A note that fits m times a base, made of one that fits the base; or None, where none is made so and it is to be made anew
    /// once it is wanted.
    fn note_times(
        &self,
        _alloc: Global,
        _m: i128,
        _at: &At<'_>,
        _note: &Self::Note,
    ) -> Result<Option<Self::Note>, Memory>
        requires times { IsFactor _m }
        requires based { IsBased places value_of size_of self.now _at.now.q _at.now.x.now }
        requires multiple { IsBased places value_of size_of self.now (_m *ℤ _at.now.q)
            (map (λ a. _m *ℤ a) _at.now.x.now) }
        requires noted { fits self.now _note.now _at.now.q _at.now.x.now }
        ensures { IfOk result (λ r. IfSome r (λ n. fits self.now n (_m *ℤ _at.now.q)
            (map (λ a. _m *ℤ a) _at.now.x.now))) }
    {
        Ok(None)
    }

    /// Writes a note that fits m times a base, made as `note_times` makes one, in the memory of another note of the term; or tells
    /// false where it writes none: nothing is said of that other note then.
    fn note_over(&self, _m: i128, _at: &At<'_>, _note: &Self::Note, _over: &mut Self::Note) -> bool
        requires times { IsFactor _m }
        requires based { IsBased places value_of size_of self.now _at.now.q _at.now.x.now }
        requires multiple { IsBased places value_of size_of self.now (_m *ℤ _at.now.q)
            (map (λ a. _m *ℤ a) _at.now.x.now) }
        requires noted { fits self.now _note.now _at.now.q _at.now.x.now }
        requires other { (q : ℤ) × (x : List ℤ) × fits self.now _over.old q x }
        ensures { IsTrue result → fits self.now _over.new (_m *ℤ _at.now.q)
            (map (λ a. _m *ℤ a) _at.now.x.now) }
    {
        false
    }

    /// The empty and the whole part are allowed, and unions and intersections of allowed parts are.
    ghost family: { (term : Self) → IsFamily (length (places term)) (value_of term) };

    /// No two allowed parts have less in all than their union and their intersection, and the empty part has 0.
    ghost submodular: { (term : Self) → IsSubmodular (length (places term)) (value_of term) };

    /// Each value lies between -size and size.
    ghost bounded: { (term : Self) (s : List Bool) (a : ℤ) → length s ≡ length (places term)
        → value_of term s ≡ Some a → (neg_ℤ (size_of term) ≤ℤ a) × (a ≤ℤ size_of term) };

    /// The start is a base.
    ghost starts: { (term : Self) (q : ℤ) → pos 1 ≤ℤ q → (length (start_of term q)
        ≡ length (places term)) × IsBase (times q (value_of term)) (start_of term q) };

    /// Each entry of the start lies between -2·q·size and 2·q·size.
    ghost starts_small: { (term : Self) (q : ℤ) → pos 1 ≤ℤ q
        → All (λ a. (neg_ℤ (pos 2 *ℤ q *ℤ size_of term) ≤ℤ a) × (a ≤ℤ (pos 2 *ℤ q *ℤ size_of term)))
        (start_of term q) };

    /// The start at a factor is so many times that of the term itself.
    ghost starts_times: { (term : Self) (q : ℤ)
        → start_of term q ≡ map (λ a. q *ℤ a) (start_of term (pos 1)) };
}
