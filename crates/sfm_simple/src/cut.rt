// A number c that counts where a part has the first of two elements and not the second.
// The bases of q times it are t at the first and -t at the second, with t from 0 to q·c.
ghost use Rattle.std.specs.Prelude.{◌≡◌, ◌≢◌, ◌↔◌, ◌<◌, [], ◌∷◌, length, pos, ◌+ℤ◌, ◌≤ℤ◌, IsTrue};
ghost use Rattle.sfm_spec.specs.{Bounds.{IsEntry, IsFactor, IsGiven, AreElements}, Terms.{IsGreedy}, Kinds.{cut_value}};
ghost use Rattle.sfm_simple.specs.CutLaws.{cut_start, cut-family, cut-submodular, cut-bounded, cut-starts, cut-starts_small, cut-starts_times};

use crate::pair::put_other;
use sfm_base::{Memory, Set};
use sfm_law::{At, Plain, Room, Swap, product};
use std::alloc::Global;

/// The capacity of an arc from the first element to the second: a cut function (Schrijver, Combinatorial Optimization,
/// section 44).
#[derive(Drop)]
pub struct Cut {
    pub places: [usize; 2],
    pub c: i128,
    pub ghost elements: { AreElements places },
    pub ghost two: { length places ≡ 2 },
    pub ghost low: { pos 0 ≤ℤ c },
    pub ghost given: { IsGiven c },
}

/// Whether the first lies from 0 to the limit and the second is its opposite.
fn are_opposite_within(first: i128, second: i128, limit: i128) -> bool
    requires first_small { IsEntry first }
    requires second_small { IsEntry second }
    ensures { IsTrue result ↔ ((pos 0 ≤ℤ first) × (first ≤ℤ limit) × ((first +ℤ second) ≡ pos 0)) }
{
    first >= 0 && first <= limit && first + second == 0
}

impl Cut {
    /// The term that counts c where a part has the element a and not the element b.
    pub fn new(c: i128, a: usize, b: usize) -> Cut
        requires low { pos 0 ≤ℤ c }
        requires given { IsGiven c }
        requires first { a < 256 }
        requires second { b < 256 }
        requires apart { a ≢ b }
        ensures places { result.places ≡ a ∷ b ∷ [] }
        ensures number { result.c ≡ c }
    {
        Cut { places: [a, b], c }
    }

    /// A term that is equal in every part.
    pub fn copy(&self) -> Cut
        ensures { result ≡ self.now }
    {
        Cut {
            places: self.places,
            c: self.c,
        }
    }
}

impl Plain for Cut {
    type Note = ();

    ghost places = { λ s. s.places };

    ghost value_of = { λ s. cut_value s.c };

    ghost size_of = { λ s. s.c };

    ghost start_of = { λ s q. cut_start q s.c };

    ghost family = { λ s. cut-family s.c };

    ghost submodular = { λ s. cut-submodular _ s.c s.two s.low };

    ghost bounded = { λ s t a h e. cut-bounded s.c t a s.low e };

    ghost starts = { λ s q low. cut-starts _ q s.c s.two low s.low };

    ghost starts_small = { λ s q low. cut-starts_small q s.c low s.low };

    ghost starts_times = { λ s q. cut-starts_times q s.c };

    fn elements_of(&self) -> &[usize] {
        &self.places
    }

    fn size_of(&self) -> i128 {
        self.c
    }

    /// The value of a part: every part is allowed.
    fn value_of(&self, _alloc: Global, s: &Set) -> Result<Option<i128>, Memory> {
        if s.contains(0) && !s.contains(1) {
            return Ok(Some(self.c));
        }
        Ok(Some(0))
    }

    /// Writes the base that moves q·c from the second place to the first.
    fn start_of(&self, q: i128, x: &mut [i128])
        requires factor { IsFactor q }
        requires entries { length x.old ≡ length self.now.places }
        ensures start { x.new ≡ cut_start q self.now.c }
        ensures greedy { IsGreedy q (cut_value self.now.c) (length self.now.places) x.new }
    {
        let most = product(q, self.c);
        x[0] = most;
        x[1] = -most;
    }

    /// Whether x is a base of q times the term.
    fn is_base_of(&self, q: i128, x: &[i128]) -> bool {
        are_opposite_within(x[0], x[1], product(q, self.c))
    }

    /// The room of (u, v) at a base: what is left of q·c from the first to the second, else what the first has.
    fn room_of(&self, at: &At<'_>, _note: Option<&()>, u: usize, _v: usize) -> Room {
        if u == 0 {
            return Room::Upto(product(at.q, self.c) - at.x[0]);
        }
        Room::Upto(at.x[0])
    }

    /// Writes the places other than u to which u has room at a base.
    fn reach_of(&self, at: &At<'_>, note: Option<&()>, u: usize, to: &mut Set) {
        put_other(self.room_of(at, note, u, 1 - u), u, to);
    }

    fn note_of(&self, _alloc: Global, _at: &At<'_>) -> Result<(), Memory> {
        Ok(())
    }

    fn note_moved(&self, _at: &At<'_>, _note: &mut (), _swap: &Swap) {}
}
