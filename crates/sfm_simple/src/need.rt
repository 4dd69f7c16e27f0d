// A condition: a part with the first of two elements has the second too. Each allowed part has the value 0.
// Its bases are t at the first and -t at the second, with t at least 0: from the first to the second every number can
// be exchanged, and from the second to the first as much as the first has.
ghost use Rattle.std.specs.Prelude.{◌≡◌, ◌≢◌, ◌↔◌, ◌<◌, [], ◌∷◌, length, pos, ◌+ℤ◌, ◌≤ℤ◌, IsTrue};
ghost use Rattle.sfm_spec.specs.{Bounds.{IsEntry, AreElements}, Kinds.{need_value}};
ghost use Rattle.sfm_simple.specs.NeedLaws.{need-family, need-submodular, need-bounded, need-starts, need-starts_small, need-starts_times};

use crate::pair::put_other;
use sfm_base::{Memory, Set};
use sfm_law::{At, Plain, Room, Swap};
use std::alloc::Global;

/// A condition that ties the first of two elements to the second: the parts that keep it are closed under union and
/// intersection (Schrijver, Combinatorial Optimization, section 49).
#[derive(Drop)]
pub struct Need {
    pub places: [usize; 2],
    pub ghost elements: { AreElements places },
    pub ghost two: { length places ≡ 2 },
}

/// Whether the first is not negative and the second is its opposite.
fn are_opposite(first: i128, second: i128) -> bool
    requires first_small { IsEntry first }
    requires second_small { IsEntry second }
    ensures { IsTrue result ↔ ((pos 0 ≤ℤ first) × ((first +ℤ second) ≡ pos 0)) }
{
    first >= 0 && first + second == 0
}

impl Need {
    /// The condition that a part with the element a has the element b.
    pub fn new(a: usize, b: usize) -> Need
        requires first { a < 256 }
        requires second { b < 256 }
        requires apart { a ≢ b }
        ensures { result.places ≡ a ∷ b ∷ [] }
    {
        Need { places: [a, b] }
    }

    /// A condition that is equal in every part.
    pub fn copy(&self) -> Need
        ensures { result ≡ self.now }
    {
        Need {
            places: self.places,
        }
    }
}

impl Plain for Need {
    type Note = ();

    ghost places = { λ s. s.places };

    ghost value_of = { λ s. need_value };

    ghost size_of = { λ s. pos 0 };

    ghost start_of = { λ s q. pos 0 ∷ pos 0 ∷ [] };

    ghost family = { λ s. need-family _ s.two };

    ghost submodular = { λ s. need-submodular _ s.two };

    ghost bounded = { λ s t a h e. need-bounded t a e };

    ghost starts = { λ s q low. need-starts _ q s.two };

    ghost starts_small = { λ s q low. need-starts_small q };

    ghost starts_times = { λ s q. need-starts_times q };

    fn elements_of(&self) -> &[usize] {
        &self.places
    }

    fn size_of(&self) -> i128 {
        0
    }

    /// The value of a part: 0, or None where the part has the first element and not the second.
    fn value_of(&self, _alloc: Global, s: &Set) -> Result<Option<i128>, Memory> {
        if s.contains(0) && !s.contains(1) {
            return Ok(None);
        }
        Ok(Some(0))
    }

    /// Writes the base of zeros.
    fn start_of(&self, _q: i128, x: &mut [i128]) {
        x[0] = 0;
        x[1] = 0;
    }

    /// Whether x is a base of q times the term.
    fn is_base_of(&self, _q: i128, x: &[i128]) -> bool {
        are_opposite(x[0], x[1])
    }

    /// The room of (u, v) at a base: unbounded from the first to the second, else what the first has.
    fn room_of(&self, at: &At<'_>, _note: Option<&()>, u: usize, _v: usize) -> Room {
        if u == 0 {
            return Room::Unbounded;
        }
        Room::Upto(at.x[0])
    }

    /// Writes the places other than u to which u has room at a base.
    fn reach_of(&self, at: &At<'_>, note: Option<&()>, u: usize, to: &mut Set) {
        put_other(self.room_of(at, note, u, 1 - u), u, to);
    }

    fn note_of(&self, _alloc: Global, _at: &At<'_>) -> Result<(), Memory> {
        Ok(())
    }

    fn note_moved(&self, _at: &At<'_>, _note: &mut (), _swap: &Swap) {}
}
