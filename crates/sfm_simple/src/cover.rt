// A number w that counts where a part has an element of the term.
// The bases of q times it have no negative entry, and q·w in all: so v can give to u whatever v has.
ghost use Rattle.std.specs.{Prelude.{◌≡◌, ◌↔◌, ◌≤◌, length, pos, ◌≤ℤ◌, IfOk, IsTrue}, List.{All}};
ghost use Rattle.sfm_spec.specs.{Bounds.{IsFactor, IsGiven, AreElements}, Terms.{IsGreedy}, Kinds.{cover_value}};
ghost use Rattle.sfm_simple.specs.CoverLaws.{cover_start, cover-family, cover-submodular, cover-bounded, cover-starts, cover-starts_small, cover-starts_times};

use sfm_base::{Memory, Places, Set};
use sfm_law::{At, Plain, Room, Swap, has_sum, product, put_others_over};
use std::alloc::Global;

/// A number for meeting the elements: the rank of a matroid of rank 1, times the number (Schrijver, Combinatorial
/// Optimization, section 44).
#[derive(Drop)]
pub struct Cover {
    pub places: Places,
    pub w: i128,
    pub ghost elements: { AreElements places },
    pub ghost few: { length places ≤ 256 },
    pub ghost low: { pos 0 ≤ℤ w },
    pub ghost given: { IsGiven w },
}

/// Whether no entry is negative.
fn none_negative(x: &[i128]) -> bool
    ensures { IsTrue result ↔ All (λ a. pos 0 ≤ℤ a) x.now }
{
    x.iter().all(|a| *a >= 0)
}

impl Cover {
    /// The term that counts w where a part has one of the elements, which are copied.
    pub fn new(alloc: Global, w: i128, elements: &[usize]) -> Result<Cover, Memory>
        requires low { pos 0 ≤ℤ w }
        requires given { IsGiven w }
        requires elements { AreElements elements.now }
        ensures places { IfOk result (λ r. r.places ≡ elements.now) }
        ensures number { IfOk result (λ r. r.w ≡ w) }
    {
        let places = Places::from_slice(alloc, elements)?;
        Ok(Cover { places, w })
    }

    /// A term that is equal in every part.
    ///
    /// # Errors
    ///
    /// `Memory` where there is none.
    pub fn copy(&self, alloc: Global) -> Result<Cover, Memory>
        ensures { IfOk result (λ r. r ≡ self.now) }
    {
        let places = Places::from_slice(alloc, self.places.as_slice())?;
        Ok(Cover { places, w: self.w })
    }

    /// Writes zeros, but q·w at the first place.
    fn write_start(&self, q: i128, x: &mut [i128])
        requires factor { IsFactor q }
        requires entries { length x.old ≡ length self.now.places }
        ensures { x.new ≡ cover_start q self.now.w (length self.now.places) }
    {
        x.fill(0);
        x[0] = product(q, self.w);
    }
}

impl Plain for Cover {
    type Note = ();

    ghost places = { λ s. s.places };

    ghost value_of = { λ s. cover_value s.w };

    ghost size_of = { λ s. s.w };

    ghost start_of = { λ s q. cover_start q s.w (length s.places) };

    ghost family = { λ s. cover-family s.w };

    ghost submodular = { λ s. cover-submodular _ s.w s.low };

    ghost bounded = { λ s t a h e. cover-bounded s.w t a s.low e };

    ghost starts = { λ s q low. cover-starts _ q s.w s.elements.some low s.low };

    ghost starts_small = { λ s q low. cover-starts_small _ q s.w s.elements.some low s.low };

    ghost starts_times = { λ s q. cover-starts_times (length s.places) q s.w };

    fn elements_of(&self) -> &[usize] {
        self.places.as_slice()
    }

    fn size_of(&self) -> i128 {
        self.w
    }

    /// The value of a part: every part is allowed.
    fn value_of(&self, _alloc: Global, s: &Set) -> Result<Option<i128>, Memory> {
        if s.size() == 0 {
            return Ok(Some(0));
        }
        Ok(Some(self.w))
    }

    /// Writes the base with all of q·w at the first place.
    fn start_of(&self, q: i128, x: &mut [i128])
        requires factor { IsFactor q }
        requires entries { length x.old ≡ length self.now.places }
        ensures start { x.new ≡ cover_start q self.now.w (length self.now.places) }
        ensures greedy { IsGreedy q (cover_value self.now.w) (length self.now.places) x.new }
    {
        self.write_start(q, x);
    }

    /// Whether x is a base of q times the term.
    fn is_base_of(&self, q: i128, x: &[i128]) -> bool {
        none_negative(x) && has_sum(x, product(q, self.w))
    }

    /// The room of (u, v) at a base: what v has.
    fn room_of(&self, at: &At<'_>, _note: Option<&()>, _u: usize, v: usize) -> Room {
        Room::Upto(at.x[v])
    }

    /// Writes the places other than u to which u has room at a base: those that have something.
    fn reach_of(&self, at: &At<'_>, _note: Option<&()>, u: usize, to: &mut Set) {
        put_others_over(at.x, u, Some(0), to);
    }

    fn note_of(&self, _alloc: Global, _at: &At<'_>) -> Result<(), Memory> {
        Ok(())
    }

    fn note_moved(&self, _at: &At<'_>, _note: &mut (), _swap: &Swap) {}
}
