// The ground places of one part of a term after another. Parts that are told one after another are often nearly the same, so
// the ground places are kept beside the part that has them, and the places alone are looked at in which the next part differs.
// Where the places of the term are the first of the ground, in their order, a part is its own image, and is taken over by words.
ghost use Rattle.std.specs.Prelude.{◌≡◌, ◌↔◌, ℕ, ◌<◌, length, IfOk, IsTrue};
ghost use Rattle.sfm_spec.specs.Sets.{IsPlaced};
ghost use Rattle.sfm_reach.specs.{declared.bits.Bits.{Bits}, Bits.{HasPlaces, bit_in}, Image.{AreInOrder, HasImages, IsImage}};

use crate::ahead::Ahead;
use crate::bits::{Bits, no_bits, of_words};
use sfm_base::{Memory, Set};
use std::alloc::Global;
use std::mem;

/// A part of a term and its ground places, and the part that comes next.
pub struct Image {
    pub part: Set,
    pub bits: Bits,
    pub next: Set,
    /// Whether the places of the term are in order.
    pub in_order: bool,
    ghost next_places: { length next ≡ length part },
}

// Written out, so that letting one go is one step, which is proved here once.
impl Drop for Image {
    fn drop(self) {
        let Self {
            part: _,
            bits: _,
            next: _,
            in_order: _,
        } = self;
    }
}

impl Image {
    /// The part with no place, of a term with some places.
    pub fn blank(alloc: Global, places: &[usize]) -> Result<Image, Memory>
        ensures { IfOk result (λ r. IsImage places.now r.part r.bits r.in_order) }
    {
        let k = places.len();
        Ok(Image {
            part: Set::empty(alloc, k)?,
            bits: no_bits(),
            next: Set::empty(alloc, k)?,
            in_order: are_in_order(places),
        })
    }

    /// Takes every place out of the part, of a term with as many places.
    pub fn clear(&mut self, places: &[usize])
        requires { length self.old.part ≡ length places.now }
        ensures { IsImage places.now self.new.part self.new.bits self.new.in_order }
    {
        self.part.clear();
        self.bits = no_bits();
        self.in_order = are_in_order(places);
    }

    /// The ground places of the next part. Where the places are not in order, the part becomes the next one.
    pub fn turn(&mut self, places: &[usize]) -> Bits
        requires placed { IsPlaced 256 places.now }
        requires image { IsImage places.now self.old.part self.old.bits self.old.in_order }
        ensures image { IsImage places.now self.new.part self.new.bits self.new.in_order }
        ensures places { HasPlaces places.now self.old.next (length places.now) result }
    {
        let next = of_words(self.next.words());
        if self.in_order {
            return next;
        }
        let part = of_words(self.part.words());
        write_changed(places, &part.differing(&next), &next, &mut self.bits);
        mem::swap(&mut self.part, &mut self.next);
        self.bits
    }
}

/// Writes the ground places of the next part over those of the part before, place by place where the two differ.
pub(crate) fn write_changed(places: &[usize], changed: &Bits, next: &Bits, bits: &mut Bits)
    requires placed { IsPlaced 256 places.now }
    requires inside { (v : ℕ) → bit_in changed.now v ≡ 1 → v < length places.now }
    requires before { (part : Bits) × HasImages places.now part bits.old
        × ((v : ℕ) → bit_in changed.now v ≡ 0 → bit_in part v ≡ bit_in next.now v) }
    ensures { HasImages places.now next.now bits.new }
{
    let mut ahead = Ahead::of(changed);
    while let Some(v) = ahead.next() {
        bits.write(places[v], next.contains(v));
    }
}

/// Whether the places of a term are the first of the ground, in their order.
pub fn are_in_order(places: &[usize]) -> bool
    ensures { IsTrue result ↔ AreInOrder places.now }
{
    for (u, place) in places.iter().enumerate() {
        if *place != u {
            return false;
        }
    }
    true
}
