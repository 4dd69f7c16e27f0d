// The same rank over some of the elements alone: these keep their order and their slots, and each independent one counts what is
// said. A part of the kept elements is independent among these where it is so among all.
ghost use Rattle.std.specs.Prelude.{◌≡◌, ℕ, length, pos, ◌≤ℤ◌, IfOk};
ghost use Rattle.sfm_spec.specs.{Bounds.{IsGiven}, Sets.{Has}};
ghost use Rattle.sfm_layers.specs.Kept.{kept};

use crate::transversal::Transversal;
use sfm_base::{Memory, Set};
use sfm_layers::kept_of;
use std::alloc::Global;

impl Transversal {
    /// The rank over the elements that are kept alone, which each count w where they are independent.
    ///
    /// # Errors
    ///
    /// `Memory` where there is none.
    pub fn restricted(&self, alloc: Global, keep: &Set, w: i128) -> Result<Transversal, Memory>
        requires each { length keep.now ≡ length self.now.places }
        requires some { (e : ℕ) × Has keep.now e }
        requires low { pos 0 ≤ℤ w }
        requires given { IsGiven w }
        ensures places { IfOk result (λ r. r.places ≡ kept keep.now self.now.places) }
        ensures number { IfOk result (λ r. r.w ≡ w) }
        ensures entries { IfOk result (λ r. r.entries ≡ kept keep.now self.now.entries) }
    {
        let elements = kept_of(alloc, keep, self.places.as_slice())?;
        let entries = self.entries.restricted(alloc, keep)?;
        Transversal::new(alloc, &elements, w, entries)
    }
}
