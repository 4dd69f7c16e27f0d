// The same rank over some of the edges alone: these keep their order and their ends, and each independent one counts what is
// said. A part of the kept edges is independent among these where it is so among all.
ghost use Rattle.std.specs.Prelude.{◌≡◌, ℕ, length, pos, ◌≤ℤ◌, IfOk};
ghost use Rattle.sfm_spec.specs.{Bounds.{IsGiven}, Sets.{Has}};
ghost use Rattle.sfm_layers.specs.Kept.{kept};

use crate::graphic::Graphic;
use sfm_base::{Memory, Set};
use sfm_layers::kept_of;
use std::alloc::Global;

impl Graphic {
    /// The rank over the edges that are kept alone, which each count w where they are independent.
    ///
    /// # Errors
    ///
    /// `Memory` where there is none.
    pub fn restricted(&self, alloc: Global, keep: &Set, w: i128) -> Result<Graphic, Memory>
        requires each { length keep.now ≡ length self.now.places }
        requires some { (e : ℕ) × Has keep.now e }
        requires low { pos 0 ≤ℤ w }
        requires given { IsGiven w }
        ensures places { IfOk result (λ r. r.places ≡ kept keep.now self.now.places) }
        ensures number { IfOk result (λ r. r.w ≡ w) }
        ensures ends { IfOk result (λ r. r.ends ≡ kept keep.now self.now.ends) }
    {
        let elements = kept_of(alloc, keep, self.places.as_slice())?;
        let ends = kept_of(alloc, keep, self.ends.as_slice())?;
        Graphic::new(alloc, &elements, w, &ends)
    }
}
