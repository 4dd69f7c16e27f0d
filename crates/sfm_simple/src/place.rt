// Places put into a set or taken out of it.
ghost use Rattle.std.specs.Prelude.{◌≡◌, ◌≢◌, ◌↔◌, ℕ, ◌<◌, length, slice_set};
ghost use Rattle.sfm_spec.specs.Sets.{Has};

use sfm_base::Set;

/// Puts all places into a set, but takes u out.
pub(crate) fn all_but(to: &mut Set, u: usize)
    ensures places { length to.new ≡ length to.old }
    ensures others { (v : ℕ) → v < length to.old → Has to.new v ↔ (v ≢ u) }
{
    for v in 0..to.len() {
        to.put(v, v != u);
    }
}
