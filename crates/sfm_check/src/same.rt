// Whether two sets are the same.
ghost use Rattle.std.specs.Prelude.{◌≡◌, ◌↔◌, length, IsTrue};

use sfm_base::Set;

/// Whether two sets of one ground have the same members. It takes no memory.
pub fn are_same(a: &Set, b: &Set) -> bool
    requires { length a.now ≡ length b.now }
    ensures { IsTrue result ↔ (a.now ≡ b.now) }
{
    a.is_within(b) && b.is_within(a)
}
