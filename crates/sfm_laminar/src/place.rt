// Places listed in ascending order: whether one is listed.
ghost use Rattle.std.specs.Prelude.{◌↔◌, IsTrue, Contains};
ghost use Rattle.sfm_laminar.specs.Groups.{IsAscending};

/// Whether a place is listed.
pub(crate) fn lists(members: &[usize], e: usize) -> bool
    requires { IsAscending members.now }
    ensures { IsTrue result ↔ Contains members.now e }
{
    members.binary_search(&e).is_ok()
}
