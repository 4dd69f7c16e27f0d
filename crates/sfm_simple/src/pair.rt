// What the terms of two places share: from one place there is only the other to reach.
ghost use Rattle.std.specs.Prelude.{◌≡◌, ◌↔◌, ◌-◌, ◌<◌, List, length, ℤ, IsTrue};
ghost use Rattle.sfm_spec.specs.Terms.{SetFunction};
ghost use Rattle.sfm_law.specs.Room.{IsRoom, IsReach};
ghost use Rattle.sfm_simple.specs.Pairs.{IsOpen};

use sfm_base::Set;
use sfm_law::Room;

/// Whether something can be exchanged.
fn is_open(room: Room) -> bool
    ensures { IsTrue result ↔ IsOpen room }
{
    match room {
        Room::Upto(a) => a >= 1,
        Room::Unbounded => true,
    }
}

/// Writes the places other than u to which u, one of two places, has room: the other one, if its room is open.
pub(crate) fn put_other(room: Room, u: usize, to: &mut Set)
    requires two { length to.old ≡ 2 }
    requires from { u < 2 }
    ensures places { length to.new ≡ length to.old }
    ensures reached { (f : SetFunction) (x : List ℤ) → length x ≡ 2 → IsRoom f x u (1 - u) room
        → IsReach f x u to.new }
{
    to.clear();
    if is_open(room) {
        to.insert(1 - u);
    }
}
