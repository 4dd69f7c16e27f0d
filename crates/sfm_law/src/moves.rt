// The one change that the engine makes to a base: one place is raised and another lowered by the same amount.
ghost use Rattle.std.specs.{Prelude.{◌≡◌, ◌≢◌, ◌<◌, ◌^◌, length, pos, ◌≤ℤ◌}, List.{All}};
ghost use Rattle.sfm_spec.specs.{Bounds.{IsEntry, IsFactor}, Terms.{times, IsBase, exchanged}};
ghost use Rattle.sfm_law.specs.Room.{IsWithinRoom};

use crate::term::Term;

/// Raises u and lowers v by a, which is at most the room of (u, v). All other entries stay, and x stays a base of q
/// times the term.
pub fn exchange<T: Term>(_term: &T, q: i128, x: &mut [i128], u: usize, v: usize, a: i128)
    requires factor { IsFactor q }
    requires entries { length x.old ≡ length (T.places _term.now) }
    requires small { All IsEntry x.old }
    requires apart { u ≢ v }
    requires from { u < length x.old }
    requires onto { v < length x.old }
    requires base { IsBase (times q (T.value_of _term.now)) x.old }
    requires low { pos 0 ≤ℤ a }
    requires high { a ≤ℤ pos (10 ^ 30) }
    requires room { IsWithinRoom (times q (T.value_of _term.now)) x.old u v a }
    ensures moved { x.new ≡ exchanged x.old u v a }
    ensures base { IsBase (times q (T.value_of _term.now)) x.new }
{
    x[u] += a;
    x[v] -= a;
}
