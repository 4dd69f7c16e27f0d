// Distances to the places with z > 0, by levels backwards: the first level has those places, and each further level the
// places not met yet from which a step leads into the level before: the sets of those that lead to its places, joined. Each
// place is so looked at once. The search stops at the first level that has a place
// with z < 0; where a level is empty, no walk joins.
ghost use Rattle.std.specs.Prelude.{◌≡◌, ◌↔◌, ◌<◌, ◌≤◌, ℕ, ℤ, pos, ◌<ℤ◌, ◌≤ℤ◌, length, IfOk, MatchOption, slice_index_or};
ghost use Rattle.sfm_reach.specs.{Bits.{bit_in}, Turned.{AreTurned}};
ghost use Rattle.sfm_exchange.specs.{Levels.{AreClosed, AreNext, IsFirst, IsLedBack}, Signs.{AreSigns}};

use crate::signs::Signs;
use sfm_base::Memory;
use sfm_reach::{Ahead, Bits, no_bits};

// The places from which a link leads into a level.
fn leading_into(back: &[Bits], level: &Bits) -> Bits
    requires { length back.now ≡ 256 }
    ensures { (e : ℕ) → (bit_in result e ≡ 1) ↔ IsLedBack back.now e level.now }
{
    let mut leading = no_bits();
    let mut ahead = Ahead::of(level);
    while let Some(t) = ahead.next() {
        leading.union_with(&back[t]);
    }
    leading
}

// Takes the places out of those left from which a link leads into a level.
fn next_level(back: &[Bits], level: &Bits, left: &mut Bits) -> Bits
    requires { length back.now ≡ 256 }
    ensures { AreNext back.now level.now left.old left.new result }
{
    let mut next = leading_into(back, level);
    next.meet_with(left);
    left.remove_all(&next);
    next
}

/// Writes the levels up to the first that has a place with z < 0, and gives the least such place; None where no level has.
pub fn find_levels(
    back: &[Bits],
    _unions: &[Bits],
    _z: &[i128],
    signs: &Signs,
    levels: &mut Vec<Bits>,
) -> Result<Option<usize>, Memory>
    requires few { length _z.now ≤ 256 }
    requires count { length _unions.now ≡ length _z.now }
    requires turned { AreTurned _unions.now back.now }
    requires signs { AreSigns _z.now signs.now }
    ensures { IfOk result (λ r. MatchOption r (AreClosed
        (length _z.now) _unions.now _z.now levels.new.items)
        (λ first. IsFirst (length _z.now) _unions.now _z.now levels.new.items first)) }
{
    let mut left = signs.ground;
    left.remove_all(&signs.over);
    let mut level = signs.over;
    levels.clear();
    levels.push(level)?;
    loop {
        level = next_level(back, &level, &mut left);
        if level.is_empty() {
            return Ok(None);
        }
        levels.push(level)?;
        if let Some(first) = level.first_common(&signs.under) {
            return Ok(Some(first));
        }
    }
}
