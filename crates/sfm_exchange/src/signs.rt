// The places by the sign of z, as sets that are kept beside z. A move along a walk changes z at the two ends of the walk alone
// and turns no sign, so each walk takes an end out where z has become 0 there, and nothing else.
ghost use Rattle.std.specs.Prelude.{◌≡◌, ◌≢◌, ◌↔◌, ◌<◌, ◌≤◌, ℕ, ℤ, List, pos, ◌<ℤ◌, length, slice_index_or};
ghost use Rattle.sfm_reach.specs.Bits.{bit_in};
ghost use Rattle.sfm_exchange.specs.Signs.{AreMoved, AreSigns};

use sfm_reach::{Bits, no_bits};

/// The places of the ground, those with z > 0, and those with z < 0.
#[derive(Clone, Copy)]
pub struct Signs {
    pub ground: Bits,
    pub over: Bits,
    pub under: Bits,
}

/// The places by the sign of z.
pub fn signs_of(z: &[i128]) -> Signs
    requires { length z.now ≤ 256 }
    ensures { AreSigns z.now result }
{
    Signs {
        ground: places_below(z.len()),
        over: places_over(z),
        under: places_under(z),
    }
}

// The places below n.
fn places_below(n: usize) -> Bits
    requires { n ≤ 256 }
    ensures { (e : ℕ) → (bit_in result e ≡ 1) ↔ (e < n) }
{
    let mut ground = no_bits();
    for e in 0..n {
        ground.insert(e);
    }
    ground
}

// The places with z > 0.
fn places_over(z: &[i128]) -> Bits
    requires { length z.now ≤ 256 }
    ensures { (e : ℕ) → (bit_in result e ≡ 1) ↔ ((e < length z.now)
        × (pos 0 <ℤ slice_index_or z.now e (pos 0))) }
{
    let mut over = no_bits();
    for (e, a) in z.iter().enumerate() {
        if *a > 0 {
            over.insert(e);
        }
    }
    over
}

// The places with z < 0.
fn places_under(z: &[i128]) -> Bits
    requires { length z.now ≤ 256 }
    ensures { (e : ℕ) → (bit_in result e ≡ 1) ↔ ((e < length z.now)
        × (slice_index_or z.now e (pos 0) <ℤ pos 0)) }
{
    let mut under = no_bits();
    for (e, a) in z.iter().enumerate() {
        if *a < 0 {
            under.insert(e);
        }
    }
    under
}

// Takes a place out where z is 0 there.
fn settle(set: &mut Bits, e: usize, a: i128)
    requires { e < 256 }
    ensures here { (bit_in set.new e ≡ 1) ↔ ((bit_in set.old e ≡ 1) × (a ≢ pos 0)) }
    ensures others { (k : ℕ) → k ≢ e → bit_in set.new k ≡ bit_in set.old k }
{
    if a == 0 {
        set.remove(e);
    }
}

/// Brings the sets up once z has been moved at the ends of a walk.
pub fn move_signs(signs: &mut Signs, z: &[i128], first: usize, last: usize)
    requires few { length z.now ≤ 256 }
    requires first { first < length z.now }
    requires last { last < length z.now }
    ensures { (before : List ℤ) → AreSigns before signs.old → AreMoved before z.now first last
        → AreSigns z.now signs.new }
{
    settle(&mut signs.under, first, z[first]);
    settle(&mut signs.over, last, z[last]);
}
