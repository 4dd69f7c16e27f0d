// All places that walks lead to from some first places: from each place that was found, all places that its union row has
// are found too. Each place is looked at once.
ghost use Rattle.std.specs.Prelude.{◌≡◌, ◌↔◌, ◌<◌, ◌≤◌, ℕ, List, Bool, length, IfOk};
ghost use Rattle.sfm_spec.specs.Sets.{Has};
ghost use Rattle.sfm_reach.specs.{Bits.{bit_in, set_at}, Reached.{AreReached, IsSetOf, IsTakenIn}};

use crate::bits::Bits;
use sfm_base::{Memory, Set};
use std::alloc::Global;

/// The first places, and all that links lead to from those that are found.
pub fn reached_from(unions: &[Bits], firsts: &Bits) -> Bits
    requires few { length unions.now ≤ 256 }
    requires firsts { (e : ℕ) → bit_in firsts.now e ≡ 1 → e < length unions.now }
    requires links { (e t : ℕ) → e < length unions.now → bit_in (set_at unions.now e) t ≡ 1
        → t < length unions.now }
    ensures { AreReached unions.now firsts.now result }
{
    let mut found = *firsts;
    let mut ahead = *firsts;
    while let Some(e) = ahead.first() {
        ahead.remove(e);
        take_in(&unions[e], &mut found, &mut ahead);
    }
    found
}

/// Puts the places of a row to those that are found, and the new ones to those that are still to be looked at.
pub fn take_in(row: &Bits, found: &mut Bits, ahead: &mut Bits)
    ensures { IsTakenIn row.now found.old ahead.old found.new ahead.new }
{
    let mut more = *row;
    more.remove_all(found);
    found.union_with(&more);
    ahead.union_with(&more);
}

/// A set of bits as a set of a ground of n places.
pub fn set_of(alloc: Global, bits: &Bits, n: usize) -> Result<Set, Memory>
    requires { n ≤ 256 }
    ensures { IfOk result (IsSetOf bits.now n) }
{
    let mut set = Set::empty(alloc, n)?;
    for e in 0..n {
        if bits.contains(e) {
            set.insert(e);
        }
    }
    Ok(set)
}
