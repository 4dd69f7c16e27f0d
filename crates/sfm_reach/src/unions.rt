// One row for each place of the ground: all places that a step by any term leads to from there.
ghost use Rattle.std.specs.Prelude.{◌≡◌, ◌<◌, ◌≤◌, ℕ, max, length, IfOk, slice_index_or, slice_set};
ghost use Rattle.sfm_spec.specs.Sets.{IsPlaced};
ghost use Rattle.sfm_reach.specs.{Bits.{bit_in, set_at}, Turned.{AreTurned}, Unions.{IsUnion, AreRenewed, AreUnions, AreWidened, HasRows, HaveRows}};

use crate::ahead::Ahead;
use crate::bits::{Bits, no_bits};
use crate::reach::BitRows;
use crate::spots::{Spot, Spots};
use crate::turned::turn;
use sfm_base::Memory;
use std::alloc::Global;

// The union of the rows of the spots of one place.
fn union_at(spots: &[Spot], rows: &[BitRows]) -> Bits
    requires { HasRows rows.now spots.now }
    ensures { IsUnion rows.now spots.now (length spots.now) result }
{
    let mut union = no_bits();
    for spot in spots {
        let row = &rows[spot.term];
        union.union_with(&row.as_slice()[spot.local]);
    }
    union
}

/// The union rows of all places.
pub fn unions_of(alloc: Global, spots: &[Spots], rows: &[BitRows]) -> Result<Vec<Bits>, Memory>
    requires { HaveRows rows.now spots.now }
    ensures { IfOk result (λ r. AreUnions rows.now spots.now r.items) }
{
    let mut unions = Vec::new(alloc);
    for e in 0..spots.len() {
        let at = &spots[e];
        unions.push(union_at(at.as_slice(), rows))?;
    }
    Ok(unions)
}

/// Brings the union rows of some places up to the rows, and the same rows turned round.
pub fn renew(
    spots: &[Spots],
    rows: &[BitRows],
    places: &Bits,
    unions: &mut Vec<Bits>,
    back: &mut Vec<Bits>,
)
    requires rows { HaveRows rows.now spots.now }
    requires few { length spots.now ≤ 256 }
    requires count { length unions.old.items ≡ length spots.now }
    requires turned { AreTurned unions.old.items back.old.items }
    requires placed { (e : ℕ) → bit_in places.now e ≡ 1 → e < length spots.now }
    ensures renewed { AreRenewed rows.now spots.now places.now unions.old.items unions.new.items }
    ensures turned { AreTurned unions.new.items back.new.items }
{
    let mut ahead = Ahead::of(places);
    while let Some(e) = ahead.next() {
        let at = &spots[e];
        let row = union_at(at.as_slice(), rows);
        turn(back, e, &unions[e], &row);
        unions[e] = row;
    }
}

// Puts a row into the union row of a place, and the same into the rows turned round, unless it is there.
fn put_in(row: &Bits, place: usize, unions: &mut Vec<Bits>, back: &mut Vec<Bits>)
    requires place { place < 256 }
    requires inside { place < length unions.old.items }
    requires turned { AreTurned unions.old.items back.old.items }
    ensures put { (wide : Bits) × (unions.new.items ≡ slice_set unions.old.items place wide)
        × ((t : ℕ) → bit_in wide t ≡ max (bit_in (set_at unions.old.items place) t)
        (bit_in row.now t)) }
    ensures turned { AreTurned unions.new.items back.new.items }
{
    if row.is_within(&unions[place]) {
        return;
    }
    let mut wide = unions[place];
    wide.union_with(row);
    turn(back, place, &unions[place], &wide);
    unions[place] = wide;
}

/// Puts the rows of some places of a term into the union rows, and the same into the rows turned round.
pub fn widen(
    places: &[usize],
    rows: &BitRows,
    grown: &Bits,
    unions: &mut Vec<Bits>,
    back: &mut Vec<Bits>,
)
    requires placed { IsPlaced 256 places.now }
    requires inside { (u : ℕ) → u < length places.now → slice_index_or places.now u 0
        < length unions.old.items }
    requires rows { length rows.now ≡ length places.now }
    requires turned { AreTurned unions.old.items back.old.items }
    ensures widened { AreWidened places.now rows.now grown.now
        (length places.now) unions.old.items unions.new.items }
    ensures turned { AreTurned unions.new.items back.new.items }
{
    if grown.is_empty() {
        return;
    }
    for (u, place) in places.iter().enumerate() {
        if grown.contains(*place) {
            put_in(&rows.as_slice()[u], *place, unions, back);
        }
    }
}
