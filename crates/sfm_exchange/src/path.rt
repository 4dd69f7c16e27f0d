// One walk of least steps: from each place the walk takes, among the steps into the level below, the one to the least place,
// and to that place the one of the first term. So no walk from its first place to a place with z > 0 has fewer steps.
ghost use Rattle.std.specs.Prelude.{◌≡◌, ◌+◌, ◌-◌, ◌<◌, ◌≤◌, ℕ, length, IfOk, OnOk, MatchOption, slice_index_or};
ghost use Rattle.sfm_spec.specs.{Families.{meanings}, Labels.{FallsAlong, step_code}, Walks.{Step, last_of}};
ghost use Rattle.sfm_reach.specs.{Bits.{bit_in, set_at}, Spots.{AreSpots, spot_at}, Unions.{AreUnions, HasRows, HaveRows, IsReadable, spot_row}, Reach.{table_at}};
ghost use Rattle.sfm_exchange.specs.{Levels.{AreParted, depth_of, IsAtLast, IsFirst, IsStuck, LeadsInto}, Hops.{AreHops, AreLeast, IsHop, IsTold, hop_at, step_of, steps_of}};

use crate::graph::Graph;
use sfm_base::Memory;
use sfm_law::{Term, WalkSteps};
use sfm_reach::{BitRows, Bits, Spot, Spots};
use std::alloc::Global;

/// A step of a walk: from one place to another by a term, and the numbers that the places have in the term.
#[derive(Clone, Copy)]
pub struct Hop {
    pub to: usize,
    pub term: usize,
    pub u: usize,
    pub v: usize,
}

/// A walk as it is found: the place at which it begins, and its steps.
#[derive(Drop)]
pub struct Path {
    pub first: usize,
    pub hops: Vec<Hop>,
}

impl Path {
    /// The place at which the walk ends.
    pub fn last(&self) -> usize
        ensures { result ≡ last_of self.now.first (steps_of self.now.hops.items) }
    {
        let count = self.hops.len();
        if count == 0 {
            return self.first;
        }
        self.hops[count - 1].to
    }
}

// The first spot whose row has a place.
fn first_spot(spots: &[Spot], rows: &[BitRows], to: usize) -> Option<Spot>
    requires rows { HasRows rows.now spots.now }
    requires place { to < 256 }
    ensures { MatchOption result ((j : ℕ) → j < length spots.now
        → bit_in (spot_row rows.now (spot_at spots.now j)) to ≡ 1 → ⊥)
        (λ spot. (j : ℕ) × (j < length spots.now) × (spot_at spots.now j ≡ spot)
        × (bit_in (spot_row rows.now spot) to ≡ 1)
        × ((i : ℕ) → i < j → bit_in (spot_row rows.now (spot_at spots.now i)) to ≡ 1 → ⊥)) }
{
    for spot in spots {
        let row = &rows[spot.term];
        if row.as_slice()[spot.local].contains(to) {
            return Some(*spot);
        }
    }
    None
}

/// The number of a place in a term.
pub fn local_of(places: &[usize], place: usize) -> Option<usize>
    ensures { MatchOption result ((v : ℕ) → v < length places.now
        → slice_index_or places.now v 0 ≡ place → ⊥)
        (λ v. (v < length places.now) × (slice_index_or places.now v 0 ≡ place)) }
{
    for (v, at) in places.iter().enumerate() {
        if *at == place {
            return Some(v);
        }
    }
    None
}

// The least step from a place into a level.
fn least_step<T: Term>(
    terms: &[T],
    spots: &[Spots],
    rows: &[BitRows],
    unions: &[Bits],
    at: usize,
    level: &Bits,
) -> Hop
    requires spots { AreSpots (meanings T.places T.value_of terms.now)
        (length unions.now) spots.now }
    requires rows { HaveRows rows.now spots.now }
    requires unions { AreUnions rows.now spots.now unions.now }
    requires placed { (i : ℕ) → i < length terms.now → IsReadable
        (meanings T.places T.value_of terms.now) rows.now i }
    requires at { at < length unions.now }
    requires leads { LeadsInto unions.now at level.now }
    ensures named { IsHop (meanings T.places T.value_of terms.now) at result }
    ensures reached { bit_in (set_at (table_at rows.now result.term) result.u) result.to ≡ 1 }
    ensures onto { bit_in level.now result.to ≡ 1 }
    ensures least { (other : Step) → IsTold (meanings T.places T.value_of terms.now) rows.now at
        other → bit_in level.now other.to ≡ 1
        → step_code (meanings T.places T.value_of terms.now) (step_of result) ≤ step_code
        (meanings T.places T.value_of terms.now) other }
{
    let to = unions[at].first_common(level).unwrap();
    let here = &spots[at];
    let spot = first_spot(here.as_slice(), rows, to).unwrap();
    let v = local_of(terms[spot.term].elements(), to).unwrap();
    Hop {
        to,
        term: spot.term,
        u: spot.local,
        v,
    }
}

/// A place of a level from which no link leads into the level below.
#[derive(Clone, Copy)]
pub struct Stuck {
    pub place: usize,
    pub level: usize,
}

/// Writes the walk of least steps from a place of the last level down to the first, where each leads from a level into the one
/// below; or gives the place from which none does.
///
/// # Errors
///
/// `Memory` where there is none.
pub fn descend<T: Term>(
    terms: &[T],
    graph: &Graph<T::Note>,
    levels: &[Bits],
    first: usize,
    hops: &mut Vec<Hop>,
) -> Result<Option<Stuck>, Memory>
    requires spots { AreSpots (meanings T.places T.value_of terms.now)
        (length graph.now.unions.items) graph.now.spots.items }
    requires rows { HaveRows graph.now.rows.items graph.now.spots.items }
    requires unions { AreUnions graph.now.rows.items graph.now.spots.items graph.now.unions.items }
    requires placed { (i : ℕ) → i < length terms.now → IsReadable
        (meanings T.places T.value_of terms.now) graph.now.rows.items i }
    requires parted { AreParted (length graph.now.unions.items) levels.now }
    requires first { IsAtLast levels.now first }
    ensures hops { OnOk result (AreHops (meanings T.places T.value_of terms.now)
        graph.now.rows.items first hops.new.items) }
    ensures falls { OnOk result (FallsAlong (depth_of levels.now) first (steps_of hops.new.items)) }
    ensures least { OnOk result (AreLeast (meanings T.places T.value_of terms.now)
        graph.now.rows.items (depth_of levels.now) first hops.new.items) }
    ensures end { IfOk result (λ r. MatchOption r ((bit_in (set_at levels.now 0)
        (last_of first (steps_of hops.new.items)) ≡ 1)
        × (length hops.new.items + 1 ≡ length levels.now))
        (IsStuck graph.now.unions.items levels.now)) }
{
    hops.clear();
    let mut at = first;
    let mut k = levels.len() - 1;
    while k > 0 {
        if !graph.unions[at].meets(&levels[k - 1]) {
            return Ok(Some(Stuck {
                place: at,
                level: k,
            }));
        }
        k -= 1;
        let hop = least_step(
            terms,
            &graph.spots,
            &graph.rows,
            &graph.unions,
            at,
            &levels[k],
        );
        hops.push(hop)?;
        at = hop.to;
    }
    Ok(None)
}

/// Writes the walk of least steps from a place of the last level of a search.
///
/// # Errors
///
/// `Memory` where there is none.
pub fn follow<T: Term>(
    terms: &[T],
    graph: &Graph<T::Note>,
    _z: &[i128],
    levels: &[Bits],
    first: usize,
    hops: &mut Vec<Hop>,
) -> Result<(), Memory>
    requires spots { AreSpots (meanings T.places T.value_of terms.now)
        (length graph.now.unions.items) graph.now.spots.items }
    requires rows { HaveRows graph.now.rows.items graph.now.spots.items }
    requires unions { AreUnions graph.now.rows.items graph.now.spots.items graph.now.unions.items }
    requires placed { (i : ℕ) → i < length terms.now → IsReadable
        (meanings T.places T.value_of terms.now) graph.now.rows.items i }
    requires first { IsFirst (length graph.now.unions.items) graph.now.unions.items _z.now
        levels.now first }
    ensures hops { OnOk result (AreHops (meanings T.places T.value_of terms.now)
        graph.now.rows.items first hops.new.items) }
    ensures falls { OnOk result (FallsAlong (depth_of levels.now) first (steps_of hops.new.items)) }
    ensures least { OnOk result (AreLeast (meanings T.places T.value_of terms.now)
        graph.now.rows.items (depth_of levels.now) first hops.new.items) }
    ensures last { OnOk result (bit_in (set_at levels.now 0)
        (last_of first (steps_of hops.new.items)) ≡ 1) }
    ensures some { OnOk result (0 < length hops.new.items) }
{
    match descend(terms, graph, levels, first, hops)? {
        None => Ok(()),
        Some(_) => unreachable!(),
    }
}

/// The steps of a walk, without their places in the terms.
///
/// # Errors
///
/// `Memory` where there is none.
pub fn steps_along(alloc: Global, hops: &[Hop]) -> Result<WalkSteps, Memory>
    ensures { IfOk result (λ r. r ≡ steps_of hops.now) }
{
    let mut steps = WalkSteps::new(alloc);
    for hop in hops {
        steps.push(hop.to, hop.term)?;
    }
    Ok(steps)
}
