// What a stage keeps beside the graph: the sum of the bases at each place less either shift, with the signs, and the lists of a
// search. Where no walk leads on from a place below, none is to begin there any more, and what is kept there is 0.
ghost use Rattle.std.specs.{Prelude.{◌≡◌, ◌≢◌, ◌<◌, ◌≤◌, ◌^◌, ℕ, List, ℤ, pos, neg_ℤ, ◌<ℤ◌, ◌≤ℤ◌, length, slice_index_or, slice_set, IfOk}, List.{All}};
ghost use Rattle.sfm_spec.specs.{Sets.{magnitudes}, Bounds.{IsAtMost}, Families.{Meaning}, Terms.{exchanged}, Walks.{last_of}};
ghost use Rattle.sfm_exchange.specs.{Hops.{steps_of}, Levels.{IsFirst}, Signs.{AreMoved, AreSigns}, Sums.{AreSums}};
ghost use Rattle.sfm_stage.specs.{Aims.{AreAims}, Kept.{IsKept}};

use sfm_base::Memory;
use sfm_exchange::{Bits, Path, Signs, move_signs, signs_of};
use sfm_walk::{move_rest, rest_from};
use std::alloc::Global;

/// What is left at each place, and the walk that was found last.
#[derive(Drop)]
pub struct Kept {
    /// The sum of the bases less the lower shift; 0 where no walk is to begin.
    pub low: Vec<i128>,
    /// The sum of the bases less the higher shift.
    pub high: Vec<i128>,
    /// The places by the sign of the one.
    pub below: Signs,
    /// The places by the sign of the other.
    pub above: Signs,
    /// The levels of a search.
    pub levels: Vec<Bits>,
    /// Of each level the places that lead on.
    pub aims: Vec<Bits>,
    /// The walk.
    pub path: Path,
}

/// What is left at bases that add up to the sums, before any search.
///
/// # Errors
///
/// `Memory` where there is none.
pub fn kept_at(alloc: Global, sums: &[i128], low: &[i128], high: &[i128]) -> Result<Kept, Memory>
    requires few { length low.now ≤ 256 }
    requires same { length high.now ≡ length low.now }
    requires places { length sums.now ≡ length low.now }
    requires small { All (IsAtMost (10 ^ 35)) sums.now }
    requires low { magnitudes low.now ≤ℤ pos (10 ^ 36) }
    requires high { magnitudes high.now ≤ℤ pos (10 ^ 36) }
    ensures { IfOk result (λ r. (terms : List Meaning) (bases : List (List ℤ))
        → AreSums terms (length low.now) bases sums.now → IsKept terms low.now high.now bases r) }
{
    let lower = rest_from(alloc, sums, low)?;
    let higher = rest_from(alloc, sums, high)?;
    let below = signs_of(&lower);
    let above = signs_of(&higher);
    Ok(Kept {
        low: lower,
        high: higher,
        below,
        above,
        levels: Vec::new(alloc),
        aims: Vec::new(alloc),
        path: Path {
            first: 0,
            hops: Vec::new(alloc),
        },
    })
}

/// The first place of a walk that may lead on: one of the last level's aims with z < 0; where there is none, the place that the
/// search gave.
pub fn first_of(kept: &Kept, near: usize) -> usize
    requires levels { 0 < length kept.now.levels.items }
    requires aims { AreAims kept.now.above.over kept.now.levels.items kept.now.aims.items }
    requires signs { AreSigns kept.now.low.items kept.now.below }
    ensures { (n : ℕ) (unions : List Bits)
        → IsFirst n unions kept.now.low.items kept.now.levels.items near
        → IsFirst n unions kept.now.low.items kept.now.levels.items result }
{
    let aims = &kept.aims[kept.levels.len() - 1];
    match aims.first_common(&kept.below.under) {
        Some(first) => first,
        None => near,
    }
}

/// From a place below no walk is to begin any more.
pub fn shut(kept: &mut Kept, first: usize)
    requires few { length kept.old.low.items ≤ 256 }
    requires first { first < length kept.old.low.items }
    requires signs { AreSigns kept.old.low.items kept.old.below }
    requires under { slice_index_or kept.old.low.items first (pos 0) <ℤ pos 0 }
    ensures low { kept.new.low.items ≡ slice_set kept.old.low.items first (pos 0) }
    ensures signs { AreSigns kept.new.low.items kept.new.below }
    ensures high { kept.new.high.items ≡ kept.old.high.items }
    ensures above { kept.new.above ≡ kept.old.above }
{
    kept.low[first] = 0;
    kept.below.under.remove(first);
}

/// Brings what is left up once the walk has moved a.
pub fn settle(kept: &mut Kept, a: i128)
    requires few { length kept.old.low.items ≤ 256 }
    requires same { length kept.old.high.items ≡ length kept.old.low.items }
    requires first { kept.old.path.first < length kept.old.low.items }
    requires last { last_of kept.old.path.first (steps_of kept.old.path.hops.items)
        < length kept.old.low.items }
    requires apart { kept.old.path.first ≢ last_of kept.old.path.first
        (steps_of kept.old.path.hops.items) }
    requires some { pos 0 ≤ℤ a }
    requires low_first { a ≤ℤ neg_ℤ (slice_index_or kept.old.low.items kept.old.path.first
        (pos 0)) }
    requires high_first { a ≤ℤ neg_ℤ (slice_index_or kept.old.high.items kept.old.path.first
        (pos 0)) }
    requires low_last { a ≤ℤ slice_index_or kept.old.low.items (last_of kept.old.path.first
        (steps_of kept.old.path.hops.items)) (pos 0) }
    requires high_last { a ≤ℤ slice_index_or kept.old.high.items (last_of kept.old.path.first
        (steps_of kept.old.path.hops.items)) (pos 0) }
    ensures low { kept.new.low.items ≡ exchanged kept.old.low.items kept.old.path.first
        (last_of kept.old.path.first (steps_of kept.old.path.hops.items)) a }
    ensures high { kept.new.high.items ≡ exchanged kept.old.high.items kept.old.path.first
        (last_of kept.old.path.first (steps_of kept.old.path.hops.items)) a }
    ensures below { AreMoved kept.old.low.items kept.new.low.items kept.old.path.first
        (last_of kept.old.path.first (steps_of kept.old.path.hops.items))
        → AreSigns kept.old.low.items kept.old.below → AreSigns kept.new.low.items kept.new.below }
    ensures above { AreMoved kept.old.high.items kept.new.high.items kept.old.path.first
        (last_of kept.old.path.first (steps_of kept.old.path.hops.items))
        → AreSigns kept.old.high.items kept.old.above
        → AreSigns kept.new.high.items kept.new.above }
{
    let first = kept.path.first;
    let last = kept.path.last();
    move_rest(&mut kept.low, first, last, a);
    move_rest(&mut kept.high, first, last, a);
    move_signs(&mut kept.below, &kept.low, first, last);
    move_signs(&mut kept.above, &kept.high, first, last);
}
