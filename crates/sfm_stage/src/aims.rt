// The course of a walk of a stage: along levels, each place of which has as many steps to the places above the lowest slope as
// its level tells, to a place above the highest one. Of each level the places are taken from which links lead on so; the walk
// goes from one to the next. Where a place is taken wrongly the search only ends there: what is said of a walk is told by its
// levels and by the rows of its steps.
ghost use Rattle.std.specs.Prelude.{◌≡◌, ℕ, ◌<◌, length, true, OnOk, IfOk, IfSome};
ghost use Rattle.sfm_spec.specs.Families.{meanings};
ghost use Rattle.sfm_reach.specs.{Spots.{AreSpots, IsSpot}, Unions.{HaveRows}, Reach.{table_at}};
ghost use Rattle.sfm_stage.specs.Aims.{AreAims, IsInto, IsLed, IsTop};

use sfm_base::Memory;
use sfm_exchange::{Bits, Graph, Hop, local_of, no_bits};
use sfm_law::Term;
use sfm_reach::{Ahead, BitRows, Spot};

// The places from which a link leads into a set.
fn leading_into(back: &[Bits], set: &Bits) -> Bits
    requires { length back.now ≡ 256 }
{
    let mut leading = no_bits();
    let mut ahead = Ahead::of(set);
    while let Some(t) = ahead.next() {
        leading.union_with(&back[t]);
    }
    leading
}

/// Writes for each level those of its places from which links lead, level by level, to one of some places of the first.
///
/// # Errors
///
/// `Memory` where there is none.
pub fn write_aims(
    back: &[Bits],
    levels: &[Bits],
    over: &Bits,
    aims: &mut Vec<Bits>,
) -> Result<(), Memory>
    requires { length back.now ≡ 256 }
    ensures { OnOk result (AreAims over.now levels.now aims.new.items) }
{
    aims.clear();
    let mut aim = *over;
    for level in levels {
        aim.meet_with(level);
        aims.push(aim)?;
        aim = leading_into(back, &aim);
    }
    Ok(())
}

// The step of a term from a place into a set, where the row of the place has a place of the set.
fn hop_at<T: Term>(terms: &[T], rows: &[BitRows], _at: usize, spot: Spot, set: &Bits) -> Option<Hop>
    requires spot { IsSpot (meanings T.places T.value_of terms.now) _at spot }
    requires rows { spot.term < length rows.now }
    requires row { spot.local < length (table_at rows.now spot.term) }
    ensures { IfSome result (IsInto (meanings T.places T.value_of terms.now)
        rows.now _at set.now) }
{
    let table = &rows[spot.term];
    let row = table.row(spot.local);
    let Some(to) = row.first_common(set) else {
        return None;
    };
    let Some(v) = local_of(terms[spot.term].elements(), to) else {
        return None;
    };
    Some(Hop {
        to,
        term: spot.term,
        u: spot.local,
        v,
    })
}

// A step from a place into a set, by the first term whose row has one.
fn hop_into<T: Term>(terms: &[T], graph: &Graph<T::Note>, at: usize, set: &Bits) -> Option<Hop>
    requires spots { (n : ℕ) × (at < n) × AreSpots (meanings T.places T.value_of terms.now) n
        graph.now.spots.items }
    requires rows { HaveRows graph.now.rows.items graph.now.spots.items }
    ensures { IfSome result (IsInto (meanings T.places T.value_of terms.now)
        graph.now.rows.items at set.now) }
{
    let here = &graph.spots[at];
    for spot in here.as_slice() {
        if let Some(hop) = hop_at(terms, &graph.rows, at, *spot, set) {
            return Some(hop);
        }
    }
    None
}

/// Writes a walk from a place of the last level, level by level along the aims; false where it leads nowhere.
///
/// # Errors
///
/// `Memory` where there is none.
pub fn lead<T: Term>(
    terms: &[T],
    graph: &Graph<T::Note>,
    levels: &[Bits],
    aims: &[Bits],
    first: usize,
    hops: &mut Vec<Hop>,
) -> Result<bool, Memory>
    requires spots { (n : ℕ) × IsTop n levels.now first
        × AreSpots (meanings T.places T.value_of terms.now) n graph.now.spots.items }
    requires rows { HaveRows graph.now.rows.items graph.now.spots.items }
    requires aims { (over : _) × AreAims over levels.now aims.now }
    ensures { IfOk result (λ r. r ≡ true → IsLed (meanings T.places T.value_of terms.now)
        graph.now.rows.items levels.now aims.now first hops.new.items) }
{
    hops.clear();
    let mut at = first;
    let mut k = levels.len() - 1;
    while k > 0 {
        k -= 1;
        let Some(hop) = hop_into(terms, graph, at, &aims[k]) else {
            return Ok(false);
        };
        hops.push(hop)?;
        at = hop.to;
    }
    Ok(true)
}
