// The least minimiser at a slope. A graph of 64 times the terms goes from slope to slope: its bases at the slope before are
// bases still, and z differs by the shift alone, so few walks are left. At a slope it is taken to the 64th below it. Where the
// least minimiser there is large enough to part the search, or that 64th is the slope, nothing more is needed. Else, at a
// slope p/q, q times its bases are where few walks are left. Where q is too large for this, they begin at the first bases. What
// a minimiser is worth follows from the sum of min(z, 0), which it attains.
ghost use Rattle.std.specs.{Prelude.{◌≡◌, ◌^◌, true, length, map, pos, ◌*ℤ◌, ◌≤ℤ◌, IfOk, OnOk}, List.{All}};
ghost use Rattle.sfm_spec.specs.{Bounds.{IsAtMost, IsFactor}, Families.{meanings, shifted_at, sized_shift, IsLeast}, Sets.{magnitudes}, Slopes.{IsSameSlope}};
ghost use Rattle.sfm_exchange.specs.Graph.{IsClaimed, IsShaped};
ghost use Rattle.sfm_sizes.specs.Sizes.{AreElementSizes};
ghost use Rattle.sfm_slope.specs.{Nears.{IsLeastNear}, Searches.{IsSearch}, Worths.{IsWorth}};

use crate::attained::{Attained, Ratio, worth_by};
use crate::rows::grains;
use crate::search::{GRAIN, Search, set_shift};
use crate::worth::Worth;
use sfm_base::{Memory, Slope, Steps};
use sfm_exchange::{Beside, Graph, restart_by, restart_times};
use sfm_extreme::deficit_of;
use sfm_law::Term;
use sfm_walk::{improve, least_minimiser};
use std::alloc::Global;

/// The least minimiser at a slope, with what it is worth; or, where that of a slope just below has more than so many places
/// already, this one, which is found on the way. It lies within the other.
///
/// # Errors
///
/// `Memory` where there is none; nothing is then said of the search.
pub fn least_near<T: Term>(
    search: &mut Search<T::Note>,
    terms: &[T],
    sizes: &[i128],
    slope: Slope,
    size: usize,
) -> Result<Worth, Memory>
    requires sizes { AreElementSizes (length sizes.now) sizes.now }
    requires search { IsSearch T.Term terms.now (length sizes.now) search.old }
    requires small { IsAtMost (10 ^ 19) slope.num }
    ensures search { OnOk result (IsSearch T.Term terms.now (length sizes.now) search.new) }
    ensures least { IfOk result (λ r. IsLeastNear (meanings T.places T.value_of terms.now)
        (length sizes.now) sizes.now slope.num slope.den size r.set) }
    ensures worth { IfOk result (IsWorth (meanings T.places T.value_of terms.now) sizes.now) }
{
    let part = part_below(slope);
    let below = least_below(search, terms, sizes, part)?;
    if is_part(slope, part) || below.size > size {
        return Ok(below);
    }
    if slope.den > MOST_DENOMINATOR {
        let least = least_from_first(search, terms, sizes, slope)?;
        return Ok(least);
    }
    let least = least_at(search, terms, sizes, slope)?;
    Ok(least)
}

// The greatest denominator that may be multiplied by the grain.
const MOST_DENOMINATOR: i128 = 15_625;

// How many 64ths the greatest one has that is at most a slope.
fn part_below(slope: Slope) -> i128
    requires { IsAtMost (10 ^ 19) slope.num }
    ensures small { IsAtMost (10 ^ 21) result }
    ensures least { (slope.den *ℤ result) ≤ℤ (slope.num *ℤ pos 64) }
{
    grains(slope.num).div_euclid(slope.den)
}

// Whether so many 64ths are a slope.
fn is_part(slope: Slope, part: i128) -> bool
    requires small { IsAtMost (10 ^ 19) slope.num }
    requires part { IsAtMost (10 ^ 21) part }
    ensures { result ≡ true → IsSameSlope part (pos 64) slope.num slope.den }
{
    part * slope.den == grains(slope.num)
}

// The least minimiser at so many 64ths, where the walks begin at the warm bases.
fn least_below<T: Term>(
    search: &mut Search<T::Note>,
    terms: &[T],
    sizes: &[i128],
    p: i128,
) -> Result<Worth, Memory>
    requires sizes { AreElementSizes (length sizes.now) sizes.now }
    requires search { IsSearch T.Term terms.now (length sizes.now) search.old }
    requires small { IsAtMost (10 ^ 21) p }
    ensures search { OnOk result (IsSearch T.Term terms.now (length sizes.now) search.new) }
    ensures least { IfOk result (λ r. IsLeast (meanings T.places T.value_of terms.now)
        (length sizes.now) (pos 64) (sized_shift sizes.now p) r.set) }
    ensures worth { IfOk result (IsWorth (meanings T.places T.value_of terms.now) sizes.now) }
{
    let alloc = search.alloc;
    keep_small(alloc, &mut search.warm, terms, &search.first)?;
    let ratio = Ratio { p, q: GRAIN };
    let least = least_on(
        alloc,
        &mut search.warm,
        terms,
        &mut search.shift,
        sizes,
        ratio,
    )?;
    Ok(least)
}

// The least minimiser at a slope, where the walks begin at a multiple of the warm bases.
fn least_at<T: Term>(
    search: &mut Search<T::Note>,
    terms: &[T],
    sizes: &[i128],
    slope: Slope,
) -> Result<Worth, Memory>
    requires sizes { AreElementSizes (length sizes.now) sizes.now }
    requires search { IsSearch T.Term terms.now (length sizes.now) search.old }
    requires small { IsAtMost (10 ^ 19) slope.num }
    requires few { slope.den ≤ℤ pos 15625 }
    ensures search { OnOk result (IsSearch T.Term terms.now (length sizes.now) search.new) }
    ensures least { IfOk result (λ r. IsLeast (meanings T.places T.value_of terms.now)
        (length sizes.now) slope.den (sized_shift sizes.now slope.num) r.set) }
    ensures worth { IfOk result (IsWorth (meanings T.places T.value_of terms.now) sizes.now) }
{
    let alloc = search.alloc;
    let p = grains(slope.num);
    let q = grains(slope.den);
    multiply_warm(search, terms, slope.den, sizes)?;
    let ratio = Ratio { p, q };
    let least = least_on(
        alloc,
        &mut search.cold,
        terms,
        &mut search.shift,
        sizes,
        ratio,
    )?;
    Ok(least)
}

// The least minimiser at a slope, where the walks begin at the first bases.
fn least_from_first<T: Term>(
    search: &mut Search<T::Note>,
    terms: &[T],
    sizes: &[i128],
    slope: Slope,
) -> Result<Worth, Memory>
    requires sizes { AreElementSizes (length sizes.now) sizes.now }
    requires search { IsSearch T.Term terms.now (length sizes.now) search.old }
    requires small { IsAtMost (10 ^ 19) slope.num }
    ensures search { OnOk result (IsSearch T.Term terms.now (length sizes.now) search.new) }
    ensures least { IfOk result (λ r. IsLeast (meanings T.places T.value_of terms.now)
        (length sizes.now) slope.den (sized_shift sizes.now slope.num) r.set) }
    ensures worth { IfOk result (IsWorth (meanings T.places T.value_of terms.now) sizes.now) }
{
    let alloc = search.alloc;
    restart_first(alloc, &mut search.cold, terms, slope.den, &search.first)?;
    let ratio = Ratio {
        p: slope.num,
        q: slope.den,
    };
    let least = least_on(
        alloc,
        &mut search.cold,
        terms,
        &mut search.shift,
        sizes,
        ratio,
    )?;
    Ok(least)
}

// The greatest magnitude of an entry that may be multiplied.
const MOST_MULTIPLIED: u128 = 10_000_000_000_000_000_000;

// Makes the cold graph one at q times the warm bases, or, where these are too large, at the first bases of the same factor.
fn multiply_warm<T: Term>(
    search: &mut Search<T::Note>,
    terms: &[T],
    q: i128,
    _sizes: &[i128],
) -> Result<(), Memory>
    requires factor { IsFactor q }
    requires few { q ≤ℤ pos 15625 }
    requires search { IsSearch T.Term terms.now (length _sizes.now) search.old }
    ensures search { OnOk result (IsSearch T.Term terms.now (length _sizes.now) search.new) }
    ensures graph { OnOk result (IsClaimed T.Term terms.now (length _sizes.now) (q *ℤ pos 64)
        search.new.cold) }
    ensures small { OnOk result (All (λ x. All (IsAtMost (10 ^ 25)) x) search.new.cold.bases) }
{
    let alloc = search.alloc;
    if search.warm.bases.are_within(MOST_MULTIPLIED) {
        let warm = Beside {
            graph: &search.warm,
            q: GRAIN,
        };
        restart_times(alloc, &mut search.cold, terms, q, &warm)?;
        return Ok(());
    }
    restart_first(alloc, &mut search.cold, terms, grains(q), &search.first)?;
    Ok(())
}

// Leaves a graph of 64 times the terms as it is where its entries are small, and else takes it to the first bases.
fn keep_small<T: Term>(
    alloc: Global,
    graph: &mut Graph<T::Note>,
    terms: &[T],
    first: &Graph<T::Note>,
) -> Result<(), Memory>
    requires graph { IsClaimed T.Term terms.now (length graph.old.spots.items) (pos 64) graph.old }
    requires first { IsClaimed T.Term terms.now (length graph.old.spots.items) (pos 1) first.now }
    requires begins { first.now.bases ≡ map (λ term. T.start_of term (pos 1)) terms.now }
    ensures graph { OnOk result (IsClaimed T.Term terms.now (length graph.old.spots.items) (pos 64)
        graph.new) }
    ensures small { OnOk result (All (λ x. All (IsAtMost (10 ^ 25)) x) graph.new.bases) }
{
    if graph.bases.are_within(10_000_000_000_000_000_000_000_000) {
        return Ok(());
    }
    restart_first(alloc, graph, terms, GRAIN, first)?;
    Ok(())
}

// Takes a graph to the first bases, of q times the terms.
fn restart_first<T: Term>(
    alloc: Global,
    graph: &mut Graph<T::Note>,
    terms: &[T],
    q: i128,
    first: &Graph<T::Note>,
) -> Result<(), Memory>
    requires factor { IsFactor q }
    requires graph { IsShaped T.Term terms.now (length graph.old.spots.items) graph.old }
    requires first { IsClaimed T.Term terms.now (length graph.old.spots.items) (pos 1) first.now }
    requires begins { first.now.bases ≡ map (λ term. T.start_of term (pos 1)) terms.now }
    ensures graph { OnOk result (IsClaimed T.Term terms.now (length graph.old.spots.items) q
        graph.new) }
    ensures small { OnOk result (All (λ x. All (IsAtMost (10 ^ 25)) x) graph.new.bases) }
{
    restart_by(alloc, graph, terms, q, first)?;
    Ok(())
}

// The least minimiser at the slope p/q, where the walks begin at bases of q times the terms.
fn least_on<T: Term>(
    alloc: Global,
    graph: &mut Graph<T::Note>,
    terms: &[T],
    shift: &mut Vec<i128>,
    sizes: &[i128],
    ratio: Ratio,
) -> Result<Worth, Memory>
    requires sizes { AreElementSizes (length sizes.now) sizes.now }
    requires places { length shift.old.items ≡ length sizes.now }
    requires graph { IsClaimed T.Term terms.now (length sizes.now) ratio.q graph.old }
    requires small { All (λ x. All (IsAtMost (10 ^ 25)) x) graph.old.bases }
    ensures places { OnOk result (length shift.new.items ≡ length sizes.now) }
    ensures graph { OnOk result (IsClaimed T.Term terms.now (length sizes.now) ratio.q graph.new) }
    ensures least { IfOk result (λ r. IsLeast (meanings T.places T.value_of terms.now)
        (length sizes.now) ratio.q (sized_shift sizes.now ratio.p) r.set) }
    ensures worth { IfOk result (IsWorth (meanings T.places T.value_of terms.now) sizes.now) }
{
    set_shift(shift, sizes, ratio.p);
    let least = least_by(alloc, graph, terms, ratio.q, shift.as_slice())?;
    Ok(worth_by(least, sizes, ratio))
}

// The least minimiser of q times the terms less the shift, from the bases of the graph, with the least value.
fn least_by<T: Term>(
    alloc: Global,
    graph: &mut Graph<T::Note>,
    terms: &[T],
    q: i128,
    shift: &[i128],
) -> Result<Attained, Memory>
    requires shifts { magnitudes shift.now ≤ℤ pos (10 ^ 27) }
    requires graph { IsClaimed T.Term terms.now (length shift.now) q graph.old }
    requires small { All (λ x. All (IsAtMost (10 ^ 25)) x) graph.old.bases }
    ensures graph { OnOk result (IsClaimed T.Term terms.now (length shift.now) q graph.new) }
    ensures least { IfOk result (λ r. IsLeast (meanings T.places T.value_of terms.now)
        (length shift.now) q shift.now r.set) }
    ensures value { IfOk result (λ r. r.value
        ≡ shifted_at (meanings T.places T.value_of terms.now) q shift.now r.set) }
{
    let mut steps = Steps::new();
    let z = improve(alloc, graph, terms, q, shift, &mut steps)?;
    let set = least_minimiser(alloc, graph, terms, q, shift, &z)?;
    let value = deficit_of(z.as_slice());
    Ok(Attained { set, value })
}
