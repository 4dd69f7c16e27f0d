// The sections of many breakpoints by one tree of stages. A stage serves all slopes of its breakpoints; each half of them goes on
// from its bases, the first one in a copy of the graph and the other in the graph itself. Where a part has few breakpoints,
// each goes on by itself from the bases of the part, multiplied by the denominator of its slope. The walks of the stages and
// those of the breakpoint's own run lead, one after the other, from the first bases to its section, and are counted. Where
// there are too many, as where numbers are too large, the section is found from the first bases anew.
ghost use Rattle.std.specs.{Prelude.{◌∷◌, [], ◌^◌, ◌≤◌, true, length, map, pos, ◌≤ℤ◌, IfOk, OnOk, IfSome}, List.{All}};
ghost use Rattle.sfm_spec.specs.{Bounds.{IsAtMost}, Families.{meanings, sized_shift}, Walks.{IsWalkChain}};
ghost use Rattle.sfm_sizes.specs.Sizes.{AreElementSizes};
ghost use Rattle.sfm_exchange.specs.Scaled.{rows_times};
ghost use Rattle.sfm_slope.specs.{Behind.{AreBehind, HasSection, IsSectionOf}, Points.{IsInRange}, Searches.{IsSearch}, Standings.{IsStanding, IsSection}};

use crate::search::{Search, set_shift};
use crate::sections::{each_section, section};
use crate::standing::{Standing, copy_standing, most_walks, stage_over};
use crate::turn::Breakpoint;
use sfm_base::{Memory, Rows, Slope, Steps};
use sfm_exchange::restart_by;
use sfm_law::{Break, Term};
use sfm_walk::improve;
use std::mem;

/// Puts the sections of some breakpoints behind those that are there, from the bases that a stage has led to.
///
/// # Errors
///
/// `Memory` where there is none.
pub fn branch<T: Term>(
    search: &mut Search<T::Note>,
    terms: &[T],
    sizes: &[i128],
    found: &[Breakpoint],
    at: Standing<T::Note>,
    breaks: &mut Vec<Break>,
) -> Result<(), Memory>
    requires sizes { AreElementSizes (length sizes.now) sizes.now }
    requires search { IsSearch T.Term terms.now (length sizes.now) search.old }
    requires ranges { All (IsInRange sizes.now) found.now }
    requires standing { IsStanding T.Term terms.now sizes.now found.now at }
    requires before { All (HasSection T.Term terms.now sizes.now) breaks.old.items }
    ensures search { OnOk result (IsSearch T.Term terms.now (length sizes.now) search.new) }
    ensures behind { OnOk result (AreBehind T.Term terms.now sizes.now found.now breaks.old.items
        breaks.new.items) }
{
    let few = most_walks(sizes.len(), terms.len());
    if found.len() < 2 || at.walks > few || !at.graph.bases.are_within(MOST_MULTIPLIED) {
        return leaves(search, terms, sizes, found, &at, breaks);
    }
    let mut at = at;
    stage_over(search.alloc, terms, sizes, found, &mut at)?;
    if found.len() < FEW_AT_LEAVES || !at.graph.bases.are_within(MOST_MULTIPLIED) {
        return leaves(search, terms, sizes, found, &at, breaks);
    }
    let mid = found.len() / 2;
    let again = copy_standing(search.alloc, terms, sizes, found, &at)?;
    branch(search, terms, sizes, &found[..mid], again, breaks)?;
    branch(search, terms, sizes, &found[mid..], at, breaks)?;
    Ok(())
}

// So few breakpoints go on by runs of their own from the end of one stage.
const FEW_AT_LEAVES: usize = 8;

// The greatest magnitude of an entry that may be multiplied.
const MOST_MULTIPLIED: u128 = 10_000_000_000_000_000_000;

// Puts the section of each breakpoint behind those that are there.
fn leaves<T: Term>(
    search: &mut Search<T::Note>,
    terms: &[T],
    sizes: &[i128],
    found: &[Breakpoint],
    at: &Standing<T::Note>,
    breaks: &mut Vec<Break>,
) -> Result<(), Memory>
    requires sizes { AreElementSizes (length sizes.now) sizes.now }
    requires search { IsSearch T.Term terms.now (length sizes.now) search.old }
    requires ranges { All (IsInRange sizes.now) found.now }
    requires standing { IsStanding T.Term terms.now sizes.now found.now at.now }
    requires before { All (HasSection T.Term terms.now sizes.now) breaks.old.items }
    ensures search { OnOk result (IsSearch T.Term terms.now (length sizes.now) search.new) }
    ensures behind { OnOk result (AreBehind T.Term terms.now sizes.now found.now breaks.old.items
        breaks.new.items) }
{
    if !at.graph.bases.are_within(MOST_MULTIPLIED) {
        return each_section(search, terms, sizes, found, breaks);
    }
    for point in found {
        breaks.push(leaf(search, terms, sizes, point, at)?)?;
    }
    Ok(())
}

// The section of a breakpoint: from the bases that a stage has led to, or from the first ones.
fn leaf<T: Term>(
    search: &mut Search<T::Note>,
    terms: &[T],
    sizes: &[i128],
    point: &Breakpoint,
    at: &Standing<T::Note>,
) -> Result<Break, Memory>
    requires sizes { AreElementSizes (length sizes.now) sizes.now }
    requires search { IsSearch T.Term terms.now (length sizes.now) search.old }
    requires range { IsInRange sizes.now point.now }
    requires standing { IsStanding T.Term terms.now sizes.now (point.now ∷ []) at.now }
    requires small { All (λ x. All (IsAtMost (10 ^ 19)) x) at.now.graph.bases }
    ensures search { OnOk result (IsSearch T.Term terms.now (length sizes.now) search.new) }
    ensures found { IfOk result (IsSectionOf T.Term terms.now sizes.now point.now) }
{
    let slope = point.slope;
    if let Some(bases) = walk_on(search, terms, sizes, slope, at)? {
        let set = point.set.copy(search.alloc)?;
        return Ok(Break { slope, set, bases });
    }
    section(search, terms, sizes, point)
}

// Bases that prove at a slope, by walks from the multiples of those that a stage has led to; None where the walks are too many
// in all.
fn walk_on<T: Term>(
    search: &mut Search<T::Note>,
    terms: &[T],
    sizes: &[i128],
    slope: Slope,
    at: &Standing<T::Note>,
) -> Result<Option<Rows>, Memory>
    requires sizes { AreElementSizes (length sizes.now) sizes.now }
    requires search { IsSearch T.Term terms.now (length sizes.now) search.old }
    requires range { IsAtMost (10 ^ 19) slope.num }
    requires standing { (found : _) × IsStanding T.Term terms.now sizes.now found at.now }
    requires chain { IsWalkChain (meanings T.places T.value_of terms.now) slope.den
        (sized_shift sizes.now slope.num) at.now.walks
        (map (λ term. T.start_of term slope.den) terms.now)
        (rows_times slope.den at.now.graph.bases) }
    requires small { All (λ x. All (IsAtMost (10 ^ 19)) x) at.now.graph.bases }
    ensures search { OnOk result (IsSearch T.Term terms.now (length sizes.now) search.new) }
    ensures section { IfOk result (λ r. IfSome r (IsSection
        (meanings T.places T.value_of terms.now) (map (λ term. T.start_of term slope.den) terms.now)
        (length sizes.now) slope.den (sized_shift sizes.now slope.num))) }
{
    let alloc = search.alloc;
    restart_by(alloc, &mut search.cold, terms, slope.den, &at.graph)?;
    set_shift(&mut search.shift, sizes, slope.num);
    let mut steps = Steps::new();
    improve(
        alloc,
        &mut search.cold,
        terms,
        slope.den,
        &search.shift,
        &mut steps,
    )?;
    if at.walks + steps.count() > most_walks(sizes.len(), terms.len()) {
        return Ok(None);
    }
    Ok(Some(mem::replace(&mut search.cold.bases, Rows::new(alloc))))
}
