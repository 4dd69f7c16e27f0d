// The bases of each breakpoint. They hang on the terms and the slopes alone, and few walks lead to them from the first bases,
// however the breakpoints were found. Where there are few, or many more terms of few places each, each is found by a run of its own
// from the first bases, and else by a tree of stages.
ghost use Rattle.std.specs.{Prelude.{[], length, IfOk, OnOk}, List.{All}};
ghost use Rattle.sfm_sizes.specs.Sizes.{AreElementSizes};
ghost use Rattle.sfm_slope.specs.{Behind.{AreBehind, HasSection, IsSectionOf}, Points.{IsInRange}, Searches.{IsSearch}};

use crate::search::{Search, set_shift};
use crate::standing::first_standing;
use crate::tree::branch;
use crate::turn::Breakpoint;
use sfm_base::Memory;
use sfm_law::{Break, Term, count_places};
use sfm_walk::minimise_from_start;
use std::alloc::Global;

/// Each breakpoint with bases that prove at its slope.
pub fn sections<T: Term>(
    search: &mut Search<T::Note>,
    terms: &[T],
    sizes: &[i128],
    found: &[Breakpoint],
) -> Result<Vec<Break>, Memory>
    requires sizes { AreElementSizes (length sizes.now) sizes.now }
    requires search { IsSearch T.Term terms.now (length sizes.now) search.old }
    requires ranges { All (IsInRange sizes.now) found.now }
    ensures { IfOk result (λ r. AreBehind T.Term terms.now sizes.now found.now [] r.items) }
{
    let mut breaks = Vec::new(search.alloc);
    if found.len() < FEW_BREAKPOINTS || is_dear(terms, found.len()) {
        each_section(search, terms, sizes, found, &mut breaks)?;
        return Ok(breaks);
    }
    let first = first_standing(search.alloc, terms, sizes, found, &search.first)?;
    branch(search, terms, sizes, found, first, &mut breaks)?;
    Ok(breaks)
}

// So few breakpoints share too little for stages to be worth their graphs.
const FEW_BREAKPOINTS: usize = 16;

// Whether copies of a graph cost more than the stages save: there are many more terms than breakpoints, of few places each, so walks
// are short, and a graph has rows of all terms.
fn is_dear<T: Term>(terms: &[T], breakpoints: usize) -> bool {
    terms.len() / MANY_TERMS > breakpoints && count_places(terms) / FEW_PLACES < terms.len()
}

// So many times as many terms as breakpoints are many.
const MANY_TERMS: usize = 6;

// Cuts have two places, and fewer than so many are few.
const FEW_PLACES: usize = 4;

/// Puts each breakpoint behind those that are there, with bases that a run from the first ones finds.
///
/// # Errors
///
/// `Memory` where there is none.
pub fn each_section<T: Term>(
    search: &mut Search<T::Note>,
    terms: &[T],
    sizes: &[i128],
    found: &[Breakpoint],
    breaks: &mut Vec<Break>,
) -> Result<(), Memory>
    requires sizes { AreElementSizes (length sizes.now) sizes.now }
    requires search { IsSearch T.Term terms.now (length sizes.now) search.old }
    requires ranges { All (IsInRange sizes.now) found.now }
    requires before { All (HasSection T.Term terms.now sizes.now) breaks.old.items }
    ensures search { OnOk result (IsSearch T.Term terms.now (length sizes.now) search.new) }
    ensures behind { OnOk result (AreBehind T.Term terms.now sizes.now found.now breaks.old.items
        breaks.new.items) }
{
    for point in found {
        breaks.push(section(search, terms, sizes, point)?)?;
    }
    Ok(())
}

/// A breakpoint with bases that prove at its slope, by a run from the first bases.
///
/// # Errors
///
/// `Memory` where there is none.
pub fn section<T: Term>(
    search: &mut Search<T::Note>,
    terms: &[T],
    sizes: &[i128],
    point: &Breakpoint,
) -> Result<Break, Memory>
    requires sizes { AreElementSizes (length sizes.now) sizes.now }
    requires search { IsSearch T.Term terms.now (length sizes.now) search.old }
    requires range { IsInRange sizes.now point.now }
    ensures search { OnOk result (IsSearch T.Term terms.now (length sizes.now) search.new) }
    ensures found { IfOk result (IsSectionOf T.Term terms.now sizes.now point.now) }
{
    let slope = point.slope;
    let set = point.set.copy(search.alloc)?;
    set_shift(&mut search.shift, sizes, slope.num);
    let bases = minimise_from_start(
        search.alloc,
        &mut search.cold,
        &search.first,
        terms,
        slope.den,
        &search.shift,
    )?;
    Ok(Break { slope, set, bases })
}
