// All breakpoints in order, in two phases. First the chain of slopes and sets, in which each minimisation begins at the bases
// that the one before ended at. Then the bases of each breakpoint, from the first bases. The sets come from the one, what
// proves from the other, and both speak of the same slope: so neither has to be compared with the other. Where each element
// counts one, the same is told of n in place of sizes.
ghost use Rattle.std.specs.{Prelude.{length, map, IfOk}, List.{All}};
ghost use Rattle.sfm_spec.specs.{Bounds.{AreBounded}, Families.{meanings}, Laws.{AreBreakpoints, ones}};
ghost use Rattle.sfm_sizes.specs.Sizes.{AreElementSizes};
ghost use Rattle.sfm_slope.specs.{Marks.{HasBases, HasBasesBy, mark_of}, Searches.{IsSearch}};

use crate::chain::chain;
use crate::search::Search;
use crate::sections::sections;
use sfm_base::Memory;
use sfm_law::{Break, Term};
use sfm_sizes::ones;
use std::alloc::Global;

/// All slopes at which there are two or more minimisers, ascending and in lowest terms, each with its greatest minimiser
/// and with bases that prove there, reached from the first bases at the slope by few walks, over a ground of n places
/// (Fujishige, Submodular Functions and Optimization, section 7: the principal partition). There are at most n, and no
/// denominator exceeds n.
///
/// # Errors
///
/// `Memory` where there is none.
pub fn partition<T: Term>(alloc: Global, terms: &[T], n: usize) -> Result<Vec<Break>, Memory>
    requires bounded { AreBounded n (map T.places terms.now) (map T.size_of terms.now) }
    ensures slopes { IfOk result (λ r. AreBreakpoints (meanings T.places T.value_of terms.now) n
        (ones n) (map mark_of r.items)) }
    ensures bases { IfOk result (λ r. All (HasBases (meanings T.places T.value_of terms.now)
        (λ q. map (λ term. T.start_of term q) terms.now) n) r.items) }
{
    let sizes = ones(alloc, n)?;
    let breaks = partition_by(alloc, terms, n, &sizes)?;
    Ok(breaks)
}

/// The same where each element counts its size: at a slope p/q a set is worth q times the sum of the terms there less p times
/// its weight, which is the sizes of its members together. There are at most n slopes, and no denominator exceeds the sizes of
/// all elements together, which is at most 1,000,000.
///
/// # Errors
///
/// `Memory` where there is none.
pub fn partition_by<T: Term>(
    alloc: Global,
    terms: &[T],
    n: usize,
    sizes: &[i128],
) -> Result<Vec<Break>, Memory>
    requires bounded { AreBounded n (map T.places terms.now) (map T.size_of terms.now) }
    requires sizes { AreElementSizes n sizes.now }
    ensures slopes { IfOk result (λ r. AreBreakpoints (meanings T.places T.value_of terms.now) n
        sizes.now (map mark_of r.items)) }
    ensures bases { IfOk result (λ r. All (HasBasesBy (meanings T.places T.value_of terms.now)
        (λ q. map (λ term. T.start_of term q) terms.now) n sizes.now) r.items) }
{
    let mut search = Search::new(alloc, terms, n)?;
    let breaks = partition_with(&mut search, terms, sizes)?;
    Ok(breaks)
}

/// The same over the ground of a search, by its graphs: no term is asked for a first base, nor for its rows there.
///
/// # Errors
///
/// `Memory` where there is none.
pub fn partition_with<T: Term>(
    search: &mut Search<T::Note>,
    terms: &[T],
    sizes: &[i128],
) -> Result<Vec<Break>, Memory>
    requires sizes { AreElementSizes (length sizes.now) sizes.now }
    requires search { IsSearch T.Term terms.now (length sizes.now) search.old }
    ensures slopes { IfOk result (λ r. AreBreakpoints (meanings T.places T.value_of terms.now)
        (length sizes.now) sizes.now (map mark_of r.items)) }
    ensures bases { IfOk result (λ r. All (HasBasesBy (meanings T.places T.value_of terms.now)
        (λ q. map (λ term. T.start_of term q) terms.now) (length sizes.now) sizes.now) r.items) }
{
    let found = chain(search, terms, sizes)?;
    let breaks = sections(search, terms, sizes, &found)?;
    Ok(breaks)
}
