// One turn of the search for breakpoints between two sets, the lower of which is the set of the breakpoint before, or
// empty. At the slope at which both sets are worth as much, the least minimiser is either the lower set: then the slope
// is the next breakpoint, and the higher set is the greatest minimiser there. Or it lies strictly between them, and the
// breakpoints are those below it and those above it. The least minimiser at a lower slope does as well, where it is larger
// than the lower set: it lies within the one at this slope.
ghost use Rattle.std.specs.Prelude.{◌^◌, length, map, pos, ◌-ℤ◌, ◌≤ℤ◌, ◌<ℤ◌, IfOk, OnOk};
ghost use Rattle.sfm_spec.specs.{Bounds.{IsGiven}, Families.{meanings}, Slopes.{IsSameSlope}};
ghost use Rattle.sfm_sizes.specs.Sizes.{AreElementSizes};
ghost use Rattle.sfm_slope.specs.{Gaps.{IsBegun, IsGap}, Searches.{IsSearch}, Worths.{IsWorth}, Turns.{IsTurn}};

use crate::least::least_near;
use crate::search::Search;
use crate::worth::Worth;
use sfm_base::{Memory, Set, Slope};
use sfm_law::Term;

/// A slope at which there are two or more minimisers, with the greatest of them.
#[derive(Drop)]
pub struct Breakpoint {
    pub slope: Slope,
    pub set: Set,
}

/// What a turn finds.
#[derive(Drop)]
pub enum Turn {
    // The next breakpoint above the lower set; its set is the higher one.
    Next(Breakpoint),
    // A set strictly between.
    Between(Worth),
}

/// Looks at the slope at which both sets are worth as much.
pub fn take_turn<T: Term>(
    search: &mut Search<T::Note>,
    terms: &[T],
    sizes: &[i128],
    low: &Worth,
    high: &Worth,
) -> Result<Turn, Memory>
    requires sizes { AreElementSizes (length sizes.now) sizes.now }
    requires search { IsSearch T.Term terms.now (length sizes.now) search.old }
    requires begun { IsBegun (meanings T.places T.value_of terms.now)
        (length sizes.now) sizes.now low.now.set }
    requires gap { IsGap (meanings T.places T.value_of terms.now)
        (length sizes.now) sizes.now low.now.set high.now.set }
    requires low_worth { IsWorth (meanings T.places T.value_of terms.now) sizes.now low.now }
    requires high_worth { IsWorth (meanings T.places T.value_of terms.now) sizes.now high.now }
    ensures search { OnOk result (IsSearch T.Term terms.now (length sizes.now) search.new) }
    ensures turn { IfOk result (IsTurn (meanings T.places T.value_of terms.now)
        (length sizes.now) sizes.now low.now.set high.now.set) }
{
    let slope = slope_between(low, high);
    let least = least_near(search, terms, sizes, slope, low.size)?;
    if least.size == low.size {
        return Ok(Turn::Next(Breakpoint {
            slope,
            set: high.set.copy(search.alloc)?,
        }));
    }
    Ok(Turn::Between(least))
}

/// The slope at which both sets are worth as much.
pub fn slope_between(low: &Worth, high: &Worth) -> Slope
    requires low { pos 0 ≤ℤ low.now.weight }
    requires larger { low.now.weight <ℤ high.now.weight }
    requires high { high.now.weight ≤ℤ pos (10 ^ 6) }
    requires low_small { IsGiven low.now.sum }
    requires high_small { IsGiven high.now.sum }
    ensures { IsSameSlope (high.now.sum -ℤ low.now.sum)
        (high.now.weight -ℤ low.now.weight) result.num result.den }
{
    let rise = high.sum - low.sum;
    let width = high.weight - low.weight;
    Slope::new(rise, width)
}
