// The chain of breakpoints, with no bases. Between the empty set and the whole ground, a turn finds either the one breakpoint
// between two sets or a set strictly between them that is itself the set of a breakpoint; the breakpoints are then those below
// this set and those above it. So for each breakpoint but the first there is one turn that finds no breakpoint: with J
// breakpoints there are 2J - 1 turns. The sets lie within one another, so at most n calls are open at a time.
ghost use Rattle.std.specs.{Prelude.{length, map, IfOk, OnOk}, List.{All}};
ghost use Rattle.sfm_spec.specs.{Families.{meanings}, Laws.{AreBreakpoints}};
ghost use Rattle.sfm_sizes.specs.Sizes.{AreElementSizes};
ghost use Rattle.sfm_slope.specs.{Gaps.{IsGap}, Points.{IsInRange, found_mark}, Parts.{IsPartTo}, Searches.{IsSearch}, Worths.{IsWorth}};

use crate::search::Search;
use crate::turn::{Breakpoint, Turn, take_turn};
use crate::worth::{Worth, worth_of};
use sfm_base::{Memory, Set};
use sfm_law::Term;

/// All breakpoints, ascending, each with its greatest minimiser.
pub fn chain<T: Term>(
    search: &mut Search<T::Note>,
    terms: &[T],
    sizes: &[i128],
) -> Result<Vec<Breakpoint>, Memory>
    requires sizes { AreElementSizes (length sizes.now) sizes.now }
    requires search { IsSearch T.Term terms.now (length sizes.now) search.old }
    ensures search { OnOk result (IsSearch T.Term terms.now (length sizes.now) search.new) }
    ensures slopes { IfOk result (λ r. AreBreakpoints (meanings T.places T.value_of terms.now)
        (length sizes.now) sizes.now (map found_mark r.items)) }
    ensures ranges { IfOk result (λ r. All (IsInRange sizes.now) r.items) }
{
    let n = sizes.len();
    let low = worth_of(search.alloc, terms, sizes, Set::empty(search.alloc, n)?)?;
    let high = worth_of(search.alloc, terms, sizes, Set::whole(search.alloc, n)?)?;
    let mut found = Vec::new(search.alloc);
    if n > 0 {
        fill(search, terms, sizes, &low, &high, &mut found)?;
    }
    Ok(found)
}

// Puts the breakpoints between two sets behind those up to the lower one.
fn fill<T: Term>(
    search: &mut Search<T::Note>,
    terms: &[T],
    sizes: &[i128],
    low: &Worth,
    high: &Worth,
    found: &mut Vec<Breakpoint>,
) -> Result<(), Memory>
    requires sizes { AreElementSizes (length sizes.now) sizes.now }
    requires search { IsSearch T.Term terms.now (length sizes.now) search.old }
    requires before { IsPartTo (meanings T.places T.value_of terms.now)
        (length sizes.now) sizes.now found.old.items low.now.set }
    requires gap { IsGap (meanings T.places T.value_of terms.now)
        (length sizes.now) sizes.now low.now.set high.now.set }
    requires low_worth { IsWorth (meanings T.places T.value_of terms.now) sizes.now low.now }
    requires high_worth { IsWorth (meanings T.places T.value_of terms.now) sizes.now high.now }
    ensures search { OnOk result (IsSearch T.Term terms.now (length sizes.now) search.new) }
    ensures part { OnOk result (IsPartTo (meanings T.places T.value_of terms.now)
        (length sizes.now) sizes.now found.new.items high.now.set) }
{
    match take_turn(search, terms, sizes, low, high)? {
        Turn::Next(next) => {
            found.push(next)?;
            Ok(())
        }
        Turn::Between(mid) => {
            fill(search, terms, sizes, low, &mid, found)?;
            fill(search, terms, sizes, &mid, high, found)
        }
    }
}
