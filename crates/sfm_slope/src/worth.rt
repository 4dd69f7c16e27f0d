// A set of the ground with its size, its weight and what it is worth, kept together so that none is ever computed twice. The value
// of a term is asked for at the part of the set in the term; the sizes of all terms add to at most 10^18, so no sum of
// values exceeds that.
ghost use Rattle.std.specs.Prelude.{◌≡◌, ℕ, ◌<◌, length, map, pos, unwrap_or, slice_index, IfOk};
ghost use Rattle.sfm_spec.specs.{Bounds.{AreBounded, IsGiven}, Sets.{part}, Families.{meanings, sum_at, IsAllowed}};
ghost use Rattle.sfm_sizes.specs.Sizes.{AreElementSizes};
ghost use Rattle.sfm_slope.specs.Worths.{IsWorth};

use sfm_base::{Memory, Set};
use sfm_law::Term;
use sfm_sizes::weight_of;
use std::alloc::Global;

/// An allowed set, with how many places are in it, what these count together by their sizes, and the sum of all terms there.
#[derive(Drop)]
pub struct Worth {
    pub set: Set,
    pub size: usize,
    pub weight: i128,
    pub sum: i128,
}

/// The set with what it is worth.
pub fn worth_of<T: Term>(
    alloc: Global,
    terms: &[T],
    sizes: &[i128],
    set: Set,
) -> Result<Worth, Memory>
    requires bounded { AreBounded (length set) (map T.places terms.now) (map T.size_of terms.now) }
    requires sizes { AreElementSizes (length set) sizes.now }
    requires allowed { IsAllowed (meanings T.places T.value_of terms.now) set }
    ensures same { IfOk result (λ r. r.set ≡ set) }
    ensures worth { IfOk result (IsWorth (meanings T.places T.value_of terms.now) sizes.now) }
{
    let size = set.size();
    let weight = weight_of(&set, sizes);
    let sum = sum_at(alloc, terms, &set)?;
    Ok(Worth {
        set,
        size,
        weight,
        sum,
    })
}

// The sum of all terms at a set.
fn sum_at<T: Term>(alloc: Global, terms: &[T], set: &Set) -> Result<i128, Memory>
    requires bounded { AreBounded (length set.now) (map T.places terms.now)
        (map T.size_of terms.now) }
    ensures value { IfOk result (λ r. r ≡ sum_at (meanings T.places T.value_of terms.now) set.now) }
    ensures small { IfOk result IsGiven }
{
    let mut sum = 0;
    let mut scratch = Set::empty(alloc, 0)?;
    for term in terms {
        sum += value_at(alloc, term, set, &mut scratch)?;
    }
    Ok(sum)
}

// The value of a term at a set, or 0 where the term does not allow its part, which is written in a set that is there.
fn value_at<T: Term>(alloc: Global, term: &T, set: &Set, scratch: &mut Set) -> Result<i128, Memory>
    requires placed { (j : ℕ) → j < length (T.places term.now)
        → slice_index (T.places term.now) j < length set.now }
    ensures { IfOk result (λ r. r ≡ unwrap_or (T.value_of term.now
        (part (T.places term.now) set.now)) (pos 0)) }
{
    scratch.take_part(alloc, set, term.elements())?;
    let value = term.value(alloc, scratch)?;
    Ok(value.unwrap_or(0))
}
