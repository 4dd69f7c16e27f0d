// Bases to begin at: those of a slope that was looked at before, where their entries are small, and else the first bases of the
// terms, whose entries always are. Bases of the terms hang on no slope, and q times a base of a term is one of q times the
// term, so bases found at one slope serve at any other; they only have fewer walks before them. At any factor the first bases are
// so many times those of the terms themselves.
ghost use Rattle.std.specs.{Prelude.{◌≡◌, ◌^◌, map, pos, ◌*ℤ◌, ◌≤ℤ◌, IfOk}, List.{All}};
ghost use Rattle.sfm_spec.specs.{Bounds.{IsAtMost, total_of}, Families.{meanings, AreBases}};

use crate::search::GRAIN;
use sfm_base::{Memory, Rows};
use sfm_law::{Term, start_rows};
use std::alloc::Global;

/// The first bases of the terms, with entries of magnitude at most 10^19.
///
/// # Errors
///
/// `Memory` where there is none.
pub fn first_rows<T: Term>(alloc: Global, terms: &[T]) -> Result<Rows, Memory>
    requires sizes { total_of (map T.size_of terms.now) ≤ℤ pos (10 ^ 18) }
    ensures starts { IfOk result (λ r. r ≡ map (λ term. T.start_of term (pos 1)) terms.now) }
    ensures bases { IfOk result (AreBases (pos 1) (meanings T.places T.value_of terms.now)) }
    ensures small { IfOk result (λ r. All (λ x. All (IsAtMost (10 ^ 19)) x) r) }
{
    let rows = start_rows(alloc, terms, 1)?;
    Ok(rows)
}

/// A number times `GRAIN`.
pub fn grains(a: i128) -> i128
    requires { IsAtMost (10 ^ 19) a }
    ensures times { result ≡ (a *ℤ pos 64) }
    ensures small { IsAtMost (10 ^ 21) result }
{
    a * GRAIN
}
