// What is due for the most level base of an instance. It is found where the sizes of the terms add to at most 10^13, so that
// the sum of its squares is an entry; the line at which they add to more is named.
ghost use Rattle.std.specs.Prelude.{◌≡◌, ℕ, ◌^◌, length, pos, ◌≤ℤ◌, IfOk, MatchOption};
ghost use Rattle.sfm_kind.specs.Limits.{total_size_of};
ghost use Rattle.sfm_due.specs.{Level.{level_limit}, Meanings.{question_of}, Owing.{IsMade, IsLevelled}, Sums.{PassesAt}};

use crate::due::Due;
use crate::status::Status;
use sfm_base::Memory;
use sfm_kind::{Instance, Kind};
use sfm_law::Term;
use sfm_level::level_text;
use std::alloc::Global;

/// The most that the sizes of the terms may add to where a most level base is asked for.
const LEVEL_LIMIT: i128 = 10_000_000_000_000;

/// Of the terms of an instance with the numbers of their lines, the first line at which the sizes add to more than 10^13, or
/// None where all of them do not.
pub fn too_large(instance: &Instance, lines: &[usize]) -> Option<usize>
    requires { length lines.now ≡ length instance.now.terms }
    ensures { MatchOption result
        (total_size_of instance.now.terms ≤ℤ level_limit)
        (PassesAt instance.now.terms lines.now) }
{
    passes_at(instance.terms(), lines)
}

/// The same of terms within the bounds of an instance.
fn passes_at(terms: &[Kind], lines: &[usize]) -> Option<usize>
    requires counted { length lines.now ≡ length terms.now }
    requires small { total_size_of terms.now ≤ℤ pos (10 ^ 18) }
    ensures { MatchOption result
        (total_size_of terms.now ≤ℤ level_limit)
        (PassesAt terms.now lines.now) }
{
    let mut total = 0;
    for i in 0..terms.len() {
        total += terms[i].size();
        if total > LEVEL_LIMIT {
            return Some(lines[i]);
        }
    }
    None
}

/// What is due to find the most level base of an instance whose sizes add to at most 10^13.
///
/// # Errors
///
/// `Memory` where there is none.
pub fn due_to_level(alloc: Global, instance: &Instance) -> Result<Due, Memory>
    requires { total_size_of instance.now.terms ≤ℤ level_limit }
    ensures { IfOk result (IsMade (λ written code. IsLevelled (question_of instance.now) written
        × (code ≡ 0))) }
{
    Ok(Due {
        text: level_text(alloc, instance)?,
        status: Status::Done,
    })
}
