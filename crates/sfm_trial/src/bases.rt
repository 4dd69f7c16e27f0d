// The first base of q times a term, whether a vector is a base, and whether rows of bases are those of a table. A term may be asked
// for bases only where all numbers are within the bounds, which is seen first.
ghost use Rattle.std.specs.{Prelude.{◌≡◌, ◌↔◌, ◌^◌, ◌≤ℤ◌, length, pos, IfOk, IsTrue}, List.{All}};
ghost use Rattle.sfm_spec.specs.Bounds.{IsEntry, IsFactor};
ghost use Rattle.sfm_law.specs.Based.{IsBased};
ghost use Rattle.sfm_trial.specs.Fit.{IsFit};

use sfm_base::{Memory, Rows};
use sfm_kind::MOST_SIZE;
use sfm_law::{At, Term};
use std::alloc::Global;

/// The greatest magnitude that an entry of a base may have.
pub const MOST_ENTRY: i128 = 1_000_000_000_000_000_000_000_000_000_000;

/// Whether each number is a possible entry of a base.
pub fn are_entries(x: &[i128]) -> bool
    ensures { IsTrue result ↔ All IsEntry x.now }
{
    x.iter().all(|a| -MOST_ENTRY <= *a && *a <= MOST_ENTRY)
}

/// Whether rows are these.
pub fn are_rows(rows: &Rows, told: &[&[i128]]) -> bool {
    for (i, row) in told.iter().enumerate() {
        if i >= rows.len() || rows.row(i) != *row {
            return false;
        }
    }
    rows.len() == told.len()
}

/// Whether a number is a factor.
fn is_factor(q: i128) -> bool
    ensures { IsTrue result ↔ IsFactor q }
{
    1 <= q && q <= 1_000_000
}

/// Whether a term is not too large to be asked for bases.
pub fn is_small<T: Term>(term: &T) -> bool
    ensures { IsTrue result ↔ T.size_of term.now ≤ℤ pos (10 ^ 18) }
{
    term.size() <= MOST_SIZE
}

/// The first base of q times a term; nothing where memory lacks.
pub fn first_base<T: Term>(alloc: Global, term: &T, q: i128) -> Option<Vec<i128>>
    requires factor { IsFactor q }
    requires bounded { T.size_of term.now ≤ℤ pos (10 ^ 18) }
{
    let Ok(mut x) = vec![in alloc; 1; term.elements().len()] else {
        return None;
    };
    match term.start(alloc, q, x.as_mut_slice()) {
        Ok(()) => Some(x),
        Err(_) => None,
    }
}

/// Whether the first base of q times a term can be asked for, and is that one.
pub fn starts<T: Term>(alloc: Global, term: &T, at: &At<'_>) -> bool {
    if !is_factor(at.q) || !is_small(term) {
        return false;
    }
    match first_base(alloc, term, at.q) {
        Some(x) => x.as_slice() == at.x,
        None => false,
    }
}

/// Whether a vector has a number for each place of a term.
fn is_sized<T: Term>(term: &T, x: &[i128]) -> bool
    ensures { IsTrue result ↔ length x.now ≡ length (T.places term.now) }
{
    x.len() == term.elements().len()
}

/// Whether a factor, a term and a vector are such that bases can be asked for.
pub fn is_fit<T: Term>(term: &T, at: &At<'_>) -> bool
    ensures { IsTrue result → IsFit T.places T.size_of term.now at.now.q at.now.x.now }
{
    is_factor(at.q) && is_small(term) && is_sized(term, at.x) && are_entries(at.x)
}

/// What a term tells of a vector: whether it is a base of q times the term, with all numbers within the bounds.
///
/// # Errors
///
/// `Memory` where there is none.
pub fn tells_base<T: Term>(alloc: Global, term: &T, at: &At<'_>) -> Result<bool, Memory>
    ensures { IfOk result (λ r. IsTrue r → IsBased T.places T.value_of T.size_of term.now at.now.q
        at.now.x.now) }
{
    if is_fit(term, at) {
        term.is_base(alloc, at.q, at.x)
    } else {
        Ok(false)
    }
}

/// Whether a vector is a base of q times a term.
pub fn is_base<T: Term>(alloc: Global, term: &T, at: &At<'_>) -> bool
    ensures { IsTrue result → IsBased T.places T.value_of T.size_of term.now at.now.q
        at.now.x.now }
{
    match tells_base(alloc, term, at) {
        Ok(found) => found,
        Err(_) => false,
    }
}
