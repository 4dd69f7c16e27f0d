// The terms of two sums as those of one: the left ones as they are, and the right ones turned round.
ghost use Rattle.std.specs.{Prelude.{◌≡◌, ◌*◌, ◌++◌, ◌≤◌, ◌^◌, List, drop, length, map, take, pos, ◌≤ℤ◌, IfOk, OnOk}, List.{All}};
ghost use Rattle.sfm_spec.specs.Bounds.{IsEntry};
ghost use Rattle.sfm_kind.specs.Kinds.{kind_size};
ghost use Rattle.sfm_flip.specs.Flipped.{negated};
ghost use Rattle.sfm_sides.specs.declared.side.Side.{Side};
ghost use Rattle.sfm_sides.specs.declared.side.Side.TheVariants.{Left, Right};

use crate::told::Bases;
use sfm_base::{Memory, Rows};
use sfm_flip::Flip;
use sfm_kind::Kind;
use sfm_sides::Side;
use std::alloc::Global;

/// The terms of both sums, which are copied.
pub(crate) fn sides_of(alloc: Global, left: &[Kind], right: &[Kind]) -> Result<Vec<Side>, Memory>
    requires { All (λ term. kind_size term ≤ℤ pos (5 * 10 ^ 17)) right.now }
    ensures { IfOk result (λ r. r.items ≡ map Left left.now ++ map Right right.now) }
{
    let mut sides = as_they_are(alloc, left)?;
    push_flipped(alloc, right, &mut sides)?;
    Ok(sides)
}

// The terms of the left sum.
fn as_they_are(alloc: Global, terms: &[Kind]) -> Result<Vec<Side>, Memory>
    ensures { IfOk result (λ r. r.items ≡ map Left terms.now) }
{
    let mut sides = Vec::new(alloc);
    for term in terms {
        sides.push(Side::Left(term.copy(alloc)?))?;
    }
    Ok(sides)
}

// Puts the terms of the right sum, turned round, at the end.
fn push_flipped(alloc: Global, terms: &[Kind], sides: &mut Vec<Side>) -> Result<(), Memory>
    requires { All (λ term. kind_size term ≤ℤ pos (5 * 10 ^ 17)) terms.now }
    ensures { OnOk result (sides.new.items ≡ sides.old.items ++ map Right terms.now) }
{
    for term in terms {
        sides.push(Side::Right(Flip::new(term.copy(alloc)?)))?;
    }
    Ok(())
}

/// Rows of both sums in one list, those of the right turned round.
pub(crate) fn joined(alloc: Global, bases: &Bases) -> Result<Rows, Memory>
    requires { All (λ x. All IsEntry x) bases.now.right }
    ensures { IfOk result (λ r. r ≡ bases.now.left ++ map negated bases.now.right) }
{
    let mut rows = first_rows(alloc, &bases.left, bases.left.len())?;
    push_turned(alloc, &bases.right, 0, &mut rows)?;
    Ok(rows)
}

/// The same taken apart: the first rows are those of the left.
pub(crate) fn apart(alloc: Global, rows: &Rows, count: usize) -> Result<Bases, Memory>
    requires count { count ≤ length rows.now }
    requires small { All (λ x. All IsEntry x) rows.now }
    ensures left { IfOk result (λ r. r.left ≡ take count rows.now) }
    ensures right { IfOk result (λ r. r.right ≡ map negated (drop count rows.now)) }
{
    let left = first_rows(alloc, rows, count)?;
    let mut right = Rows::new(alloc);
    push_turned(alloc, rows, count, &mut right)?;
    Ok(Bases { left, right })
}

// So many rows of a list, from the first on.
fn first_rows(alloc: Global, rows: &Rows, count: usize) -> Result<Rows, Memory>
    requires { count ≤ length rows.now }
    ensures { IfOk result (λ r. r ≡ take count rows.now) }
{
    let mut firsts = Rows::new(alloc);
    for i in 0..count {
        firsts.push(rows.row(i))?;
    }
    Ok(firsts)
}

// Puts the rows of a list from one place on, with their signs turned, at the end of another.
fn push_turned(alloc: Global, rows: &Rows, from: usize, to: &mut Rows) -> Result<(), Memory>
    requires from { from ≤ length rows.now }
    requires small { All (λ x. All IsEntry x) rows.now }
    ensures { OnOk result (to.new ≡ to.old ++ map negated (drop from rows.now)) }
{
    for i in from..rows.len() {
        let row = turned(alloc, rows.row(i))?;
        to.push(&row)?;
    }
    Ok(())
}

// The numbers with their signs turned.
fn turned(alloc: Global, x: &[i128]) -> Result<Vec<i128>, Memory>
    requires { All IsEntry x.now }
    ensures { IfOk result (λ r. r.items ≡ negated x.now) }
{
    let mut numbers = Vec::new(alloc);
    for a in x {
        numbers.push(-*a)?;
    }
    Ok(numbers)
}
