// The first bases of a list of terms.
ghost use Rattle.std.specs.{Prelude.{◌≡◌, ◌^◌, length, map, pos, ◌≤ℤ◌, IfOk, OnOk}, List.{All}};
ghost use Rattle.sfm_spec.specs.{Bounds.{IsEntry, IsFactor}, Families.{meanings, AreBases}};

use crate::term::Term;
use sfm_base::{Memory, Rows};
use std::alloc::Global;

/// The first base of q times a term.
pub fn start_row<T: Term>(alloc: Global, term: &T, q: i128) -> Result<Vec<i128>, Memory>
    requires factor { IsFactor q }
    requires bounded { T.size_of term.now ≤ℤ pos (10 ^ 18) }
    ensures { IfOk result (λ row. row.items ≡ T.start_of term.now q) }
{
    let mut row = Vec::new(alloc);
    write_start(alloc, term, q, &mut row)?;
    Ok(row)
}

// Makes of a list the first base of q times a term. It takes memory only where the list has another length.
fn write_start<T: Term>(alloc: Global, term: &T, q: i128, row: &mut Vec<i128>) -> Result<(), Memory>
    requires factor { IsFactor q }
    requires bounded { T.size_of term.now ≤ℤ pos (10 ^ 18) }
    ensures { OnOk result (row.new.items ≡ T.start_of term.now q) }
{
    make_long(alloc, row, term.elements().len())?;
    term.start(alloc, q, row)?;
    Ok(())
}

// Makes of a list one of so many numbers, whatever they are.
fn make_long(alloc: Global, row: &mut Vec<i128>, count: usize) -> Result<(), Memory>
    ensures { OnOk result (length row.new.items ≡ count) }
{
    if row.len() != count {
        *row = vec![in alloc; 0i128; count]?;
    }
    Ok(())
}

/// The first base of q times each term, each with entries of magnitude at most 10^30.
pub fn start_rows<T: Term>(alloc: Global, terms: &[T], q: i128) -> Result<Rows, Memory>
    requires factor { IsFactor q }
    requires bounded { All (λ term. T.size_of term ≤ℤ pos (10 ^ 18)) terms.now }
    ensures starts { IfOk result (λ rows. rows ≡ map (λ term. T.start_of term q) terms.now) }
    ensures bases { IfOk result (λ rows. AreBases q (meanings T.places T.value_of terms.now) rows) }
    ensures small { IfOk result (λ rows. All (λ row. All IsEntry row) rows) }
{
    let mut rows = Rows::with_room(alloc, terms.len(), count_places(terms))?;
    let mut row = Vec::new(alloc);
    for term in terms {
        write_start(alloc, term, q, &mut row)?;
        rows.push(&row)?;
    }
    Ok(rows)
}

/// How many places the terms have in all, as far as the number goes.
pub fn count_places<T: Term>(terms: &[T]) -> usize {
    let mut count = 0usize;
    for term in terms {
        count = count.saturating_add(term.elements().len());
    }
    count
}
