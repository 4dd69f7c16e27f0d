// The minimum of an edited instance, sought from the bases that proved the minimum before the edits: the walks begin at the old
// base of each kept term, so that few of them are left where the edits are few. What is found is what computing afresh finds, as
// any bases that prove a minimum prove the least one.
ghost use Rattle.std.specs.{Prelude.{◌≡◌, ◌+◌, ◌<◌, ◌≤◌, ◌^◌, ℕ, ℤ, List, length, pos, replicate, Option, Some, ◌≤ℤ◌, IfOk}, List.{All}};
ghost use Rattle.sfm_spec.specs.{Families.{meanings, even_shift}, Walks.{few_walks}};
ghost use Rattle.sfm_walk.specs.{Counted.{IsCounted}, Optimum.{IsOptimum}};
ghost use Rattle.sfm_kind.specs.{Kinds.{kind_places, kind_value, kind_size}};
ghost use Rattle.sfm_edit.specs.Resuming.{first_of, firsts_of, HasBaseAt, AreOldBases};

use crate::editing::Edited;
use crate::origins::Origins;
use sfm_base::{Memory, Rows, Steps};
use sfm_kind::Kind;
use sfm_law::start_row;
use sfm_walk::{Optimum, minimise_from};
use std::alloc::Global;

/// The base at which the walks of a term begin.
fn first_row(
    alloc: Global,
    term: &Kind,
    origin: Option<usize>,
    rows: &Rows,
) -> Result<Vec<i128>, Memory>
    requires old { (i : ℕ) → origin ≡ Some i → i < length rows.now }
    requires small { kind_size term.now ≤ℤ pos (10 ^ 18) }
    ensures { IfOk result (λ x. x.items ≡ first_of rows.now term.now origin) }
{
    let Some(i) = origin else {
        return start_row(alloc, term, 1);
    };
    Ok(Vec::from_slice(alloc, rows.row(i))?)
}

/// The bases at which the walks of all terms begin.
fn first_rows(alloc: Global, terms: &[Kind], kept: &Origins, rows: &Rows) -> Result<Rows, Memory>
    requires count { length kept.now ≡ length terms.now }
    requires old { AreOldBases terms.now kept.now rows.now }
    requires small { All (λ term. kind_size term ≤ℤ pos (10 ^ 18)) terms.now }
    ensures { IfOk result (λ firsts. firsts ≡ firsts_of terms.now kept.now rows.now) }
{
    let mut firsts = Rows::new(alloc);
    for j in 0..terms.len() {
        let row = first_row(alloc, &terms[j], kept.at(j), rows)?;
        firsts.push(&row)?;
    }
    Ok(firsts)
}

/// Bases that prove the minimum of an edited instance, reached by few walks from the old base of each kept term, which is that row of
/// the old bases, and the first base of each added one. Each walk is counted, from a count below 2^63.
///
/// The old bases are those that `minimise` gave for the instance before the edits, or any rows of entries of at most 10^25 that are
/// bases of the kept terms.
///
/// # Errors
///
/// `Memory` where there is none.
pub fn resume(
    alloc: Global,
    edited: &Edited,
    rows: &Rows,
    steps: &mut Steps,
) -> Result<Optimum, Memory>
    requires room { steps.old < 2 ^ 63 }
    requires count { length edited.now.kept ≡ length edited.now.instance.terms }
    requires old { AreOldBases edited.now.instance.terms edited.now.kept rows.now }
    ensures optimum { IfOk result
        (IsOptimum (meanings kind_places kind_value edited.now.instance.terms)
        (length edited.now.instance.names) (pos 1)
        (even_shift (length edited.now.instance.names) (pos 0))) }
    ensures counted { IfOk result (λ r.
        IsCounted (meanings kind_places kind_value edited.now.instance.terms)
        (length edited.now.instance.names) (pos 1)
        (even_shift (length edited.now.instance.names) (pos 0))
        (firsts_of edited.now.instance.terms edited.now.kept rows.now) r.bases
        steps.old steps.new) }
    ensures few { steps.new ≤ steps.old
        + few_walks (length edited.now.instance.names) (length edited.now.instance.terms) }
    ensures kept { steps.old ≤ steps.new }
{
    let terms = edited.instance.terms();
    let firsts = first_rows(alloc, terms, &edited.kept, rows)?;
    let shift = vec![in alloc; 0i128; edited.instance.names_len()]?;
    minimise_from(alloc, terms, 1, &shift, firsts, steps)
}
