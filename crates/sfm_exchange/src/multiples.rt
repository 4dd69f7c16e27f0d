// A graph at a multiple of the bases of another one. What depends on what at a base hangs on its tight sets alone, and the
// sets that are tight at q times a base of a term, for q times the term, are those that are tight at the base. So all rows are
// the same, those that are only claimed as well: they are copied into the memory that stands, and no term is asked. What the bases
// add up to is multiplied with them, and so is what is kept beside them, by the terms that can.
ghost use Rattle.std.specs.{Prelude.{◌≡◌, ◌<◌, ◌^◌, ℕ, ℤ, List, length, map, pos, ◌*ℤ◌, OnOk, IfOk}, List.{All}};
ghost use Rattle.sfm_spec.specs.{Bounds.{IsAtMost, IsFactor}, Families.{meanings}, Walks.{base_at}};
ghost use Rattle.sfm_exchange.specs.{Graph.{IsClaimed, IsShaped}, Scaled.{rows_times}};
ghost use Rattle.sfm_reach.specs.{Reach.{AreNotes, AreSized, kept_fits}};

use crate::graph::{Graph, blank_graph};
use crate::noted::kept_times;
use crate::sums::multiply;
use sfm_base::Memory;
use sfm_law::{At, Term};
use sfm_reach::{Based, BitRows};
use std::alloc::Global;

// Copies the rows of all terms.
fn copy_tables(from: &[BitRows], to: &mut Vec<BitRows>)
    requires { (places : List (List ℕ)) × AreSized places from.now × AreSized places to.old.items }
    ensures { to.new.items ≡ from.now }
{
    for i in 0..from.len() {
        let at = &mut to[i];
        at.copy_from(&from[i]);
    }
}

// Takes over the rows of another graph, and what is read off them.
fn take_rows<N: Drop>(graph: &mut Graph<N>, other: &Graph<N>)
    requires sized { (places : List (List ℕ)) × AreSized places other.now.rows.items
        × AreSized places graph.old.rows.items }
    requires claimed { length graph.old.claimed.items ≡ length other.now.claimed.items }
    requires unions { length graph.old.unions.items ≡ length other.now.unions.items }
    requires back { length graph.old.back.items ≡ length other.now.back.items }
    ensures bases { graph.new.bases ≡ graph.old.bases }
    ensures sums { graph.new.sums ≡ graph.old.sums }
    ensures spots { graph.new.spots ≡ graph.old.spots }
    ensures notes { graph.new.notes ≡ graph.old.notes }
    ensures rows { graph.new.rows.items ≡ other.now.rows.items }
    ensures claimed { graph.new.claimed.items ≡ other.now.claimed.items }
    ensures unions { graph.new.unions.items ≡ other.now.unions.items }
    ensures back { graph.new.back.items ≡ other.now.back.items }
{
    copy_tables(&other.rows, &mut graph.rows);
    graph.claimed.copy_from_slice(&other.claimed);
    graph.unions.copy_from_slice(&other.unions);
    graph.back.copy_from_slice(&other.back);
}

/// A graph of q times the terms.
#[derive(Drop)]
pub struct Beside<'a, N> {
    pub graph: &'a Graph<N>,
    pub q: i128,
}

// Makes what is kept beside some bases what another graph of the terms keeps, for m times its bases. Where a term makes nothing of
// it, that is made once it is wanted.
fn notes_times<T: Term>(
    alloc: Global,
    terms: &[T],
    m: i128,
    other: &Beside<'_, T::Note>,
    notes: &mut Vec<Option<T::Note>>,
) -> Result<(), Memory>
    requires times { IsFactor m }
    requires factor { IsFactor (m *ℤ other.now.q) }
    requires other { (n : ℕ) × IsClaimed T.Term terms.now n other.now.q other.now.graph.now }
    requires small { All (λ x. All (IsAtMost (10 ^ 21)) x) other.now.graph.now.bases }
    requires count { length notes.old.items ≡ length terms.now }
    requires noted { (q : ℤ) × (bases : List (List ℤ)) × AreNotes (kept_fits T.fits) q terms.now
        notes.old.items bases }
    ensures count { OnOk result (length notes.new.items ≡ length terms.now) }
    ensures noted { OnOk result (AreNotes (kept_fits T.fits) (m *ℤ other.now.q) terms.now
        notes.new.items (rows_times m other.now.graph.now.bases)) }
{
    for (i, term) in terms.iter().enumerate() {
        let x = other.graph.bases.row(i);
        let base = At { q: other.q, x };
        let at = Based { term, base };
        let kept = &other.graph.notes[i];
        kept_times(alloc, &at, m, kept, &mut notes[i])?;
    }
    Ok(())
}

/// Makes the graph one of m times q times the terms, at m times the bases of a second graph, which is one of q times the terms and
/// has entries of at most 10^21. No term is asked: what that graph keeps is copied, and rows that are only claimed there are so
/// here. After want of memory nothing is said of the graph.
///
/// # Errors
///
/// `Memory` where there is none.
pub fn restart_times<T: Term>(
    alloc: Global,
    graph: &mut Graph<T::Note>,
    terms: &[T],
    m: i128,
    other: &Beside<'_, T::Note>,
) -> Result<(), Memory>
    requires times { IsFactor m }
    requires factor { IsFactor (m *ℤ other.now.q) }
    requires graph { IsShaped T.Term terms.now (length graph.old.spots.items) graph.old }
    requires other { IsClaimed T.Term terms.now (length graph.old.spots.items) other.now.q
        other.now.graph.now }
    requires small { All (λ x. All (IsAtMost (10 ^ 21)) x) other.now.graph.now.bases }
    ensures graph { OnOk result (IsClaimed T.Term terms.now (length graph.old.spots.items) (m *ℤ
        other.now.q) graph.new) }
    ensures bases { OnOk result (graph.new.bases ≡ rows_times m other.now.graph.now.bases) }
{
    graph.bases = other.graph.bases.times(alloc, m)?;
    graph.sums = multiply(alloc, m, &other.graph.sums)?;
    notes_times(alloc, terms, m, other, &mut graph.notes)?;
    take_rows(graph, other.graph);
    Ok(())
}

/// The same where the second graph is one of the terms themselves.
///
/// # Errors
///
/// `Memory` where there is none.
pub fn restart_by<T: Term>(
    alloc: Global,
    graph: &mut Graph<T::Note>,
    terms: &[T],
    q: i128,
    other: &Graph<T::Note>,
) -> Result<(), Memory>
    requires factor { IsFactor q }
    requires graph { IsShaped T.Term terms.now (length graph.old.spots.items) graph.old }
    requires other { IsClaimed T.Term terms.now (length graph.old.spots.items) (pos 1) other.now }
    requires small { All (λ x. All (IsAtMost (10 ^ 21)) x) other.now.bases }
    ensures graph { OnOk result (IsClaimed T.Term terms.now (length graph.old.spots.items) q
        graph.new) }
    ensures bases { OnOk result (graph.new.bases ≡ rows_times q other.now.bases) }
{
    let beside = Beside { graph: other, q: 1 };
    restart_times(alloc, graph, terms, q, &beside)
}

/// A graph of q times the terms, at q times the bases of another graph, which is one of the terms themselves, over a ground of n
/// places, as `restart_by` makes one.
///
/// # Errors
///
/// `Memory` where there is none.
pub fn graph_by<T: Term>(
    alloc: Global,
    terms: &[T],
    n: usize,
    q: i128,
    other: &Graph<T::Note>,
) -> Result<Graph<T::Note>, Memory>
    requires factor { IsFactor q }
    requires other { IsClaimed T.Term terms.now n (pos 1) other.now }
    requires small { All (λ x. All (IsAtMost (10 ^ 21)) x) other.now.bases }
    ensures graph { IfOk result (IsClaimed T.Term terms.now n q) }
    ensures bases { IfOk result (λ r. r.bases ≡ rows_times q other.now.bases) }
{
    let mut graph = blank_graph(alloc, terms, n)?;
    restart_by(alloc, &mut graph, terms, q, other)?;
    Ok(graph)
}
