// Bases that prove the minimum of a sum of terms less a shift: the first bases of the terms, or given ones, are moved along
// walks until no walk joins. Then they prove it (Edmonds' min-max; Schrijver, Combinatorial Optimization, section 45).
ghost use Rattle.std.specs.{Prelude.{◌≡◌, ◌+◌, ◌^◌, ◌<◌, ◌≤◌, ℤ, map, pos, ◌-ℤ◌, ◌≤ℤ◌, length, OnOk, IfOk}, List.{All}};
ghost use Rattle.sfm_spec.specs.{Sets.{magnitudes}, Bounds.{AreBounded, IsAtMost, IsFactor}, Families.{meanings, even_shift, rest_at, deficit, AreBases}, Walks.{IsFewWalks, few_walks}};
ghost use Rattle.sfm_walk.specs.{Counted.{IsCounted}, Optimum.{AreOptimal, IsOptimum}, Spread.{IsUpTo}};
ghost use Rattle.sfm_exchange.specs.Graph.{IsClaimed, IsShaped};

use crate::advance::improve;
use sfm_base::{Memory, Numbers, Rows, Steps};
use sfm_exchange::{Graph, graph_at, restart_by};
use sfm_law::{Term, start_rows};
use std::alloc::Global;
use std::mem;

/// Bases of q times the terms that prove the minimum, with z: their sum at each place of the ground, less the shift.
#[derive(Drop)]
pub struct Optimum {
    pub bases: Rows,
    pub z: Numbers,
}

/// Bases that prove the minimum of q times the sum of the terms, less p for each element, over a ground of n places.
///
/// The walks begin at the first bases of the terms, and there are at most n + n (n + 1)(n m + 1) of them, of n elements and
/// m terms. No walk joins the bases that are given, so they prove the minimum (Edmonds' min-max; Schrijver, Combinatorial
/// Optimization, section 45).
///
/// At the slope 0/1 no entry of the bases is above 10^25 in magnitude: they serve `minimise_from` again.
///
/// # Errors
///
/// `Memory` where there is none.
pub fn minimise<T: Term>(
    alloc: Global,
    terms: &[T],
    n: usize,
    p: i128,
    q: i128,
) -> Result<Optimum, Memory>
    requires bounded { AreBounded n (map T.places terms.now) (map T.size_of terms.now) }
    requires slope { IsAtMost (10 ^ 24) p }
    requires factor { IsFactor q }
    ensures optimum { IfOk result (IsOptimum (meanings T.places T.value_of terms.now) n q
        (even_shift n p)) }
    ensures few { IfOk result (λ r. IsFewWalks (meanings T.places T.value_of terms.now) n q
        (even_shift n p) (map (λ term. T.start_of term q) terms.now) r.bases) }
    ensures plain { p ≡ pos 0 → q ≡ pos 1
        → IfOk result (λ r. All (λ x. All (IsAtMost (10 ^ 25)) x) r.bases) }
{
    let mut steps = Steps::new();
    minimise_counted(alloc, terms, n, p, q, &mut steps)
}

/// The same, and each walk is counted, from a count below 2^63. With an answer the count has risen by the number of walks
/// that led to its bases, and without one by no more than there may be.
///
/// # Errors
///
/// `Memory` where there is none.
pub fn minimise_counted<T: Term>(
    alloc: Global,
    terms: &[T],
    n: usize,
    p: i128,
    q: i128,
    steps: &mut Steps,
) -> Result<Optimum, Memory>
    requires room { steps.old < 2 ^ 63 }
    requires bounded { AreBounded n (map T.places terms.now) (map T.size_of terms.now) }
    requires slope { IsAtMost (10 ^ 24) p }
    requires factor { IsFactor q }
    ensures optimum { IfOk result (IsOptimum (meanings T.places T.value_of terms.now) n q
        (even_shift n p)) }
    ensures counted { IfOk result (λ r. IsCounted (meanings T.places T.value_of terms.now) n q
        (even_shift n p) (map (λ term. T.start_of term q) terms.now) r.bases steps.old steps.new) }
    ensures few { steps.new ≤ steps.old + few_walks n (length terms.now) }
    ensures kept { steps.old ≤ steps.new }
    ensures plain { p ≡ pos 0 → q ≡ pos 1
        → IfOk result (λ r. All (λ x. All (IsAtMost (10 ^ 25)) x) r.bases) }
{
    let shift = vec![in alloc; p; n]?;
    minimise_at_counted(alloc, terms, n, q, &shift, steps)
}

/// Bases that prove the minimum of q times the sum of the terms, less the shift of each element, over a ground of n places. The
/// magnitudes of the shift add to at most 10^27. `minimise` is the case of one number for all elements.
///
/// # Errors
///
/// `Memory` where there is none.
pub fn minimise_at<T: Term>(
    alloc: Global,
    terms: &[T],
    n: usize,
    q: i128,
    shift: &[i128],
) -> Result<Optimum, Memory>
    requires bounded { AreBounded n (map T.places terms.now) (map T.size_of terms.now) }
    requires each { length shift.now ≡ n }
    requires shifts { magnitudes shift.now ≤ℤ pos (10 ^ 27) }
    requires factor { IsFactor q }
    ensures optimum { IfOk result (IsOptimum (meanings T.places T.value_of terms.now) n q
        shift.now) }
    ensures few { IfOk result (λ r. IsFewWalks (meanings T.places T.value_of terms.now) n q
        shift.now (map (λ term. T.start_of term q) terms.now) r.bases) }
{
    let mut steps = Steps::new();
    minimise_at_counted(alloc, terms, n, q, shift, &mut steps)
}

/// The same, and each walk is counted, from a count below 2^63. With an answer the count has risen by the number of walks
/// that led to its bases, and without one by no more than there may be.
///
/// At the factor 1 and a shift whose magnitudes add to at most 10^24 no entry of the bases is above 10^25 in magnitude.
///
/// # Errors
///
/// `Memory` where there is none.
pub fn minimise_at_counted<T: Term>(
    alloc: Global,
    terms: &[T],
    _n: usize,
    q: i128,
    shift: &[i128],
    steps: &mut Steps,
) -> Result<Optimum, Memory>
    requires room { steps.old < 2 ^ 63 }
    requires bounded { AreBounded _n (map T.places terms.now) (map T.size_of terms.now) }
    requires each { length shift.now ≡ _n }
    requires shifts { magnitudes shift.now ≤ℤ pos (10 ^ 27) }
    requires factor { IsFactor q }
    ensures optimum { IfOk result (IsOptimum (meanings T.places T.value_of terms.now) _n q
        shift.now) }
    ensures counted { IfOk result (λ r. IsCounted (meanings T.places T.value_of terms.now) _n q
        shift.now (map (λ term. T.start_of term q) terms.now) r.bases steps.old steps.new) }
    ensures few { steps.new ≤ steps.old + few_walks _n (length terms.now) }
    ensures kept { steps.old ≤ steps.new }
    ensures plain { q ≡ pos 1 → magnitudes shift.now ≤ℤ pos (10 ^ 24)
        → IfOk result (λ r. All (λ x. All (IsAtMost (10 ^ 25)) x) r.bases) }
{
    let first_bases = start_rows(alloc, terms, q)?;
    minimise_from(alloc, terms, q, shift, first_bases, steps)
}

/// Bases that prove the minimum of q times the sum of the terms, less the shift of each element, reached from given bases of q
/// times the terms in place of the first ones. There is one shift for each place of the ground, their magnitudes add to at most
/// 10^27, and the entries of the given bases are at most 10^25 in magnitude. No entry comes to lie farther from 0 by more than
/// the sum of min(z, 0) was below 0 at the given bases. Each walk is counted, from a count below 2^63; without an answer the
/// count has risen by no more than there may be.
///
/// # Errors
///
/// `Memory` where there is none.
pub fn minimise_from<T: Term>(
    alloc: Global,
    terms: &[T],
    q: i128,
    shift: &[i128],
    bases: Rows,
    steps: &mut Steps,
) -> Result<Optimum, Memory>
    requires room { steps.old < 2 ^ 63 }
    requires bounded { AreBounded (length shift.now) (map T.places terms.now)
        (map T.size_of terms.now) }
    requires shifts { magnitudes shift.now ≤ℤ pos (10 ^ 27) }
    requires factor { IsFactor q }
    requires bases { AreBases q (meanings T.places T.value_of terms.now) bases }
    requires small { All (λ x. All (IsAtMost (10 ^ 25)) x) bases }
    ensures optimum { IfOk result (IsOptimum (meanings T.places T.value_of terms.now) (length shift.now) q
        shift.now) }
    ensures counted { IfOk result (λ r. IsCounted (meanings T.places T.value_of terms.now)
        (length shift.now) q shift.now bases r.bases steps.old steps.new) }
    ensures spread { IfOk result (λ r. (b : ℤ) → All (λ x. All (IsUpTo b) x) bases
        → All (λ x. All (IsUpTo (b -ℤ deficit (length shift.now)
        (rest_at (meanings T.places T.value_of terms.now) bases shift.now))) x) r.bases) }
    ensures few { steps.new ≤ steps.old + few_walks (length shift.now) (length terms.now) }
    ensures kept { steps.old ≤ steps.new }
{
    let mut graph = graph_at(alloc, terms, shift.len(), q, bases)?;
    let z = improve(alloc, &mut graph, terms, q, shift, steps)?;
    Ok(Optimum {
        bases: graph.into_bases(),
        z,
    })
}

/// Takes a graph to bases that prove the minimum of q times the sum of the terms less the shift, from the first bases of the terms
/// by few walks, whatever bases and factor it was at before. Its lists are used again. A second graph is at the first bases of
/// the terms themselves, so no term is asked for a base nor for its rows there. After want of memory nothing is said of the graph.
///
/// # Errors
///
/// `Memory` where there is none.
pub fn improve_from_start<T: Term>(
    alloc: Global,
    graph: &mut Graph<T::Note>,
    firsts: &Graph<T::Note>,
    terms: &[T],
    q: i128,
    shift: &[i128],
) -> Result<(), Memory>
    requires bounded { AreBounded (length shift.now) (map T.places terms.now)
        (map T.size_of terms.now) }
    requires shifts { magnitudes shift.now ≤ℤ pos (10 ^ 27) }
    requires factor { IsFactor q }
    requires graph { IsShaped T.Term terms.now (length shift.now) graph.old }
    requires firsts { IsClaimed T.Term terms.now (length shift.now) (pos 1) firsts.now }
    requires begins { firsts.now.bases ≡ map (λ term. T.start_of term (pos 1)) terms.now }
    ensures graph { OnOk result (IsClaimed T.Term terms.now (length shift.now) q graph.new) }
    ensures optimal { OnOk result (AreOptimal (meanings T.places T.value_of terms.now)
        (length shift.now) q shift.now graph.new.bases) }
    ensures few { OnOk result (IsFewWalks (meanings T.places T.value_of terms.now)
        (length shift.now) q shift.now (map (λ term. T.start_of term q) terms.now)
        graph.new.bases) }
{
    restart_by(alloc, graph, terms, q, firsts)?;
    let mut steps = Steps::new();
    improve(alloc, graph, terms, q, shift, &mut steps)?;
    Ok(())
}

/// The bases to which `improve_from_start` takes a graph, which are taken out of it.
///
/// # Errors
///
/// `Memory` where there is none.
pub fn minimise_from_start<T: Term>(
    alloc: Global,
    graph: &mut Graph<T::Note>,
    firsts: &Graph<T::Note>,
    terms: &[T],
    q: i128,
    shift: &[i128],
) -> Result<Rows, Memory>
    requires bounded { AreBounded (length shift.now) (map T.places terms.now)
        (map T.size_of terms.now) }
    requires shifts { magnitudes shift.now ≤ℤ pos (10 ^ 27) }
    requires factor { IsFactor q }
    requires graph { IsShaped T.Term terms.now (length shift.now) graph.old }
    requires firsts { IsClaimed T.Term terms.now (length shift.now) (pos 1) firsts.now }
    requires begins { firsts.now.bases ≡ map (λ term. T.start_of term (pos 1)) terms.now }
    ensures graph { OnOk result (IsShaped T.Term terms.now (length shift.now) graph.new) }
    ensures optimal { IfOk result (AreOptimal (meanings T.places T.value_of terms.now)
        (length shift.now) q shift.now) }
    ensures few { IfOk result (IsFewWalks (meanings T.places T.value_of terms.now)
        (length shift.now) q shift.now (map (λ term. T.start_of term q) terms.now)) }
{
    improve_from_start(alloc, graph, firsts, terms, q, shift)?;
    Ok(mem::replace(&mut graph.bases, Rows::new(alloc)))
}
