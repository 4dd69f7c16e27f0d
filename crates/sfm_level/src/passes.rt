// Bases of the terms that add up to a most level base of the sum. A base of the sum is one exactly where no walk of exchanges
// leads from a place to one at which it is larger by two or more (Fujishige, Submodular Functions and Optimization, section 9).
// Such a walk from the place e joins at the whole slope one above the sum there. So passes over these slopes are made until one
// takes no walk: then there is none. Each pass that takes a walk lowers the squares of the sum, so this ends; and by the slopes
// that were tried before the first pass it mostly ends there.
ghost use Rattle.std.specs.{Prelude.{◌≡◌, ◌*◌, ◌^◌, ℕ, ℤ, List, map, pos, ◌≤ℤ◌, ◌<ℤ◌, true, false, OnOk, IfOk}, List.{All}};
ghost use Rattle.sfm_spec.specs.{Bounds.{AreBounded, IsAtMost, total_of}, Families.{meanings, AreBases}, Walks.{Step}};
ghost use Rattle.sfm_squares.specs.{Level.{IsLevel, IsSumOf, squares}, LevelLaws.{Rises}};
ghost use Rattle.sfm_level.specs.{Sums.{squares_at}, Levelling.{IsLevelling}};

use crate::guide::guide;
use crate::settle::prove_at;
use sfm_base::{Memory, Rows};
use sfm_exchange::{Graph, graph_at};
use sfm_law::{Term, start_rows};
use std::alloc::Global;

/// Bases of the terms whose sum is a most level base of the sum, over a ground of n places, where the sizes of the terms add to
/// at most 10^13. Their entries are at most 10^29 in magnitude, and the squares of their sum add to at most 1.1 * 10^29.
///
/// # Errors
///
/// `Memory` where there is none.
pub fn level_rows<T: Term>(alloc: Global, terms: &[T], n: usize) -> Result<Rows, Memory>
    requires bounded { AreBounded n (map T.places terms.now) (map T.size_of terms.now) }
    requires sizes { total_of (map T.size_of terms.now) ≤ℤ pos (10 ^ 13) }
    ensures bases { IfOk result (AreBases (pos 1) (meanings T.places T.value_of terms.now)) }
    ensures small { IfOk result (All (λ x. All (IsAtMost (10 ^ 29)) x)) }
    ensures none { IfOk result (λ r. (first : ℕ) (steps : List Step)
        → Rises (meanings T.places T.value_of terms.now) r first steps → ⊥) }
    ensures level { IfOk result (λ r. (z : List ℤ)
        → IsSumOf (meanings T.places T.value_of terms.now) n r z
        → IsLevel (meanings T.places T.value_of terms.now) n z) }
    ensures squares { IfOk result (λ r. (z : List ℤ)
        → IsSumOf (meanings T.places T.value_of terms.now) n r z
        → squares z ≤ℤ pos (11 * 10 ^ 28)) }
{
    let first_bases = start_rows(alloc, terms, 1)?;
    let mut graph = graph_at(alloc, terms, n, 1, first_bases)?;
    guide(alloc, &mut graph, terms, n)?;
    while is_moved(alloc, &mut graph, terms, n)? {}
    Ok(graph.into_bases())
}

// One pass over the slopes one above what the bases add up to at each place; whether a walk was taken.
fn is_moved<T: Term>(
    alloc: Global,
    graph: &mut Graph<T::Note>,
    terms: &[T],
    n: usize,
) -> Result<bool, Memory>
    requires { IsLevelling T.Term terms.now n graph.old }
    ensures graph { OnOk result (IsLevelling T.Term terms.now n graph.new) }
    ensures moved { IfOk result (λ r. r ≡ true
        → squares_at (meanings T.places T.value_of terms.now) n graph.new.bases
        <ℤ squares_at (meanings T.places T.value_of terms.now) n graph.old.bases) }
    ensures none { IfOk result (λ r. r ≡ false → (first : ℕ) (steps : List Step)
        → Rises (meanings T.places T.value_of terms.now) graph.new.bases first steps → ⊥) }
{
    let z = Vec::from_slice(alloc, &graph.sums)?;
    let mut moved = false;
    for a in &z {
        if prove_at(alloc, graph, terms, n, *a + 1)? {
            moved = true;
        }
    }
    Ok(moved)
}
