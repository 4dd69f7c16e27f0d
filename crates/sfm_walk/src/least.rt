// The least minimiser, once bases prove the minimum: the places that walks lead to from those with z < 0. Only the rows of
// these places are asked, where they are only claimed.
ghost use Rattle.std.specs.{Prelude.{◌≡◌, ◌<◌, ℕ, length, pos, slice_index_or, OnOk, IfOk}, List.{All}};
ghost use Rattle.sfm_spec.specs.{Bounds.{IsEntry}, Families.{meanings, rest_at, IsLeast, Prove}};
ghost use Rattle.sfm_exchange.specs.Graph.{IsClaimed};

use sfm_base::{Memory, Numbers, Set};
use sfm_exchange::{Graph, set_of, signs_of, walked_from};
use sfm_law::Term;
use std::alloc::Global;

/// The minimiser that lies within every other, of q times the sum of the terms less the shift, where the bases of the graph
/// prove the minimum and z is their residual. The bases stay; after want of memory nothing is said of the graph.
///
/// # Errors
///
/// `Memory` where there is none.
pub fn least_minimiser<T: Term>(
    alloc: Global,
    graph: &mut Graph<T::Note>,
    terms: &[T],
    q: i128,
    shift: &[i128],
    z: &Numbers,
) -> Result<Set, Memory>
    requires graph { IsClaimed T.Term terms.now (length shift.now) q graph.old }
    requires small { All (λ x. All IsEntry x) graph.old.bases }
    requires rest { (length z.now ≡ length shift.now) × ((e : ℕ) → e < length shift.now
        → slice_index_or z.now e (pos 0) ≡ rest_at
        (meanings T.places T.value_of terms.now) graph.old.bases shift.now e) }
    requires proves { Prove (meanings T.places T.value_of terms.now)
        (length shift.now) q shift.now graph.old.bases }
    ensures graph { OnOk result (IsClaimed T.Term terms.now (length shift.now) q graph.new) }
    ensures bases { OnOk result (graph.new.bases ≡ graph.old.bases) }
    ensures least { IfOk result (IsLeast (meanings T.places T.value_of terms.now)
        (length shift.now) q shift.now) }
{
    let signs = signs_of(z.as_slice());
    let walked = walked_from(alloc, graph, terms, q, &signs.under)?;
    let least = set_of(alloc, &walked, shift.len())?;
    Ok(least)
}
