// One whole slope: the bases are moved along walks until none leads from a place where their sum is below the slope to one where
// it is above. Each walk moves a from a place where the sum is larger by at least 2a to the other, so the squares of the sum
// fall, by at least twice what the sum of min(z, 0) rises, z being the sum less the slope. No entry changes by more than that
// rises: so entries stay within a bound that is known from the squares at first.
ghost use Rattle.std.specs.Prelude.{◌≡◌, ◌+◌, ◌<◌, ◌^◌, length, pos, ◌<ℤ◌, true, false, OnOk, IfOk};
ghost use Rattle.sfm_spec.specs.{Bounds.{IsAtMost}, Families.{meanings}};
ghost use Rattle.sfm_level.specs.{Sums.{squares_at}, Levelling.{IsLevelling, IsStillAt}};

use sfm_base::{Memory, Numbers, Steps};
use sfm_exchange::Graph;
use sfm_law::Term;
use sfm_walk::improve_from;
use std::alloc::Global;

/// Moves the bases of the graph along walks until none joins at the slope t, each walk counted from 0, and gives what they add
/// up to at each place, less t.
///
/// # Errors
///
/// `Memory` where there is none; nothing is then said of the graph.
pub fn settle<T: Term>(
    alloc: Global,
    graph: &mut Graph<T::Note>,
    terms: &[T],
    n: usize,
    t: i128,
    steps: &mut Steps,
) -> Result<Numbers, Memory>
    requires none { steps.old ≡ 0 }
    requires slope { IsAtMost (10 ^ 15 + 1) t }
    requires graph { IsLevelling T.Term terms.now n graph.old }
    ensures graph { OnOk result (IsLevelling T.Term terms.now n graph.new) }
    ensures places { IfOk result (λ z. length z ≡ n) }
    ensures moved { OnOk result (0 < steps.new
        → squares_at (meanings T.places T.value_of terms.now) n graph.new.bases
        <ℤ squares_at (meanings T.places T.value_of terms.now) n graph.old.bases) }
    ensures still { OnOk result (steps.new ≡ 0 → IsStillAt
        (meanings T.places T.value_of terms.now) n t graph.old.bases graph.new.bases) }
{
    let shift = vec![in alloc; t; n]?;
    let z = improve_from(alloc, graph, terms, 1, &shift, steps)?;
    Ok(z)
}

/// Moves the bases of the graph until no walk joins at the slope t; whether a walk was taken.
///
/// # Errors
///
/// `Memory` where there is none; nothing is then said of the graph.
pub fn prove_at<T: Term>(
    alloc: Global,
    graph: &mut Graph<T::Note>,
    terms: &[T],
    n: usize,
    t: i128,
) -> Result<bool, Memory>
    requires slope { IsAtMost (10 ^ 15 + 1) t }
    requires graph { IsLevelling T.Term terms.now n graph.old }
    ensures graph { OnOk result (IsLevelling T.Term terms.now n graph.new) }
    ensures moved { IfOk result (λ r. r ≡ true
        → squares_at (meanings T.places T.value_of terms.now) n graph.new.bases
        <ℤ squares_at (meanings T.places T.value_of terms.now) n graph.old.bases) }
    ensures still { IfOk result (λ r. r ≡ false → IsStillAt
        (meanings T.places T.value_of terms.now) n t graph.old.bases graph.new.bases) }
{
    let mut steps = Steps::new();
    settle(alloc, graph, terms, n, t, &mut steps)?;
    Ok(steps.count() > 0)
}
