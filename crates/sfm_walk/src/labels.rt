// Levels that are kept from walk to walk. Those that a search finds are labels of places: 0 where z > 0, and falling by no more than
// one along each step. They stay so where walks are moved along by which they fall, so a walk by which they fall by one at each step
// is one of fewest steps, whether or not they still tell distances (Ahuja, Magnanti and Orlin, Network Flows, section 7: distance
// labels). Where no link leads on from a place, its label rises. No search is made as long as that leads to a walk soon.
ghost use Rattle.std.specs.Prelude.{◌≡◌, ◌≢◌, ◌<◌, ◌≤◌, ℕ, length, true, Some, None, OnOk, IfOk, MatchOption};
ghost use Rattle.sfm_spec.specs.Families.{meanings};
ghost use Rattle.sfm_reach.specs.Bits.{bit_in, set_at};
ghost use Rattle.sfm_exchange.specs.{Levels.{IsAtLast}, declared.path.Stuck.{Stuck}};
ghost use Rattle.sfm_walk.specs.{Labels.{AreLabels, IsRaised}, Run.{IsNext, IsRunning}};

use crate::run::Run;
use sfm_base::Memory;
use sfm_exchange::{Bits, Graph, Stuck, descend, prove_walk};
use sfm_law::Term;
use std::alloc::Global;

// So many levels are gone down for a walk, before a search is made: it costs as much.
const KEPT_STEPS: usize = 24;

// A place of the last level, if it has one, with z < 0.
fn first_kept(levels: &[Bits], under: &Bits) -> Option<usize>
    ensures { (first : ℕ) → result ≡ Some first → (1 < length levels.now)
        × IsAtLast levels.now first × (bit_in under.now first ≡ 1) }
{
    if levels.len() < 2 {
        return None;
    }
    levels[levels.len() - 1].first_common(under)
}

// Takes a place out of its level, and puts it into the one above the first from there on to which a link leads, if there is one.
fn raise_label(unions: &[Bits], levels: &mut Vec<Bits>, at: usize, k: usize)
    requires place { at < length unions.now }
    requires few { length unions.now ≤ 256 }
    requires level { k < length levels.old.items }
    requires once { (j : ℕ) → j < length levels.old.items
        → bit_in (set_at levels.old.items j) at ≡ 1 → j ≡ k }
    ensures { IsRaised (set_at unions.now at) levels.old.items levels.new.items at k }
{
    levels[k].remove(at);
    let links = unions[at];
    for j in k..levels.len() - 1 {
        if links.meets(&levels[j]) {
            levels[j + 1].insert(at);
            return;
        }
    }
}

// Where no walk is found by the levels: where no link leads on, or at its end, if that has not z > 0.
fn stuck_at(end: Option<Stuck>, last: usize, over: &Bits) -> Option<Stuck>
    requires { end ≡ None → last < 256 }
    ensures stuck { (s : Stuck) → end ≡ Some s → result ≡ Some s }
    ensures over { end ≡ None → MatchOption result (bit_in over.now last ≡ 1)
        (λ s. (s.place ≡ last) × (s.level ≡ 0) × (bit_in over.now last ≢ 1)) }
{
    if end.is_some() {
        return end;
    }
    if over.contains(last) {
        return None;
    }
    Some(Stuck {
        place: last,
        level: 0,
    })
}

/// Finds a walk by the levels of the walk before, as long as that is soon done; false where it is not. The bases stay.
pub fn kept_walk<T: Term>(
    alloc: Global,
    graph: &mut Graph<T::Note>,
    terms: &[T],
    q: i128,
    _shift: &[i128],
    run: &mut Run,
) -> Result<bool, Memory>
    requires running { IsRunning T.Term terms.now q _shift.now graph.old run.old }
    requires labels { AreLabels (meanings T.places T.value_of terms.now)
        (length _shift.now) q _shift.now graph.old.bases run.old.levels.items }
    ensures running { OnOk result (IsRunning T.Term terms.now q _shift.now graph.new run.new) }
    ensures bases { OnOk result (graph.new.bases ≡ graph.old.bases) }
    ensures labels { OnOk result (AreLabels (meanings T.places T.value_of terms.now)
        (length _shift.now) q _shift.now graph.new.bases run.new.levels.items) }
    ensures next { IfOk result (λ r. r ≡ true
        → IsNext T.Term terms.now q _shift.now graph.new run.new) }
{
    let tries = KEPT_STEPS / (run.levels.len() + 1);
    for _ in 0..tries {
        let Some(first) = first_kept(&run.levels, &run.signs.under) else {
            return Ok(false);
        };
        run.path.first = first;
        let end = descend(terms, graph, &run.levels, first, &mut run.path.hops)?;
        if let Some(stuck) = stuck_at(end, run.path.last(), &run.signs.over) {
            raise_label(&graph.unions, &mut run.levels, stuck.place, stuck.level);
            continue;
        }
        if prove_walk(alloc, graph, terms, q, &run.path.hops)? {
            return Ok(true);
        }
    }
    Ok(false)
}
