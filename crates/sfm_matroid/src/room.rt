// What the room of a pair at a base is found with: a split of what stays without the one that gives, in which the one that gets is
// raised as far as all others leave room, up to what is wanted, what the other has and what it lacks itself of the number that
// none exceeds.
ghost use Rattle.std.specs.{Prelude.{◌≡◌, ◌≢◌, ◌<◌, length, slice_set, slice_index_or, pos, ◌-ℤ◌, ◌≤ℤ◌, IfOk}, Int.{int_min}};
ghost use Rattle.sfm_spec.specs.Terms.{exchanged};
ghost use Rattle.sfm_law.specs.Based.{IsPair};
ghost use Rattle.sfm_assign.specs.Lenders.{with_more, IsMostUpto};
ghost use Rattle.sfm_matroid.specs.Amounts.{AreCapped, CanMove, IsRaise, IsBeside, CanHold, rest_of};

use sfm_assign::{Change, Kept, Steps};
use sfm_base::Memory;
use sfm_law::Swap;
use std::alloc::Global;

/// A place that gets something, one that gives it, and how much that may be.
#[derive(Clone, Copy)]
pub struct Pull {
    pub u: usize,
    pub v: usize,
    pub limit: i128,
}

/// What u may get of v: the least of what is wanted, what v has and what u lacks of a number.
pub fn pull_of(x: &[i128], cap: i128, swap: &Swap) -> Pull
    requires capped { AreCapped cap x.now }
    requires pair { IsPair swap.now.u swap.now.v x.now }
    requires wanted { pos 0 ≤ℤ swap.now.a }
    ensures u { result.u ≡ swap.now.u }
    ensures v { result.v ≡ swap.now.v }
    ensures limit { result.limit ≡ int_min swap.now.a (int_min
        (slice_index_or x.now swap.now.v (pos 0))
        (cap -ℤ slice_index_or x.now swap.now.u (pos 0))) }
    ensures raise { IsRaise x.now swap.now.u swap.now.v result.limit }
{
    let Swap { u, v, a } = *swap;
    let limit = a.min(x[v].min(cap - x[u]));
    Pull { u, v, limit }
}

/// The entries after an exchange.
///
/// # Errors
///
/// `Memory` where there is none.
pub fn moved(alloc: Global, x: &[i128], swap: &Swap) -> Result<Vec<i128>, Memory>
    requires { CanMove x.now swap.now.u swap.now.v swap.now.a }
    ensures { IfOk result (λ r. r.items ≡ exchanged x.now swap.now.u swap.now.v swap.now.a) }
{
    let mut after = Vec::from_slice(alloc, x)?;
    after[swap.u] = x[swap.u] + swap.a;
    after[swap.v] = x[swap.v] - swap.a;
    Ok(after)
}

/// Raises u in a second split beside one of the entries, in which v has nothing, as far as all others leave room, up to a limit;
/// tells by how much.
///
/// # Errors
///
/// `Memory` where there is none.
pub(crate) fn raise(
    alloc: Global,
    kept: &Kept,
    second: &mut Kept,
    held: &[i128],
    pull: &Pull,
) -> Result<i128, Memory>
    requires raise { IsRaise kept.now.demand.demands pull.now.u pull.now.v pull.now.limit }
    requires beside { IsBeside kept.now.demand second.old.demand }
    requires held { CanHold kept.now.demand kept.now.demand.demands pull.now.v held.now }
    ensures most { IfOk result (IsMostUpto (rest_of kept.now.demand kept.now.demand.demands
        pull.now.v held.now) pull.now.u pull.now.limit) }
    ensures grown { IfOk result (λ r. second.new.demand ≡ with_more
        (rest_of kept.now.demand kept.now.demand.demands pull.now.v held.now) pull.now.u r) }
{
    let changes = [Change {
        k: pull.v,
        more: -kept.demand.demands()[pull.v],
    }];
    let steps = Steps {
        changes: &changes,
        capacities: held,
    };
    let most = second.grow_from(alloc, kept, &steps, pull.u, pull.limit)?;
    Ok(most)
}
