// The most that one demand can get while all others are met: these are met first, with nothing for it, and then it is raised by
// as much as it can get besides. No demand can get more than all slots have together, so that serves as the limit.
ghost use Rattle.std.specs.{Prelude.{◌≡◌, ◌<◌, ◌≤◌, ◌^◌, length, slice_set, pos, IfOk}, List.{All}};
ghost use Rattle.sfm_spec.specs.Bounds.{total_of};
ghost use Rattle.sfm_cells.specs.Splits.{IsAmount, IsCapacity, CanBeMet, IsMost};

use crate::kept::Kept;
use sfm_base::Memory;
use sfm_cells::Demand;
use std::alloc::Global;

/// The sum of the capacities.
fn total_of(capacities: &[i128]) -> i128
    requires few { length capacities.now ≤ 2 ^ 24 }
    requires bounded { All IsCapacity capacities.now }
    ensures total { result ≡ total_of capacities.now }
    ensures amount { IsAmount result }
{
    let mut sum = 0;
    for c in capacities {
        sum += *c;
    }
    sum
}

/// The same demands, with nothing for u.
fn without_demand(alloc: Global, demand: &Demand, u: usize) -> Result<Demand, Memory>
    requires { u < length demand.now.demands }
    ensures { IfOk result (λ r. r ≡ record {
      demands = slice_set demand.now.demands u (pos 0);
      lists = demand.now.lists;
      capacities = demand.now.capacities;
    }) }
{
    let mut others = demand.copy(alloc)?;
    others.raise(u, -demand.demands()[u]);
    Ok(others)
}

/// The greatest amount that the demand u can get with all other demands met; what it asks for does not matter.
///
/// # Errors
///
/// `Memory` where there is none.
pub fn most(alloc: Global, demand: &Demand, u: usize) -> Result<i128, Memory>
    requires place { u < length demand.now.demands }
    requires others { CanBeMet (slice_set demand.now.demands u (pos 0)) demand.now.lists
        demand.now.capacities }
    ensures { IfOk result (IsMost demand.now.demands demand.now.lists demand.now.capacities u) }
{
    let _sound = demand.demands();
    let others = without_demand(alloc, demand, u)?;
    let limit = total_of(demand.capacities());
    match Kept::new(alloc, others) {
        Ok(mut kept) => {
            let more = kept.grow(alloc, u, limit)?;
            Ok(more)
        }
        Err(_) => Err(Memory),
    }
}
