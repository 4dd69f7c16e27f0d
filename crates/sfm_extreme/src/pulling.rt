// Which places between the least and the greatest minimiser come along with which: those that links lead to from a place.
// Each row of the table is one search over the sets of the graph.
ghost use Rattle.std.specs.Prelude.{◌≡◌, ◌<◌, ◌≤◌, ℕ, length, IfOk};
ghost use Rattle.sfm_exchange.specs.Bits.{bit_in, set_at};
ghost use Rattle.sfm_extreme.specs.Pulls.{ArePullRows, IsPullRow};

use sfm_base::{Memory, Set};
use sfm_exchange::{Bits, no_bits, reached_from, set_of};
use std::alloc::Global;

/// For each place that is not outside, the places not outside that links lead to from there; for the others none.
///
/// # Errors
///
/// `Memory` where there is none.
pub fn pull_rows(alloc: Global, unions: &[Bits], outside: &Bits) -> Result<Vec<Set>, Memory>
    requires few { length unions.now ≤ 256 }
    requires links { (e t : ℕ) → e < length unions.now → bit_in (set_at unions.now e) t ≡ 1
        → t < length unions.now }
    ensures { IfOk result (λ r. ArePullRows unions.now outside.now r.items) }
{
    let mut rows = Vec::new(alloc);
    for e in 0..unions.len() {
        let row = pull_row(unions, outside, e);
        rows.push(set_of(alloc, &row, unions.len())?)?;
    }
    Ok(rows)
}

// The places not outside that links lead to from the place e; none where e is outside.
fn pull_row(unions: &[Bits], outside: &Bits, e: usize) -> Bits
    requires few { length unions.now ≤ 256 }
    requires links { (e t : ℕ) → e < length unions.now → bit_in (set_at unions.now e) t ≡ 1
        → t < length unions.now }
    requires inside { e < length unions.now }
    ensures { IsPullRow unions.now outside.now e result }
{
    let mut firsts = no_bits();
    firsts.insert(e);
    firsts.remove_all(outside);
    let mut row = reached_from(unions, &firsts);
    row.remove_all(outside);
    row
}
