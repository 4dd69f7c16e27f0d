// Whether bases prove the minimum. Where a walk joins, no bases with such a walk prove. Where none does, they prove: the
// places that links of the exchange graph lead to from those with z < 0 are the least minimiser, those from which no link
// leads to one with z > 0 the greatest, and the value is the sum of min(z, 0). No subset is ever tried.
ghost use Rattle.std.specs.{Prelude.{◌≡◌, ◌↔◌, length, map, pos, ◌^◌, ◌≤ℤ◌, IfOk}, List.{All}};
ghost use Rattle.sfm_spec.specs.{Sets.{magnitudes}, Bounds.{AreBounded, IsEntry, IsFactor}, Families.{meanings, even_shift, AreBases, Prove}};
ghost use Rattle.sfm_extreme.specs.{Certified.{IsAnswer, IsProved}, Reading.{IsReading}};

use crate::deficit::deficit_of;
use crate::joining::joining_walk;
use crate::reading::{Reading, graph_of, read_graph};
use sfm_base::{Memory, Rows, Set};
use sfm_exchange::set_of;
use sfm_law::{Term, Walk};
use std::alloc::Global;

/// The minimum that bases prove, with the extreme sets that attain it (Fujishige, Submodular Functions and
/// Optimization, section 3: minimisers form a lattice).
#[derive(Drop)]
pub struct Proved {
    /// The least value of q times the sum less the shift.
    pub value: i128,
    /// The minimiser that lies within every other.
    pub least: Set,
    /// The minimiser that every other lies within.
    pub greatest: Set,
}

/// What bases tell of the minimum.
#[derive(Drop)]
pub enum Certified {
    /// The bases prove it.
    Proved(Proved),
    /// They do not: the walk leads from a place with z < 0 to one with z > 0.
    NotOptimal { walk: Walk },
}

/// Whether bases of q times their terms prove the minimum at the slope p/q, over a ground of n places.
///
/// With z the sum of the rows at each place less p, they do exactly where no walk of exchanges leads from a place
/// with z < 0 to one with z > 0 (Edmonds' min-max; Schrijver, Combinatorial Optimization, section 45).
///
/// # Errors
///
/// `Memory` where there is none.
pub fn certify<T: Term>(
    alloc: Global,
    terms: &[T],
    n: usize,
    p: i128,
    q: i128,
    bases: &Rows,
) -> Result<Certified, Memory>
    requires bounded { AreBounded n (map T.places terms.now) (map T.size_of terms.now) }
    requires entry { IsEntry p }
    requires factor { IsFactor q }
    requires bases { AreBases q (meanings T.places T.value_of terms.now) bases.now }
    requires small { All (λ x. All IsEntry x) bases.now }
    ensures answer { IfOk result (IsAnswer (meanings T.places T.value_of terms.now) n q
        (even_shift n p) bases.now) }
    ensures exact { IfOk result (λ r. IsProved r ↔ Prove
        (meanings T.places T.value_of terms.now) n q (even_shift n p) bases.now) }
{
    let shift = vec![in alloc; p; n]?;
    certify_at(alloc, terms, n, q, &shift, bases)
}

/// Whether bases of q times their terms prove the minimum of q times the sum less the shift of each place, over a ground
/// of n places. The magnitudes of all shifts together are at most 10^36.
///
/// # Errors
///
/// `Memory` where there is none.
pub fn certify_at<T: Term>(
    alloc: Global,
    terms: &[T],
    n: usize,
    q: i128,
    shift: &[i128],
    bases: &Rows,
) -> Result<Certified, Memory>
    requires bounded { AreBounded n (map T.places terms.now) (map T.size_of terms.now) }
    requires each { length shift.now ≡ n }
    requires shifts { magnitudes shift.now ≤ℤ pos (10 ^ 36) }
    requires factor { IsFactor q }
    requires bases { AreBases q (meanings T.places T.value_of terms.now) bases.now }
    requires small { All (λ x. All IsEntry x) bases.now }
    ensures answer { IfOk result (IsAnswer (meanings T.places T.value_of terms.now) n q shift.now
        bases.now) }
    ensures exact { IfOk result (λ r. IsProved r ↔ Prove
        (meanings T.places T.value_of terms.now) n q shift.now bases.now) }
{
    let graph = graph_of(alloc, terms, n, q, bases)?;
    let reading = read_graph(alloc, terms, shift, &graph)?;
    told_by(alloc, terms, q, shift, &reading)
}

/// What is told by all that was read off bases.
pub(crate) fn told_by<T: Term>(
    alloc: Global,
    terms: &[T],
    q: i128,
    shift: &[i128],
    reading: &Reading<'_, T::Note>,
) -> Result<Certified, Memory>
    requires reading { IsReading T.Term terms.now (length shift.now) q shift.now reading.now }
    requires shifts { magnitudes shift.now ≤ℤ pos (10 ^ 36) }
    requires small { All (λ x. All IsEntry x) reading.now.graph.now.bases }
    ensures { IfOk result (λ r. IsAnswer (meanings T.places T.value_of terms.now)
        (length shift.now) q shift.now reading.now.graph.now.bases r
        × (IsProved r ↔ Prove (meanings T.places T.value_of terms.now)
        (length shift.now) q shift.now reading.now.graph.now.bases)) }
{
    let joins = joining_walk(alloc, terms, q, shift, reading)?;
    match joins {
        Some(walk) => Ok(Certified::NotOptimal { walk }),
        None => {
            let least = set_of(alloc, &reading.reached, shift.len())?;
            let outside = set_of(alloc, &reading.leading, shift.len())?;
            let greatest = outside.complement(alloc)?;
            Ok(Certified::Proved(Proved {
                value: deficit_of(&reading.z),
                least,
                greatest,
            }))
        }
    }
}
