// The minimum of a sum, proved by bases whose entries are known to be small, and its least minimiser, read off the same graph.
ghost use Rattle.std.specs.{Prelude.{◌^◌, map, pos, IfOk}, List.{All}};
ghost use Rattle.sfm_spec.specs.{Bounds.{AreBounded, IsAtMost}, Families.{AreBases, IsLeast, Prove, even_shift, meanings}};

use sfm_base::{Memory, Rows, Set, Steps};
use sfm_exchange::graph_at;
use sfm_law::{Term, start_rows};
use sfm_walk::{improve, least_minimiser};
use std::alloc::Global;

/// Bases that prove the minimum of a sum, and its least minimiser.
#[derive(Drop)]
pub(crate) struct Minimum {
    pub members: Set,
    pub bases: Rows,
}

/// The least minimiser of the sum of terms over a ground of n places, with bases that prove the minimum, whose entries are at
/// most 10^25 in magnitude.
pub(crate) fn lowest<T: Term>(alloc: Global, terms: &[T], n: usize) -> Result<Minimum, Memory>
    requires { AreBounded n (map T.places terms.now) (map T.size_of terms.now) }
    ensures bases { IfOk result (λ r. AreBases (pos 1) (meanings T.places T.value_of terms.now)
        r.bases) }
    ensures small { IfOk result (λ r. All (λ x. All (IsAtMost (10 ^ 25)) x) r.bases) }
    ensures least { IfOk result (λ r. IsLeast (meanings T.places T.value_of terms.now) n (pos 1)
        (even_shift n (pos 0)) r.members) }
    ensures proves { IfOk result (λ r. Prove (meanings T.places T.value_of terms.now) n (pos 1)
        (even_shift n (pos 0)) r.bases) }
{
    let shift = vec![in alloc; 0i128; n]?;
    let first_bases = start_rows(alloc, terms, 1)?;
    let mut graph = graph_at(alloc, terms, n, 1, first_bases)?;
    let mut steps = Steps::new();
    let z = improve(alloc, &mut graph, terms, 1, &shift, &mut steps)?;
    let members = least_minimiser(alloc, &mut graph, terms, 1, &shift, &z)?;
    Ok(Minimum {
        members,
        bases: graph.into_bases(),
    })
}
