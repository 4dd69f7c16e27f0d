// All that bases tell of the minimisers where they prove the minimum: the graph at them is made once, and its searches are run once,
// for the extreme minimisers and the blocks alike.
ghost use Rattle.std.specs.{Prelude.{map, pos, IfOk}, List.{All}};
ghost use Rattle.sfm_spec.specs.{Bounds.{AreBounded, IsEntry}, Blocks.{AreBlocks, Generate}, Families.{meanings, even_shift, AreBases, Prove}};
ghost use Rattle.sfm_exchange.specs.Graph.{IsWhole};
ghost use Rattle.sfm_extreme.specs.{Blocks.{block_of}, Certified.{IsAnswer}};

use crate::extremes::{Certified, Proved, told_by};
use crate::grouping::{Block, blocks_read};
use crate::reading::{graph_of, read_graph};
use sfm_base::{Memory, Rows};
use sfm_exchange::Graph;
use sfm_law::Term;
use std::alloc::Global;

/// The minimum with its extreme minimisers, and the blocks that generate all others.
#[derive(Drop)]
pub struct Minimisers {
    pub proved: Proved,
    pub blocks: Vec<Block>,
}

/// What bases of the terms that prove the minimum tell: what `certify` and `blocks` do, read off them together.
///
/// # Errors
///
/// `Memory` where there is none.
pub fn read_minimisers<T: Term>(
    alloc: Global,
    terms: &[T],
    n: usize,
    bases: &Rows,
) -> Result<Minimisers, Memory>
    requires bounded { AreBounded n (map T.places terms.now) (map T.size_of terms.now) }
    requires bases { AreBases (pos 1) (meanings T.places T.value_of terms.now) bases.now }
    requires small { All (λ x. All IsEntry x) bases.now }
    requires prove { Prove (meanings T.places T.value_of terms.now) n (pos 1)
        (even_shift n (pos 0)) bases.now }
    ensures answer { IfOk result (λ r. IsAnswer (meanings T.places T.value_of terms.now) n (pos 1)
        (even_shift n (pos 0)) bases.now (Certified.Proved r.proved)) }
    ensures exact { IfOk result (λ r. AreBlocks (meanings T.places T.value_of terms.now) n (pos 1)
        (even_shift n (pos 0)) (map block_of r.blocks.items)) }
    ensures generate { IfOk result (λ r. Generate (meanings T.places T.value_of terms.now) n (pos 1)
        (even_shift n (pos 0)) (map block_of r.blocks.items)) }
{
    let graph = graph_of(alloc, terms, n, 1, bases)?;
    minimisers_at(alloc, terms, n, &graph)
}

/// The same where the exchange graph at these bases is there.
///
/// # Errors
///
/// `Memory` where there is none.
pub fn minimisers_at<T: Term>(
    alloc: Global,
    terms: &[T],
    n: usize,
    graph: &Graph<T::Note>,
) -> Result<Minimisers, Memory>
    requires whole { IsWhole T.Term terms.now n (pos 1) graph.now }
    requires small { All (λ x. All IsEntry x) graph.now.bases }
    requires prove { Prove (meanings T.places T.value_of terms.now) n (pos 1)
        (even_shift n (pos 0)) graph.now.bases }
    ensures answer { IfOk result (λ r. IsAnswer (meanings T.places T.value_of terms.now) n (pos 1)
        (even_shift n (pos 0)) graph.now.bases (Certified.Proved r.proved)) }
    ensures exact { IfOk result (λ r. AreBlocks (meanings T.places T.value_of terms.now) n (pos 1)
        (even_shift n (pos 0)) (map block_of r.blocks.items)) }
    ensures generate { IfOk result (λ r. Generate (meanings T.places T.value_of terms.now) n (pos 1)
        (even_shift n (pos 0)) (map block_of r.blocks.items)) }
{
    let shift = vec![in alloc; 0i128; n]?;
    let reading = read_graph(alloc, terms, &shift, graph)?;
    match told_by(alloc, terms, 1, &shift, &reading)? {
        Certified::Proved(proved) => {
            let blocks = blocks_read(alloc, terms, n, &reading)?;
            Ok(Minimisers { proved, blocks })
        }
        Certified::NotOptimal { walk: _ } => unreachable!(),
    }
}
