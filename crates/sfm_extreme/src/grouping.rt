// The blocks of the minimisers: the places between the least and the greatest minimiser, put together where each comes
// along with the other. A block is told by its first place, and needs the other blocks whose first places come along
// with it.
ghost use Rattle.std.specs.{Prelude.{◌≡◌, ℕ, ◌<◌, ◌≤◌, length, map, pos, IfOk, slice_index}, List.{All}};
ghost use Rattle.sfm_spec.specs.{Bounds.{AreBounded, IsEntry}, Blocks.{AreBlocks, Generate}, Families.{meanings, even_shift, AreBases, Prove}};
ghost use Rattle.sfm_exchange.specs.Bits.{bit_in, set_at};
ghost use Rattle.sfm_extreme.specs.{Blocks.{block_of}, Reading.{IsReading}, Pulls.{AreBlocksBy, AreGrouped, AreSquare, IsMembers, needs_upto}};

use crate::firsts::firsts_in_order;
use crate::pulling::pull_rows;
use crate::reading::{Reading, graph_of, read_graph};
use sfm_base::{Memory, Rows, Set};
use sfm_exchange::Bits;
use sfm_law::Term;
use std::alloc::Global;

/// Places that are in the same minimisers, and the blocks that each minimiser with them has too.
pub struct Block {
    /// The places.
    pub members: Set,
    /// The numbers of the blocks that it needs, counted from 1, ascending.
    pub needs: Vec<usize>,
}

// Written out, so that letting one go is one step, which is proved here once.
impl Drop for Block {
    fn drop(self) {
        let Self {
            members: _,
            needs: _,
        } = self;
    }
}

/// The blocks that generate the minimisers, from bases of the terms that prove the minimum: the minimisers are exactly
/// the unions of the least one with blocks that are taken together with all that they need (Fujishige, Submodular
/// Functions and Optimization, section 3). They come by how many places are in a block and all that it needs, then by
/// its first place.
///
/// # Errors
///
/// `Memory` where there is none.
pub fn blocks<T: Term>(
    alloc: Global,
    terms: &[T],
    n: usize,
    bases: &Rows,
) -> Result<Vec<Block>, Memory>
    requires bounded { AreBounded n (map T.places terms.now) (map T.size_of terms.now) }
    requires bases { AreBases (pos 1) (meanings T.places T.value_of terms.now) bases.now }
    requires small { All (λ x. All IsEntry x) bases.now }
    requires prove { Prove (meanings T.places T.value_of terms.now) n (pos 1)
        (even_shift n (pos 0)) bases.now }
    ensures exact { IfOk result (λ r. AreBlocks (meanings T.places T.value_of terms.now) n (pos 1)
        (even_shift n (pos 0)) (map block_of r.items)) }
    ensures generate { IfOk result (λ r. Generate (meanings T.places T.value_of terms.now) n (pos 1)
        (even_shift n (pos 0)) (map block_of r.items)) }
{
    let shift = vec![in alloc; 0i128; n]?;
    let graph = graph_of(alloc, terms, n, 1, bases)?;
    let reading = read_graph(alloc, terms, &shift, &graph)?;
    blocks_read(alloc, terms, n, &reading)
}

/// The blocks, by what was read off bases that prove the minimum.
pub(crate) fn blocks_read<T: Term>(
    alloc: Global,
    _terms: &[T],
    _n: usize,
    reading: &Reading<'_, T::Note>,
) -> Result<Vec<Block>, Memory>
    requires reading { IsReading T.Term _terms.now _n (pos 1) (even_shift _n (pos 0)) reading.now }
    requires prove { Prove (meanings T.places T.value_of _terms.now) _n (pos 1)
        (even_shift _n (pos 0)) reading.now.graph.now.bases }
    ensures exact { IfOk result (λ r. AreBlocks (meanings T.places T.value_of _terms.now) _n (pos 1)
        (even_shift _n (pos 0)) (map block_of r.items)) }
    ensures generate { IfOk result (λ r. Generate (meanings T.places T.value_of _terms.now) _n
        (pos 1) (even_shift _n (pos 0)) (map block_of r.items)) }
{
    let mut outside = reading.reached;
    outside.union_with(&reading.leading);
    blocks_by(alloc, &reading.graph.unions, &outside)
}

// The blocks of the places that are not outside, by the places that links lead to.
fn blocks_by(alloc: Global, unions: &[Bits], outside: &Bits) -> Result<Vec<Block>, Memory>
    requires few { length unions.now ≤ 256 }
    requires links { (e t : ℕ) → e < length unions.now → bit_in (set_at unions.now e) t ≡ 1
        → t < length unions.now }
    ensures { IfOk result (λ r. AreBlocksBy unions.now outside.now (map block_of r.items)) }
{
    let rows = pull_rows(alloc, unions, outside)?;
    let firsts = firsts_in_order(alloc, &rows)?;
    grouped(alloc, &rows, &firsts)
}

// The blocks with the given first places.
fn grouped(alloc: Global, rows: &[Set], firsts: &[usize]) -> Result<Vec<Block>, Memory>
    requires square { AreSquare rows.now }
    requires inside { (i : ℕ) → i < length firsts.now → slice_index firsts.now i < length rows.now }
    ensures { IfOk result (λ r. AreGrouped rows.now firsts.now (map block_of r.items)) }
{
    let mut blocks = Vec::new(alloc);
    for (i, first) in firsts.iter().enumerate() {
        let members = members_of(alloc, rows, *first)?;
        let needs = needs_of(alloc, rows, firsts, i)?;
        blocks.push(Block { members, needs })?;
    }
    Ok(blocks)
}

// The places that come along with the first place, and that it comes along with.
fn members_of(alloc: Global, rows: &[Set], first: usize) -> Result<Set, Memory>
    requires square { AreSquare rows.now }
    requires inside { first < length rows.now }
    ensures { IfOk result (IsMembers rows.now first) }
{
    let mut members = Set::empty(alloc, rows.len())?;
    for d in 0..rows.len() {
        if rows[first].contains(d) && rows[d].contains(first) {
            members.insert(d);
        }
    }
    Ok(members)
}

// The numbers, from 1, of the other blocks whose first places come along with that of block i.
fn needs_of(alloc: Global, rows: &[Set], firsts: &[usize], i: usize) -> Result<Vec<usize>, Memory>
    requires square { AreSquare rows.now }
    requires inside { (j : ℕ) → j < length firsts.now → slice_index firsts.now j < length rows.now }
    requires block { i < length firsts.now }
    ensures { IfOk result (λ r. r.items ≡ needs_upto rows.now firsts.now i (length firsts.now)) }
{
    let row = &rows[firsts[i]];
    let mut needs = Vec::new(alloc);
    for (j, first) in firsts.iter().enumerate() {
        if j != i && row.contains(*first) {
            needs.push(j + 1)?;
        }
    }
    Ok(needs)
}
