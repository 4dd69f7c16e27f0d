// The exchange graph as one value: bases of q times some terms, and all that is read off them (Fujishige, Submodular
// Functions and Optimization, section 4: auxiliary networks). Each term may have a note beside its base, and has for each of its
// places a row of the ground places to which that has room. What the bases add up to is kept beside them. The incidence of a place of the ground is its list of spots, its
// adjacency the union of the rows of these, and the same is kept turned round, for searches backwards. That all of this is
// so is one fact, `IsGraph`, which each call over a graph asks for and gives back; along walks some rows may be claimed, and
// the fact is `IsClaimed`.
ghost use Rattle.std.specs.{Prelude.{◌≡◌, length, map, OnOk, IfOk}, List.{All}};
ghost use Rattle.sfm_spec.specs.{Sets.{IsPlaced}, Bounds.{AreBounded, IsEntry, IsFactor}, Families.{meanings, AreBases}};
ghost use Rattle.sfm_exchange.specs.Graph.{IsGraph, IsShaped};

use crate::sums::sums_of;
use sfm_base::{Memory, Rows};
use sfm_law::Term;
use sfm_reach::{
    BitRows, Bits, Spots, ask_all, blank_rows, no_bits, no_notes, spots_of, turned_of, unions_of,
};
use std::alloc::Global;

/// The exchange graph of q times some terms at bases of theirs. Its vertices are the places of the ground, and an arc leads
/// from one place to another where a term has room for the exchange that raises the one and lowers the other.
pub struct Graph<N> {
    /// The bases, one for each term.
    pub bases: Rows,
    /// What the bases add up to at each place of the ground.
    pub sums: Vec<i128>,
    /// Incidence: for each place of the ground its terms.
    pub spots: Vec<Spots>,
    /// What the kind of each term keeps beside its base, once that is wanted.
    pub notes: Vec<Option<N>>,
    /// For each place of each term the ground places to which it has room.
    pub rows: Vec<BitRows>,
    /// For each term the ground places whose rows in it are only claimed: they may have too much.
    pub claimed: Vec<Bits>,
    /// Adjacency: for each place of the ground the places that arcs lead to.
    pub unions: Vec<Bits>,
    /// The same turned round: the places that arcs come from.
    pub back: Vec<Bits>,
}

// Written out, so that letting one go is one step, which is proved here once.
impl<N: Drop> Drop for Graph<N> {
    fn drop(self) {
        let Self {
            bases: _,
            sums: _,
            spots: _,
            notes: _,
            rows: _,
            claimed: _,
            unions: _,
            back: _,
        } = self;
    }
}

impl<N: Drop> Graph<N> {
    /// The bases, of a graph that is done with.
    pub fn into_bases(self) -> Rows
        ensures { result ≡ self.bases }
    {
        let Graph {
            bases,
            sums: _,
            spots: _,
            notes: _,
            rows: _,
            claimed: _,
            unions: _,
            back: _,
        } = self;
        bases
    }
}

/// The exchange graph of q times the terms at bases of theirs, over a ground of n places.
///
/// # Errors
///
/// `Memory` where there is none.
pub fn graph_at<T: Term>(
    alloc: Global,
    terms: &[T],
    n: usize,
    q: i128,
    bases: Rows,
) -> Result<Graph<T::Note>, Memory>
    requires bounded { AreBounded n (map T.places terms.now) (map T.size_of terms.now) }
    requires factor { IsFactor q }
    requires bases { AreBases q (meanings T.places T.value_of terms.now) bases }
    requires small { All (λ x. All IsEntry x) bases }
    ensures graph { IfOk result (IsGraph T.Term terms.now n q) }
    ensures bases { IfOk result (λ r. r.bases ≡ bases) }
{
    let mut graph = blank_graph(alloc, terms, n)?;
    restart(alloc, &mut graph, terms, n, q, bases)?;
    Ok(graph)
}

// The lists of a graph of the terms over n places, with nothing in them yet but the spots.
pub(crate) fn blank_graph<T: Term>(
    alloc: Global,
    terms: &[T],
    n: usize,
) -> Result<Graph<T::Note>, Memory>
    requires { All (IsPlaced n) (map T.places terms.now) }
    ensures { IfOk result (IsShaped T.Term terms.now n) }
{
    let spots = spots_of(alloc, terms, n)?;
    let rows = blank_rows(alloc, terms)?;
    let claimed = blank_sets(alloc, terms.len())?;
    let notes = no_notes(alloc, terms)?;
    let unions = blank_sets(alloc, n)?;
    let back = blank_sets(alloc, 256)?;
    Ok(Graph {
        bases: Rows::new(alloc),
        sums: Vec::new(alloc),
        spots,
        notes,
        rows,
        claimed,
        unions,
        back,
    })
}

// So many sets of places with nothing in them.
fn blank_sets(alloc: Global, count: usize) -> Result<Vec<Bits>, Memory>
    ensures { IfOk result (λ r. length r.items ≡ count) }
{
    let sets = vec![in alloc; no_bits(); count]?;
    Ok(sets)
}

/// Makes the graph one of the same terms at other bases, and maybe at another factor. Its lists are used again, whatever is
/// in them. After want of memory nothing is said of the graph.
///
/// # Errors
///
/// `Memory` where there is none.
pub fn restart<T: Term>(
    alloc: Global,
    graph: &mut Graph<T::Note>,
    terms: &[T],
    n: usize,
    q: i128,
    bases: Rows,
) -> Result<(), Memory>
    requires bounded { AreBounded n (map T.places terms.now) (map T.size_of terms.now) }
    requires factor { IsFactor q }
    requires graph { IsShaped T.Term terms.now n graph.old }
    requires bases { AreBases q (meanings T.places T.value_of terms.now) bases }
    requires small { All (λ x. All IsEntry x) bases }
    ensures graph { OnOk result (IsGraph T.Term terms.now n q graph.new) }
    ensures bases { OnOk result (graph.new.bases ≡ bases) }
{
    graph.sums = sums_of(alloc, terms, n, &bases)?;
    graph.bases = bases;
    graph.notes = no_notes(alloc, terms)?;
    ask_all(
        alloc,
        terms,
        q,
        &graph.bases,
        &mut graph.notes,
        &mut graph.rows,
    )?;
    graph.claimed.fill(no_bits());
    graph.unions = unions_of(alloc, &graph.spots, &graph.rows)?;
    graph.back = turned_of(alloc, &graph.unions)?;
    Ok(())
}
