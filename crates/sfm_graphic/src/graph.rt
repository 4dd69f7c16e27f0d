// The edges of a graphic term with its vertices numbered without gaps: the ends get 0, 1, 2 and so on in the order in which they
// first stand, tail before head. So what is kept for each vertex is as long as there are vertices. Ends with one number are one
// vertex, as each is that which stands in the place that its number tells among those listed.
ghost use Rattle.std.specs.Prelude.{◌≡◌, ◌≤◌, length, IfOk, OnOk};
ghost use Rattle.sfm_graphic.specs.{Ends.{edges_of}, Graphs.{EndsBelow}, Numbered.{place_of, with_vertex, vertices_of, vertex_count, numbered}};

use crate::ends::Pairs;
use crate::order::{Hubs, by_hubs};
use sfm_base::{Memory, Places};
use std::alloc::Global;

/// Edges, the ends of which are numbers below that of the vertices.
#[derive(Drop)]
pub(crate) struct Graph {
    /// The tail and the head of each edge.
    pub ends: Pairs,
    /// How many vertices there are.
    pub vertices: usize,
    /// For each edge that end at which the root is best, and the edges by these: one move of a root serves those with one hub.
    pub hubs: Places,
    pub order: Places,
    pub ghost few: { length ends ≤ 256 },
    pub ghost below: { EndsBelow (edges_of ends) vertices },
    pub ghost small: { vertices ≤ 512 },
}

impl Graph {
    /// A copy.
    ///
    /// # Errors
    ///
    /// `Memory` where there is none.
    pub(crate) fn copy(&self, alloc: Global) -> Result<Graph, Memory>
        ensures { IfOk result (λ r. r ≡ self.now) }
    {
        let ends = self.ends.copy(alloc)?;
        let hubs = Places::from_slice(alloc, self.hubs.as_slice())?;
        let order = Places::from_slice(alloc, self.order.as_slice())?;
        Ok(Graph {
            ends,
            vertices: self.vertices,
            hubs,
            order,
        })
    }

    /// The hub of an edge, if it has one.
    pub(crate) fn hub(&self, e: usize) -> Option<usize> {
        match self.hubs.as_slice().get(e) {
            Some(hub) => Some(*hub),
            None => None,
        }
    }
}

/// Where a vertex stands among others; how many they are, where it does not.
fn place(vertices: &[u32], v: u32) -> usize
    ensures { result ≡ place_of vertices.now v }
{
    for i in 0..vertices.len() {
        if vertices[i] == v {
            return i;
        }
    }
    vertices.len()
}

/// Puts a vertex behind others, unless it stands there.
fn put(vertices: &mut Vec<u32>, v: u32) -> Result<(), Memory>
    ensures { OnOk result (vertices.new.items ≡ with_vertex vertices.old.items v) }
{
    if place(vertices, v) == vertices.len() {
        vertices.push(v)?;
    }
    Ok(())
}

/// The vertices in the order in which they first stand among the ends.
fn vertices(alloc: Global, ends: &[(u32, u32)]) -> Result<Vec<u32>, Memory>
    ensures { IfOk result (λ r. r.items ≡ vertices_of (edges_of ends.now)) }
{
    let mut vertices = Vec::new(alloc);
    for pair in ends {
        put(&mut vertices, pair.0)?;
        put(&mut vertices, pair.1)?;
    }
    Ok(vertices)
}

/// The edges with the places of their ends among the vertices.
fn placed(
    alloc: Global,
    ends: &[(u32, u32)],
    vertices: &[u32],
) -> Result<Vec<(usize, usize)>, Memory>
    requires { vertices.now ≡ vertices_of (edges_of ends.now) }
    ensures { IfOk result (λ r. edges_of r.items ≡ numbered (edges_of ends.now)) }
{
    let mut numbers = Vec::new(alloc);
    for pair in ends {
        numbers.push((place(vertices, pair.0), place(vertices, pair.1)))?;
    }
    Ok(numbers)
}

/// The edges with the numbers of their ends.
///
/// # Errors
///
/// `Memory` where there is none.
pub(crate) fn numbered(alloc: Global, ends: &[(u32, u32)]) -> Result<Graph, Memory>
    requires { length ends.now ≤ 256 }
    ensures ends { IfOk result (λ r. edges_of r.ends ≡ numbered (edges_of ends.now)) }
    ensures vertices { IfOk result (λ r. r.vertices ≡ vertex_count (edges_of ends.now)) }
{
    let vertices = vertices(alloc, ends)?;
    let numbers = placed(alloc, ends, &vertices)?;
    let count = vertices.len();
    let hubs = by_hubs(alloc, &numbers, count)?;
    let Hubs { of, order } = hubs;
    Ok(Graph {
        ends: Pairs::from_vec(numbers),
        vertices: count,
        hubs: of,
        order,
    })
}
