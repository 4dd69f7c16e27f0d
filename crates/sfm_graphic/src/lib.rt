// Weighted ranks of graphic matroids as terms: edges of a graph, of which some are independent where they close no trail. Bases are
// told by splits of the edges over their ends, one for each vertex.
#![tactic(auto)]

pub mod ends;
mod graph;
pub mod graphic;
mod growing;
mod order;
mod restrict;
pub mod rooted;
mod testing;

pub use ends::Ends;
pub use graphic::Graphic;
pub use rooted::RootSplit;
