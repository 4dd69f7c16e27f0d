// Ranks whose elements have weights. The greatest weight of an independent part is what the ranks at the levels of the
// weights make together, each weighed by how far its level is above the next one: so such a rank is a sum of plain ones, its
// layers. A layer has the elements of some weight or more: what lists keep of those is here too.
#![tactic(auto)]

mod keeping;
pub mod laws;

pub use keeping::kept_of;
