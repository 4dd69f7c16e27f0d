// The exchange graph of terms at bases of theirs (Fujishige, Submodular Functions and Optimization, section 4): its vertices are the
// places of the ground, and an arc leads from a place to another where a term has room for the exchange that raises the one and
// lowers the other. What is read off it: the places that a set leads to or that lead to a set, and a shortest walk from a set to a
// set by least steps. And the augmentation along a walk, by which the graph is brought up to the bases that come.
#![tactic(auto)]

mod claims;
mod graph;
mod levels;
mod moving;
mod multiples;
mod noted;
mod path;
mod renewing;
mod signs;
mod sums;

pub use claims::{ask_claimed, prove_walk, walked_from};
pub use graph::{Graph, graph_at, restart};
pub use levels::find_levels;
pub use moving::{amount_of, move_along};
pub use multiples::{Beside, graph_by, restart_by, restart_times};
pub use path::{Hop, Path, Stuck, descend, follow, local_of, steps_along};
pub use renewing::renew_rows;
pub use sfm_reach::{Bits, no_bits, reached_from, set_of};
pub use signs::{Signs, move_signs, signs_of};
pub use sums::sums_of;
