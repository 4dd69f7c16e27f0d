// How much each element counts: its size. A set weighs what its members count together, and a slope p/q takes p for each unit
// of size from what a set is worth. Where each element counts one, the weight of a set is the number of its members.
#![tactic(auto)]

pub mod shifts;
pub mod weights;

pub use shifts::{ones, shift_by, write_sized};
pub use weights::weight_of;
