// Demands over slots, and the cells of these: each demand has the list of the slots that it may use, with a cell for each entry of
// it. The cells of each demand and those of each slot stand in a list, and amounts on the cells leave something of demands and of
// capacities. How such amounts are found stands in sfm_split.
#![tactic(auto)]

mod amount;
mod cells;
mod demand;
mod groups;
mod left;
mod multiples;
mod shared;
mod shares;

pub use amount::{put, take};
pub use cells::Cells;
pub use demand::Demand;
pub use groups::Groups;
pub use left::{Lefts, left_of, lefts_of};
pub use multiples::copy_times;
pub use shared::SharedCells;
pub use shares::Shares;
