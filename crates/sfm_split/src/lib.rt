// How demands are split over slots: each over the slots of its own list, no slot above its capacity. Amounts on the cells of
// sfm_cells are raised from nothing, or from those of a split of other demands; a split that is kept while what is asked changes
// stands in sfm_assign.
#![tactic(auto)]

mod augment;
mod change;
mod fill;
mod grown;
mod lower;
mod nodes;
mod pour;
mod search;
mod split;
mod splitting;
mod work;

pub use change::{Aim, Steps, begin, find_amounts, find_changed};
pub use grown::raise_most;
pub use lower::Change;
pub use nodes::Link;
pub use split::Split;
pub use splitting::{AssignEnd, assign, met_shares};
pub use work::Work;
