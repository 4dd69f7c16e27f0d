// Splits of demands over slots that are kept while what is asked changes; the splits themselves are found in sfm_split.
#![tactic(auto)]

mod gather;
mod greatest;
mod kept;
mod met;
mod spread;
mod told;

pub use greatest::most;
pub use kept::Kept;
pub use sfm_cells::Demand;
pub use sfm_split::{Aim, AssignEnd, Change, Split, Steps, assign};
