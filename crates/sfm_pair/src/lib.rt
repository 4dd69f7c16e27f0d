// What is due for two instances: whether they go together, and, where they do, the text of a greatest common vector, or the
// verdict on one. Whether they go together is told by their lines, in the order in which the reasons come before one another.
#![tactic(auto)]

mod clash;
mod due;

pub use clash::{Clash, clash_of};
pub use due::{due_to_meet, due_to_met, refuse_clash};
