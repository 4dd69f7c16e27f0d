// Edits of an instance: a text of them takes term lines out and adds new ones, and tells which of the terms are old. From the
// bases that proved the minimum before them the new one is sought by few walks.
#![tactic(auto)]

mod editing;
pub mod laws;
mod origins;
mod resuming;

pub use editing::{Edited, apply};
pub use origins::Origins;
pub use resuming::resume;
