// One type for all kinds of term, and an instance: the names of a ground and the terms over it, kept within bounds.
#![tactic(auto)]

mod descent;
mod instance;
mod kind;
mod layers;
mod names;
mod version;

pub use instance::{Instance, MOST_SIZE, terms_before, width};
pub use kind::{Kind, KindNote};
pub use layers::{Layers, Weighed};
pub use names::is_name;
pub use version::Version;
