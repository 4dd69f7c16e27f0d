// Texts beside an instance: a header, lines of one form, and the end. The frame is common to all forms: each form is a loop
// over its own lines.
#![tactic(auto)]

mod frame;
pub mod laws;
mod passes;
mod pins;
mod sizes;

pub use frame::Frame;
pub use pins::{Pins, read_pins};
pub use sizes::read_sizes;
