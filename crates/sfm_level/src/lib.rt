// The most level base of the sum of the terms of an instance, the base with the least sum of squares, with bases of the terms
// that add up to it, and the text that tells it.
#![tactic(auto)]

mod guide;
mod levelling;
mod passes;
mod settle;
mod squares;
mod text;
mod told;

pub use levelling::level;
pub use passes::level_rows;
pub use text::{level_text, write_level};
pub use told::Level;
