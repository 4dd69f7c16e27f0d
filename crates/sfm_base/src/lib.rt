// The small types that all other crates compute with: sets of places, lists of numbers, rows, slopes, steps and the
// reader of numbers. Each is seen by contracts as a list or a number, and each call is the plain operation on it.
#![tactic(auto)]

mod lists;
mod memory;
mod number_text;
mod numbers;
mod page;
mod places;
mod rows;
mod set;
mod slope;
mod steps;
mod words;

pub use lists::Lists;
pub use memory::Memory;
pub use number_text::read_number;
pub use numbers::Numbers;
pub use page::Page;
pub use places::Places;
pub use rows::Rows;
pub use set::Set;
pub use slope::Slope;
pub use steps::Steps;
