// Weighted ranks of laminar matroids as terms: groups of elements, of which any two are apart or one holds the other, each
// with a cap on how many of its members may be independent together.
#![tactic(auto)]

mod crossing;
pub mod groups;
mod growing;
mod index;
pub mod laminar;
mod masks;
mod number;
mod place;
mod restrict;
pub mod slacks;

pub use groups::{CappedGroup, Groups};
pub use laminar::{Laminar, LaminarEnd};
pub use slacks::Slacks;
