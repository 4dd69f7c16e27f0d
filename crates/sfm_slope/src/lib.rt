// Every breakpoint of the principal partition of a sum: the slopes at which there are two or more minimisers, in order,
// each with its greatest minimiser and with bases that prove there.
#![tactic(auto)]

mod attained;
mod breakpoints;
mod chain;
mod least;
mod rows;
mod search;
mod sections;
mod standing;
mod tree;
mod turn;
mod worth;

pub use breakpoints::{partition, partition_by, partition_with};
pub use search::Search;
