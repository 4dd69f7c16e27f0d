// What bases of the terms of a sum tell of its minimisers: whether they prove the minimum, and then its value, the
// least and the greatest minimiser, and the blocks that generate all of them; where they do not, a walk of exchanges that
// raises what they prove. All of it is read off the exchange graph at the bases.
#![tactic(auto)]

mod deficit;
mod extremes;
mod firsts;
mod grouping;
mod joining;
mod minimisers;
mod pulling;
mod reading;

pub use deficit::deficit_of;
pub use extremes::{Certified, Proved, certify, certify_at};
pub use grouping::{Block, blocks};
pub use minimisers::{Minimisers, minimisers_at, read_minimisers};
