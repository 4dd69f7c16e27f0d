// Common vectors of two sums: a vector that gives no set more than either sum does, of the greatest sum there is. The left terms
// and the right ones, turned round, are the terms of one sum; bases that prove its minimum are bases of both, whose smaller sums
// are a greatest common vector, and its least minimiser is the least set at which the bound on common vectors is met (Edmonds'
// polymatroid intersection; Schrijver, Combinatorial Optimization, section 46).
#![tactic(auto)]

mod finding;
mod lowest;
mod proving;
mod sides;
mod smaller;
mod told;

pub use finding::common;
pub use proving::proved_split;
pub use told::{Bases, Met};
