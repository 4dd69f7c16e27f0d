// Terms whose values are a concave function of the count of a part. What is asked of them at a base takes no memory.
#![tactic(auto)]

pub mod concave;
pub mod ranking;
mod rise;
mod share;
pub mod uniform;

pub use concave::{Concave, ConcaveEnd};
pub use ranking::Ranking;
pub use uniform::Uniform;
