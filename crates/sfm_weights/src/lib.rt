// The weights of the elements in the line of a rank: the line without them, which is judged as any other, and the weights.
#![tactic(auto)]

mod entry;
mod plain;
mod weights;

pub use plain::without_weights;
pub use weights::{are_weights, weights_of};
