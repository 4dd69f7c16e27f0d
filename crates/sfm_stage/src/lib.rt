// Walks that serve all slopes of an interval at once. A walk from a place below the lowest of them, by fewest steps to the
// places above it, that ends at a place above the highest, is a walk move at every slope between: fewer places are above a
// higher slope, so none is nearer, and at a slope with a denominator the bases, the amounts and what is left are multiplied.
#![tactic(auto)]

mod aims;
mod kept;
mod stage;

pub use stage::run_stage;
