// Terms of the two sides of a sum of two sums: those of the one as they are, those of the other turned round.
#![tactic(auto)]

mod side;

pub use side::{Side, SideNote};
