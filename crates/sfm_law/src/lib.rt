// What a term of a sum is, the exchange at a base, and the facts that hold of every term.
#![tactic(auto)]

pub mod at;
pub mod breaks;
pub mod laws;
pub mod moves;
pub mod numbers;
pub mod plain;
pub mod rest;
pub mod room;
pub mod starts;
pub mod term;
pub mod values;
pub mod walk;

pub use at::{At, Lead, Swap};
pub use breaks::Break;
pub use moves::exchange;
pub use numbers::{are_within, has_sum, least_left, magnitude, product, sum_of};
pub use plain::Plain;
pub use rest::rest_of;
pub use room::Room;
pub use starts::{count_places, start_row, start_rows};
pub use term::Term;
pub use values::{greatest_magnitude, put_others_over, put_over, write_each};
pub use walk::{Walk, WalkSteps};
