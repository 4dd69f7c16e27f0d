// What a term is asked for in tests: its values, its first base, whether a vector is a base of it, and whether a note tells the rows
// and the rooms that the term tells without one. Each is asked by a function that answers yes or no, and no where memory lacks. Beside
// these stands what puts names and terms into an instance. Crates of tests stand on it, and nothing else does.
#![tactic(auto)]

pub mod bases;
pub mod instances;
pub mod notes;
pub mod parts;

pub use bases::{
    MOST_ENTRY, are_entries, are_rows, first_base, is_base, is_fit, is_small, starts, tells_base,
};
pub use instances::{add, add_names};
pub use notes::{is_reach, tells_room, tells_row};
pub use parts::{NO, has_values, part, value_at};
