// Term lines told by passes over their tokens, so that no list of these is made: the first reason of a long line, and the term
// of one that may be good however long it is.
#![tactic(auto)]

mod between;
mod entry_line;
mod group_test;
mod long_laminar;
mod long_line;
mod long_rank;
mod passes;
mod piece_cut;
mod slots;
mod token_test;

pub use between::Separator;
pub use long_line::{early_reason, early_term};
pub use passes::{are_names_in, has_repeat_in, has_separator_in};
pub use token_test::{is_known, is_pair, is_pair_element};
