// One call of the program, from its words to its status, over any shelf and any two sinks: its words are read, the files that
// they name are opened one after the other, what is due is made whole, and that is written.
#![tactic(auto)]

mod call;
mod open;
mod prepare;
mod stop;

pub use call::{complain, run};
