// What is due for each command: a file of a shelf is read, an instance is solved, an answer is judged or a demonstration is
// made, and the text that is to be written is made whole, with the status that goes with it.
#![tactic(auto)]

mod demo;
mod due;
mod feed;
mod file;
mod level;
mod solve;
mod status;

pub use demo::due_to_demo;
pub use due::{
    Due, due_for_verdict, due_to_ask, due_to_check, due_to_check_weighed, due_to_solve,
    due_to_weigh, refuse, refuse_by,
};
pub use feed::feed_text;
pub use file::read_text;
pub use level::{due_to_level, too_large};
pub use solve::{solve_by, solve_text};
pub use status::Status;
