// Reading an answer text back, by the grammar that the ground and the terms ask for. The lines of other texts that are read are
// of the same kinds, so the calls that read one line are public too.
#![tactic(auto)]

mod cursor;
mod head;
mod lists;
mod next;
mod numbers;
mod read;
mod short;
mod steps;

pub use cursor::Cursor;
pub use next::{expect, take_line};
pub use read::{ANSWER_LIMIT, read_answer, read_weighed, read_with};
pub use steps::{read_labelled, read_row, read_set, read_value};
