// Answer texts: what they are, and writing one. The lines of other texts that are written are made of the same pieces, so these
// are public too.
#![tactic(auto)]

mod digits;
mod header;
mod lines;
mod out;
mod put;
mod solved;
mod spot;
mod width;
mod write;

pub use header::Header;
pub use lines::{line_of_at, line_of_base};
pub use out::{Gauge, Out};
pub use put::{put_at, put_names, put_number, put_numbers, put_rows};
pub use solved::{AnswerEnd, Solved};
pub use spot::Spot;
pub use write::{answer_len, put_answer, write_answer, write_weighed, write_with};
