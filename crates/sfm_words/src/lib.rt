// The words of the command line, and the command that they ask for: clap reads them, by a command line that is built here.
#![tactic(auto)]

mod command;
mod line;
mod read;

pub use command::{Command, Refusal};
pub use read::read_command;
