// The least value of an instance among the sets that have some elements and lack some others, with the extreme sets that attain
// it, and the text that tells it.
#![tactic(auto)]

mod asking;
mod shift;
mod text;

pub use asking::{Asked, Pinned, ask};
pub use text::{asked_text, write_asked};
