// Terms turned round: bases and rooms of what the rest of a part is worth, by those of the term.
#![tactic(auto)]

mod flip;
mod note;

pub use flip::{Flip, turned};
pub use note::{FlipNote, Owed};
