// The kinds of terms that keep nothing beside a base. What is asked of them takes no memory.
#![tactic(auto)]

mod breach;
pub mod cover;
pub mod cut;
pub mod need;
mod pair;
mod place;
mod subset;
pub mod table;
pub mod weight;

pub use cover::Cover;
pub use cut::Cut;
pub use need::Need;
pub use table::{Table, TableEnd};
pub use weight::Weight;
