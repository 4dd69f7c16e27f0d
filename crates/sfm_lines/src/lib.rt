// Term lines of a text: their tokens, the parts that these are cut into, and the term that the parts stand for or the first
// reason for which there is none.
#![tactic(auto)]

mod graphic_line;
pub mod groups;
pub mod labels;
pub mod laminar_line;
pub mod least_groups;
mod line_fault;
pub mod line_parts;
mod names;
pub mod pair;
pub mod parts;
mod rank_head;
mod reason;
pub mod separator;
mod stage;
pub mod term_line;
mod terms;
pub mod tokens;
mod uniform_line;
pub mod word;

pub use line_fault::LineEnd;
pub use reason::Reason;
pub use stage::Stage;
