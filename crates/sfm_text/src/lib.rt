// Reading instance texts: what is a good one, which instance it stands for, and the first fault of one that is not good.
#![tactic(auto)]

mod added;
mod end;
pub mod laws;
mod lines;
mod reader;
mod reading;

pub use added::{add_line, are_good_bytes};
pub use end::TextEnd;
pub use lines::{Line, Lines, content_lines};
pub use reader::{Numbered, Reader, TEXT_LIMIT, read_instance, read_numbered, read_pieces};
pub use reading::{behind_token, is_last, is_version};
pub use sfm_lines::tokens::token;
pub use sfm_lines::{LineEnd, Reason};
