// The verdict on a text that is offered as the answer of an instance, whoever wrote it.
#![tactic(auto)]

mod bases;
mod chain;
mod head;
mod instance;
mod judging;
mod minimum;
mod offer;
mod right;
mod same;
mod sections;
mod values;
mod verdicts;
mod worth;

pub use bases::first_no_base_in;
pub use judging::{judge, judge_weighed, judge_with};
pub use same::are_same;
pub use verdicts::{Verdict, Wrong};
