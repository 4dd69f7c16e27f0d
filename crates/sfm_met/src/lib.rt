// The text of a greatest common vector of two instances: written, read, and judged, whoever wrote it. Its lines are known
// beforehand but for their numbers and their set, so each is read by itself, and the first that is not of its kind is the first
// bad one. The judge stands on the bases of the text alone; it shares no step with the search for a common vector.
#![tactic(auto)]

mod judging;
mod read;
mod telling;
mod write;

pub use judging::judge_met;
pub use read::read_met;
pub use telling::met_text;
pub use write::write_met;
