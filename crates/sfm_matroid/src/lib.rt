// Weighted ranks of transversal matroids as terms: elements, of which some are independent where they have slots of their own
// entries, all distinct. And what a term of any matroid whose bases are told by splits is made with: what is asked of the entries of
// a base, rows, rooms, and the splits that are kept beside it.
#![tactic(auto)]

pub mod entries;
mod frame;
pub mod givers;
mod matching;
pub mod pair;
pub mod ranked;
mod restrict;
pub mod room;
pub mod splits;
pub mod transversal;

pub use entries::Entries;
pub use pair::SplitPair;
pub use splits::SlotSplit;
pub use transversal::Transversal;
