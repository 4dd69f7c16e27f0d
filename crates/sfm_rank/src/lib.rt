// The rank of a matroid, over any independence that keeps the axioms: what the ranks of all kinds of matroid take their laws
// from. A matroid is a family of parts of k places: the empty part is independent, parts of independent ones are, and of two
// the smaller can take a place of the larger. The rank of a part is the size of its greatest independent parts. Nothing here
// runs.
#![tactic(auto)]

pub mod laws;
