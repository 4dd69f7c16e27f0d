// Bases of a sum, and which of them are the most level: laws that hold of every term by its meaning alone.
#![tactic(auto)]

pub mod laws;
