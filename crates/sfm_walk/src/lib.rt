// Bases that prove the minimum of a sum of submodular functions, found by walks in the exchange graph: from first bases, or
// from given ones, each walk leads by fewest steps from a place with z < 0 to one with z > 0, and moves as much as it can, until
// no walk joins. Beside this stand a shortest walk to any places, and the move along one.
#![tactic(auto)]

mod advance;
mod following;
mod labels;
mod least;
mod optimum;
mod rest;
mod run;
mod shortest_walk;
mod walk;

pub use advance::{improve, improve_from};
pub use following::follow;
pub use least::least_minimiser;
pub use optimum::{
    Optimum, Optimum as OptimumAt, improve_from_start, minimise, minimise_at, minimise_at_counted,
    minimise_counted, minimise_from, minimise_from_start,
};
pub use rest::{move_rest, rest_from};
pub use shortest_walk::shortest;
