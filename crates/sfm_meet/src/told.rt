// What is told of two sums.
use sfm_base::{Numbers, Rows, Set};

/// A base for each term of one sum and of another.
#[derive(Drop)]
pub struct Bases {
    /// The bases of the terms of the left sum, in the order of the terms.
    pub left: Rows,
    /// Those of the right sum.
    pub right: Rows,
}

/// A greatest common vector of two sums, the set at which it is bounded, and the bases that prove it.
#[derive(Drop)]
pub struct Met {
    /// What the common vector adds up to: the least that one sum is on a set and the other on its rest.
    pub value: i128,
    /// The least set that has this value.
    pub members: Set,
    /// The entries of the common vector, one for each element in the order of the ground.
    pub common: Numbers,
    /// The bases of the terms of both sums.
    pub bases: Bases,
}
