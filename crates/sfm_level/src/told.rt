// What is told of a most level base.
use sfm_base::{Numbers, Rows};

/// A most level base of the sum, and bases of the terms that add up to it.
#[derive(Drop)]
pub struct Level {
    /// The sum of the squares of its entries, the least of any base of the sum.
    pub squares: i128,
    /// Its entries, one for each element in the order of the ground.
    pub vector: Numbers,
    /// The bases of the terms, in the order of the terms.
    pub bases: Rows,
}
