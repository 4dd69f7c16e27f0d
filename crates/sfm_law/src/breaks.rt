// A breakpoint of the principal partition, as the search finds it and the answer prints it.
use sfm_base::{Rows, Set, Slope};

/// A slope at which there are two or more minimisers, with the greatest of them and bases that prove there
/// (Fujishige, Submodular Functions and Optimization, section 7).
pub struct Break {
    /// The slope, in lowest terms.
    pub slope: Slope,
    /// The greatest minimiser.
    pub set: Set,
    /// One base per term.
    pub bases: Rows,
}

// Written out, so that letting one go is one step, which is proved here once.
impl Drop for Break {
    fn drop(self) {
        let Self {
            slope: _,
            set: _,
            bases: _,
        } = self;
    }
}
