// What a slope line says.
use sfm_base::{Set, Slope};

/// A slope and the set that belongs to it.
#[derive(Drop)]
pub struct Head {
    /// The slope.
    pub slope: Slope,
    /// The greatest minimiser.
    pub set: Set,
}
