// The answer of a term on how much can be exchanged between two of its places.
ghost use Rattle.std.specs.Prelude.{ℤ, ◌≤ℤ◌};
ghost use Rattle.sfm_law.specs.Room.{AtMostRoom};

/// How much the first of two places can be raised, and the second lowered, so that a base stays a base:
/// the exchange capacity (Fujishige, Submodular Functions and Optimization, section 4).
#[derive(Clone, Copy, PartialEq, Eq)]
pub enum Room {
    /// The greatest such number.
    Upto(i128),
    /// Every number: no allowed set has the first place and not the second.
    Unbounded,
}

impl Room {
    /// The greatest number up to a limit that is within the room.
    pub fn upto(self, limit: i128) -> i128
        ensures high { result ≤ℤ limit }
        ensures within { AtMostRoom result self }
        ensures greatest { (a : ℤ) → a ≤ℤ limit → AtMostRoom a self → a ≤ℤ result }
    {
        match self {
            Room::Upto(most) => limit.min(most),
            Room::Unbounded => limit,
        }
    }
}
