// The verdicts.

/// Why a text is not right, in the order in which one reason comes before another.
#[derive(Clone, Copy, PartialEq, Eq)]
pub enum Wrong {
    /// The text is too long.
    Long,
    /// A line is not of the grammar at its place.
    Grammar,
    /// The numbers of a base line are not a base of their term.
    Base,
    /// The bases of a section do not prove the minimum at its slope.
    Unproved,
    /// An answer line is not the one that is due.
    Answer,
}

/// What is said of a text.
#[derive(Clone, Copy, PartialEq, Eq)]
pub enum Verdict {
    /// It is a right file.
    Valid,
    /// It is none: the first reason, with its first line, counted from 1 (0 is the text as a whole).
    Invalid { line: usize, reason: Wrong },
}
