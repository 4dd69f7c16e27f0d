// How far a text has been read.

/// Which line is due.
#[derive(Clone, Copy, PartialEq, Eq)]
pub enum Stage {
    /// The header.
    Header,
    /// The line with the names of the ground.
    Ground,
    /// A term line, or the end.
    Terms,
    /// None: the end has been read.
    Ended,
}
