// How far an answer text has been read.
ghost use Rattle.std.specs.Prelude.{◌+◌, ◌≤◌};

/// The place at which the next line begins, and the number of that line.
#[derive(Clone, Copy)]
pub struct Cursor {
    pub at: usize,
    /// Counted from 1.
    pub line: usize,
    pub ghost few: { line ≤ at + 1 },
}
