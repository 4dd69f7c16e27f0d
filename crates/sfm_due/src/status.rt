// How a call of the program ends.
ghost use Rattle.std.specs.Prelude.{◌≡◌};
ghost use Rattle.sfm_due.specs.Status.{code_of};

/// How a call of the program ends. The process ends with its code.
#[derive(Clone, Copy, PartialEq, Eq)]
pub enum Status {
    /// The work was done, and what was due is written whole.
    Done,
    /// The checked answer is not a right one for its instance.
    Invalid,
    /// A text has a fault, which was named.
    Refused,
    /// A file could not be opened or read.
    ReadFault,
    /// What was due could not be written whole.
    WriteFault,
    /// Out of memory.
    Memory,
    /// The words are no command.
    Usage,
}

impl Status {
    /// The exit code of the process.
    pub fn code(&self) -> u8
        ensures { result ≡ code_of self.now }
    {
        match self {
            Status::Done => 0,
            Status::Invalid => 1,
            Status::Refused => 2,
            Status::ReadFault => 3,
            Status::WriteFault => 4,
            Status::Memory => 5,
            Status::Usage => 64,
        }
    }
}
