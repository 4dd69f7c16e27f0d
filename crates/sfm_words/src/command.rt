// What the program can be asked for, and why the words may ask for nothing.
ghost use Rattle.std.specs.Prelude.{◌≡◌};
ghost use Rattle.clap.specs.{Words.{kind_of}, declared.error.kind.ErrorKind.TheVariants.{OutOfMemory}};
ghost use Rattle.sfm_words.specs.{Command.{IsToldAs}, declared.command.Refusal.TheVariants.{Memory}};

use clap::error::ErrorKind;
use std::alloc::AllocError;

/// What the program is asked for.
#[derive(Clone, Copy, PartialEq, Eq)]
pub enum Command<'a> {
    /// To solve the instance in a file.
    Solve {
        file: &'a str,
    },
    /// To check the answer in a second file against the instance in the first.
    Check {
        file: &'a str,
        answer: &'a str,
    },
    /// A demonstration, on the instance of a seed.
    Demo {
        seed: u64,
    },
    /// To weigh the instance in a file by the sizes in a second.
    Weigh {
        file: &'a str,
        sizes: &'a str,
    },
    /// To check the answer in a third file against the instance in the first and the sizes in the second.
    Weighed {
        file: &'a str,
        sizes: &'a str,
        answer: &'a str,
    },
    /// To find the best set of the instance in a file among those that hold what the second pins in and nothing that it pins out.
    Ask {
        file: &'a str,
        pins: &'a str,
    },
    /// To find the most level base of the instance in a file.
    Level {
        file: &'a str,
    },
    /// To solve the instance in a file with the edits in a second.
    Edit {
        file: &'a str,
        edits: &'a str,
    },
    /// To find a greatest common vector of the instances in two files.
    Meet {
        left: &'a str,
        right: &'a str,
    },
    /// To check the text in a third file as one of a greatest common vector of the instances in the first two.
    Met {
        left: &'a str,
        right: &'a str,
        answer: &'a str,
    },
}

/// Why no command was read.
#[derive(Clone, Copy, PartialEq, Eq, Drop)]
pub enum Refusal {
    /// The words ask for no command, or for help.
    Usage,
    /// Out of memory.
    Memory,
}

impl From<AllocError> for Refusal {
    ghost from_gives = { λ _ refusal. refusal ≡ Memory };

    fn from(_error: AllocError) -> Refusal {
        Refusal::Memory
    }
}

impl From<clap::Error> for Refusal {
    ghost from_gives = { λ error refusal. IsToldAs (kind_of error) refusal };

    fn from(error: clap::Error) -> Refusal {
        match error.kind() {
            ErrorKind::OutOfMemory => Refusal::Memory,
            _ => Refusal::Usage,
        }
    }
}
