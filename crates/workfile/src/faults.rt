// What can be wrong with a line of a work file.
ghost use Rattle.std.specs.Prelude.{◌≡◌};
ghost use Rattle.workfile.specs.declared.faults.Fault.TheVariants.{Memory};
ghost use Rattle.workfile.specs.Messages.{fault_text};

use std::alloc::{AllocError, AllocFailed};
use std::error::Error;
use std::{fmt, io};

#[derive(Debug, Drop)]
pub enum Fault {
    // The first word is no command.
    NoCommand,
    // The line ends before its command has all its words.
    MissingWord,
    // Words are left over.
    ExtraWord,
    // A path or a label is no text, so it could be neither opened nor printed back.
    NotText,
    // What follows `hex:` is no even number of hex digits.
    NotHex,
    Unreadable(io::Error),
    Memory,
}

// By hand, since the clauses of `commands` name the fault, and what thiserror derives for `#[from]` has no contract.
impl From<AllocError> for Fault {
    ghost from_gives = { λ _ y. y ≡ Memory };

    fn from(_e: AllocError) -> Fault {
        Fault::Memory
    }
}

// Besides, since a collection fails by an error of its own.
impl<T: Drop> From<AllocFailed<T>> for Fault {
    ghost from_gives = { λ _ y. y ≡ Memory };

    fn from(_e: AllocFailed<T>) -> Fault {
        Fault::Memory
    }
}

// By hand, since `flaw_text` is proved of it, and the Display that thiserror derives states no output.
impl fmt::Display for Fault {
    ghost output = { fault_text };

    fn fmt<W: fmt::Write>(&self, f: &mut fmt::Formatter<W>) -> fmt::Result {
        match self {
            Fault::NoCommand => f.write_str("no such command"),
            Fault::MissingWord => f.write_str("a word is missing"),
            Fault::ExtraWord => f.write_str("a word too many"),
            Fault::NotText => f.write_str("a path or a label that is not UTF-8"),
            Fault::NotHex => f.write_str("hex: takes an even number of hex digits"),
            Fault::Unreadable(e) => write!(f, "the file cannot be read: {e}"),
            Fault::Memory => f.write_str("not enough memory"),
        }
    }
}

impl Error for Fault {}
