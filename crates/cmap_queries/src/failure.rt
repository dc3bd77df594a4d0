//! The causes for which a run gives no answers.

ghost use Rattle.std.specs.Prelude.{◌≡◌};
ghost use Rattle.cmap_queries.specs.Failures.{failure_of};
ghost use Rattle.cmap_queries.specs.declared.failure.Failure.TheVariants.{NoMemory};

use hayro_cmap::ParseError;
use std::alloc::{AllocError, AllocFailed};
use std::fmt;
use std::io::{self, ErrorKind};

/// The cause for which a run gives no answers. Its number is the exit status, and its text is the line on the standard
/// error.
#[derive(Clone, Copy)]
pub enum Failure {
    /// The input isn't a CMap file, or uses a file that is missing, or doesn't begin with a bundle of the given
    /// length.
    Refused = 1,
    /// The arguments are wrong.
    Usage = 2,
    /// Out of memory: an allocation failed.
    NoMemory = 3,
    /// The arguments or the input could not be read, or the answers could not be written.
    Unreadable = 4,
    /// The files have more bytes than the budget.
    OverBudget = 5,
}

impl Failure {
    /// The exit status.
    pub fn status(self) -> u8 {
        self as u8
    }
}

impl fmt::Display for Failure {
    fn fmt<W: fmt::Write>(&self, f: &mut fmt::Formatter<W>) -> fmt::Result {
        f.write_str(match self {
            Failure::Refused => "refused",
            Failure::Usage => "usage",
            Failure::NoMemory => "no memory",
            Failure::Unreadable => "unreadable",
            Failure::OverBudget => "over budget",
        })
    }
}

impl From<AllocError> for Failure {
    ghost from_gives = { λ _ failure. failure ≡ NoMemory };

    fn from(_error: AllocError) -> Failure {
        Failure::NoMemory
    }
}

impl<T: Drop> From<AllocFailed<T>> for Failure {
    ghost from_gives = { λ _ failure. failure ≡ NoMemory };

    fn from(_error: AllocFailed<T>) -> Failure {
        Failure::NoMemory
    }
}

impl From<ParseError> for Failure {
    ghost from_gives = { λ error failure. failure ≡ failure_of error };

    fn from(error: ParseError) -> Failure {
        match error {
            ParseError::Memory => Failure::NoMemory,
            ParseError::OverBudget => Failure::OverBudget,
        }
    }
}

impl From<io::Error> for Failure {
    fn from(error: io::Error) -> Failure {
        match error.kind() {
            ErrorKind::OutOfMemory => Failure::NoMemory,
            _ => Failure::Unreadable,
        }
    }
}
