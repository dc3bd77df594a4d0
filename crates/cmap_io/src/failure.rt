//! Messages on standard error, and the reasons for which a run ends early. Arguments and paths are
//! untrusted, so they are escaped.

ghost use Rattle.std.specs.Prelude.{◌≡◌, Err};
ghost use Rattle.cmap_io.specs.Failures.{IsMessage, status_of};

use crate::path_text::push_path;
use crate::status::{FAILED, READER_GONE, REFUSED};
use std::alloc::{AllocError, AllocFailed, Global};
use std::io::{self, ErrorKind};

/// The reason for which a run ends early.
#[derive(Drop)]
pub enum Failure {
    /// The reader of the output has gone away.
    ReaderGone,
    /// The file that the run needs is refused. The reason was already reported.
    Refused,
    /// A read or a write failed.
    Io(io::Error),
    Memory,
    /// A message about an argument or a file.
    Message(String),
}

impl Failure {
    /// The status of the run.
    pub fn status(&self) -> u8
        ensures { result ≡ status_of self.now }
    {
        match self {
            Failure::ReaderGone => READER_GONE,
            Failure::Refused => REFUSED,
            Failure::Io(_) | Failure::Memory | Failure::Message(_) => FAILED,
        }
    }
}

impl From<io::Error> for Failure {
    fn from(error: io::Error) -> Failure {
        match error.kind() {
            ErrorKind::BrokenPipe => Failure::ReaderGone,
            ErrorKind::OutOfMemory => Failure::Memory,
            _ => Failure::Io(error),
        }
    }
}

impl From<AllocError> for Failure {
    fn from(_error: AllocError) -> Failure {
        Failure::Memory
    }
}

impl<T: Drop> From<AllocFailed<T>> for Failure {
    fn from(_error: AllocFailed<T>) -> Failure {
        Failure::Memory
    }
}

/// The failure of an argument or a path, with a description of what is wrong.
pub fn fault(rt: &HostRuntime, argument: &str, wrong: &str) -> Failure {
    match line_of(rt.alloc(), argument, wrong) {
        Ok(line) => Failure::Message(line),
        Err(AllocError) => Failure::Memory,
    }
}

fn line_of(alloc: Global, argument: &str, wrong: &str) -> Result<String, AllocError> {
    let mut line = String::new(alloc);
    push_path(&mut line, argument)?;
    write!(line, ": {wrong}")?;
    Ok(line)
}

/// Reports the reason for which a run ends. A reader that has gone away isn't a fault, and a refusal
/// was already reported.
pub fn report(rt: &HostRuntime, failure: &Failure) -> io::Result<()> {
    match failure {
        Failure::ReaderGone | Failure::Refused => Ok(()),
        Failure::Io(error) => eprintln!(rt; "cmap: {error}"),
        Failure::Memory => eprintln!(rt; "cmap: {}", AllocError),
        Failure::Message(line) => eprintln!(rt; "cmap: {line}"),
    }
}

/// Reports a failure with a message, after which the run goes on. Any other failure is returned.
pub fn report_message(rt: &HostRuntime, failure: Failure) -> Result<(), Failure>
    ensures others { ¬ (IsMessage failure) → result ≡ Err failure }
{
    match failure {
        Failure::Message(line) => {
            eprintln!(rt; "cmap: {line}")?;
            Ok(())
        }
        other => Err(other),
    }
}
