//! The bytes of the files that arguments name.

use crate::failure::{Failure, report_message};
use crate::path_text::{is_plain, push_path};
use std::alloc::{AllocError, Global};
use std::fs;
use std::io::{self, ErrorKind, Read};

/// The argument that stands for standard input.
pub const STANDARD_INPUT: &str = "-";

/// The bytes of a file that a run needs; `-` is standard input.
pub fn needed(rt: &HostRuntime, path: &str) -> Result<Vec<u8>, Failure> {
    match read(rt, path)? {
        Ok(bytes) => Ok(bytes),
        Err(error) => Err(unreadable(rt, path, &error)),
    }
}

/// The bytes of a file, or the reason why it can't be read; `-` is standard input.
pub fn read(rt: &HostRuntime, path: &str) -> Result<io::Result<Vec<u8>>, Failure> {
    if path == STANDARD_INPUT {
        readable(read_standard_input(rt))
    } else {
        readable(read_file(rt, path))
    }
}

fn read_file(rt: &HostRuntime, path: &str) -> io::Result<Vec<u8>> {
    if is_plain(path) {
        fs::read(rt, path)
    } else {
        Err(io::Error::from(ErrorKind::InvalidInput))
    }
}

fn read_standard_input(rt: &HostRuntime) -> io::Result<Vec<u8>> {
    let mut bytes = Vec::new(rt.alloc());
    rt.stdin().read_to_end(&mut bytes)?;
    Ok(bytes)
}

/// The result of a read, or the reason why it failed. An error for lack of memory ends the run.
pub fn readable<T: Drop>(read: io::Result<T>) -> Result<io::Result<T>, Failure> {
    match read {
        Ok(read) => Ok(Ok(read)),
        Err(error) if error.kind() == ErrorKind::OutOfMemory => Err(Failure::Memory),
        Err(error) => Ok(Err(error)),
    }
}

/// The failure of a path that can't be read, with the reason that the system gives.
pub fn unreadable(rt: &HostRuntime, path: &str, error: &io::Error) -> Failure {
    failed_at(rt.alloc(), path, "can't be read", error)
}

/// The failure of a path, with the action that failed and the reason that the system gives.
pub fn failed_at(alloc: Global, path: &str, what: &str, error: &io::Error) -> Failure {
    match line_of(alloc, path, what, error) {
        Ok(line) => Failure::Message(line),
        Err(AllocError) => Failure::Memory,
    }
}

fn line_of(alloc: Global, path: &str, what: &str, error: &io::Error) -> Result<String, AllocError> {
    let reason = format!(in alloc; "{error}")?;
    let mut line = String::new(alloc);
    push_path(&mut line, path)?;
    write!(line, ": {what}: {}", words_of(path, reason.as_str()))?;
    Ok(line)
}

/// The words of the reason why a path can't be opened, without the number of the error.
fn words_of<'r>(path: &str, reason: &'r str) -> &'r str {
    if !is_plain(path) {
        return "its path isn't UTF-8";
    }
    match reason.split_once(" (os error ") {
        Some((words, _number)) => words,
        None => reason,
    }
}

/// Reports that a path can't be read, with the reason.
pub fn report_unreadable(rt: &HostRuntime, path: &str, error: &io::Error) -> Result<(), Failure> {
    report_message(rt, unreadable(rt, path, error))
}
