//! The statuses of a run.

/// The status if all files are accepted.
pub const ACCEPTED: u8 = 0;

/// The status if a file is refused, or something that was asked for doesn't exist: a name, a code, a text, a string,
/// or a place in a bundle.
pub const REFUSED: u8 = 1;

/// The status if two files differ.
pub const DIFFERENT: u8 = 1;

/// The status if an argument is wrong, or a read or a write fails.
pub const FAILED: u8 = 2;

/// The status if the reader of the output has gone away: the status that shells give to a program that SIGPIPE ends.
pub const READER_GONE: u8 = 141;
