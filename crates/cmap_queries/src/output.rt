//! Writing the answers of a run, or its failure.

use crate::failure::Failure;
use std::io::{self, Write};

/// Writes the lines, and flushes the output.
pub fn send<W: Write>(out: &mut W, lines: &str) -> io::Result<()> {
    out.write_all(lines.as_bytes())?;
    out.flush()
}

/// Writes the line of a failure, and returns its exit status, even if the line can't be written.
pub fn report<E: Write>(failure: Failure, err: &mut E) -> u8 {
    let _ = writeln!(err, "{failure}");
    failure.status()
}
