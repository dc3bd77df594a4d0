//! Why a file gives no map.

use cmap_values::fault::Stop;
use std::fmt::{self, Display, Formatter, Write};

/// Why a file gives no map.
#[derive(Clone, Copy, Debug, PartialEq, Eq)]
pub enum Cause {
    /// The file is outside the grammar.
    Malformed(Stop),
    /// No file has the name.
    NoFile,
    /// The file would be the seventeenth in a chain.
    ChainLength,
    /// The file has more bytes than are left of the budget.
    OverBudget,
}

impl Display for Cause {
    fn fmt<W: Write>(&self, f: &mut Formatter<W>) -> fmt::Result {
        let text = match self {
            Cause::Malformed(stop) => {
                return write!(f, "byte {}: {}", stop.offset, stop.reason);
            }
            Cause::NoFile => "no file has this name",
            Cause::ChainLength => "more than 16 files in a chain",
            Cause::OverBudget => "the files have more bytes than the budget",
        };
        f.write_str(text)
    }
}

/// A file at fault, and why.
#[derive(Debug, Drop)]
pub struct Refusal<'a> {
    /// The names that lead from the top file to the file at fault. The top file uses the first
    /// name, and each named file uses the next name. The top file itself has no name.
    pub names: Vec<&'a [u8]>,
    pub cause: Cause,
}
