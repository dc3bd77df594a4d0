//! Differences between a bundle and a file that it was made from.

use cmap_io::digits::push_code;
use hayro_cmap::{Cid, CodeLength};
use std::alloc::AllocError;

/// The first difference between a bundle and a file.
#[derive(Clone, Copy)]
pub enum Difference {
    /// The bundle has no file of the name.
    Absent,
    /// The faults of the files that the file uses.
    Faults,
    Name,
    Collection,
    WritingMode,
    Codespaces,
    /// The names of the files that the file uses.
    Uses,
    /// The CID of a code of this length, with the CID in the file and the CID in the bundle.
    Cid {
        code: u32,
        len: CodeLength,
        of_file: Option<Cid>,
        of_bundle: Option<Cid>,
    },
    /// The declared CID of a code of this length, where a lookup gives the same CID in the file and
    /// in the bundle.
    DeclaredCid {
        code: u32,
        len: CodeLength,
    },
    /// The text of a code.
    Text(u32),
}

/// Adds the words for a difference.
pub fn push_difference(out: &mut String, difference: Difference) -> Result<(), AllocError> {
    match difference {
        Difference::Absent => out.push_str("the bundle has no file of this name"),
        Difference::Faults => out.push_str("the faults of the files that it uses differ"),
        Difference::Name => out.push_str("the CMapName differs"),
        Difference::Collection => out.push_str("the character collection differs"),
        Difference::WritingMode => out.push_str("the writing mode differs"),
        Difference::Codespaces => out.push_str("the codespace ranges differ"),
        Difference::Uses => out.push_str("the names of the files that it uses differ"),
        Difference::Text(code) => write!(out, "the text of the code {code:04X} differs"),
        Difference::DeclaredCid { code, len } => {
            out.push_str("the declared CID of <")?;
            push_code(out, len.count(), code)?;
            out.push_str("> differs")
        }
        Difference::Cid {
            code,
            len,
            of_file,
            of_bundle,
        } => {
            out.push_str("the CID of <")?;
            push_code(out, len.count(), code)?;
            out.push_str("> is ")?;
            push_cid(out, of_file)?;
            out.push_str(" in the file and ")?;
            push_cid(out, of_bundle)?;
            out.push_str(" in the bundle")
        }
    }
}

fn push_cid(out: &mut String, cid: Option<Cid>) -> Result<(), AllocError> {
    match cid {
        Some(cid) => write!(out, "{cid}"),
        None => out.push('-'),
    }
}
