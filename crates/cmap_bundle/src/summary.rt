//! The last line of `cmap bundle`.

use crate::contents::{Held, absent_of, contents_of};
use cmap_io::escape::{push_name, push_text};
use hayro_cmap::Bundle;
use std::alloc::{AllocError, Global};

/// Adds the numbers of files and bytes of a bundle of these bytes, the names of the files that are texts, the number
/// of names without a file, and the number of files in folders that were passed over.
pub fn push_summary(
    alloc: Global,
    out: &mut String,
    path: &str,
    bytes: &[u8],
    passed_over: usize,
) -> Result<(), AllocError> {
    push_text(out, path)?;
    match Bundle::parse(alloc, bytes)? {
        Some(bundle) => push_numbers(alloc, out, &bundle, bytes.len(), passed_over),
        None => out.push_str(": invalid bundle"),
    }
}

/// Adds the numbers of a bundle of this many bytes.
fn push_numbers(
    alloc: Global,
    out: &mut String,
    bundle: &Bundle<'_>,
    byte_count: usize,
    passed_over: usize,
) -> Result<(), AllocError> {
    let files = contents_of(alloc, bundle)?;
    push_files(out, &files, byte_count)?;
    let absent = absent_of(&files);
    push_any(out, absent, "name without a file", "names without a file")?;
    push_any(
        out,
        passed_over,
        "file of another name",
        "files of other names",
    )
}

/// Adds the numbers of files and bytes, and the names of the files that are texts.
fn push_files(out: &mut String, files: &[Held<'_>], bytes: usize) -> Result<(), AllocError> {
    push_count(out, ": ", files.len(), "file", "files")?;
    push_count(out, ", ", bytes, "byte", "bytes")?;
    push_texts(out, files)
}

/// Adds a count with its unit, unless the count is 0.
fn push_any(out: &mut String, count: usize, one: &str, more: &str) -> Result<(), AllocError> {
    match count {
        0 => Ok(()),
        _ => push_count(out, "; ", count, one, more),
    }
}

/// Adds the names of the files that are texts, if there are any.
fn push_texts(out: &mut String, files: &[Held<'_>]) -> Result<(), AllocError> {
    let mut separator = "; as texts: ";
    for file in files {
        if !file.is_binary() {
            out.push_str(separator)?;
            push_name(out, file.name)?;
            separator = ", ";
        }
    }
    Ok(())
}

fn push_count(
    out: &mut String,
    separator: &str,
    count: usize,
    one: &str,
    more: &str,
) -> Result<(), AllocError> {
    let unit = if count == 1 { one } else { more };
    write!(out, "{separator}{count} {unit}")
}
