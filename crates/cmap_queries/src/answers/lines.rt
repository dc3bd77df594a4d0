//! The lines that answer queries.

use crate::query::{Asked, Query};
use hayro_cmap::{BfString, CMap};
use std::alloc::{AllocError, Global};

/// The lines that answer the queries, one for each.
pub(crate) fn lines_of(
    alloc: Global,
    map: &CMap,
    queries: &[Query<'_>],
) -> Result<String, AllocError> {
    let mut lines = String::new(alloc);
    for query in queries {
        match query.asked {
            Asked::Cid { byte_len } => write_cid(query, byte_len, map, &mut lines),
            Asked::Text => write_text(alloc, query, map, &mut lines),
        }?;
    }
    Ok(lines)
}

fn write_cid(
    query: &Query<'_>,
    byte_len: u8,
    map: &CMap,
    lines: &mut String,
) -> Result<(), AllocError> {
    write!(lines, "cid {byte_len}:{}", query.digits)?;
    match map.lookup_cid_code(query.code, byte_len) {
        Some(cid) => writeln!(lines, " {cid}"),
        None => lines.push_str(" none\n"),
    }
}

fn write_text(
    alloc: Global,
    query: &Query<'_>,
    map: &CMap,
    lines: &mut String,
) -> Result<(), AllocError> {
    write!(lines, "bf {}", query.digits)?;
    write_text_alone(alloc, query.code, map, lines)?;
    lines.push('\n')
}

fn write_text_alone(
    alloc: Global,
    code: u32,
    map: &CMap,
    lines: &mut String,
) -> Result<(), AllocError> {
    match map.lookup_bf_string(alloc, code)? {
        Some(BfString::Char(character)) => write_character(character, lines),
        Some(BfString::String(text)) => write_characters(text.as_str(), lines),
        None => lines.push_str(" none"),
    }
}

/// Adds the characters of a text to `lines`.
fn write_characters(text: &str, lines: &mut String) -> Result<(), AllocError> {
    for character in text.chars() {
        write_character(character, lines)?;
    }
    Ok(())
}

/// Adds a character to `lines` by its number, in four hexadecimal digits or more.
fn write_character(character: char, lines: &mut String) -> Result<(), AllocError> {
    write!(lines, " U+{:04X}", u32::from(character))
}
