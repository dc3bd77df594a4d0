//! The lines of `cmap diff`: the differences between two maps in metadata, and in the values of codes.

mod codespaces;
pub mod metadata;

use self::codespaces::add_codespaces;
use crate::list::line::{Given, Line, Place, add_texts_of, push_json, push_line};
use cmap_edit::diff::{CidDifference, TextDifference, cid_differences, text_differences};
use hayro_cmap::runs::Range;
use hayro_cmap::{BfRange, CMap, Cids, CodeLength, Layer};
use std::alloc::{AllocError, Global};

/// One of two maps that are compared.
#[derive(Clone, Copy)]
pub enum Side {
    /// The first map.
    Left,
    /// The second map.
    Right,
}

impl Side {
    /// The word for the side in an object.
    pub(crate) fn word(self) -> &'static str {
        match self {
            Side::Left => "left",
            Side::Right => "right",
        }
    }

    /// The mark at the start of the side's lines.
    pub(crate) fn mark(self) -> &'static str {
        match self {
            Side::Left => "- ",
            Side::Right => "+ ",
        }
    }
}

/// The values of consecutive codes in one of the maps, where the other map differs.
#[derive(Drop)]
pub struct DiffLine {
    side: Side,
    line: Line,
}

/// The lines of the codes in which the maps differ: first the codespace ranges, then the CIDs for each length of codes,
/// if a map declares CIDs or notdefs, then the texts. For each stretch of codes, the line of the first map comes first.
/// A map in which the codes have no value has no line.
pub fn diff_lines(alloc: Global, left: &CMap, right: &CMap) -> Result<Vec<DiffLine>, AllocError> {
    let mut lines = Vec::new(alloc);
    add_codespaces(alloc, &mut lines, left, right)?;
    if declares_cids(left) || declares_cids(right) {
        for len in CodeLength::ALL {
            add_cids(alloc, &mut lines, left, right, *len)?;
        }
    }
    for difference in &text_differences(alloc, left.layers(), right.layers())? {
        add_text_difference(alloc, &mut lines, left, right, difference)?;
    }
    Ok(lines)
}

/// Whether a map has a declaration of CIDs or notdefs.
fn declares_cids(map: &CMap) -> bool {
    map.layers().as_slice().iter().any(has_cids)
}

/// Whether a layer has a declaration of CIDs or notdefs.
fn has_cids(layer: &Layer) -> bool {
    CodeLength::ALL.iter().any(|len| layer.cids(*len).decl_count() > 0
        || layer.notdefs(*len).decl_count() > 0)
}

/// Adds the CIDs of codes of a length.
fn add_cids(
    alloc: Global,
    lines: &mut Vec<DiffLine>,
    left: &CMap,
    right: &CMap,
    len: CodeLength,
) -> Result<(), AllocError> {
    for difference in &cid_differences(alloc, left.layers(), right.layers(), len)? {
        let CidDifference { range, left, right } = *difference;
        add_cid_line(lines, Side::Left, len, range, left)?;
        add_cid_line(lines, Side::Right, len, range, right)?;
    }
    Ok(())
}

/// Adds the CIDs of codes in one of the maps, if they have any.
fn add_cid_line(
    lines: &mut Vec<DiffLine>,
    side: Side,
    len: CodeLength,
    range: Range,
    cids: Cids,
) -> Result<(), AllocError> {
    let given = match cids {
        Cids::Absent => return Ok(()),
        Cids::Same(cid) => Given::Notdef(cid),
        Cids::CountOn(cid) => Given::Cids(cid),
    };
    let byte_len = len.count();
    let line = Line {
        byte_len,
        range,
        given,
    };
    lines.push(DiffLine { side, line })?;
    Ok(())
}

/// Adds the texts of codes in both maps.
fn add_text_difference(
    alloc: Global,
    lines: &mut Vec<DiffLine>,
    left: &CMap,
    right: &CMap,
    difference: &TextDifference<'_>,
) -> Result<(), AllocError> {
    let range = difference.range;
    add_text_line(alloc, lines, Side::Left, left, difference.left, range)?;
    add_text_line(alloc, lines, Side::Right, right, difference.right, range)
}

/// Adds the texts of codes in one of the maps, if a declaration decides them.
fn add_text_line(
    alloc: Global,
    lines: &mut Vec<DiffLine>,
    side: Side,
    map: &CMap,
    declaration: Option<&BfRange>,
    range: Range,
) -> Result<(), AllocError> {
    let Some(declaration) = declaration else {
        return Ok(());
    };
    let mut texts = Vec::new(alloc);
    add_texts_of(alloc, &mut texts, map, declaration, range)?;
    for line in texts {
        lines.push(DiffLine { side, line })?;
    }
    Ok(())
}

/// Adds a line, such as `- cid <8140> <817E> 633`, and ends it.
pub fn push_diff_line(out: &mut String, line: &DiffLine) -> Result<(), AllocError> {
    out.push_str(line.side.mark())?;
    push_line(out, &line.line)
}

/// Adds the object of a line, and ends the line.
pub fn push_diff_json(alloc: Global, out: &mut String, line: DiffLine) -> Result<(), AllocError> {
    push_json(alloc, out, line.line, Place::Side(line.side))
}
