//! The declared CIDs and the texts of codes over all layers, run by run.

use crate::list::line::{Given, Line, add_texts_of};
use cmap_queries::code_lengths::has_codes;
use cmap_unicode::declared_stretch;
use hayro_cmap::runs::Range;
use hayro_cmap::{CMap, CidStretch, Cids, CodeLength, TextStretch};
use std::alloc::{AllocError, Global};

/// The lines of the codes of a map: first the CIDs, for each length that codes of the map have, then the texts.
pub fn effective_lines(alloc: Global, map: &CMap) -> Result<Vec<Line>, AllocError> {
    let mut lines = Vec::new(alloc);
    for len in CodeLength::ALL {
        if has_codes(map.layers(), *len) {
            add_cids(&mut lines, map, *len)?;
        }
    }
    add_texts(alloc, &mut lines, map)?;
    Ok(lines)
}

/// Adds the CIDs of the codes of a length, in runs that are as long as possible.
fn add_cids(lines: &mut Vec<Line>, map: &CMap, len: CodeLength) -> Result<(), AllocError> {
    let end = u64::from(len.last_code());
    let mut next: u64 = 0;
    while next <= end {
        let first = next as u32;
        let stretch = declared_stretch(map.layers(), first, len);
        add_stretch(lines, stretch, first, len)?;
        next = u64::from(stretch.last) + 1;
    }
    Ok(())
}

/// Adds the CIDs of a stretch of codes from `first` on, if they have any.
fn add_stretch(
    lines: &mut Vec<Line>,
    stretch: CidStretch,
    first: u32,
    len: CodeLength,
) -> Result<(), AllocError> {
    let given = match stretch.cids {
        Cids::Absent => return Ok(()),
        Cids::Same(cid) => Given::Notdef(cid),
        Cids::CountOn(cid) => Given::Cids(cid),
    };
    let line = Line {
        byte_len: len.count(),
        range: Range {
            start: first,
            end: stretch.last.min(len.last_code()),
        },
        given,
    };
    add_line(lines, line)
}

/// Adds a line, or extends the last line if this one continues it.
fn add_line(lines: &mut Vec<Line>, line: Line) -> Result<(), AllocError> {
    if let Some(last) = lines.last_mut() {
        if last.is_continued_by(&line) {
            last.range.end = line.range.end;
            return Ok(());
        }
    }
    lines.push(line)?;
    Ok(())
}

/// Adds the texts of codes, declaration by declaration.
fn add_texts(alloc: Global, lines: &mut Vec<Line>, map: &CMap) -> Result<(), AllocError> {
    let end = u64::from(u32::MAX);
    let mut next: u64 = 0;
    while next <= end {
        let first = next as u32;
        let stretch = map.layers().text_stretch(first);
        add_text(alloc, lines, map, stretch, first)?;
        next = u64::from(stretch.last) + 1;
    }
    Ok(())
}

/// Adds the texts of a stretch of codes from `first` on, if they have a declaration.
fn add_text(
    alloc: Global,
    lines: &mut Vec<Line>,
    map: &CMap,
    stretch: TextStretch<'_>,
    first: u32,
) -> Result<(), AllocError> {
    let range = Range {
        start: first,
        end: stretch.last,
    };
    match stretch.declaration {
        Some(declaration) => add_texts_of(alloc, lines, map, declaration, range),
        None => Ok(()),
    }
}
