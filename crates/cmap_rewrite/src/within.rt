//! Ranges of texts that lie within codespace ranges, or outside of them. MuPDF drops a range if a single code of the
//! range lies in no codespace range. MuPDF compares the numbers of codes, and not their lengths.

use cmap_values::declarations::{BfRange, Codespace};
use cmap_values::range::Range;
use cmap_values::units::Units;
use std::alloc::{AllocError, Global};

/// These texts, each range cut where its codes enter or leave a codespace range.
pub(crate) fn cut_texts(
    alloc: Global,
    texts: &[BfRange],
    spaces: &[Codespace],
) -> Result<Vec<BfRange>, AllocError> {
    let edges = edges_of(alloc, spaces)?;
    let mut cut = Vec::with_capacity(alloc, texts.len())?;
    for text in texts {
        if has_all_texts(text) {
            add_parts(alloc, &mut cut, text, &edges)?;
        } else {
            cut.push(text.clone(alloc)?)?;
        }
    }
    Ok(cut)
}

/// The first codes of codespace ranges, and the codes after the last codes, in ascending order.
fn edges_of(alloc: Global, spaces: &[Codespace]) -> Result<Vec<u32>, AllocError> {
    let mut edges = Vec::new(alloc);
    for space in spaces {
        edges.push(space.low)?;
        if let Some(after) = space.high.checked_add(1) {
            edges.push(after)?;
        }
    }
    edges.sort()?;
    Ok(edges)
}

/// Whether all codes of the range have a text: the last unit, counted up from code to code, stays within 16 bits.
fn has_all_texts(text: &BfRange) -> bool {
    let Some(last) = text.units.as_slice().last() else {
        return false;
    };
    match text.range.end.checked_sub(text.range.start) {
        Some(further) => further <= u32::from(u16::MAX - *last),
        None => false,
    }
}

/// Adds the parts of a range of texts, which begin at the edges within it.
fn add_parts(
    alloc: Global,
    cut: &mut Vec<BfRange>,
    text: &BfRange,
    edges: &[u32],
) -> Result<(), AllocError> {
    let Range { start, end } = text.range;
    let mut first = start;
    let passed = edges.partition_point(|edge| *edge <= start);
    for edge in &edges[passed..] {
        if *edge > end {
            break;
        }
        if *edge > first {
            let last = *edge - 1;
            cut.push(part_of(alloc, text, first, last)?)?;
            first = *edge;
        }
    }
    cut.push(part_of(alloc, text, first, end)?)?;
    Ok(())
}

/// The declaration of the texts of codes from `first`, which has a text, to `last`.
pub(crate) fn part_of(
    alloc: Global,
    text: &BfRange,
    first: u32,
    last: u32,
) -> Result<BfRange, AllocError> {
    let mut units = Vec::from_slice(alloc, text.units.as_slice())?;
    let further = u16::try_from(first.wrapping_sub(text.range.start)).unwrap_or(0);
    if let Some(unit) = units.last_mut() {
        *unit = unit.wrapping_add(further);
    }
    Ok(BfRange {
        range: Range {
            start: first,
            end: last,
        },
        units: Units::from_slice(alloc, &units)?,
    })
}
