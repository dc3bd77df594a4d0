//! The codespace ranges that only one of two maps has.

use crate::diff::{DiffLine, Side};
use crate::list::line::{Given, Line};
use hayro_cmap::runs::Range;
use hayro_cmap::{CMap, Codespace};
use std::alloc::{AllocError, Global};

/// Adds a line for each range that a layer of one map has and no layer of the other map has. The ranges of each map
/// are sorted by the lengths of their codes, then by their first codes.
pub(crate) fn add_codespaces(
    alloc: Global,
    lines: &mut Vec<DiffLine>,
    left: &CMap,
    right: &CMap,
) -> Result<(), AllocError> {
    let (left, right) = (spaces_of(alloc, left)?, spaces_of(alloc, right)?);
    add_absent(lines, Side::Left, &left, &right)?;
    add_absent(lines, Side::Right, &right, &left)
}

/// The ranges of all layers, sorted, each once.
fn spaces_of(alloc: Global, map: &CMap) -> Result<Vec<Codespace>, AllocError> {
    let mut spaces = Vec::new(alloc);
    for layer in map.layers().as_slice() {
        spaces.extend_from_slice(layer.codespaces())?;
    }
    spaces.sort_unstable_by_key(|space| order_of(space));
    spaces.dedup_by_key(|space| order_of(space));
    Ok(spaces)
}

fn order_of(space: &Codespace) -> (u8, u32, u32) {
    (space.len.count(), space.low, space.high)
}

/// Adds the ranges that aren't among the others.
fn add_absent(
    lines: &mut Vec<DiffLine>,
    side: Side,
    spaces: &[Codespace],
    others: &[Codespace],
) -> Result<(), AllocError> {
    for space in spaces {
        if !has(others, space) {
            lines.push(line_of(side, space))?;
        }
    }
    Ok(())
}

/// Whether a range is among sorted ranges.
fn has(spaces: &[Codespace], space: &Codespace) -> bool {
    let key = order_of(space);
    let before = spaces.partition_point(|other| order_of(other) < key);
    match spaces.get(before) {
        Some(found) => order_of(found) == key,
        None => false,
    }
}

fn line_of(side: Side, space: &Codespace) -> DiffLine {
    DiffLine {
        side,
        line: Line {
            byte_len: space.len.count(),
            range: Range {
                start: space.low,
                end: space.high,
            },
            given: Given::Codespace,
        },
    }
}
