//! Ranges of codes as sets.

use cmap_runs::runs::Range;
use std::alloc::{AllocError, Global};

/// The number of codes of a range.
pub(crate) fn code_count(range: Range) -> u64 {
    match range.end.checked_sub(range.start) {
        Some(further) => u64::from(further) + 1,
        None => 0,
    }
}

/// The codes that lie in both ranges.
pub(crate) fn common(one: Range, other: Range) -> Range {
    Range {
        start: one.start.max(other.start),
        end: one.end.min(other.end),
    }
}

/// Adds a range, unless it has no code.
pub(crate) fn push_range(ranges: &mut Vec<Range>, range: Range) -> Result<(), AllocError> {
    if range.start <= range.end {
        ranges.push(range)?;
    }
    Ok(())
}

/// The codes of ranges as disjoint ranges, in order. None of the given ranges is empty.
pub(crate) fn ranges_apart(
    alloc: Global,
    mut ranges: Vec<Range>,
) -> Result<Vec<Range>, AllocError> {
    sort(&mut ranges)?;
    let mut apart = Vec::new(alloc);
    for range in &ranges {
        join(&mut apart, *range)?;
    }
    Ok(apart)
}

/// Sorts ranges by their first codes.
pub(crate) fn sort(ranges: &mut Vec<Range>) -> Result<(), AllocError> {
    ranges.sort_by_key(|range| range.start)
}

/// Adds a range to disjoint ranges, none of which starts after it.
pub(crate) fn join(apart: &mut Vec<Range>, range: Range) -> Result<(), AllocError> {
    if let Some(last) = apart.last_mut() {
        if range.start <= last.end.saturating_add(1) {
            last.end = last.end.max(range.end);
            return Ok(());
        }
    }
    apart.push(range)?;
    Ok(())
}
