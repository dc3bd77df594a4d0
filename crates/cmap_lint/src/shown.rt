//! The codes that a font shows, and the shown codes that a warning concerns.

use crate::ranges::ranges_apart;
use cmap_runs::runs::Range;
use std::alloc::{AllocError, Global};

/// The shown codes that a warning concerns.
#[derive(Drop)]
pub(crate) struct Concerned<'m> {
    /// All shown codes, in ascending order.
    shown: &'m [u32],
    /// The ranges of codes that the warning concerns, each with at least one shown code.
    ranges: Vec<Range>,
    /// Whether memory sufficed for all ranges.
    is_whole: bool,
}

impl<'m> Concerned<'m> {
    /// No ranges yet.
    pub(crate) fn new(alloc: Global, shown: &'m [u32]) -> Concerned<'m> {
        Concerned {
            shown,
            ranges: Vec::new(alloc),
            is_whole: true,
        }
    }

    /// Adds the codes of a range.
    pub(crate) fn add(&mut self, codes: Range) {
        if !shown_in(self.shown, codes).is_empty() && self.ranges.push(codes).is_err() {
            self.is_whole = false;
        }
    }

    /// Adds the codes of ranges.
    pub(crate) fn add_all(&mut self, ranges: &[Range]) {
        for range in ranges {
            self.add(*range);
        }
    }

    /// The shown codes of a range.
    pub(crate) fn shown_in(&self, codes: Range) -> &'m [u32] {
        shown_in(self.shown, codes)
    }

    /// The number of shown codes in the added ranges, and the lowest of them.
    pub(crate) fn finish(self, alloc: Global) -> Result<(usize, Option<u32>), AllocError> {
        if self.is_whole {
            Ok(counted(self.shown, &ranges_apart(alloc, self.ranges)?))
        } else {
            Err(AllocError)
        }
    }
}

/// The shown codes of a range.
fn shown_in(shown: &[u32], codes: Range) -> &[u32] {
    let before = shown.partition_point(|code| *code < codes.start);
    let until = shown.partition_point(|code| *code <= codes.end);
    shown.get(before..until).unwrap_or(&[])
}

/// The number of shown codes in ranges, and the lowest of them. The ranges are disjoint and in
/// order.
fn counted(shown: &[u32], ranges: &[Range]) -> (usize, Option<u32>) {
    let mut count: usize = 0;
    let mut first = None;
    for range in ranges {
        let codes = shown_in(shown, *range);
        count = count.saturating_add(codes.len());
        first = first.or(codes.first().copied());
    }
    (count, first)
}
