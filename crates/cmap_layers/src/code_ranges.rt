//! Codes as ranges, each as long as possible.

ghost use Rattle.std.specs.Prelude.{◌≡◌, ◌-◌, ◌<◌, ℕ, MatchResult, length, slice_get, true};
ghost use Rattle.cmap_layers.specs.CodeRanges.{goes_on, joined};

use cmap_values::range::Range;
use std::alloc::AllocError;

/// Adds a range at the end. If the range begins just after the last one, the two are joined. If memory
/// runs out, the ranges stay as they were.
pub fn add_range(ranges: &mut Vec<Range>, range: Range) -> Result<(), AllocError>
    ensures { MatchResult result (λ _. ranges.new.items ≡ joined ranges.old.items range)
        (λ _. ranges.new.items ≡ ranges.old.items) }
{
    if is_continued_by(ranges, range.start) {
        let last = ranges.len() - 1;
        ranges[last].end = range.end;
        return Ok(());
    }
    ranges.push(range)?;
    Ok(())
}

/// Whether a range that begins at `start` begins just after the last one.
fn is_continued_by(ranges: &[Range], start: u32) -> bool
    ensures answer { (end : ℕ) → result ≡ goes_on (slice_get ranges.now (length ranges.now - 1))
        (record { start = start; end = end }) }
    ensures some { result ≡ true → 0 < length ranges.now }
{
    match ranges.last() {
        Some(last) => start > 0 && last.end == start - 1,
        None => false,
    }
}
