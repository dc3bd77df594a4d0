//! Columns of the segments of a binary file, which encode the codes of the entries.

ghost use Rattle.std.specs.Prelude.{◌≡◌, ◌+◌, ◌<◌, ◌≤◌, ◌^◌, IfOk, MatchOption, option_map};
ghost use Rattle.cmap_binary.specs.BitQueues.{bits_ahead};
ghost use Rattle.cmap_binary.specs.BinaryEntries.{SymbolAt};
ghost use Rattle.cmap_binary.specs.EntryByEntry.{ColumnsAfter, ColumnsAt, CountsAt, SpanAt, WidthAt};
ghost use Rattle.cmap_binary.specs.BundleSeen.{tables_seen};
ghost use Rattle.cmap_binary.specs.ColumnsSeen.{columns_seen, shape_seen, span_seen};
ghost use Rattle.cmap_binary.specs.BinarySeen.{ReadsOr};
ghost use Rattle.cmap_binary.specs.WrongSegments.{WrongSpan};
ghost use Rattle.cmap_values.specs.Outcomes.{Finds};

use crate::Tables;
use crate::bit_queue::BitQueue;
use crate::pieces::take_sized;
use crate::prefix::{PrefixTable, take_symbol};
use cmap_values::fault::{Fault, Reason, Segment};
use cmap_values::range::Range;

/// Whether the entries of a segment are ranges, or single codes.
#[derive(Clone, Copy)]
pub(crate) enum Shape {
    Ranges,
    Singles,
}

/// The columns of a segment, from the next entry on.
#[derive(Drop)]
pub(crate) struct Columns<'b> {
    /// For each entry, the number of codes that it skips after the end of the entry before.
    deltas: BitQueue<'b>,
    /// For each entry, the number of its codes minus two, if the entries are ranges.
    pub(crate) counts: Option<BitQueue<'b>>,
    /// The first code after the entry before.
    base: u64,
}

/// The columns that the text begins with.
pub(crate) fn take_columns<'b>(text: &mut &'b [u8], shape: Shape) -> Option<Columns<'b>>
    ensures { Finds (ColumnsAt (shape_seen shape) text.old.now)
        (λ columns. (columns_seen columns, text.new.now)) result }
{
    match take_sized(text) {
        Some(deltas) => take_others(text, deltas, shape),
        None => None,
    }
}

/// The columns of a segment with these deltas; the text begins after the column of the deltas.
fn take_others<'b>(text: &mut &'b [u8], deltas: &'b [u8], shape: Shape) -> Option<Columns<'b>>
    ensures { Finds (ColumnsAfter (shape_seen shape) deltas.now text.old.now)
        (λ columns. (columns_seen columns, text.new.now)) result }
{
    match take_counts(text, shape) {
        Some(counts) => Some(Columns {
            deltas: BitQueue::new(deltas),
            counts,
            base: 0,
        }),
        None => None,
    }
}

/// The column of counts that the text begins with, if the entries are ranges.
fn take_counts<'b>(text: &mut &'b [u8], shape: Shape) -> Option<Option<BitQueue<'b>>>
    ensures { Finds (CountsAt (shape_seen shape) text.old.now)
        (λ counts. (option_map bits_ahead counts, text.new.now)) result }
{
    match shape {
        Shape::Ranges => match take_sized(text) {
            Some(counts) => Some(Some(BitQueue::new(counts))),
            None => None,
        },
        Shape::Singles => Some(None),
    }
}

impl Columns<'_> {
    /// The codes of the next entry. A fault names the kind of segment, `segment`.
    #[inline(always)]
    pub(crate) fn next_range(
        &mut self,
        tables: &Tables,
        segment: Segment,
    ) -> Result<Range, Fault<Reason>>
        ensures next { ReadsOr (SpanAt (tables_seen tables.now) (columns_seen self.old))
            (WrongSpan (tables_seen tables.now) segment (columns_seen self.old))
            (λ range. (span_seen range, columns_seen self.new)) result }
        ensures order { IfOk result (λ range. range.start ≤ range.end) }
    {
        let Some(delta) = next_symbol(&tables.delta, &mut self.deltas) else {
            return Err(Fault::Refused(Reason::Entry(segment)));
        };
        let Some(width) = next_width(&tables.count, &mut self.counts) else {
            return Err(Fault::Refused(Reason::Entry(segment)));
        };
        let Some(range) = range_after(self.base, delta, width) else {
            return Err(Fault::Refused(Reason::CodeTooLarge(segment)));
        };
        self.base = u64::from(range.end) + 1;
        Ok(range)
    }
}

/// The distance from the start of the next entry to its end.
#[inline(always)]
fn next_width(table: &PrefixTable, counts: &mut Option<BitQueue<'_>>) -> Option<u64>
    ensures { Finds (WidthAt table.now (option_map bits_ahead counts.old))
        (λ width. (width, option_map bits_ahead counts.new)) result }
{
    match counts {
        Some(counts) => {
            let count = next_symbol(table, counts)?;
            Some(u64::from(count) + 1)
        }
        None => Some(0),
    }
}

/// The symbol of the code word that comes next.
#[inline(always)]
fn next_symbol(table: &PrefixTable, bits: &mut BitQueue<'_>) -> Option<u32>
    ensures { Finds (SymbolAt table.now (bits_ahead bits.old))
        (λ symbol. (symbol, bits_ahead bits.new)) result }
{
    take_symbol(table, bits)
}

/// The range that starts `delta` after the base and ends `width` after its start; `None` if its end
/// doesn't fit in 32 bits.
fn range_after(base: u64, delta: u32, width: u64) -> Option<Range>
    ensures { MatchOption result (2 ^ 32 ≤ base + delta + width)
        (λ r. (r.start ≡ base + delta) × (r.end ≡ base + delta + width) × (r.end < 2 ^ 32)) }
{
    let start = base.checked_add(u64::from(delta))?;
    let end = u32::try_from(start.checked_add(width)?).ok()?;
    Some(Range {
        start: start as u32,
        end,
    })
}
