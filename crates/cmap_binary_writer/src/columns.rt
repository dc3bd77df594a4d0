//! The columns of a segment: the codes of its entries.

ghost use Rattle.std.specs.Prelude.{◌≡◌, ◌+◌, ◌*◌, ◌≤◌, IfErr, IfOk, IsFalse, IsTrue, length, map};
ghost use Rattle.cmap_values.specs.CodeLengths.{length_of};
ghost use Rattle.cmap_values.specs.Outcomes.{RefusesWith};
ghost use Rattle.cmap_binary.specs.BinaryEntries.{ranges};
ghost use Rattle.cmap_binary_writer.specs.Arranged.{cid_type, most_fixed, shape_of};
ghost use Rattle.cmap_binary_writer.specs.ColumnsWritten.{WritesColumn};
ghost use Rattle.cmap_binary_writer.specs.EncodersSeen.{encoders_seen, shape_seen};
ghost use Rattle.cmap_binary_writer.specs.Held.{AreInOrder, AreShaped, HasShape, counts_by, counts_of, deltas_of};
ghost use Rattle.cmap_binary_writer.specs.Obstacles.{IsColumnObstacle, IsSegmentObstacle};
ghost use Rattle.cmap_binary_writer.specs.Segments.{WritesNumbers};
ghost use Rattle.cmap_binary_writer.specs.Written.{Appends};

use crate::obstacle::Obstacle;
use crate::pieces::push_sized;
use crate::segments::Segment;
use crate::words::Encoder;
use cmap_values::code_length::CodeLength;
use cmap_values::fault::Fault;
use cmap_values::range::{HasRange, Range};
use std::alloc::{AllocError, Global};

/// The code words of a bundle, for deltas and for counts.
#[derive(Debug, Drop)]
pub struct Encoders {
    pub delta: Encoder,
    pub count: Encoder,
}

/// The shape of the entries of a segment: ranges of two codes or more, or single codes.
#[derive(Clone, Copy)]
pub(crate) enum Shape {
    Ranges,
    Singles,
}

impl Shape {
    /// The shape of a range that has a code.
    pub(crate) fn of(range: Range) -> Shape
        ensures is { shape_seen result ≡ shape_of range.start range.end }
        ensures has { range.start ≤ range.end → HasShape (shape_seen result) range.start range.end }
    {
        if range.start < range.end {
            Shape::Ranges
        } else {
            Shape::Singles
        }
    }

    /// The type of segments of this shape with CIDs of codes of this length.
    pub(crate) fn cid_type(self, len: CodeLength) -> u8
        ensures { result ≡ cid_type (length_of len) (shape_seen self) }
    {
        match self {
            Shape::Ranges => 2 * len.count() - 1,
            Shape::Singles => 2 * len.count(),
        }
    }

    /// The most units that segments of this shape can fix for all their texts.
    pub(crate) fn most_fixed(self) -> usize
        ensures { result ≡ most_fixed (shape_seen self) }
    {
        match self {
            Shape::Ranges => 2,
            Shape::Singles => 4,
        }
    }

    /// Whether a range has this shape.
    pub(crate) fn fits(self, range: Range) -> bool
        ensures yes { IsTrue result → HasShape (shape_seen self) range.start range.end }
        ensures no { IsFalse result → HasShape (shape_seen self) range.start range.end → ⊥ }
    {
        match self {
            Shape::Ranges => range.start < range.end,
            Shape::Singles => range.start == range.end,
        }
    }
}

/// Writes the columns of a segment: a column of deltas, and for ranges also a column of counts.
pub(crate) fn push_columns(
    alloc: Global,
    tables: &Encoders,
    segment: &Segment,
    out: &mut Vec<u8>,
) -> Result<(), Fault<Obstacle>>
    ensures written { IfOk result (λ _. Appends out.old.items out.new.items (WritesNumbers (encoders_seen tables.now)
        (shape_seen segment.now.shape) segment.now.deltas.items segment.now.counts.items)) }
    ensures len { IfOk result (λ _. length out.new.items ≤ length out.old.items + 8 + 4 * (length segment.now.deltas.items + length segment.now.counts.items)) }
    ensures err { IfErr result (RefusesWith (IsSegmentObstacle (encoders_seen tables.now) segment.now)) }
{
    push_column(alloc, &tables.delta, &segment.deltas, out)?;
    match segment.shape {
        Shape::Singles => Ok(()),
        Shape::Ranges => push_column(alloc, &tables.count, &segment.counts, out),
    }
}

/// Writes a column: the code words of these symbols, as a piece after its length.
fn push_column(
    alloc: Global,
    table: &Encoder,
    symbols: &[u32],
    out: &mut Vec<u8>,
) -> Result<(), Fault<Obstacle>>
    ensures written { IfOk result (λ _. Appends out.old.items out.new.items (WritesColumn table.now symbols.now)) }
    ensures len { IfOk result (λ _. length out.new.items ≤ length out.old.items + 4 + 4 * length symbols.now) }
    ensures err { IfErr result (RefusesWith (IsColumnObstacle table.now symbols.now)) }
{
    let Some(text) = table.spell(alloc, symbols)? else {
        return Err(Fault::Refused(Obstacle::NoWord));
    };
    push_sized(out, &text)?;
    Ok(())
}

/// For each entry, the number of codes between it and the entry before.
pub(crate) fn deltas<T: HasRange>(alloc: Global, entries: &[T]) -> Result<Vec<u32>, AllocError>
    requires { AreInOrder 0 (map T.span entries.now) }
    ensures { IfOk result (λ deltas. deltas.items ≡ deltas_of 0 (map T.span entries.now)) }
{
    let mut deltas = Vec::with_capacity(alloc, entries.len())?;
    let mut base = 0;
    for entry in entries {
        let range = entry.range();
        deltas.push((u64::from(range.start) - base) as u32)?;
        base = u64::from(range.end) + 1;
    }
    Ok(deltas)
}

/// For each range, the number of its codes beyond two; no numbers for single codes.
pub(crate) fn counts<T: HasRange>(
    alloc: Global,
    shape: Shape,
    entries: &[T],
) -> Result<Vec<u32>, AllocError>
    requires { AreShaped (shape_seen shape) (map T.span entries.now) }
    ensures { IfOk result (λ counts. counts.items ≡ counts_by (shape_seen shape) (map T.span entries.now)) }
{
    match shape {
        Shape::Singles => Ok(Vec::new(alloc)),
        Shape::Ranges => range_counts(alloc, entries),
    }
}

/// For each range, the number of its codes beyond two.
fn range_counts<T: HasRange>(alloc: Global, entries: &[T]) -> Result<Vec<u32>, AllocError>
    requires { AreShaped ranges (map T.span entries.now) }
    ensures { IfOk result (λ counts. counts.items ≡ counts_of (map T.span entries.now)) }
{
    let mut counts = Vec::with_capacity(alloc, entries.len())?;
    for entry in entries {
        let range = entry.range();
        counts.push(range.end - range.start - 1)?;
    }
    Ok(counts)
}
