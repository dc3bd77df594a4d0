//! Segments of codes with their CIDs.

ghost use Rattle.std.specs.Prelude.{◌≡◌, ◌≤◌, ◌<◌, ◌++◌, ℕ, All, IfErr, IfOk, IsFalse, IsTrue, drop, flat_map, length, map, take};
ghost use Rattle.cmap_values.specs.CodeLengths.{length_of};
ghost use Rattle.cmap_values.specs.DeclarationsSeen.{cid_entry_seen, entries_seen};
ghost use Rattle.cmap_values.specs.Files.{Declaration};
ghost use Rattle.cmap_values.specs.Outcomes.{RefusesWith};
ghost use Rattle.cmap_binary_writer.specs.Arranged.{AddsCidEntries, AddsFull, AreEnded, HoldsEntries, segment_type};
ghost use Rattle.cmap_binary_writer.specs.EncodersSeen.{shape_seen};
ghost use Rattle.cmap_binary_writer.specs.Follows.{Follows, HasShapeOf};
ghost use Rattle.cmap_binary_writer.specs.Held.{AreHeld};
ghost use Rattle.cmap_binary_writer.specs.Obstacles.{IsCidObstacle};
ghost use Rattle.cmap_binary_writer.specs.Pieces.{IsShort};
ghost use Rattle.cmap_binary_writer.specs.PreparedFiles.{AddsSameCids};
ghost use Rattle.cmap_binary_writer.specs.Segments.{AddsSegments, IsSegmentOf};
ghost use Rattle.cmap_binary_writer.specs.Written.{bytes_of};

use crate::bytes::push_number;
use crate::columns::{Shape, counts, deltas};
use crate::decided::decided_cids;
use crate::obstacle::Obstacle;
use crate::segments::Segment;
use crate::split::split_cids;
use cmap_values::code_length::CodeLength;
use cmap_values::declarations::CidRange;
use cmap_values::fault::Fault;
use std::alloc::{AllocError, Global};

/// The most entries of a segment.
const MOST: usize = 65535;

/// Adds segments that give each code of a length the CID that this list gives.
pub(crate) fn add_cid_list(
    alloc: Global,
    len: CodeLength,
    list: &[CidRange],
    segments: &mut Vec<Segment>,
) -> Result<(), Fault<Obstacle>>
    ensures added { IfOk result (λ _. AddsSameCids (length_of len) (entries_seen list.now) segments.old.items segments.new.items) }
    ensures arranged { IfOk result (λ _. AddsCidEntries (length_of len) (entries_seen list.now) segments.old.items segments.new.items) }
    ensures err { IfErr result (RefusesWith (IsCidObstacle (entries_seen list.now))) }
{
    let ranges = decided_cids(alloc, list)?;
    let mut pieces = split_cids(alloc, &ranges)?;
    pieces.sort_by_key(|piece| type_of(len, piece))?;
    add_cids(alloc, len, &pieces, segments)?;
    Ok(())
}

/// The type of the segments in which an entry stands.
fn type_of(len: CodeLength, entry: &CidRange) -> u8
    ensures { result ≡ segment_type (Declaration.cid (length_of len) (cid_entry_seen entry.now)) }
{
    Shape::of(entry.range).cid_type(len)
}

/// Adds segments for these pieces of ranges of codes of one length, in order.
fn add_cids(
    alloc: Global,
    len: CodeLength,
    pieces: &[CidRange],
    segments: &mut Vec<Segment>,
) -> Result<(), AllocError>
    requires { All IsShort (entries_seen pieces.now) }
    ensures added { IfOk result (λ _. AddsSegments segments.old.items segments.new.items (map (Declaration.cid (length_of len)) (entries_seen pieces.now))) }
    ensures full { IfOk result (λ _. AddsFull segments.old.items segments.new.items (map (Declaration.cid (length_of len)) (entries_seen pieces.now))) }
{
    let mut left = pieces;
    while !left.is_empty() {
        let shape = first_shape(left);
        let (here, later) = left.split_at(segment_len(shape, left));
        segments.push(cid_segment(alloc, len, shape, here)?)?;
        left = later;
    }
    Ok(())
}

/// The shape of the next entry.
fn first_shape(entries: &[CidRange]) -> Shape
    requires filled { 0 < length entries.now }
    requires short { All IsShort (entries_seen entries.now) }
    ensures { HasShapeOf (shape_seen result) entries.now 0 }
{
    Shape::of(entries[0].range)
}

/// The number of entries of the next segment: all entries have one shape, each comes after the one
/// before, and only the first may have CID 0.
fn segment_len(shape: Shape, entries: &[CidRange]) -> usize
    requires first { HasShapeOf (shape_seen shape) entries.now 0 }
    requires short { All IsShort (entries_seen entries.now) }
    ensures some { 1 ≤ result }
    ensures within { result ≤ length entries.now }
    ensures held { AreHeld (shape_seen shape) (entries_seen (take result entries.now)) }
    ensures ended { (len : ℕ) → 1 ≤ len → AreEnded (map (Declaration.cid len) (entries_seen (take result entries.now))) (map (Declaration.cid len) (entries_seen (drop result entries.now))) }
{
    let mut count = 1;
    while count < entries.len()
        && count < MOST
        && follows(shape, &entries[count - 1], &entries[count])
    {
        count += 1;
    }
    count
}

/// Whether an entry can follow another one in a segment of this shape.
fn follows(shape: Shape, before: &CidRange, entry: &CidRange) -> bool
    ensures yes { IsTrue result → Follows (shape_seen shape) before.now entry.now }
    ensures no { IsFalse result → Follows (shape_seen shape) before.now entry.now → ⊥ }
{
    entry.cid != 0 && before.range.end < entry.range.start && shape.fits(entry.range)
}

/// A segment of these codes of one length, with their CIDs.
fn cid_segment(
    alloc: Global,
    len: CodeLength,
    shape: Shape,
    entries: &[CidRange],
) -> Result<Segment, AllocError>
    requires { AreHeld (shape_seen shape) (entries_seen entries.now) }
    ensures says { IfOk result (λ segment. IsSegmentOf segment (map (Declaration.cid (length_of len)) (entries_seen entries.now))) }
    ensures holds { IfOk result (λ segment. HoldsEntries segment (map (Declaration.cid (length_of len)) (entries_seen entries.now))) }
{
    let number = shape.cid_type(len);
    let mut values = Vec::with_capacity(alloc, 2 * entries.len())?;
    push_raw_cids(&mut values, entries)?;
    Ok(Segment {
        number,
        shape,
        deltas: deltas(alloc, entries)?,
        counts: counts(alloc, shape, entries)?,
        values,
    })
}

/// Writes the CIDs of entries, in two bytes each.
fn push_raw_cids(out: &mut Vec<u8>, entries: &[CidRange]) -> Result<(), AllocError>
    ensures { IfOk result (λ _. out.new.items ≡ out.old.items ++ flat_map (λ e. bytes_of 2 e.cid) (entries_seen entries.now)) }
{
    for entry in entries {
        push_number(out, entry.cid, 2)?;
    }
    Ok(())
}
