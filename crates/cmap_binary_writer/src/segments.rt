//! Segments of CIDs and of texts, which leave open by which tables their numbers are spelled.

ghost use Rattle.std.specs.Prelude.{◌+◌, ◌*◌, ◌≤◌, IfErr, IfOk, List, length, map};
ghost use Rattle.cmap_values.specs.Files.{Declaration};
ghost use Rattle.cmap_values.specs.Outcomes.{RefusesWith};
ghost use Rattle.cmap_binary.specs.BinaryFiles.{SegmentAt, declares};
ghost use Rattle.cmap_binary_writer.specs.EncodersSeen.{encoders_seen};
ghost use Rattle.cmap_binary_writer.specs.Obstacles.{IsSegmentObstacle, IsSegmentsObstacle};
ghost use Rattle.cmap_binary_writer.specs.Segments.{AreSegmentBytes, DeclareEach, IsPayloadOf};
ghost use Rattle.cmap_binary_writer.specs.Written.{Appends, WritesAll};

use crate::bytes::push_number;
use crate::columns::{Encoders, Shape, push_columns};
use crate::obstacle::Obstacle;
use crate::pieces::push_segment;
use cmap_values::fault::Fault;
use std::alloc::Global;

/// A segment of entries: its type, the numbers of its columns, and the bytes after the columns.
#[derive(Drop)]
pub struct Segment {
    pub(crate) number: u8,
    pub(crate) shape: Shape,
    /// For each entry, the number of codes between it and the entry before.
    pub deltas: Vec<u32>,
    /// For each range, the number of its codes beyond two; no numbers for single codes.
    pub counts: Vec<u32>,
    /// The CIDs or the texts of the entries, as bytes.
    pub(crate) values: Vec<u8>,
}

/// Writes segments, in order.
pub(crate) fn push_segments(
    alloc: Global,
    tables: &Encoders,
    segments: &[Segment],
    out: &mut Vec<u8>,
) -> Result<(), Fault<Obstacle>>
    ensures written { IfOk result (λ _. (parts : List (List Declaration)) → DeclareEach segments.now parts
        → Appends out.old.items out.new.items (WritesAll (SegmentAt (encoders_seen tables.now)) (map declares parts))) }
    ensures bytes { IfOk result (λ _. Appends out.old.items out.new.items (AreSegmentBytes (encoders_seen tables.now) segments.now)) }
    ensures err { IfErr result (RefusesWith (IsSegmentsObstacle (encoders_seen tables.now) segments.now)) }
{
    for segment in segments {
        let payload = payload_of(alloc, tables, segment)?;
        push_segment(out, segment.number, &payload)?;
    }
    Ok(())
}

/// The payload of a segment.
fn payload_of(
    alloc: Global,
    tables: &Encoders,
    segment: &Segment,
) -> Result<Vec<u8>, Fault<Obstacle>>
    ensures written { IfOk result (λ payload. IsPayloadOf (encoders_seen tables.now) segment.now payload.items) }
    ensures len { IfOk result (λ payload. length payload.items
        ≤ 10 + 4 * (length segment.now.deltas.items + length segment.now.counts.items) + length segment.now.values.items) }
    ensures err { IfErr result (RefusesWith (IsSegmentObstacle (encoders_seen tables.now) segment.now)) }
{
    let Ok(count) = u16::try_from(segment.deltas.len()) else {
        return Err(Fault::Refused(Obstacle::TooLong));
    };
    let mut payload = Vec::new(alloc);
    push_number(&mut payload, u32::from(count), 2)?;
    push_columns(alloc, tables, segment, &mut payload)?;
    payload.extend_from_slice(&segment.values)?;
    Ok(payload)
}
