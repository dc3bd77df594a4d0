//! Ranges in pieces that a segment can hold.

ghost use Rattle.std.specs.Prelude.{◌+◌, ◌*◌, ◌≤◌, All, IfOk, length, map};
ghost use Rattle.cmap_values.specs.DeclarationsSeen.{cid_entry_seen, cid_range_span, entries_seen};
ghost use Rattle.cmap_layers.specs.Lookups.{cid_at, cid_span};
ghost use Rattle.cmap_binary_writer.specs.Arranged.{AreCut, PushesCut};
ghost use Rattle.cmap_binary_writer.specs.Pieces.{ArePieces, CanBeSplit, IsShort, PushesPieces};
ghost use Rattle.cmap_binary_writer.specs.Weights.{cids_weight, span_weight};

use cmap_values::declarations::CidRange;
use cmap_values::range::Range;
use std::alloc::{AllocError, Global};

/// The most codes that a short range has after its first code.
pub(crate) const MOST_AFTER: u32 = 256;

/// The same ranges, in pieces of 1 to 257 codes.
pub(crate) fn split_cids(alloc: Global, ranges: &[CidRange]) -> Result<Vec<CidRange>, AllocError>
    requires { All CanBeSplit (entries_seen ranges.now) }
    ensures pieces { IfOk result (λ pieces. ArePieces cid_span cid_at IsShort (entries_seen ranges.now) (entries_seen pieces.items)) }
    ensures cut { IfOk result (λ pieces. AreCut (map cid_range_span ranges.now) (map cid_range_span pieces.items)) }
    ensures few { IfOk result (λ pieces. 256 * length pieces.items ≤ cids_weight ranges.now) }
{
    let mut pieces = Vec::new(alloc);
    for range in ranges {
        push_cid_pieces(&mut pieces, range)?;
    }
    Ok(pieces)
}

/// Adds the pieces of a range.
fn push_cid_pieces(pieces: &mut Vec<CidRange>, entry: &CidRange) -> Result<(), AllocError>
    requires { CanBeSplit (cid_entry_seen entry.now) }
    ensures pushed { IfOk result (λ _. PushesPieces cid_span cid_at IsShort (cid_entry_seen entry.now) (entries_seen pieces.old.items) (entries_seen pieces.new.items)) }
    ensures cut { IfOk result (λ _. PushesCut (cid_range_span entry.now) (map cid_range_span pieces.old.items) (map cid_range_span pieces.new.items)) }
    ensures few { IfOk result (λ _. 256 * length pieces.new.items ≤ 256 * length pieces.old.items + span_weight (cid_range_span entry.now)) }
{
    let end = entry.range.end;
    let mut start = entry.range.start;
    let mut cid = entry.cid;
    while end - start > MOST_AFTER {
        pieces.push(CidRange {
            range: Range {
                start,
                end: start + (MOST_AFTER - 1),
            },
            cid,
        })?;
        start += MOST_AFTER;
        cid += MOST_AFTER;
    }
    pieces.push(CidRange {
        range: Range { start, end },
        cid,
    })?;
    Ok(())
}
