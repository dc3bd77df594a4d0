//! The codes for which the declarations of a list decide a text, as disjoint ranges, in pieces that a
//! segment can hold.

ghost use Rattle.std.specs.Prelude.{◌≡◌, ◌+◌, ◌-◌, ◌*◌, ◌<◌, ◌≤◌, ◌^◌, [], ◌∷◌, ◌++◌, All, IfErr, IfOk, List, length, map};
ghost use Rattle.cmap_values.specs.DeclarationsSeen.{bf_entry_seen, bf_range_span};
ghost use Rattle.cmap_values.specs.Files.{BfEntry};
ghost use Rattle.cmap_values.specs.Outcomes.{RefusesWith};
ghost use Rattle.cmap_values.specs.UnitsSeen.{units_seen};
ghost use Rattle.cmap_layers.specs.Lookups.{bf_at, bf_span};
ghost use Rattle.cmap_runs.specs.Ranges.{runs_of};
ghost use Rattle.cmap_binary_writer.specs.Arranged.{AreCut, PushesCut};
ghost use Rattle.cmap_binary_writer.specs.Obstacles.{IsTextObstacle};
ghost use Rattle.cmap_binary_writer.specs.Pieces.{AllSayAs, ArePieces, CanBeSplitText, IsShortText, PushesPieces, SayTheSame};
ghost use Rattle.cmap_binary_writer.specs.TextParts.{GivesUnits, IsDecidedText, IsShifted, units_at};
ghost use Rattle.cmap_binary_writer.specs.Weights.{run_span, span_weight, texts_weight, weight_of};

use crate::decided::last_code;
use crate::obstacle::Obstacle;
use crate::split::MOST_AFTER;
use cmap_runs::runs::{Looks, Table};
use cmap_values::declarations::BfRange;
use cmap_values::fault::Fault;
use cmap_values::range::Range;
use cmap_values::units::Units;
use std::alloc::{AllocError, Global};

/// The most codes that a range of texts has after its first code.
const MOST_TEXTS_AFTER: u32 = 65535;

/// The ranges of codes for which these declarations decide a text, in order, each with the units of its
/// first code; without units where the first code has none.
pub(crate) fn decided_texts(
    alloc: Global,
    list: &[BfRange],
) -> Result<Vec<BfRange>, Fault<Obstacle>>
    ensures same { IfOk result (λ ranges. SayTheSame bf_span bf_at (map bf_entry_seen list.now) (map bf_entry_seen ranges.items)) }
    ensures small { IfOk result (λ ranges. All IsDecidedText (map bf_entry_seen ranges.items)) }
    ensures units { IfOk result (λ ranges. AllSayAs bf_span units_at (map bf_entry_seen list.now) (map bf_entry_seen ranges.items)) }
    ensures runs { IfOk result (λ ranges. map bf_range_span ranges.items ≡ map run_span (runs_of (map bf_span (map bf_entry_seen list.now)))) }
    ensures few { IfOk result (λ ranges. texts_weight ranges.items ≤ weight_of (map bf_span (map bf_entry_seen list.now))) }
    ensures err { IfErr result (RefusesWith (IsTextObstacle (map bf_entry_seen list.now))) }
{
    let table = text_table(alloc, list)?;
    text_ranges_of(alloc, &table)
}

/// The ranges of codes for which the declarations of a table decide a text, in the form of
/// `decided_texts`.
fn text_ranges_of(alloc: Global, table: &Table<BfRange>) -> Result<Vec<BfRange>, Fault<Obstacle>>
    requires { All (λ r. r.range.end < 2 ^ 32) table.now }
    ensures same { IfOk result (λ ranges. SayTheSame bf_span bf_at (map bf_entry_seen table.now) (map bf_entry_seen ranges.items)) }
    ensures small { IfOk result (λ ranges. All IsDecidedText (map bf_entry_seen ranges.items)) }
    ensures units { IfOk result (λ ranges. AllSayAs bf_span units_at (map bf_entry_seen table.now) (map bf_entry_seen ranges.items)) }
    ensures runs { IfOk result (λ ranges. map bf_range_span ranges.items ≡ map run_span (runs_of (map bf_range_span table.now))) }
    ensures few { IfOk result (λ ranges. texts_weight ranges.items ≤ weight_of (map bf_range_span table.now)) }
    ensures err { IfErr result (RefusesWith (IsTextObstacle (map bf_entry_seen table.now))) }
{
    let mut looks = Looks::new();
    let mut ranges = Vec::new(alloc);
    for i in 0..table.run_count() {
        let (start, end, index) = table.run(i, &mut looks);
        let range = Range { start, end };
        if end - start > MOST_TEXTS_AFTER {
            return Err(Fault::Refused(Obstacle::Text(range)));
        }
        let part = part_of_text(alloc, table.decl(index, &mut looks), range)?;
        ranges.push(part)?;
    }
    Ok(ranges)
}

/// The table of a list.
fn text_table(alloc: Global, list: &[BfRange]) -> Result<Table<BfRange>, AllocError>
    ensures { IfOk result (λ table. (map bf_entry_seen table ≡ map bf_entry_seen list.now)
        × All (λ r. r.range.end < 2 ^ 32) table) }
{
    let mut copy = Vec::with_capacity(alloc, list.len())?;
    for entry in list {
        copy.push(copy_of_text(alloc, entry)?)?;
    }
    Table::build(alloc, copy)
}

/// A copy of a declaration.
fn copy_of_text(alloc: Global, entry: &BfRange) -> Result<BfRange, AllocError>
    ensures same { IfOk result (λ copy. bf_entry_seen copy ≡ bf_entry_seen entry.now) }
    ensures small { IfOk result (λ copy. copy.range.end < 2 ^ 32) }
{
    let range = Range {
        start: entry.range.start,
        end: last_code(&entry.range),
    };
    let units = entry.units.clone(alloc)?;
    Ok(BfRange { range, units })
}

/// The part of a declaration for these codes.
fn part_of_text(alloc: Global, declaration: &BfRange, range: Range) -> Result<BfRange, AllocError>
    requires { declaration.now.range.start ≤ range.start }
    ensures { IfOk result (λ part. (part.range ≡ range)
        × IsShifted (units_seen declaration.now.units) (range.start - declaration.now.range.start) (units_seen part.units)) }
{
    let offset = range.start - declaration.range.start;
    let units = shifted(alloc, &declaration.units, offset)?;
    Ok(BfRange { range, units })
}

/// The units with the offset added to the last one; no units where there are none, or where the sum
/// doesn't fit in a unit.
fn shifted(alloc: Global, units: &Units, offset: u32) -> Result<Units, AllocError>
    ensures { IfOk result (λ made. IsShifted (units_seen units.now) offset (units_seen made)) }
{
    let [front @ .., last] = units.as_slice() else {
        return Ok(Units::Empty);
    };
    match u16::try_from(u64::from(*last) + u64::from(offset)) {
        Ok(raised) => with_last(alloc, front, raised),
        Err(_) => Ok(Units::Empty),
    }
}

/// The units of `front` and then `last`.
fn with_last(alloc: Global, front: &[u16], last: u16) -> Result<Units, AllocError>
    ensures is { IfOk result (λ made. units_seen made ≡ front.now ++ last ∷ []) }
    ensures small { IfOk result (λ made. All (λ u. u < 2 ^ 16) (units_seen made)) }
{
    let mut units = Vec::with_capacity(alloc, front.len() + 1)?;
    units.extend_from_slice(front)?;
    units.push(last)?;
    Units::from_slice(alloc, &units)
}

/// The same ranges, in pieces of 1 to 257 codes.
pub(crate) fn split_texts(alloc: Global, ranges: &[BfRange]) -> Result<Vec<BfRange>, AllocError>
    requires { All CanBeSplitText (map bf_entry_seen ranges.now) }
    ensures pieces { IfOk result (λ pieces. ArePieces bf_span bf_at IsShortText (map bf_entry_seen ranges.now) (map bf_entry_seen pieces.items)) }
    ensures units { IfOk result (λ pieces. (es : List BfEntry) → AllSayAs bf_span units_at es (map bf_entry_seen ranges.now) → AllSayAs bf_span units_at es (map bf_entry_seen pieces.items)) }
    ensures cut { IfOk result (λ pieces. AreCut (map bf_range_span ranges.now) (map bf_range_span pieces.items)) }
    ensures few { IfOk result (λ pieces. 256 * length pieces.items ≤ texts_weight ranges.now) }
{
    let mut pieces = Vec::new(alloc);
    for range in ranges {
        push_text_pieces(alloc, &mut pieces, range)?;
    }
    Ok(pieces)
}

/// Adds the pieces of a range.
fn push_text_pieces(
    alloc: Global,
    pieces: &mut Vec<BfRange>,
    entry: &BfRange,
) -> Result<(), AllocError>
    requires { CanBeSplitText (bf_entry_seen entry.now) }
    ensures pushed { IfOk result (λ _. PushesPieces bf_span bf_at IsShortText (bf_entry_seen entry.now) (map bf_entry_seen pieces.old.items) (map bf_entry_seen pieces.new.items)) }
    ensures units { IfOk result (λ _. GivesUnits (bf_entry_seen entry.now) (map bf_entry_seen pieces.old.items) (map bf_entry_seen pieces.new.items)) }
    ensures cut { IfOk result (λ _. PushesCut (bf_range_span entry.now) (map bf_range_span pieces.old.items) (map bf_range_span pieces.new.items)) }
    ensures few { IfOk result (λ _. 256 * length pieces.new.items ≤ 256 * length pieces.old.items + span_weight (bf_range_span entry.now)) }
{
    let end = entry.range.end;
    let mut start = entry.range.start;
    while end - start > MOST_AFTER {
        let range = Range {
            start,
            end: start + (MOST_AFTER - 1),
        };
        pieces.push(part_of_text(alloc, entry, range)?)?;
        start += MOST_AFTER;
    }
    pieces.push(part_of_text(alloc, entry, Range { start, end })?)?;
    Ok(())
}
