//! The codes that the declarations of a list decide, as disjoint ranges, whose order doesn't matter.

ghost use Rattle.std.specs.Prelude.{◌≡◌, ◌+◌, ◌-◌, ◌<◌, ◌≤◌, ◌^◌, All, IfErr, IfNone, IfOk, IfSome, IsFalse, IsTrue, get_or, length, map};
ghost use Rattle.cmap_values.specs.DeclarationsSeen.{cid_entry_seen, cid_range_span, entries_seen};
ghost use Rattle.cmap_values.specs.Outcomes.{RefusesWith};
ghost use Rattle.cmap_layers.specs.Lookups.{cid_at, cid_span};
ghost use Rattle.cmap_values.specs.declared.declarations.CidRange.{CidRange};
ghost use Rattle.cmap_binary_writer.specs.Arranged.{AreWhole, KeepsWhole};
ghost use Rattle.cmap_binary_writer.specs.Follows.{GoesOn};
ghost use Rattle.cmap_binary_writer.specs.Obstacles.{IsCidObstacle};
ghost use Rattle.cmap_binary_writer.specs.Pieces.{CanBeSplit, SayTheSame, Takes};
ghost use Rattle.cmap_binary_writer.specs.Weights.{cids_weight, span_weight, weight_of};

use crate::obstacle::Obstacle;
use cmap_runs::runs::{Looks, Table};
use cmap_values::declarations::CidRange;
use cmap_values::fault::Fault;
use cmap_values::range::Range;
use std::alloc::{AllocError, Global};

/// The largest CID.
pub(crate) const LARGEST_CID: u32 = 65535;

/// The ranges of codes for which these declarations decide a CID, in order. Adjacent ranges with
/// consecutive CIDs are joined. A CID above 65535 is an obstacle.
pub(crate) fn decided_cids(
    alloc: Global,
    list: &[CidRange],
) -> Result<Vec<CidRange>, Fault<Obstacle>>
    ensures same { IfOk result (λ ranges. SayTheSame cid_span cid_at (entries_seen list.now) (entries_seen ranges.items) × All CanBeSplit (entries_seen ranges.items)) }
    ensures whole { IfOk result (λ ranges. AreWhole (entries_seen ranges.items)) }
    ensures few { IfOk result (λ ranges. cids_weight ranges.items ≤ weight_of (map cid_range_span list.now)) }
    ensures err { IfErr result (RefusesWith (IsCidObstacle (entries_seen list.now))) }
{
    let table = table_of(alloc, list)?;
    ranges_of(alloc, &table)
}

/// The ranges of codes for which the declarations of a table decide a CID, in the form of
/// `decided_cids`.
fn ranges_of(alloc: Global, table: &Table<CidRange>) -> Result<Vec<CidRange>, Fault<Obstacle>>
    requires { All (λ r. r.range.end < 2 ^ 32) table.now }
    ensures same { IfOk result (λ ranges. SayTheSame cid_span cid_at (entries_seen table.now) (entries_seen ranges.items) × All CanBeSplit (entries_seen ranges.items)) }
    ensures whole { IfOk result (λ ranges. AreWhole (entries_seen ranges.items)) }
    ensures few { IfOk result (λ ranges. cids_weight ranges.items ≤ weight_of (map cid_range_span table.now)) }
    ensures err { IfErr result (RefusesWith (IsCidObstacle (entries_seen table.now))) }
{
    let mut looks = Looks::new();
    let mut ranges = Vec::new(alloc);
    for i in 0..table.run_count() {
        let (start, end, index) = table.run(i, &mut looks);
        let range = Range { start, end };
        let Some(part) = part_of(table.decl(index, &mut looks), range) else {
            return Err(Fault::Refused(Obstacle::LargeCid(range)));
        };
        push_joined(&mut ranges, part)?;
    }
    Ok(ranges)
}

/// The table of a list.
fn table_of(alloc: Global, list: &[CidRange]) -> Result<Table<CidRange>, AllocError>
    ensures { IfOk result (λ table. (table ≡ list.now) × All (λ r. r.range.end < 2 ^ 32) table) }
{
    let mut copy = Vec::with_capacity(alloc, list.len())?;
    for entry in list {
        let end = last_code(&entry.range);
        let range = Range {
            start: entry.range.start,
            end,
        };
        copy.push(CidRange {
            range,
            cid: entry.cid,
        })?;
    }
    Table::build(alloc, copy)
}

/// The last code of a range.
pub(crate) fn last_code(range: &Range) -> u32
    ensures is { result ≡ range.now.end }
    ensures small { result < 2 ^ 32 }
{
    range.end
}

/// The part of a declaration for these codes; `None` where the last CID of the part is above 65535.
fn part_of(declaration: &CidRange, range: Range) -> Option<CidRange>
    requires start { declaration.now.range.start ≤ range.start }
    requires end { range.start ≤ range.end }
    ensures some { IfSome result (λ part. (part.range ≡ range)
        × (part.cid ≡ declaration.now.cid + (range.start - declaration.now.range.start))
        × (part.cid + (range.end - range.start) < 2 ^ 16)) }
    ensures none { IfNone result
        (2 ^ 16 ≤ declaration.now.cid + (range.end - declaration.now.range.start)) }
{
    let first = u64::from(declaration.cid) + u64::from(range.start - declaration.range.start);
    if first + u64::from(range.end - range.start) > u64::from(LARGEST_CID) {
        return None;
    }
    Some(CidRange {
        range,
        cid: first as u32,
    })
}

/// Adds a range, joined with the last range where it goes on from the last one.
fn push_joined(ranges: &mut Vec<CidRange>, range: CidRange) -> Result<(), AllocError>
    requires all { All CanBeSplit (entries_seen ranges.now.items) }
    requires one { CanBeSplit (cid_entry_seen range) }
    ensures all { IfOk result (λ _. All CanBeSplit (entries_seen ranges.new.items)) }
    ensures whole { IfOk result (λ _. KeepsWhole (entries_seen ranges.old.items) (entries_seen ranges.new.items) (cid_entry_seen range)) }
    ensures few { IfOk result (λ _. cids_weight ranges.new.items ≤ cids_weight ranges.old.items + span_weight (cid_range_span range)) }
    ensures taken { IfOk result (λ _. Takes cid_span cid_at (entries_seen ranges.old.items) (entries_seen ranges.new.items) (cid_entry_seen range)) }
{
    if is_continued(ranges, &range) {
        let last = ranges.len() - 1;
        ranges[last].range.end = range.range.end;
        return Ok(());
    }
    ranges.push(range)?;
    Ok(())
}

/// Whether a range goes on from the last one.
fn is_continued(ranges: &[CidRange], range: &CidRange) -> bool
    requires { All CanBeSplit (entries_seen ranges.now) }
    ensures some { IsTrue result → 0 < length ranges.now }
    ensures answer { IsTrue result → (d : CidRange) → GoesOn (get_or ranges.now (length ranges.now - 1) d) range.now }
    ensures no { IsFalse result → (d : CidRange) → 0 < length ranges.now → GoesOn (get_or ranges.now (length ranges.now - 1) d) range.now → ⊥ }
{
    match ranges.last() {
        Some(last) => goes_on(last, range),
        None => false,
    }
}

/// Whether a range begins just after another one, with CIDs that go on from the CIDs of the other one.
fn goes_on(last: &CidRange, range: &CidRange) -> bool
    requires { last.now.range.start ≤ last.now.range.end }
    ensures yes { IsTrue result → GoesOn last.now range.now }
    ensures no { IsFalse result → GoesOn last.now range.now → ⊥ }
{
    range.range.start > last.range.end
        && range.range.start - last.range.end == 1
        && range.cid > last.cid
        && range.cid - last.cid == range.range.start - last.range.start
}
