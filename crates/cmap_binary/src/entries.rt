//! The entries of segments of a binary file.

ghost use Rattle.cmap_binary.specs.BinaryEntries.{DestinationAt};
ghost use Rattle.cmap_binary.specs.EntryByEntry.{BfEntryAt, CidEntryAt, cid_from};
ghost use Rattle.cmap_binary.specs.BinaryFiles as files;
ghost use Rattle.cmap_binary.specs.BinaryFiles.{SaysAs};
ghost use Rattle.cmap_binary.specs.BinarySeen.{AddsRow, Declares, ReadsOr, with_cids_of_two};
ghost use Rattle.cmap_binary.specs.WrongSegments.{WrongBfEntry, WrongCidEntry, WrongCids, WrongTexts};
ghost use Rattle.cmap_binary.specs.BundleSeen.{tables_seen};
ghost use Rattle.cmap_binary.specs.ColumnsSeen.{cid_columns_seen, columns_seen, shape_seen};
ghost use Rattle.cmap_binary.specs.Fronts.{FieldAt, RowOf};
ghost use Rattle.cmap_values.specs.Outcomes.{Finds};
ghost use Rattle.cmap_values.specs.declared.fault.Reason.TheVariants.{Entry};
ghost use Rattle.cmap_values.specs.declared.fault.Segment.TheVariants.{Texts};
ghost use Rattle.std.specs.Prelude.{◌≡◌, ◌+◌, ◌*◌, ◌≤◌, length, min, vec_capacity, vec_len};
ghost use Rattle.cmap_values.specs.CodeLengths.{length_of};
ghost use Rattle.cmap_values.specs.Files.{bf, cid};
ghost use Rattle.cmap_values.specs.DeclarationsSeen.{cid_entry_seen, lists_seen, slot};
ghost use Rattle.cmap_values.specs.declared.declarations.Lists.{Lists};
ghost use Rattle.cmap_values.specs.UnitsSeen.{units_seen};

use crate::Tables;
use crate::columns::{Columns, Shape, take_columns};
use crate::pieces::{take_byte, take_u16};
use cmap_values::code_length::CodeLength;
use cmap_values::declarations::{BfRange, CidRange, Lists};
use cmap_values::fault::{Fault, Reason, Segment};
use cmap_values::units::Units;
use std::alloc::Global;
use std::mem::replace;

/// The columns of a segment of CIDs, from the next entry on.
#[derive(Drop)]
struct CidColumns<'b> {
    columns: Columns<'b>,
    raws: &'b [u8],
    /// The CID after the CIDs of the entry before.
    next: u64,
}

impl CidColumns<'_> {
    /// The next entry. Raw CID 0 stands for the CID after the CIDs of the entry before.
    #[inline(always)]
    fn next_entry(&mut self, tables: &Tables) -> Result<CidRange, Fault<Reason>>
        ensures { ReadsOr (CidEntryAt (tables_seen tables.now) (cid_columns_seen self.old))
            (WrongCidEntry (tables_seen tables.now) (cid_columns_seen self.old))
            (λ entry. (cid_entry_seen entry, cid_columns_seen self.new)) result }
    {
        let range = self.columns.next_range(tables, Segment::Cids)?;
        let Some(raw) = take_u16(&mut self.raws) else {
            return Err(Fault::Refused(Reason::Entry(Segment::Cids)));
        };
        let Ok(cid) = u32::try_from(cid_of(raw, self.next)) else {
            return Err(Fault::Refused(Reason::CidTooLarge));
        };
        self.next = u64::from(cid) + u64::from(range.end - range.start) + 1;
        Ok(CidRange { range, cid })
    }
}

/// Adds the CIDs of a segment with this payload, for codes of this length. Payload after the entries is
/// ignored.
#[inline(never)]
pub(crate) fn add_cids(
    alloc: Global,
    tables: &Tables,
    shape: Shape,
    len: CodeLength,
    mut payload: &[u8],
    lists: &mut Lists,
) -> Result<(), Fault<Reason>>
    ensures { Declares (SaysAs (tables_seen tables.now) (files.cids (shape_seen shape) (length_of len)) payload.now)
        (WrongCids (tables_seen tables.now) (shape_seen shape) payload.now)
        (lists_seen lists.old) (lists_seen lists.new) result }
{
    let Some(count) = take_u16(&mut payload) else {
        return Err(Fault::Refused(Reason::Field(Segment::Cids)));
    };
    if count == 0 {
        return Ok(());
    }
    let Some(columns) = take_columns(&mut payload, shape) else {
        return Err(Fault::Refused(Reason::Field(Segment::Cids)));
    };
    // A count that is too large reserves space for no more entries than there are bytes.
    lists.reserve_cids(len, usize::from(count).min(payload.len()))?;
    let left = CidColumns {
        columns,
        raws: payload,
        next: 0,
    };
    add_cid_entries(alloc, tables, left, count, len, lists)
}

/// Adds the next `count` entries, for codes of this length. Each length has its own loop, which needn't
/// look for its list. Single codes of two bytes, which need no counts, have their own loop too, if there
/// is a raw CID for each entry.
fn add_cid_entries(
    alloc: Global,
    tables: &Tables,
    left: CidColumns<'_>,
    count: u16,
    len: CodeLength,
    lists: &mut Lists,
) -> Result<(), Fault<Reason>>
    requires { let list = slot lists.old.cids len in
        vec_len list + min count (length left.raws.now) ≤ vec_capacity list }
    ensures { AddsRow (CidEntryAt (tables_seen tables.now)) (WrongCidEntry (tables_seen tables.now))
        (cid (length_of len)) count
        (cid_columns_seen left.entry) (lists_seen lists.old) (lists_seen lists.new) result }
{
    let singles = left.columns.counts.is_none() && 2 * usize::from(count) <= left.raws.len();
    match len {
        CodeLength::Two if singles => add_single_cids(alloc, tables, left, count, lists),
        CodeLength::One => add_each_cid(tables, left, count, CodeLength::One, lists),
        CodeLength::Two => add_each_cid(tables, left, count, CodeLength::Two, lists),
        CodeLength::Three => add_each_cid(tables, left, count, CodeLength::Three, lists),
        CodeLength::Four => add_each_cid(tables, left, count, CodeLength::Four, lists),
    }
}

/// Adds the next `count` entries one by one, for codes of two bytes; each entry has a raw CID. The list
/// is moved out of `lists` meanwhile, so that its length needn't be written for each entry.
fn add_single_cids(
    alloc: Global,
    tables: &Tables,
    left: CidColumns<'_>,
    count: u16,
    lists: &mut Lists,
) -> Result<(), Fault<Reason>>
    requires raws { 2 * count ≤ length left.raws.now }
    requires room { vec_len lists.old.cids.two + count ≤ vec_capacity lists.old.cids.two }
    ensures { AddsRow (CidEntryAt (tables_seen tables.now)) (WrongCidEntry (tables_seen tables.now))
        (cid 2) count
        (cid_columns_seen left.entry) (lists_seen lists.old) (lists_seen lists.new) result }
{
    let mut list = replace(&mut lists.cids.two, Vec::new(alloc));
    let added = push_single_cids(tables, left, count, &mut list);
    lists.cids.two = list;
    added
}

/// Adds the next `count` entries to the list for codes of two bytes, which has space for them.
#[inline(always)]
fn push_single_cids(
    tables: &Tables,
    left: CidColumns<'_>,
    count: u16,
    list: &mut Vec<CidRange>,
) -> Result<(), Fault<Reason>>
    requires raws { 2 * count ≤ length left.raws.now }
    requires room { vec_len list.old + count ≤ vec_capacity list.old }
    ensures { (others : Lists) → AddsRow (CidEntryAt (tables_seen tables.now))
        (WrongCidEntry (tables_seen tables.now)) (cid 2) count (cid_columns_seen left.entry)
        (lists_seen (with_cids_of_two list.old others)) (lists_seen (with_cids_of_two list.new others)) result }
{
    let CidColumns {
        mut columns,
        raws,
        mut next,
    } = left;
    for i in 0..usize::from(count) {
        let range = columns.next_range(tables, Segment::Cids)?;
        let raw = u16::from_be_bytes([raws[2 * i], raws[2 * i + 1]]);
        let Ok(cid) = u32::try_from(cid_of(raw, next)) else {
            return Err(Fault::Refused(Reason::CidTooLarge));
        };
        next = u64::from(cid) + u64::from(range.end - range.start) + 1;
        list.push_reserved(CidRange { range, cid });
    }
    Ok(())
}

/// The CID that a raw CID stands for: `next` for 0, or else the raw CID itself.
#[inline(always)]
fn cid_of(raw: u16, next: u64) -> u64
    ensures { result ≡ cid_from raw next }
{
    if raw == 0 { next } else { u64::from(raw) }
}

/// Adds the next `count` entries one by one.
#[inline(always)]
fn add_each_cid(
    tables: &Tables,
    mut left: CidColumns<'_>,
    count: u16,
    len: CodeLength,
    lists: &mut Lists,
) -> Result<(), Fault<Reason>>
    ensures { AddsRow (CidEntryAt (tables_seen tables.now)) (WrongCidEntry (tables_seen tables.now))
        (cid (length_of len)) count
        (cid_columns_seen left.entry) (lists_seen lists.old) (lists_seen lists.new) result }
{
    for _ in 0..count {
        let range = left.next_entry(tables)?;
        lists.add_cid(len, range)?;
    }
    Ok(())
}

/// Adds the texts of a segment with this payload. Each destination has `fixed` units, or begins with the
/// number of its units. Payload after the entries is ignored.
#[inline(never)]
pub(crate) fn add_texts(
    alloc: Global,
    tables: &Tables,
    shape: Shape,
    fixed: Option<u8>,
    mut payload: &[u8],
    lists: &mut Lists,
) -> Result<(), Fault<Reason>>
    ensures { Declares (SaysAs (tables_seen tables.now) (files.texts (shape_seen shape) fixed) payload.now)
        (WrongTexts (tables_seen tables.now) (shape_seen shape) fixed payload.now)
        (lists_seen lists.old) (lists_seen lists.new) result }
{
    let Some(count) = take_u16(&mut payload) else {
        return Err(Fault::Refused(Reason::Field(Segment::Texts)));
    };
    let Some(columns) = take_columns(&mut payload, shape) else {
        return Err(Fault::Refused(Reason::Field(Segment::Texts)));
    };
    lists.bfs.reserve(usize::from(count).min(payload.len()))?;
    add_text_entries(alloc, tables, (columns, payload), count, fixed, lists)
}

/// Adds the next `count` entries. Nearly all entries have one unit: such entries are read in loops of
/// their own, one for single codes and one for ranges.
fn add_text_entries(
    alloc: Global,
    tables: &Tables,
    left: (Columns<'_>, &[u8]),
    count: u16,
    fixed: Option<u8>,
    lists: &mut Lists,
) -> Result<(), Fault<Reason>>
    ensures { AddsRow (BfEntryAt (tables_seen tables.now) fixed)
        (WrongBfEntry (tables_seen tables.now) fixed) bf count
        (columns_seen left.entry.0, left.entry.1.now) (lists_seen lists.old) (lists_seen lists.new) result }
{
    let singles = left.0.counts.is_none();
    match fixed {
        Some(1) if singles => add_each_text(alloc, tables, left, count, Some(1), lists),
        Some(1) => add_each_text(alloc, tables, left, count, Some(1), lists),
        _ => add_each_text(alloc, tables, left, count, fixed, lists),
    }
}

/// Adds the next `count` entries one by one.
#[inline(always)]
fn add_each_text(
    alloc: Global,
    tables: &Tables,
    left: (Columns<'_>, &[u8]),
    count: u16,
    fixed: Option<u8>,
    lists: &mut Lists,
) -> Result<(), Fault<Reason>>
    ensures { AddsRow (BfEntryAt (tables_seen tables.now) fixed)
        (WrongBfEntry (tables_seen tables.now) fixed) bf count
        (columns_seen left.entry.0, left.entry.1.now) (lists_seen lists.old) (lists_seen lists.new) result }
{
    let (mut columns, mut text) = left;
    let mut buffer = Vec::new(alloc);
    for _ in 0..count {
        let range = columns.next_range(tables, Segment::Texts)?;
        let units = read_destination(alloc, &mut text, fixed, &mut buffer)?;
        lists.add_bf(BfRange { range, units })?;
    }
    Ok(())
}

/// The units of the destination that the text begins with.
#[inline(always)]
fn read_destination(
    alloc: Global,
    text: &mut &[u8],
    fixed: Option<u8>,
    buffer: &mut Vec<u16>,
) -> Result<Units, Fault<Reason>>
    ensures { ReadsOr (DestinationAt fixed text.old.now) (λ reason. reason ≡ Entry Texts)
        (λ units. (units_seen units, text.new.now)) result }
{
    match fixed {
        Some(count) => read_units(alloc, text, count, buffer),
        None => {
            let Some(count) = take_byte(text) else {
                return Err(Fault::Refused(Reason::Entry(Segment::Texts)));
            };
            read_units(alloc, text, count, buffer)
        }
    }
}

/// The `count` units that the text begins with. More than two units are gathered in the buffer.
#[inline(always)]
fn read_units(
    alloc: Global,
    text: &mut &[u8],
    count: u8,
    buffer: &mut Vec<u16>,
) -> Result<Units, Fault<Reason>>
    ensures { ReadsOr (RowOf (FieldAt 2) count text.old.now) (λ reason. reason ≡ Entry Texts)
        (λ units. (units_seen units, text.new.now)) result }
{
    if count == 1 {
        let Some(unit) = take_u16(text) else {
            return Err(Fault::Refused(Reason::Entry(Segment::Texts)));
        };
        return Ok(Units::One([unit]));
    }
    if count == 2 {
        let Some(units) = take_two(text) else {
            return Err(Fault::Refused(Reason::Entry(Segment::Texts)));
        };
        return Ok(Units::Two(units));
    }
    buffer.clear();
    for _ in 0..count {
        let Some(unit) = take_u16(text) else {
            return Err(Fault::Refused(Reason::Entry(Segment::Texts)));
        };
        buffer.push(unit)?;
    }
    let units = Units::from_slice(alloc, buffer)?;
    Ok(units)
}

/// The two units that the text begins with.
fn take_two(text: &mut &[u8]) -> Option<[u16; 2]>
    ensures { Finds (RowOf (FieldAt 2) 2 text.old.now) (λ units. (units, text.new.now)) result }
{
    let first = take_u16(text)?;
    let second = take_u16(text)?;
    Some([first, second])
}
