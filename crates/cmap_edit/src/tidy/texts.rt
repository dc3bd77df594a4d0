//! Texts of codes, added to tidy lists.

ghost use Rattle.std.specs.Prelude.{◌≡◌, ◌↔◌, ℕ, ◌+◌, ◌-◌, ◌/◌, ◌<◌, ◌≤◌, ◌^◌, All, IfOk, IsFalse, IsTrue, List, OnErr, OnOk, Option, Some, length, map};
ghost use Rattle.cmap_tokens.specs.Texts.{shifted};
ghost use Rattle.cmap_values.specs.DeclarationsSeen.{bf_entry_seen};
ghost use Rattle.cmap_values.specs.Files.{BfEntry};
ghost use Rattle.cmap_values.specs.UnitsSeen.{units_seen};
ghost use Rattle.cmap_edit.specs.Tidy.{AreTidyTexts, CouldBeOneText, IsSaidInPart, IsTextRow, last_unit, said_with, units_said};
ghost use Rattle.cmap_edit.specs.Consecutive.{merged_text, text_layout};

use crate::tidy::consecutive::{Consecutive, push_rows};
use crate::tidy::rows::row_end;
use cmap_values::declarations::BfRange;
use cmap_values::range::Range;
use cmap_values::units::Units;
use std::alloc::{AllocError, Global};

/// Adds codes to a tidy list. All codes of the list come before the new codes. The first code has the text
/// of these units, and the last unit counts on from code to code.
///
/// The function adds a declaration for each row of 256 codes, cut at each row of 256 last units. Where the
/// first declaration goes on from the last declaration of the list, the two become one.
///
/// The function fails only if memory runs out. After a failure the list is still tidy, and may have the
/// first of the codes.
pub fn push_texts(
    alloc: Global,
    list: &mut Vec<BfRange>,
    range: Range,
    units: &[u16],
) -> Result<(), AllocError>
    requires tidy { AreTidyTexts (map bf_entry_seen list.now.items) }
    requires after { All (λ e. e.end < range.start) (map bf_entry_seen list.now.items) }
    requires some { 0 < length units.now }
    requires counts { (range.start ≤ range.end)
        × (last_unit units.now + (range.end - range.start) < 2 ^ 16) }
    ensures tidy { OnOk result (AreTidyTexts (map bf_entry_seen list.new.items)) }
    ensures said { OnOk result ((code : ℕ) → units_said (map bf_entry_seen list.new.items) code
        ≡ said_with range (λ code. shifted units.now (code - range.start))
        (units_said (map bf_entry_seen list.old.items)) code) }
    ensures last { OnOk result (All (λ e. e.end ≤ range.end) (map bf_entry_seen list.new.items)) }
    ensures err { OnErr result (AreTidyTexts (map bf_entry_seen list.new.items)) }
    ensures kept { OnErr result (IsSaidInPart range (λ code. shifted units.now (code - range.start))
        (units_said (map bf_entry_seen list.old.items))
        (units_said (map bf_entry_seen list.new.items))) }
{
    push_rows(list, range, &TextsFrom { alloc, units })
}

/// Codes in a row of which the first has the text of these units.
#[derive(Clone, Copy)]
struct TextsFrom<'u> {
    alloc: Global,
    units: &'u [u16],
}

impl<'u> Consecutive for TextsFrom<'u> {
    type Entry = BfRange;

    ghost Seen = { BfEntry };

    ghost Answer = { Option (List ℕ) };

    ghost layout = { text_layout };

    ghost seen = { bf_entry_seen };

    ghost here = { λ texts offset. shifted texts.units.now offset };

    ghost Fits = { λ texts offset. (0 < length texts.units.now)
        × (last_unit texts.units.now + offset < 2 ^ 16) };

    fn row(&self, offset: u32, start: u32, last: u32) -> Result<BfRange, AllocError> {
        let units = counted_on(self.alloc, self.units, offset)?;
        let range = Range {
            start,
            end: text_row_end(start, last, units.as_slice()),
        };
        Ok(BfRange { range, units })
    }

    fn join(entry: &mut BfRange, later: &BfRange) -> bool
        requires row { IsTextRow (bf_entry_seen entry.old) }
        requires after { entry.old.range.end < later.now.range.start }
        ensures joined { IsTrue result
            → CouldBeOneText (bf_entry_seen entry.old) (bf_entry_seen later.now)
            × (bf_entry_seen entry.new
            ≡ merged_text (bf_entry_seen entry.old) (bf_entry_seen later.now)) }
        ensures same { IsFalse result → (entry.new ≡ entry.old)
            × (CouldBeOneText (bf_entry_seen entry.old) (bf_entry_seen later.now) → ⊥) }
    {
        let is_one = could_be_one(entry, later);
        if is_one {
            entry.range.end = later.range.end;
        }
        is_one
    }
}

/// Whether there are units, and the last unit plus the offset fits in 16 bits.
pub(crate) fn fits(units: &[u16], offset: u32) -> bool
    ensures { IsTrue result ↔ ((0 < length units.now) × (last_unit units.now + offset < 2 ^ 16)) }
{
    match units.last() {
        Some(last) => u64::from(*last) + u64::from(offset) < 0x1_0000,
        None => false,
    }
}

/// The units with the offset added to the last one.
pub(crate) fn counted_on(alloc: Global, units: &[u16], offset: u32) -> Result<Units, AllocError>
    requires some { 0 < length units.now }
    requires fits { last_unit units.now + offset < 2 ^ 16 }
    ensures { IfOk result (λ made. shifted units.now offset ≡ Some (units_seen made)) }
{
    if offset == 0 {
        return Units::from_slice(alloc, units);
    }
    let mut copy = Vec::from_slice(alloc, units)?;
    if let Some(last) = copy.last_mut() {
        *last += offset as u16;
    }
    Units::from_slice(alloc, copy.as_slice())
}

/// The last code, at most `last`, in the row of `first` whose last unit stays in the same row of 256 units.
fn text_row_end(first: u32, last: u32, units: &[u16]) -> u32
    requires within { first ≤ last }
    requires some { 0 < length units.now }
    ensures within { (first ≤ result) × (result ≤ last) }
    ensures row { IsTextRow (record { start = first; end = result; units = units.now }) }
{
    let end = row_end(first, last);
    match units.last() {
        Some(unit) => first + (end - first).min(u32::from(255 - unit % 256)),
        None => end,
    }
}

/// Whether one declaration could replace two, the second of which comes later.
fn could_be_one(entry: &BfRange, later: &BfRange) -> bool
    requires row { IsTextRow (bf_entry_seen entry.now) }
    requires after { entry.now.range.end < later.now.range.start }
    ensures { IsTrue result ↔ CouldBeOneText (bf_entry_seen entry.now) (bf_entry_seen later.now) }
{
    entry.range.end == later.range.start - 1
        && entry.range.start / 256 == later.range.start / 256
        && count_on(
            entry.units.as_slice(),
            later.range.start - entry.range.start,
            later.units.as_slice(),
        )
}

/// Whether the last of the later units is the last unit plus the offset, with a change in the last byte
/// alone, after the same units.
fn count_on(units: &[u16], offset: u32, later: &[u16]) -> bool
    ensures { IsTrue result ↔ ((shifted units.now offset ≡ Some later.now)
        × (last_unit units.now / 256 ≡ last_unit later.now / 256)) }
{
    let Some((unit, front)) = units.split_last() else {
        return false;
    };
    let Some((later_unit, later_front)) = later.split_last() else {
        return false;
    };
    u64::from(*unit) + u64::from(offset) == u64::from(*later_unit)
        && unit / 256 == later_unit / 256
        && front == later_front
}
