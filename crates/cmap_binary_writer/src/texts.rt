//! Segments of codes with their texts.

ghost use Rattle.std.specs.Prelude.{◌≡◌, ◌≤◌, ◌<◌, ◌^◌, ◌++◌, All, IfErr, IfOk, IsFalse, IsTrue, drop, get_or, length, map, take};
ghost use Rattle.cmap_values.specs.DeclarationsSeen.{bf_entry_seen};
ghost use Rattle.cmap_values.specs.Files.{Declaration};
ghost use Rattle.cmap_values.specs.Outcomes.{RefusesWith};
ghost use Rattle.cmap_values.specs.UnitsSeen.{units_seen};
ghost use Rattle.cmap_values.specs.declared.declarations.BfRange.{BfRange};
ghost use Rattle.cmap_binary_writer.specs.Arranged.{AddsFull, AddsTextEntries, AreEnded, HoldsEntries, bf_type, shape_of, text_type, units_fixed};
ghost use Rattle.cmap_binary_writer.specs.EncodersSeen.{shape_seen};
ghost use Rattle.cmap_binary_writer.specs.Obstacles.{IsTextObstacle};
ghost use Rattle.cmap_binary_writer.specs.Pieces.{IsShortText};
ghost use Rattle.cmap_binary_writer.specs.PreparedFiles.{AddsSameTexts};
ghost use Rattle.cmap_binary_writer.specs.Segments.{AddsSegments, IsSegmentOf};
ghost use Rattle.cmap_binary_writer.specs.Texts.{AreHeldTexts, BeginsWithForm, CanFix, FollowsText, HasForm, IsLongTextIn, IsNumberOf, destination, destinations};

use crate::bytes::push_u16s;
use crate::columns::{Shape, counts, deltas};
use crate::obstacle::Obstacle;
use crate::segments::Segment;
use crate::text_parts::{decided_texts, split_texts};
use cmap_values::declarations::BfRange;
use cmap_values::fault::Fault;
use std::alloc::{AllocError, Global};

/// The most entries of a segment.
const MOST: usize = 65535;

/// The most units of a text.
const MOST_UNITS: usize = 255;

/// Adds segments that give each code the text that this list gives.
pub(crate) fn add_text_list(
    alloc: Global,
    list: &[BfRange],
    segments: &mut Vec<Segment>,
) -> Result<(), Fault<Obstacle>>
    ensures added { IfOk result (λ _. AddsSameTexts (map bf_entry_seen list.now) segments.old.items segments.new.items) }
    ensures arranged { IfOk result (λ _. AddsTextEntries (map bf_entry_seen list.now) segments.old.items segments.new.items) }
    ensures err { IfErr result (RefusesWith (IsTextObstacle (map bf_entry_seen list.now))) }
{
    let ranges = decided_texts(alloc, list)?;
    check_units(&ranges)?;
    let mut pieces = split_texts(alloc, &ranges)?;
    pieces.sort_by_key(|piece| type_of(piece))?;
    add_texts(alloc, &pieces, segments)?;
    Ok(())
}

/// Checks that no text has more than 255 units.
fn check_units(ranges: &[BfRange]) -> Result<(), Fault<Obstacle>>
    ensures counted { IfOk result (λ _. All (λ e. length e.units < 2 ^ 8) (map bf_entry_seen ranges.now)) }
    ensures err { IfErr result (IsLongTextIn ranges.now) }
{
    for range in ranges {
        if range.units.as_slice().len() > MOST_UNITS {
            return Err(Fault::Refused(Obstacle::Text(range.range)));
        }
    }
    Ok(())
}

/// The form of the entries of a segment of texts.
#[derive(Clone, Copy)]
struct TextForm {
    shape: Shape,
    /// The number of units of each text; `None` where a number stands before each text.
    units: Option<u8>,
}

impl TextForm {
    /// The form in which an entry takes the fewest bytes.
    fn of(entry: &BfRange) -> TextForm
        ensures shape { shape_seen result.shape ≡ shape_of entry.now.range.start entry.now.range.end }
        ensures units { result.units ≡ units_fixed (shape_seen result.shape) (length (units_seen entry.now.units)) }
        ensures fixes { CanFix (shape_seen result.shape) result.units }
        ensures form { HasForm (shape_seen result.shape) result.units entry.now }
    {
        let shape = Shape::of(entry.range);
        let count = entry.units.as_slice().len();
        let units = if 1 <= count && count <= shape.most_fixed() {
            Some(count as u8)
        } else {
            None
        };
        TextForm { shape, units }
    }

    /// The type of the segment.
    fn number(self) -> u8
        requires { CanFix (shape_seen self.shape) self.units }
        ensures read { IsNumberOf (shape_seen self.shape) self.units result }
        ensures is { result ≡ text_type (shape_seen self.shape) self.units }
    {
        match (self.shape, self.units) {
            (Shape::Ranges, Some(units)) => 0x14 + units,
            (Shape::Singles, Some(units)) => 0x10 + units,
            (Shape::Ranges, None) => 0x0F,
            (Shape::Singles, None) => 0x10,
        }
    }
}

/// The type of the segments in which an entry stands.
fn type_of(entry: &BfRange) -> u8
    ensures { result ≡ bf_type (bf_entry_seen entry.now) }
{
    TextForm::of(entry).number()
}

/// Adds segments for these pieces of ranges, in order.
fn add_texts(
    alloc: Global,
    pieces: &[BfRange],
    segments: &mut Vec<Segment>,
) -> Result<(), AllocError>
    requires { All IsShortText (map bf_entry_seen pieces.now) }
    ensures added { IfOk result (λ _. AddsSegments segments.old.items segments.new.items
        (map Declaration.bf (map bf_entry_seen pieces.now))) }
    ensures full { IfOk result (λ _. AddsFull segments.old.items segments.new.items
        (map Declaration.bf (map bf_entry_seen pieces.now))) }
{
    let mut left = pieces;
    while !left.is_empty() {
        let form = first_form(left);
        let (here, later) = left.split_at(segment_len(form, left));
        segments.push(text_segment(alloc, form, here)?)?;
        left = later;
    }
    Ok(())
}

/// The form of the next entry.
fn first_form(entries: &[BfRange]) -> TextForm
    requires { 0 < length entries.now }
    ensures fixes { CanFix (shape_seen result.shape) result.units }
    ensures first { BeginsWithForm (shape_seen result.shape) result.units entries.now }
    ensures typed { (d : BfRange) → bf_type (bf_entry_seen (get_or entries.now 0 d)) ≡ text_type (shape_seen result.shape) result.units }
{
    TextForm::of(&entries[0])
}

/// The number of entries of the next segment: all entries have one form, and each comes after the
/// one before.
fn segment_len(form: TextForm, entries: &[BfRange]) -> usize
    requires fixes { CanFix (shape_seen form.shape) form.units }
    requires first { BeginsWithForm (shape_seen form.shape) form.units entries.now }
    requires typed { (d : BfRange) → bf_type (bf_entry_seen (get_or entries.now 0 d)) ≡ text_type (shape_seen form.shape) form.units }
    requires short { All IsShortText (map bf_entry_seen entries.now) }
    ensures some { 1 ≤ result }
    ensures within { result ≤ length entries.now }
    ensures held { AreHeldTexts (shape_seen form.shape) form.units (take result entries.now) }
    ensures typed { All (λ e. bf_type e ≡ text_type (shape_seen form.shape) form.units) (map bf_entry_seen (take result entries.now)) }
    ensures ended { AreEnded (map Declaration.bf (map bf_entry_seen (take result entries.now))) (map Declaration.bf (map bf_entry_seen (drop result entries.now))) }
{
    let mut count = 1;
    while count < entries.len()
        && count < MOST
        && follows(form, &entries[count - 1], &entries[count])
    {
        count += 1;
    }
    count
}

/// Whether an entry can follow another one in a segment of this form.
fn follows(form: TextForm, before: &BfRange, entry: &BfRange) -> bool
    requires { CanFix (shape_seen form.shape) form.units }
    ensures yes { IsTrue result → FollowsText (shape_seen form.shape) form.units before.now entry.now }
    ensures typed { IsTrue result → bf_type (bf_entry_seen entry.now) ≡ text_type (shape_seen form.shape) form.units }
    ensures no { IsFalse result → before.now.range.end < entry.now.range.start → bf_type (bf_entry_seen entry.now) ≡ text_type (shape_seen form.shape) form.units → ⊥ }
{
    before.range.end < entry.range.start && TextForm::of(entry).number() == form.number()
}

/// A segment of these codes, with their texts.
fn text_segment(alloc: Global, form: TextForm, entries: &[BfRange]) -> Result<Segment, AllocError>
    requires fixes { CanFix (shape_seen form.shape) form.units }
    requires held { AreHeldTexts (shape_seen form.shape) form.units entries.now }
    requires typed { All (λ e. bf_type e ≡ text_type (shape_seen form.shape) form.units) (map bf_entry_seen entries.now) }
    ensures says { IfOk result (λ segment. IsSegmentOf segment (map Declaration.bf (map bf_entry_seen entries.now))) }
    ensures holds { IfOk result (λ segment. HoldsEntries segment (map Declaration.bf (map bf_entry_seen entries.now))) }
{
    let mut values = Vec::new(alloc);
    push_texts(&mut values, form.units, entries)?;
    Ok(Segment {
        number: form.number(),
        shape: form.shape,
        deltas: deltas(alloc, entries)?,
        counts: counts(alloc, form.shape, entries)?,
        values,
    })
}

/// Writes the texts of entries. Each text has the fixed number of units, if a number is fixed.
fn push_texts(out: &mut Vec<u8>, fixed: Option<u8>, entries: &[BfRange]) -> Result<(), AllocError>
    requires { All IsShortText (map bf_entry_seen entries.now) }
    ensures { IfOk result (λ _. out.new.items ≡ out.old.items ++ destinations fixed entries.now) }
{
    for entry in entries {
        push_text(out, fixed, entry.units.as_slice())?;
    }
    Ok(())
}

/// Writes the units of a text, with their number before them where it isn't fixed.
fn push_text(out: &mut Vec<u8>, fixed: Option<u8>, units: &[u16]) -> Result<(), AllocError>
    requires { length units.now < 2 ^ 8 }
    ensures { IfOk result (λ _. out.new.items ≡ out.old.items ++ destination fixed units.now) }
{
    if fixed.is_none() {
        out.push(units.len() as u8)?;
    }
    push_u16s(out, units)
}
