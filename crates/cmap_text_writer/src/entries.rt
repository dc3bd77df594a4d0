//! Entries of sections, a line each.

ghost use Rattle.std.specs.Prelude.{◌≡◌, ◌++◌, ◌<◌, ◌^◌, All, IfOk, OnOk, flat_map, length, map};
ghost use Rattle.cmap_values.specs.DeclarationsSeen.{bf_entry_seen, cid_entry_seen, codespace_seen, entries_seen};
ghost use Rattle.cmap_values.specs.CodeLengths.{length_of};
ghost use Rattle.cmap_text_writer.specs.Fits.{AreSmallUnits, IsLine, IsSmallCid, IsSmallText};
ghost use Rattle.cmap_text.specs.TextSeen.{extent_seen};
ghost use Rattle.cmap_text_writer.specs.Layout.{array_spelled, char_spelled, line_spelled, next_text_spelled};
ghost use Rattle.cmap_text_writer.specs.Lengths.{text_length};
ghost use Rattle.cmap_text_writer.specs.Spelled.{cid_spelled, codes_spelled, space_spelled, text_spelled};
ghost use Rattle.cmap_text_writer.specs.Told.{HasLines};

use crate::digits::{fitting, push_code, push_next_units, push_number, push_units};
use crate::runs::count_line;
use crate::text_lengths::TextLengths;
use cmap_text::Extent;
use cmap_values::code_length::CodeLength;
use cmap_values::declarations::{BfRange, CidRange, Codespace};
use cmap_values::range::Range;
use std::alloc::AllocError;

/// Writes codespace ranges.
pub(crate) fn push_spaces(out: &mut Vec<u8>, spaces: &[Codespace]) -> Result<(), AllocError>
    ensures { OnOk result (out.new.items ≡ out.old.items ++ flat_map space_spelled (map codespace_seen spaces.now)) }
{
    for space in spaces {
        push_space(out, *space)?;
    }
    Ok(())
}

/// Writes a codespace range: the low code, the high code.
fn push_space(out: &mut Vec<u8>, space: Codespace) -> Result<(), AllocError>
    ensures { OnOk result (out.new.items ≡ out.old.items ++ space_spelled (codespace_seen space)) }
{
    push_code(out, space.len, space.low, b' ')?;
    push_code(out, space.len, space.high, b'\n')
}

/// Writes declarations of CIDs.
pub(crate) fn push_cid_entries(
    out: &mut Vec<u8>,
    len: CodeLength,
    extent: Extent,
    entries: &[CidRange],
) -> Result<(), AllocError>
    ensures written { OnOk result (out.new.items ≡ out.old.items ++ flat_map (cid_spelled (length_of len) (extent_seen extent)) (entries_seen entries.now)) }
    ensures small { OnOk result (All IsSmallCid (entries_seen entries.now)) }
{
    for entry in entries {
        push_cid(out, len, extent, entry)?;
    }
    Ok(())
}

/// Writes a declaration of CIDs: its code or both ends, and the CID.
fn push_cid(
    out: &mut Vec<u8>,
    len: CodeLength,
    extent: Extent,
    entry: &CidRange,
) -> Result<(), AllocError>
    ensures written { OnOk result (out.new.items ≡ out.old.items ++ cid_spelled (length_of len) (extent_seen extent) (cid_entry_seen entry.now)) }
    ensures end { OnOk result (entry.now.range.end < 2 ^ 32) }
    ensures cid { OnOk result (entry.now.cid < 2 ^ 32) }
{
    push_codes(out, len, extent, entry.range)?;
    push_number(out, entry.cid, b'\n')
}

/// Writes the code or both ends of a declaration, with a space after each.
fn push_codes(
    out: &mut Vec<u8>,
    len: CodeLength,
    extent: Extent,
    range: Range,
) -> Result<(), AllocError>
    ensures written { OnOk result (out.new.items ≡ out.old.items ++ codes_spelled (length_of len) range.start range.end (extent_seen extent)) }
    ensures start { range.start < 2 ^ 32 }
    ensures end { range.end < 2 ^ 32 }
{
    push_code(out, len, range.start, b' ')?;
    match extent {
        Extent::Single => Ok(()),
        Extent::Range => push_code(out, fitting(len, range.end), range.end, b' '),
    }
}

/// Writes texts of single codes.
pub(crate) fn push_chars(
    out: &mut Vec<u8>,
    lengths: TextLengths,
    entries: &[BfRange],
) -> Result<(), AllocError>
    ensures written { OnOk result (out.new.items ≡ out.old.items ++ flat_map (char_spelled (text_length lengths)) (map bf_entry_seen entries.now)) }
    ensures small { OnOk result (All IsSmallText (map bf_entry_seen entries.now)) }
{
    for entry in entries {
        push_text(out, lengths, Extent::Single, entry)?;
    }
    Ok(())
}

/// Writes a declaration of a text: its code or both ends, and the units.
fn push_text(
    out: &mut Vec<u8>,
    lengths: TextLengths,
    extent: Extent,
    entry: &BfRange,
) -> Result<(), AllocError>
    ensures written { OnOk result (out.new.items ≡ out.old.items ++ text_spelled (text_length lengths entry.now.range.start) (extent_seen extent) (bf_entry_seen entry.now)) }
    ensures small { OnOk result (IsSmallText (bf_entry_seen entry.now)) }
{
    push_codes(out, lengths.of(entry.range.start), extent, entry.range)?;
    push_units(out, entry.units.as_slice())?;
    out.extend_from_slice(b"\n")
}

/// Writes texts of ranges, and arrays of texts. The result is the number of lines.
pub(crate) fn push_lines(
    out: &mut Vec<u8>,
    lengths: TextLengths,
    entries: &[BfRange],
) -> Result<u32, AllocError>
    requires { length entries.now < 2 ^ 32 }
    ensures { IfOk result (λ count. HasLines (text_length lengths) (map bf_entry_seen entries.now) count out.old.items out.new.items) }
{
    let mut left = entries;
    let mut count = 0;
    while !left.is_empty() {
        let (here, later) = left.split_at(count_line(left));
        push_line(out, lengths, here)?;
        count += 1;
        left = later;
    }
    Ok(count)
}

/// Writes one line: a text of a range, or an array of texts.
fn push_line(out: &mut Vec<u8>, lengths: TextLengths, entries: &[BfRange]) -> Result<(), AllocError>
    requires { IsLine (map bf_entry_seen entries.now) }
    ensures written { OnOk result (out.new.items ≡ out.old.items ++ line_spelled (text_length lengths) (map bf_entry_seen entries.now)) }
    ensures small { OnOk result (All IsSmallText (map bf_entry_seen entries.now)) }
{
    match entries {
        [entry] => push_text(out, lengths, Extent::Range, entry),
        [first, .., last] => {
            let range = Range {
                start: first.range.start,
                end: last.range.end,
            };
            push_codes(out, lengths.of(range.start), Extent::Range, range)?;
            push_array(out, entries)
        }
        [] => Ok(()),
    }
}

/// Writes an array of texts, and a line end.
fn push_array(out: &mut Vec<u8>, entries: &[BfRange]) -> Result<(), AllocError>
    requires { 0 < length entries.now }
    ensures written { OnOk result (out.new.items ≡ out.old.items ++ array_spelled (map (λ e. e.units) (map bf_entry_seen entries.now))) }
    ensures small { OnOk result (All AreSmallUnits (map (λ e. e.units) (map bf_entry_seen entries.now))) }
{
    let [first, others @ ..] = entries else {
        return Ok(());
    };
    out.extend_from_slice(b"[")?;
    push_units(out, first.units.as_slice())?;
    push_next_texts(out, others)?;
    out.extend_from_slice(b"]\n")?;
    Ok(())
}

/// Writes texts, with a space before each.
fn push_next_texts(out: &mut Vec<u8>, entries: &[BfRange]) -> Result<(), AllocError>
    ensures written { OnOk result (out.new.items ≡ out.old.items ++ flat_map next_text_spelled (map (λ e. e.units) (map bf_entry_seen entries.now))) }
    ensures small { OnOk result (All AreSmallUnits (map (λ e. e.units) (map bf_entry_seen entries.now))) }
{
    for entry in entries {
        push_next_units(out, entry.units.as_slice())?;
    }
    Ok(())
}
