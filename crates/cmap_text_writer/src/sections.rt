//! Sections: a count, an opener, entries and a closer.

ghost use Rattle.std.specs.Prelude.{◌≡◌, ◌++◌, ◌<◌, ◌≤◌, All, IsTrue, OnOk, length, map};
ghost use Rattle.cmap_values.specs.DeclarationsSeen.{bf_entry_seen, codespace_seen, entries_seen};
ghost use Rattle.cmap_values.specs.Files.{Declaration};
ghost use Rattle.cmap_text.specs.TextFiles as files;
ghost use Rattle.cmap_values.specs.CodeLengths.{length_of};
ghost use Rattle.cmap_text_writer.specs.Fits.{BeginsFitting, HasUnits, IsOfExtent, IsSpaceFitting};
ghost use Rattle.cmap_text_writer.specs.Layout.{Serves};
ghost use Rattle.cmap_text_writer.specs.Lengths.{text_length};
ghost use Rattle.cmap_text.specs.TextSeen.{extent_seen, kind_seen, section_seen};
ghost use Rattle.cmap_text_writer.specs.Spelled.{closer_spelled, opener_spelled};
ghost use Rattle.cmap_text_writer.specs.Told.{Appends, TellsAnyway, TellsSections};

use crate::digits::push_number;
use crate::entries::{push_chars, push_cid_entries, push_lines, push_spaces};
use crate::runs::are_single;
use crate::text_lengths::TextLengths;
use cmap_text::{CidKind, Extent, Section};
use cmap_values::code_length::CodeLength;
use cmap_values::declarations::{BfRange, CidRange, Codespace};
use std::alloc::{AllocError, Global};

/// The number of bytes that suffices for most lines.
const ROOM: usize = 16;

/// Writes the count of a section and the name that opens it.
fn push_opener(out: &mut Vec<u8>, count: u32, section: Section) -> Result<(), AllocError>
    ensures { OnOk result (out.new.items ≡ out.old.items ++ opener_spelled count (section_seen section)) }
{
    push_number(out, count, b' ')?;
    out.extend_from_slice(section.opener())?;
    out.extend_from_slice(b"\n")
}

/// Writes the name that closes a section.
fn push_closer(out: &mut Vec<u8>, section: Section) -> Result<(), AllocError>
    ensures { OnOk result (out.new.items ≡ out.old.items ++ closer_spelled (section_seen section)) }
{
    out.extend_from_slice(section.closer())?;
    out.extend_from_slice(b"\n")
}

/// Writes a section of codespace ranges.
pub(crate) fn push_space_section(out: &mut Vec<u8>, spaces: &[Codespace]) -> Result<(), AllocError>
    requires some { 0 < length spaces.now }
    requires few { length spaces.now ≤ 100 }
    requires fit { All IsSpaceFitting (map codespace_seen spaces.now) }
    ensures { OnOk result (Appends out.old.items out.new.items
        (TellsAnyway (map Declaration.codespace (map codespace_seen spaces.now)))) }
{
    push_opener(out, spaces.len() as u32, Section::Codespaces)?;
    push_spaces(out, spaces)?;
    push_closer(out, Section::Codespaces)
}

/// Writes a section of CIDs.
pub(crate) fn push_cid_section(
    out: &mut Vec<u8>,
    kind: CidKind,
    len: CodeLength,
    entries: &[CidRange],
) -> Result<(), AllocError>
    requires some { 0 < length entries.now }
    requires few { length entries.now ≤ 100 }
    requires start { All (BeginsFitting (length_of len)) (entries_seen entries.now) }
    ensures { OnOk result (Appends out.old.items out.new.items
        (TellsAnyway (map (files.declares_cid (kind_seen kind) (length_of len)) (entries_seen entries.now)))) }
{
    let extent = extent_of(entries);
    let section = Section::Cids(kind, extent);
    push_opener(out, entries.len() as u32, section)?;
    push_cid_entries(out, len, extent, entries)?;
    push_closer(out, section)
}

/// The extent of a section of these entries: for single codes, if all entries are for single codes.
fn extent_of(entries: &[CidRange]) -> Extent
    requires { 0 < length entries.now }
    ensures { Serves (extent_seen result) (λ e. e.start ≡ e.end) (entries_seen entries.now) }
{
    if are_single(entries) {
        Extent::Single
    } else {
        Extent::Range
    }
}

/// Writes a section of texts.
pub(crate) fn push_text_section(
    alloc: Global,
    out: &mut Vec<u8>,
    lengths: TextLengths,
    extent: Extent,
    entries: &[BfRange],
) -> Result<(), AllocError>
    requires some { 0 < length entries.now }
    requires few { length entries.now ≤ 100 }
    requires units { All HasUnits (map bf_entry_seen entries.now) }
    requires extent { All (λ e. IsOfExtent (extent_seen extent) e.start e.end) (map bf_entry_seen entries.now) }
    ensures { OnOk result (Appends out.old.items out.new.items
        (TellsSections (text_length lengths) (map Declaration.bf (map bf_entry_seen entries.now)))) }
{
    match extent {
        Extent::Single => push_char_section(out, lengths, entries),
        Extent::Range => push_line_section(alloc, out, lengths, entries),
    }
}

/// Writes a section of texts of single codes.
fn push_char_section(
    out: &mut Vec<u8>,
    lengths: TextLengths,
    entries: &[BfRange],
) -> Result<(), AllocError>
    requires some { 0 < length entries.now }
    requires few { length entries.now ≤ 100 }
    requires units { All HasUnits (map bf_entry_seen entries.now) }
    requires single { All (λ e. IsOfExtent files.single e.start e.end) (map bf_entry_seen entries.now) }
    ensures { OnOk result (Appends out.old.items out.new.items
        (TellsSections (text_length lengths) (map Declaration.bf (map bf_entry_seen entries.now)))) }
{
    push_opener(out, entries.len() as u32, Section::BfChar)?;
    push_chars(out, lengths, entries)?;
    push_closer(out, Section::BfChar)
}

/// Whether there are as many lines as texts, and all texts are for single codes.
fn are_chars(count: u32, entries: &[BfRange]) -> bool
    ensures yes { IsTrue result → All (λ e. e.start ≡ e.end) (map bf_entry_seen entries.now) }
    ensures no { count ≡ length entries.now → All (λ e. e.start ≡ e.end) (map bf_entry_seen entries.now) → IsTrue result }
{
    count as usize == entries.len() && are_single(entries)
}

/// Writes a section of texts of ranges and arrays of texts, after their count. A section without a range
/// and without an array becomes a section of single codes.
fn push_line_section(
    alloc: Global,
    out: &mut Vec<u8>,
    lengths: TextLengths,
    entries: &[BfRange],
) -> Result<(), AllocError>
    requires some { 0 < length entries.now }
    requires few { length entries.now ≤ 100 }
    requires units { All HasUnits (map bf_entry_seen entries.now) }
    ensures { OnOk result (Appends out.old.items out.new.items
        (TellsSections (text_length lengths) (map Declaration.bf (map bf_entry_seen entries.now)))) }
{
    let mut lines = Vec::with_capacity(alloc, ROOM * entries.len())?;
    let count = push_lines(&mut lines, lengths, entries)?;
    if are_chars(count, entries) {
        return push_char_section(out, lengths, entries);
    }
    push_opener(out, count, Section::BfRange)?;
    out.extend_from_slice(&lines)?;
    push_closer(out, Section::BfRange)
}
