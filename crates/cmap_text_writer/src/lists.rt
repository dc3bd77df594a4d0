//! Lists of declarations, section by section.

ghost use Rattle.std.specs.Prelude.{All, OnOk, map};
ghost use Rattle.cmap_values.specs.DeclarationsSeen.{bf_entry_seen, by_length_seen, codespace_seen, entries_seen, lists_seen};
ghost use Rattle.cmap_values.specs.Files.{Declaration};
ghost use Rattle.cmap_text.specs.TextFiles as files;
ghost use Rattle.cmap_values.specs.CodeLengths.{length_of};
ghost use Rattle.cmap_text_writer.specs.Lengths.{text_length};
ghost use Rattle.cmap_text_writer.specs.Fits.{AllFit, BeginsFitting, HasUnits, IsSpaceFitting, ListsFit};
ghost use Rattle.cmap_values.specs.ListsByKind.{by_length, declarations_of};
ghost use Rattle.cmap_text.specs.TextSeen.{kind_seen};
ghost use Rattle.cmap_text_writer.specs.Told.{Appends, TellsAnyway, TellsSections};

use crate::runs::{MOST, next_cid_section, next_text_section};
use crate::sections::{push_cid_section, push_space_section, push_text_section};
use crate::text_lengths::TextLengths;
use cmap_text::CidKind;
use cmap_values::code_length::CodeLength;
use cmap_values::declarations::{BfRange, ByLength, CidRange, Codespace, Lists};
use std::alloc::{AllocError, Global};

/// Writes all declarations of a file.
pub(crate) fn push_lists(
    alloc: Global,
    out: &mut Vec<u8>,
    lists: &Lists,
    lengths: TextLengths,
) -> Result<(), AllocError>
    requires { AllFit (lists_seen lists.now) }
    ensures { OnOk result (Appends out.old.items out.new.items (TellsSections (text_length lengths) (declarations_of (lists_seen lists.now)))) }
{
    push_codespaces(out, &lists.spaces)?;
    push_by_length(out, CidKind::Notdef, &lists.notdefs)?;
    push_by_length(out, CidKind::Cid, &lists.cids)?;
    push_texts(alloc, out, lengths, &lists.bfs)
}

/// Writes codespace ranges.
fn push_codespaces(out: &mut Vec<u8>, spaces: &[Codespace]) -> Result<(), AllocError>
    requires { All IsSpaceFitting (map codespace_seen spaces.now) }
    ensures { OnOk result (Appends out.old.items out.new.items
        (TellsAnyway (map Declaration.codespace (map codespace_seen spaces.now)))) }
{
    let mut left = spaces;
    while !left.is_empty() {
        let (here, later) = left.split_at(left.len().min(MOST));
        push_space_section(out, here)?;
        left = later;
    }
    Ok(())
}

/// Writes declarations of CIDs for codes of each length.
fn push_by_length(
    out: &mut Vec<u8>,
    kind: CidKind,
    lists: &ByLength<Vec<CidRange>>,
) -> Result<(), AllocError>
    requires { ListsFit (by_length_seen lists.now) }
    ensures { OnOk result (Appends out.old.items out.new.items (TellsAnyway (by_length (files.declares_cid (kind_seen kind))
        (entries_seen lists.now.one.items) (entries_seen lists.now.two.items) (entries_seen lists.now.three.items) (entries_seen lists.now.four.items)))) }
{
    push_cids(out, kind, CodeLength::One, &lists.one)?;
    push_cids(out, kind, CodeLength::Two, &lists.two)?;
    push_cids(out, kind, CodeLength::Three, &lists.three)?;
    push_cids(out, kind, CodeLength::Four, &lists.four)
}

/// Writes declarations of CIDs for codes of one length.
fn push_cids(
    out: &mut Vec<u8>,
    kind: CidKind,
    len: CodeLength,
    entries: &[CidRange],
) -> Result<(), AllocError>
    requires { All (BeginsFitting (length_of len)) (entries_seen entries.now) }
    ensures { OnOk result (Appends out.old.items out.new.items
        (TellsAnyway (map (files.declares_cid (kind_seen kind) (length_of len)) (entries_seen entries.now)))) }
{
    let mut left = entries;
    while !left.is_empty() {
        let (here, later) = left.split_at(next_cid_section(len, left));
        push_cid_section(out, kind, len, here)?;
        left = later;
    }
    Ok(())
}

/// Writes declarations of texts.
fn push_texts(
    alloc: Global,
    out: &mut Vec<u8>,
    lengths: TextLengths,
    entries: &[BfRange],
) -> Result<(), AllocError>
    requires { All HasUnits (map bf_entry_seen entries.now) }
    ensures { OnOk result (Appends out.old.items out.new.items (TellsSections (text_length lengths) (map Declaration.bf (map bf_entry_seen entries.now)))) }
{
    let mut left = entries;
    while !left.is_empty() {
        let (extent, count) = next_text_section(lengths, left);
        let (here, later) = left.split_at(count);
        push_text_section(alloc, out, lengths, extent, here)?;
        left = later;
    }
    Ok(())
}
