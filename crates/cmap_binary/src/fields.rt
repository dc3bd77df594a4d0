//! Segments of plain fields: notdef CIDs, codespace ranges, and the character collection.

ghost use Rattle.cmap_binary.specs.BinaryFiles as files;
ghost use Rattle.cmap_binary.specs.BinaryFiles.{CodespaceAt, NotdefAt, SaysAs};
ghost use Rattle.cmap_binary.specs.BinarySeen.{Adds, Declares, no_tables};
ghost use Rattle.cmap_binary.specs.WrongSegments.{WrongAs, WrongLength};
ghost use Rattle.std.specs.Prelude.{slice_get};
ghost use Rattle.cmap_values.specs.Outcomes.{Finds};
ghost use Rattle.cmap_values.specs.DeclarationsSeen.{cid_entry_seen, codespace_seen, lists_seen};
ghost use Rattle.cmap_values.specs.FilesSeen.{file_seen};

use crate::pieces::{take_byte, take_code, take_terminated, take_u16};
use cmap_values::character_collection::{CharacterCollection, CidFamily};
use cmap_values::code_length::CodeLength;
use cmap_values::declarations::{CidRange, Codespace, Lists};
use cmap_values::fault::{Fault, Reason, Segment};
use cmap_values::file::File;
use cmap_values::range::Range;
use std::alloc::Global;

/// Adds the notdef declarations of a segment with this payload: the width of the codes, the number
/// of entries, and the entries. If there are entries, the width must be the length of a code, 1 to 4
/// bytes. Payload after the entries is ignored.
pub(crate) fn add_notdefs(mut payload: &[u8], lists: &mut Lists) -> Result<(), Fault<Reason>>
    ensures { Declares (SaysAs no_tables files.notdefs payload.now) (WrongAs no_tables files.notdefs payload.now)
        (lists_seen lists.old) (lists_seen lists.new) result }
{
    let Some(width) = take_byte(&mut payload) else {
        return Err(Fault::Refused(Reason::Field(Segment::Notdefs)));
    };
    let Some(count) = take_u16(&mut payload) else {
        return Err(Fault::Refused(Reason::Field(Segment::Notdefs)));
    };
    if count == 0 {
        return Ok(());
    }
    let Some(len) = CodeLength::of(width) else {
        return Err(Fault::Refused(Reason::CodeLength));
    };
    for _ in 0..count {
        let Some(range) = take_notdef(&mut payload, width) else {
            return Err(Fault::Refused(Reason::Entry(Segment::Notdefs)));
        };
        lists.add_notdef(len, range)?;
    }
    Ok(())
}

/// The notdef entry that the text begins with, for codes of this width: a start, an end, and a CID
/// of two bytes.
fn take_notdef(text: &mut &[u8], width: u8) -> Option<CidRange>
    ensures { Finds (NotdefAt width text.old.now) (λ range. (cid_entry_seen range, text.new.now)) result }
{
    let start = take_code(text, width)?;
    let end = take_code(text, width)?;
    let cid = take_u16(text)?;
    Some(CidRange {
        range: Range { start, end },
        cid: u32::from(cid),
    })
}

/// Adds the codespace ranges of a segment with this payload. Payload after the ranges is ignored.
pub(crate) fn add_codespaces(mut payload: &[u8], lists: &mut Lists) -> Result<(), Fault<Reason>>
    ensures { Declares (SaysAs no_tables files.codespaces payload.now) (WrongAs no_tables files.codespaces payload.now)
        (lists_seen lists.old) (lists_seen lists.new) result }
{
    let Some(count) = take_byte(&mut payload) else {
        return Err(Fault::Refused(Reason::Field(Segment::Codespaces)));
    };
    for _ in 0..count {
        let entry = payload;
        let Some(space) = take_codespace(&mut payload) else {
            return Err(Fault::Refused(codespace_lack(entry)));
        };
        lists.add_codespace(space)?;
    }
    Ok(())
}

/// The codespace range that the text begins with: the length of its codes, then the low code, then
/// the high code.
fn take_codespace(text: &mut &[u8]) -> Option<Codespace>
    ensures { Finds (CodespaceAt text.old.now) (λ space. (codespace_seen space, text.new.now)) result }
{
    let width = take_byte(text)?;
    let len = CodeLength::of(width)?;
    let low = take_code(text, width)?;
    let high = take_code(text, width)?;
    Some(Codespace { len, low, high })
}

/// The reason why the entry of a codespace range at the start of these bytes can't be read.
fn codespace_lack(entry: &[u8]) -> Reason
    ensures { WrongLength (slice_get entry.now 0) result }
{
    match entry.first() {
        Some(width) if CodeLength::of(*width).is_none() => Reason::CodeLength,
        _ => Reason::Entry(Segment::Codespaces),
    }
}

/// Sets the character collection from a segment with this payload: a registry and an ordering, each
/// up to a zero byte, and the number of a supplement. Payload after the supplement is ignored.
pub(crate) fn set_collection(
    alloc: Global,
    mut payload: &[u8],
    file: &mut File<'_>,
) -> Result<(), Fault<Reason>>
    ensures { Adds (SaysAs no_tables files.collection payload.now) (WrongAs no_tables files.collection payload.now)
        (file_seen file.old) (file_seen file.new) result }
{
    let Some(registry) = take_terminated(&mut payload) else {
        return Err(Fault::Refused(Reason::Field(Segment::Collection)));
    };
    let Some(ordering) = take_terminated(&mut payload) else {
        return Err(Fault::Refused(Reason::Field(Segment::Collection)));
    };
    let Some(supplement) = take_u16(&mut payload) else {
        return Err(Fault::Refused(Reason::Field(Segment::Collection)));
    };
    let family = CidFamily::from_registry_ordering(alloc, registry, ordering)?;
    file.metadata.character_collection = Some(CharacterCollection {
        family,
        supplement: i32::from(supplement),
    });
    Ok(())
}
