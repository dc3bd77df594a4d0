//! The content of segments, by their types.

ghost use Rattle.cmap_binary.specs.BinaryFiles as files;
ghost use Rattle.cmap_binary.specs.BinaryFiles.{IsSegment, SaysAs};
ghost use Rattle.cmap_binary.specs.BinarySeen.{Adds, kind_seen, no_tables};
ghost use Rattle.cmap_binary.specs.WrongSegments.{WrongAs, WrongSegment};
ghost use Rattle.cmap_binary.specs.BundleSeen.{tables_seen};
ghost use Rattle.cmap_values.specs.FilesSeen.{file_seen};

use crate::Tables;
use crate::entries::{add_cids, add_texts};
use crate::fields::{add_codespaces, add_notdefs, set_collection};
use crate::kinds::Kind;
use crate::pieces::take_byte;
use cmap_values::fault::{Fault, Reason, Segment};
use cmap_values::file::File;
use cmap_values::writing_mode::WritingMode;
use std::alloc::Global;

/// Reads a segment, and adds its content to the file.
pub(crate) fn read_segment<'d>(
    alloc: Global,
    tables: &Tables,
    number: u8,
    payload: &'d [u8],
    file: &mut File<'d>,
) -> Result<(), Fault<Reason>>
    ensures { Adds (IsSegment (tables_seen tables.now) number payload.now)
        (WrongSegment (tables_seen tables.now) number payload.now)
        (file_seen file.old) (file_seen file.new) result }
{
    match Kind::of(number) {
        Some(kind) => add_content(alloc, tables, kind, payload, file),
        None => Err(Fault::Refused(Reason::SegmentType)),
    }
}

/// Adds the content of a payload of this type.
fn add_content<'d>(
    alloc: Global,
    tables: &Tables,
    kind: Kind,
    payload: &'d [u8],
    file: &mut File<'d>,
) -> Result<(), Fault<Reason>>
    ensures { Adds (SaysAs (tables_seen tables.now) (kind_seen kind) payload.now)
        (WrongAs (tables_seen tables.now) (kind_seen kind) payload.now)
        (file_seen file.old) (file_seen file.new) result }
{
    match kind {
        Kind::Cids(shape, len) => add_cids(alloc, tables, shape, len, payload, &mut file.lists),
        Kind::Texts(shape, units) => add_texts(
            alloc,
            tables,
            shape,
            units,
            payload,
            &mut file.lists,
        ),
        Kind::Base => add_use(payload, file),
        Kind::Notdefs => add_notdefs(payload, &mut file.lists),
        Kind::Mode => set_mode(payload, file),
        Kind::Codespaces => add_codespaces(payload, &mut file.lists),
        Kind::Name => set_name(alloc, payload, file),
        Kind::Collection => set_collection(alloc, payload, file),
    }
}

/// Adds the name of a file that is used.
fn add_use<'d>(payload: &'d [u8], file: &mut File<'d>) -> Result<(), Fault<Reason>>
    ensures { Adds (SaysAs no_tables files.base payload.now) (WrongAs no_tables files.base payload.now)
        (file_seen file.old) (file_seen file.new) result }
{
    file.uses.push(payload)?;
    Ok(())
}

/// Sets the writing mode: the first byte is 0 for horizontal, 1 for vertical.
fn set_mode(mut payload: &[u8], file: &mut File<'_>) -> Result<(), Fault<Reason>>
    ensures { Adds (SaysAs no_tables files.mode payload.now) (WrongAs no_tables files.mode payload.now)
        (file_seen file.old) (file_seen file.new) result }
{
    let Some(number) = take_byte(&mut payload) else {
        return Err(Fault::Refused(Reason::Field(Segment::WritingMode)));
    };
    file.metadata.writing_mode = WritingMode::numbered(number);
    Ok(())
}

/// Sets the name of the file.
fn set_name(alloc: Global, payload: &[u8], file: &mut File<'_>) -> Result<(), Fault<Reason>>
    ensures { Adds (SaysAs no_tables files.name payload.now) (WrongAs no_tables files.name payload.now)
        (file_seen file.old) (file_seen file.new) result }
{
    let name = Vec::from_slice(alloc, payload)?;
    file.metadata.name = Some(name);
    Ok(())
}
