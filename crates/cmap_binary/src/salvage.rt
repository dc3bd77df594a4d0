//! The content of a binary file apart from its faults: reading goes on after each fault.

ghost use Rattle.std.specs.Prelude.{◌≡◌, [], ◌∷◌, ◌++◌, IfOk, OnOk, length};
ghost use Rattle.cmap_values.specs.Faults.{Ascend};
ghost use Rattle.cmap_values.specs.Files as files;
ghost use Rattle.cmap_values.specs.FilesSeen.{file_seen};
ghost use Rattle.cmap_values.specs.ListsAppended.{no_file};
ghost use Rattle.cmap_values.specs.Only.{IsOnly, HoldsOfNone};
ghost use Rattle.cmap_values.specs.Outcomes.{Finds, Outcome};
ghost use Rattle.cmap_binary.specs.BinaryFiles.{Content, IsBinaryFile, IsSegment};
ghost use Rattle.cmap_binary.specs.BinarySalvage.{AfterHeader, BeginsWithin, BodyRead, SalvagesBinary, SegmentsSalvaged};
ghost use Rattle.cmap_binary.specs.BinarySeen.{AddsWhole, IsWrong};
ghost use Rattle.cmap_binary.specs.WrongSegments.{WrongSegment};
ghost use Rattle.cmap_binary.specs.BundleSeen.{bundle_seen, tables_seen};

use crate::file::{HEAD, HEADER_LEN, SEGMENT_HEAD, TYPE_LEN, split_body};
use crate::pieces::take_framed;
use crate::segments::read_segment;
use crate::{Bundle, Tables};
use cmap_values::fault::{Fault, Reason, Stop};
use cmap_values::file::{File, Salvaged};
use std::alloc::{AllocError, Global};

/// Reads a binary file by the prefix tables of a bundle, and gives its content apart from its faults,
/// and the faults. A segment at fault has no content, and the other segments are kept. Bytes that don't
/// begin with a header of version 1 have no content.
///
/// It fails only if memory runs out.
pub fn salvage_binary<'d>(
    alloc: Global,
    bundle: &Bundle<'_>,
    bytes: &'d [u8],
) -> Result<Salvaged<'d>, AllocError>
    // Each segment is read by itself, as `SegmentsFrom` states.
    ensures says { IfOk result (λ found. SalvagesBinary (bundle_seen bundle.now).tables bytes.now
        (file_seen found.file) found.faults.items) }

    // For a valid file, the result is that file and no fault.
    ensures file { IfOk result (λ found. (file : files.File)
        → IsBinaryFile (bundle_seen bundle.now).tables bytes.now file
        → (file_seen found.file ≡ file) × (found.faults.items ≡ [])) }

    // For other bytes there is a fault.
    ensures first { IfOk result (λ found. HoldsOfNone (IsBinaryFile (bundle_seen bundle.now).tables bytes.now)
        → BeginsWithin (length bytes.now) found.faults.items) }

    // The faults are in order, and lie within the bytes.
    ensures ascend { IfOk result (λ found. Ascend 0 found.faults.items (length bytes.now)) }
{
    let mut faults = Vec::new(alloc);
    let file = salvage_file(alloc, bundle.tables(), bytes, &mut faults)?;
    Ok(Salvaged { file, faults })
}

/// The content of the bytes apart from their faults; the faults are added to `faults`.
fn salvage_file<'d>(
    alloc: Global,
    tables: &Tables,
    bytes: &'d [u8],
    faults: &mut Vec<Stop>,
) -> Result<File<'d>, AllocError>
    ensures { IfOk result (λ file. faults.old.items ≡ []
        → SalvagesBinary (tables_seen tables.now) bytes.now (file_seen file) faults.new.items) }
{
    let body = salvage_body(bytes, faults)?;
    salvage_segments(alloc, tables, body, faults)
}

/// The bytes that are read as segments. A fault of the header is added to `faults`.
fn salvage_body<'d>(bytes: &'d [u8], faults: &mut Vec<Stop>) -> Result<&'d [u8], AllocError>
    ensures { IfOk result (λ body. faults.old.items ≡ []
        → BodyRead bytes.now body.now faults.new.items) }
{
    match split_body(bytes) {
        Some(body) => Ok(body),
        None => {
            add_fault(faults, 0, Reason::Header)?;
            Ok(after_header(bytes).unwrap_or(&[]))
        }
    }
}

/// The bytes after a header of version 1, whatever length the header declares.
fn after_header(bytes: &[u8]) -> Option<&[u8]>
    ensures { Finds (AfterHeader bytes.now) (λ rest. rest.now) result }
{
    if bytes.starts_with(HEAD) {
        bytes.get(HEADER_LEN..)
    } else {
        None
    }
}

/// The content of the segments after the header apart from their faults; the faults are added to
/// `faults`.
fn salvage_segments<'d>(
    alloc: Global,
    tables: &Tables,
    body: &'d [u8],
    faults: &mut Vec<Stop>,
) -> Result<File<'d>, AllocError>
    ensures { IfOk result (λ file. SegmentsSalvaged (tables_seen tables.now) body.now (file_seen file)
        faults.old.items faults.new.items) }
{
    let mut file = File::new(alloc);
    add_segments(alloc, tables, body, &mut file, faults)?;
    Ok(file)
}

/// Reads all the segments after the header, and adds their content to an empty file.
fn add_segments<'d>(
    alloc: Global,
    tables: &Tables,
    body: &'d [u8],
    file: &mut File<'d>,
    faults: &mut Vec<Stop>,
) -> Result<(), AllocError>
    requires { file_seen file.old ≡ no_file }
    ensures { OnOk result (SegmentsSalvaged (tables_seen tables.now) body.now (file_seen file.new)
        faults.old.items faults.new.items) }
{
    let mut segments = body;
    while !segments.is_empty() {
        let offset = HEADER_LEN + (body.len() - segments.len());
        let Some(segment) = take_framed(&mut segments, TYPE_LEN) else {
            return add_fault(faults, offset, Reason::SegmentLength);
        };
        match try_segment(alloc, tables, segment[0], &segment[SEGMENT_HEAD..], file) {
            Ok(()) => {}
            Err(Fault::Refused(reason)) => add_fault(faults, offset, reason)?,
            Err(Fault::Memory) => return Err(AllocError),
        }
    }
    Ok(())
}

/// Adds a fault at this offset.
fn add_fault(faults: &mut Vec<Stop>, offset: usize, reason: Reason) -> Result<(), AllocError>
    ensures { OnOk result (faults.new.items ≡ faults.old.items ++ record { offset = offset; reason = reason } ∷ []) }
{
    faults.push(Stop { offset, reason })?;
    Ok(())
}

/// Reads a segment, and adds its content to the file. A segment at fault leaves the file as it is, so
/// each segment is first read into another file.
fn try_segment<'d>(
    alloc: Global,
    tables: &Tables,
    number: u8,
    payload: &'d [u8],
    file: &mut File<'d>,
) -> Result<(), Fault<Reason>>
    ensures { AddsWhole (IsSegment (tables_seen tables.now) number payload.now)
        (WrongSegment (tables_seen tables.now) number payload.now)
        (file_seen file.old) (file_seen file.new) result }
{
    check_segment(alloc, tables, number, payload)?;
    read_segment(alloc, tables, number, payload, file)
}

/// Checks that a segment can be read.
fn check_segment(
    alloc: Global,
    tables: &Tables,
    number: u8,
    payload: &[u8],
) -> Result<(), Fault<Reason>>
    ensures { Outcome
        (λ _. (content : Content) × IsOnly (IsSegment (tables_seen tables.now) number payload.now) content)
        (IsWrong (IsSegment (tables_seen tables.now) number payload.now)
        (WrongSegment (tables_seen tables.now) number payload.now)) result }
{
    let mut file = File::new(alloc);
    read_segment(alloc, tables, number, payload, &mut file)
}
