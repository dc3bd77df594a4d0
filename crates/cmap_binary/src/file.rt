//! CMap files in the binary form bcmap: a header that declares the length of the file, and segments
//! up to that length.

ghost use Rattle.std.specs.Prelude.{◌≡◌, ◌↔◌, ◌+◌, IfErr, IfOk, IsTrue, length};
ghost use Rattle.cmap_binary.specs.BinaryFaults.{IsBinaryFault, SegmentFault};
ghost use Rattle.cmap_binary.specs.BinaryFiles.{BodyOf, IsBinaryFile, IsMarkedBinary};
ghost use Rattle.cmap_binary.specs.BinarySeen.{SegmentsSay};
ghost use Rattle.cmap_binary.specs.BundleSeen.{bundle_seen, tables_seen};
ghost use Rattle.cmap_values.specs.Only.{IsOnly, HoldsOfNone};
ghost use Rattle.cmap_values.specs.Outcomes.{Finds, ReadsFile, RefusesWith, StopsWithin};
ghost use Rattle.cmap_values.specs.FilesSeen.{file_seen};
ghost use Rattle.cmap_values.specs.ListsAppended.{no_file};

use crate::pieces::take_framed;
use crate::segments::read_segment;
use crate::{Bundle, Tables};
use cmap_values::fault::{Fault, Reason, Stop};
use cmap_values::file::File;
use std::alloc::Global;

/// The first bytes of a binary file.
const MAGIC: &[u8] = b"bcmap";

/// The first bytes of a binary file of version 1, the only version that is read and written.
pub const HEAD: &[u8] = b"bcmap\x01";

/// The number of bytes in the header of a file.
pub(crate) const HEADER_LEN: usize = 10;

/// The number of bytes in a segment before its length: the type of the segment.
pub(crate) const TYPE_LEN: usize = 1;

/// The number of bytes in a segment before its payload: the type and the length of the segment.
pub(crate) const SEGMENT_HEAD: usize = 5;

/// Whether the bytes are marked as a binary file.
pub fn is_marked_binary(bytes: &[u8]) -> bool
    ensures { IsTrue result ↔ IsMarkedBinary bytes.now }
{
    bytes.starts_with(MAGIC)
}

/// Reads a binary file by the prefix tables of a bundle. If the file is refused, the error gives
/// the reason and the offset of the fault: 0 for the header, or else the start of the first segment
/// that can't be read.
pub fn read_binary<'d>(
    alloc: Global,
    bundle: &Bundle<'_>,
    bytes: &'d [u8],
) -> Result<File<'d>, Fault<Stop>>
    ensures file { ReadsFile (IsBinaryFile (bundle_seen bundle.now).tables) file_seen bytes.now result }

    // The error is the fault of the header, or else the fault of the first segment at fault.
    ensures place { IfErr result (RefusesWith (IsBinaryFault (bundle_seen bundle.now).tables bytes.now)) }
{
    let Some(body) = split_body(bytes) else {
        let (offset, reason) = (0, Reason::Header);
        return Err(Fault::Refused(Stop { offset, reason }));
    };
    read_segments(alloc, bundle.tables(), body)
}

/// The segments of a file, without its header; bytes after the length that the header declares are
/// ignored.
pub(crate) fn split_body(mut bytes: &[u8]) -> Option<&[u8]>
    ensures { Finds (BodyOf bytes.now) (λ body. body.now) result }
{
    match take_framed(&mut bytes, HEAD.len()) {
        Some(file) if file.starts_with(HEAD) => Some(&file[HEADER_LEN..]),
        _ => None,
    }
}

/// Reads the segments after the header into a new file.
fn read_segments<'d>(
    alloc: Global,
    tables: &Tables,
    body: &'d [u8],
) -> Result<File<'d>, Fault<Stop>>
    ensures says { IfOk result
        (λ file. IsOnly (SegmentsSay (tables_seen tables.now) body.now) (file_seen file)) }
    ensures stops { IfErr result (StopsWithin (HEADER_LEN + length body.now)
        (HoldsOfNone (SegmentsSay (tables_seen tables.now) body.now))) }
    ensures first { IfErr result (RefusesWith (SegmentFault (tables_seen tables.now) 10 body.now)) }
{
    let mut file = File::new(alloc);
    add_segments(alloc, tables, body, &mut file)?;
    Ok(file)
}

/// Reads all the segments after the header, and adds their content to an empty file.
fn add_segments<'d>(
    alloc: Global,
    tables: &Tables,
    body: &'d [u8],
    file: &mut File<'d>,
) -> Result<(), Fault<Stop>>
    requires { file_seen file.old ≡ no_file }
    ensures says { IfOk result
        (λ _. IsOnly (SegmentsSay (tables_seen tables.now) body.now) (file_seen file.new)) }
    ensures stops { IfErr result (StopsWithin (HEADER_LEN + length body.now)
        (HoldsOfNone (SegmentsSay (tables_seen tables.now) body.now))) }
    ensures first { IfErr result (RefusesWith (SegmentFault (tables_seen tables.now) 10 body.now)) }
{
    let mut segments = body;
    while !segments.is_empty() {
        let offset = HEADER_LEN + (body.len() - segments.len());
        let Some(segment) = take_framed(&mut segments, TYPE_LEN) else {
            let reason = Reason::SegmentLength;
            return Err(Fault::Refused(Stop { offset, reason }));
        };
        let (number, payload) = (segment[0], &segment[SEGMENT_HEAD..]);
        match read_segment(alloc, tables, number, payload, file) {
            Ok(()) => {}
            Err(Fault::Refused(reason)) => return Err(Fault::Refused(Stop { offset, reason })),
            Err(Fault::Memory) => return Err(Fault::Memory),
        }
    }
    Ok(())
}
