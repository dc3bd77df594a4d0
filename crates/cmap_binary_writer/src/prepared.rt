//! The prepared form of a file, which leaves open by which tables its numbers are spelled.

ghost use Rattle.std.specs.Prelude.{◌≡◌, ◌++◌, IfErr, IfOk};
ghost use Rattle.cmap_values.specs.Files.{File as Said};
ghost use Rattle.cmap_values.specs.FilesSeen.{file_seen};
ghost use Rattle.cmap_values.specs.Outcomes.{Outcome, RefusesWith};
ghost use Rattle.cmap_binary_writer.specs.Arranged.{AddsByLength};
ghost use Rattle.cmap_binary_writer.specs.Encoded.{IsEncoded};
ghost use Rattle.cmap_binary_writer.specs.EncodersSeen.{encoders_seen};
ghost use Rattle.cmap_binary_writer.specs.Fields.{NotdefsFit, notdef_lists_bytes};
ghost use Rattle.cmap_binary_writer.specs.Keeps.{IsWritten};
ghost use Rattle.cmap_binary_writer.specs.Obstacles.{IsCidListsObstacle, IsNotdefListsObstacle, IsObstacle, IsPreparedFor, IsPreparedObstacle};
ghost use Rattle.cmap_values.specs.DeclarationsSeen.{by_length_seen};
ghost use Rattle.cmap_binary_writer.specs.PreparedFiles.{AddsCidLists, IsPrepared};
ghost use Rattle.cmap_binary_writer.specs.Written.{IsFramedFile};

use crate::cids::add_cid_list;
use crate::codespaces::push_codespaces;
use crate::columns::Encoders;
use crate::metadata::{push_metadata, push_uses};
use crate::notdefs::push_notdefs;
use crate::obstacle::Obstacle;
use crate::pieces::push_framed;
use crate::segments::{Segment, push_segments};
use crate::texts::add_text_list;
use cmap_binary::HEAD;
use cmap_values::code_length::CodeLength;
use cmap_values::declarations::{ByLength, CidRange};
use cmap_values::fault::Fault;
use cmap_values::file::File;
use std::alloc::Global;

/// The prepared form of a file, which leaves open by which tables its numbers are spelled.
#[derive(Drop)]
pub struct Prepared {
    /// The segments without columns, as bytes.
    pub fields: Vec<u8>,
    pub segments: Vec<Segment>,
}

/// The prepared form of a file. A file that has an obstacle, such as a CID of more than two bytes, is
/// refused with the obstacle.
pub fn prepare(alloc: Global, file: &File<'_>) -> Result<Prepared, Fault<Obstacle>>
    ensures { Outcome (IsPreparedFor (file_seen file.now)) (IsObstacle (file_seen file.now)) result }
{
    let mut fields = Vec::new(alloc);
    push_metadata(alloc, &file.metadata, &mut fields)?;
    push_uses(&file.uses, &mut fields)?;
    push_codespaces(alloc, &file.lists.spaces, &mut fields)?;
    push_notdef_lists(alloc, &file.lists.notdefs, &mut fields)?;
    let mut segments = Vec::new(alloc);
    add_cid_lists(alloc, &file.lists.cids, &mut segments)?;
    add_text_list(alloc, &file.lists.bfs, &mut segments)?;
    Ok(Prepared { fields, segments })
}

/// Writes the notdef declarations for codes of each length.
fn push_notdef_lists(
    alloc: Global,
    lists: &ByLength<Vec<CidRange>>,
    out: &mut Vec<u8>,
) -> Result<(), Fault<Obstacle>>
    ensures { Outcome (λ _. NotdefsFit (by_length_seen lists.now)
        × (out.new.items ≡ out.old.items ++ notdef_lists_bytes (by_length_seen lists.now)))
        (IsNotdefListsObstacle (by_length_seen lists.now)) result }
{
    push_notdefs(alloc, CodeLength::One, &lists.one, out)?;
    push_notdefs(alloc, CodeLength::Two, &lists.two, out)?;
    push_notdefs(alloc, CodeLength::Three, &lists.three, out)?;
    push_notdefs(alloc, CodeLength::Four, &lists.four, out)
}

/// Adds segments for the CIDs of codes of each length.
fn add_cid_lists(
    alloc: Global,
    lists: &ByLength<Vec<CidRange>>,
    segments: &mut Vec<Segment>,
) -> Result<(), Fault<Obstacle>>
    ensures added { IfOk result (λ _. AddsCidLists lists.now segments.old.items segments.new.items) }
    ensures arranged { IfOk result (λ _. AddsByLength (by_length_seen lists.now) segments.old.items segments.new.items) }
    ensures err { IfErr result (RefusesWith (IsCidListsObstacle (by_length_seen lists.now))) }
{
    add_cid_list(alloc, CodeLength::One, &lists.one, segments)?;
    add_cid_list(alloc, CodeLength::Two, &lists.two, segments)?;
    add_cid_list(alloc, CodeLength::Three, &lists.three, segments)?;
    add_cid_list(alloc, CodeLength::Four, &lists.four, segments)
}

impl Prepared {
    /// The bytes of the file, with its numbers spelled by these tables.
    pub fn write(&self, alloc: Global, tables: &Encoders) -> Result<Vec<u8>, Fault<Obstacle>>
        ensures encoded { IfOk result (λ bytes. IsEncoded (encoders_seen tables.now) self.now bytes.items) }
        ensures framed { IfOk result (λ bytes. IsFramedFile bytes.items) }
        ensures written { IfOk result (λ bytes. (file : Said) → IsPrepared file self.now
            → IsWritten (encoders_seen tables.now) file bytes.items) }
        ensures err { IfErr result (RefusesWith (IsPreparedObstacle (encoders_seen tables.now) self.now)) }
    {
        let mut body = Vec::from_slice(alloc, &self.fields)?;
        push_segments(alloc, tables, &self.segments, &mut body)?;
        let mut bytes = Vec::new(alloc);
        push_framed(&mut bytes, HEAD, &body)?;
        Ok(bytes)
    }
}
