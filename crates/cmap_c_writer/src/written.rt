//! A file as text in a buffer.

ghost use Rattle.std.specs.Prelude.{◌≡◌, List, ℕ, MatchResult};
ghost use Rattle.cmap_values.specs.FilesSeen.{file_seen};
ghost use Rattle.cmap_values.specs.Outcomes.{Outcome};
ghost use Rattle.cmap_text_writer.specs.Lengths.{text_length};
ghost use Rattle.cmap_text_writer.specs.Obstacles.{NoTextSays};
ghost use Rattle.cmap_text_writer.specs.Written.{IsWritten};
ghost use Rattle.cmap_c_writer.specs.Made.{EndsAs};

use cmap_handles::room::put;
use cmap_handles::status::Status;
use cmap_text_writer::{TextLengths, write_text_by};
use cmap_values::fault::Fault;
use cmap_values::file::File;
use std::alloc::Global;

/// The reason that no text represents the content that C hands in.
#[derive(Clone, Copy)]
pub(crate) struct NoText;

/// A text with the content of the file, with these lengths of the codes of texts; refused where there is none.
pub(crate) fn text_of(
    alloc: Global,
    file: &File<'_>,
    lengths: TextLengths,
) -> Result<Vec<u8>, Fault<NoText>>
    ensures { Outcome (λ text. IsWritten (text_length lengths) (file_seen file.now) text.items)
        (λ _. NoTextSays (file_seen file.now)) result }
{
    match write_text_by(alloc, file, lengths) {
        Ok(text) => Ok(text),
        Err(Fault::Refused(_)) => Err(Fault::Refused(NoText)),
        Err(Fault::Memory) => Err(Fault::Memory),
    }
}

/// Writes the text at the head of the buffer `room`, if it fits, and the number of its bytes to `needed`. The
/// result is the number of the status.
pub(crate) fn put_text(
    text: Result<Vec<u8>, Fault<NoText>>,
    room: &mut [u8],
    needed: &mut usize,
) -> u32
    ensures { EndsAs text room.old room.new needed.old needed.new result }
{
    match text {
        Ok(text) => put(&text, room, needed),
        Err(Fault::Refused(_)) => Status::Refused.number(),
        Err(Fault::Memory) => Status::NoMemory.number(),
    }
}
