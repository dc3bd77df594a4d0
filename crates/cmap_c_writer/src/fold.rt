//! Texts in the characters that are usually written, for C.

ghost use Rattle.std.specs.Str.{IsValidUpTo};
ghost use Rattle.cmap_values.specs.Outcomes.{Outcome};
ghost use Rattle.cmap_c_writer.specs.Folded.{IsFolded, PutsFolded};

use crate::encode::{put_string, utf8};
use cmap_encode::{Unencodable, fold};
use cmap_values::fault::Fault;
use std::alloc::Global;

/// Writes a text in UTF-8 to the buffer `room`, in the characters that are usually written for what
/// the text shows, and its length in bytes to `needed`. The offset where a text stops being UTF-8
/// goes to `offset`.
#[unsafe(no_mangle)]
pub extern "C" fn hayro_cmap_fold(
    alloc: Global,
    text: &[u8],
    room: &mut [u8],
    needed: &mut usize,
    offset: &mut usize,
) -> u32
    ensures { PutsFolded text.now room.old room.new needed.old needed.new offset.old offset.new result }
{
    put_string(folded(alloc, text), room, needed, offset)
}

/// The text in the characters that are usually written. The text is refused where it stops being
/// UTF-8.
fn folded(alloc: Global, text: &[u8]) -> Result<Vec<u8>, Fault<Unencodable>>
    ensures { Outcome (λ shown. IsFolded text.now shown.items)
        (λ refused. IsValidUpTo text.now refused.offset) result }
{
    Ok(fold(alloc, utf8(text)?)?.into_bytes())
}
