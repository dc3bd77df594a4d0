//! CMap files as text.

ghost use Rattle.std.specs.Prelude.{◌≡◌, length, Ok, IfErr, IfOk, Result};
ghost use Rattle.cmap_values.specs.FilesSeen.{file_seen};
ghost use Rattle.cmap_values.specs.Only.{IsOnly};
ghost use Rattle.cmap_values.specs.Outcomes.{DecidedBy, ReadsFile, RefusesWith};
ghost use Rattle.cmap_values.specs.MetadataSeen.{metadata_seen};
ghost use Rattle.cmap_tokens.specs.TokensLeft.{Left, start_of, tokens_of};
ghost use Rattle.cmap_text.specs.EntriesSeen.{RefusesAt};
ghost use Rattle.cmap_text.specs.TextFiles.{IsTextFile};
ghost use Rattle.cmap_text.specs.TextReading.{AreSaid, StopsAt, StopsText, all_said};
ghost use Rattle.cmap_text.specs.TextReading as reading;
ghost use Rattle.cmap_text.specs.TokenParsers.{Refused};
ghost use Rattle.cmap_text.specs.TextSeen.{said_seen, values_seen};

use crate::items::{Said, read_items};
use crate::tokens::TokenReader;
use crate::wrong_token::WrongToken;
use cmap_values::fault::{Fault, Stop};
use cmap_values::file::File;
use cmap_values::metadata::Metadata;
use std::alloc::Global;

/// Reads the content of a text file.
pub fn read_text<'d>(alloc: Global, text: &'d [u8]) -> Result<File<'d>, Fault<Stop>>
    ensures file { ReadsFile IsTextFile file_seen text.now result }

    // The stop has the offset and the reason of the wrong token, or of the place where no token comes.
    ensures place { IfErr result (RefusesWith (StopsText text.now)) }

    // If the text is refused before its end, no text is a file that begins with the same bytes, up to
    // and including the byte at this offset.
    ensures decided { IfErr result (RefusesWith (DecidedBy IsTextFile text.now)) }
{
    let mut said = Said::new(alloc);
    let metadata = read_said(alloc, text, &mut said)?;
    Ok(File {
        metadata,
        lists: said.lists,
        uses: said.uses,
    })
}

/// Reads the content of a text into `said`. The answer is the metadata that the keys state.
fn read_said<'d>(
    alloc: Global,
    text: &'d [u8],
    said: &mut Said<'d>,
) -> Result<Metadata, Fault<Stop>>
    ensures says { IfOk result (λ metadata.
        ((rest : Left) × (all_said (said_seen said.old) (tokens_of (start_of text.now))
        ≡ Ok (said_seen said.new, rest)))
        × IsOnly (AreSaid (values_seen said.new.values)) (metadata_seen metadata)) }
    ensures stops { IfErr result (RefusesWith (StopsAt (length text.now)
        (all_said (said_seen said.old) (tokens_of (start_of text.now))))) }
{
    let mut reader = TokenReader::new(alloc, text);
    match read_items(&mut reader, said) {
        Ok(()) => Ok(said.values.metadata(alloc)?),
        Err(Fault::Refused(wrong)) => Err(Fault::Refused(stop_of(&reader, wrong, text.len()))),
        Err(Fault::Memory) => Err(Fault::Memory),
    }
}

/// The offset at which a text of `len` bytes is refused, and the reason.
pub(crate) fn stop_of(reader: &TokenReader<'_>, wrong: WrongToken, len: usize) -> Stop
    ensures { (found : Result (reading.Said × Left) Refused)
        → RefusesAt reader.now found wrong → StopsAt len found result }
{
    let offset = if wrong.is_token {
        reader.offset()
    } else {
        reader.stop()
    };
    Stop {
        offset: offset.min(len),
        reason: wrong.reason,
    }
}
