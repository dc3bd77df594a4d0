//! A file of declarations, for C.

ghost use Rattle.cmap_values.specs.Outcomes.{Outcome};
ghost use Rattle.cmap_c_writer.specs.Made.{HasNoMadeText, IsMadeText, PutsText};

use crate::declaration::Declaration;
use crate::facts::Facts;
use crate::file::file_of;
use crate::text_lengths::text_lengths;
use crate::written::{NoText, put_text, text_of};
use cmap_edit::tidy::tidy;
use cmap_values::fault::Fault;
use std::alloc::Global;

/// The text of a file with this metadata and these declarations, in the fewest declarations.
#[unsafe(no_mangle)]
pub extern "C" fn hayro_cmap_make(
    alloc: Global,
    facts: &Facts<'_>,
    declarations: &[Declaration<'_>],
    room: &mut [u8],
    needed: &mut usize,
) -> u32
    ensures { PutsText (IsMadeText facts.now declarations.now)
        (HasNoMadeText facts.now declarations.now)
        room.old room.new needed.old needed.new result }
{
    put_text(made_text(alloc, facts, declarations), room, needed)
}

/// The text of the file; refused where there is none.
fn made_text(
    alloc: Global,
    facts: &Facts<'_>,
    declarations: &[Declaration<'_>],
) -> Result<Vec<u8>, Fault<NoText>>
    ensures { Outcome (λ text. IsMadeText facts.now declarations.now text.items)
        (λ _. HasNoMadeText facts.now declarations.now) result }
{
    let file = file_of(alloc, facts, declarations)?;
    let tidied = tidy(alloc, &file)?;
    text_of(
        alloc,
        &tidied,
        text_lengths(declarations, &file.lists.spaces),
    )
}
