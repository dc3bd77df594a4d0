//! A map as one file, for C.

ghost use Rattle.std.specs.Prelude.{◌≡◌, MatchOption};
ghost use Rattle.cmap_handles.specs.Statuses.{number};
ghost use Rattle.cmap_handles.specs.declared.status.Status.TheVariants.{Absent};
ghost use Rattle.cmap_values.specs.FilesSeen.{file_seen};
ghost use Rattle.cmap_values.specs.Outcomes.{Outcome};
ghost use Rattle.cmap_c_writer.specs.Made.{PutsText};
ghost use Rattle.cmap_c_writer.specs.Whole.{AnswersFor, AnswersForChosen, HasNoFile, HasNoFileOfChosen, HasNoWrittenText, IsWrittenText};
ghost use Rattle.cmap_edit.specs.Subsets.{IsFlat};
ghost use Rattle.cmap_c_writer.specs.Whole.{HasNoFlatFile};

use crate::chosen::{ChosenCodes, chosen_codes};
use crate::written::{NoText, put_text, text_of};
use cmap_edit::flatten::{flatten, subset};
use cmap_handles::handle::MapHandle;
use cmap_handles::status::Status;
use cmap_layers::layers::Layers;
use cmap_text_writer::TextLengths;
use cmap_values::fault::Fault;
use cmap_values::file::File;
use std::alloc::Global;

/// The text of one file with the answers of the map, for these codes only, or for all codes if none are
/// given.
#[unsafe(no_mangle)]
pub extern "C" fn hayro_cmap_write(
    map: &mut MapHandle,
    alloc: Global,
    codes: &[ChosenCodes],
    room: &mut [u8],
    needed: &mut usize,
) -> u32
    ensures same { map.new.slot.map ≡ map.old.slot.map }
    ensures text { MatchOption map.old.slot.map
        ((result ≡ number Absent) × (room.new ≡ room.old) × (needed.new ≡ needed.old))
        (λ layers. PutsText (IsWrittenText layers codes.now) (HasNoWrittenText layers codes.now)
        room.old room.new needed.old needed.new result) }
{
    let Some(layers) = map.layers() else {
        return Status::Absent.number();
    };
    put_text(written_text(alloc, layers, codes), room, needed)
}

/// The text of the file; refused where there is none.
fn written_text(
    alloc: Global,
    layers: &Layers,
    codes: &[ChosenCodes],
) -> Result<Vec<u8>, Fault<NoText>>
    ensures { Outcome (λ text. IsWrittenText layers.now codes.now text.items)
        (λ _. HasNoWrittenText layers.now codes.now) result }
{
    let file = file_for(alloc, layers, codes)?;
    text_of(alloc, &file, TextLengths::by(&file.lists.spaces))
}

/// The file with the answers of the map; refused where there is none.
fn file_for<'d>(
    alloc: Global,
    layers: &Layers,
    codes: &[ChosenCodes],
) -> Result<File<'d>, Fault<NoText>>
    ensures { Outcome (λ file. AnswersFor codes.now layers.now (file_seen file))
        (λ _. HasNoFile codes.now layers.now) result }
{
    match codes {
        [] => flat_file(alloc, layers),
        _ => chosen_file(alloc, layers, codes),
    }
}

/// The file for all codes.
fn flat_file<'d>(alloc: Global, layers: &Layers) -> Result<File<'d>, Fault<NoText>>
    ensures { Outcome (λ file. IsFlat layers.now (file_seen file))
        (λ _. HasNoFlatFile layers.now) result }
{
    match flatten(alloc, layers) {
        Ok(file) => Ok(file),
        Err(Fault::Refused(_)) => Err(Fault::Refused(NoText)),
        Err(Fault::Memory) => Err(Fault::Memory),
    }
}

/// The file for the chosen codes.
fn chosen_file<'d>(
    alloc: Global,
    layers: &Layers,
    chosen: &[ChosenCodes],
) -> Result<File<'d>, Fault<NoText>>
    ensures { Outcome (λ file. AnswersForChosen chosen.now layers.now (file_seen file))
        (λ _. HasNoFileOfChosen chosen.now layers.now) result }
{
    let codes = chosen_codes(alloc, chosen)?;
    match subset(alloc, layers, &codes) {
        Ok(file) => Ok(file),
        Err(Fault::Refused(_)) => Err(Fault::Refused(NoText)),
        Err(Fault::Memory) => Err(Fault::Memory),
    }
}
