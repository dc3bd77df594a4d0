//! A bundle: two tables, and files.

ghost use Rattle.std.specs.Prelude.{◌<◌, ◌^◌, IfErr, IfOk, length};
ghost use Rattle.cmap_values.specs.Outcomes.{RefusesWith};
ghost use Rattle.cmap_binary.specs.Bundles.{HoldsTables};
ghost use Rattle.cmap_bundle_maker.specs.Bundled.{HaveSymbols};
ghost use Rattle.cmap_bundle_maker.specs.Gathered.{AreTablesFor};
ghost use Rattle.cmap_binary_writer.specs.Encoded.{HaveOneWordEach};
ghost use Rattle.cmap_binary_writer.specs.EncodersSeen.{encoders_seen};
ghost use Rattle.cmap_binary_writer.specs.Failures.{IsTooLongIf};
ghost use Rattle.cmap_bundle_maker.specs.MapsAlike.{AnswersAsTexts};
ghost use Rattle.cmap_bundle_maker.specs.Slots.{IsBundleOfSlots, IsNamedBundle};
ghost use Rattle.cmap_binary_writer.specs.declared.obstacle.Obstacle.{Obstacle};
ghost use Rattle.cmap_bundle_maker.specs.declared.unwritable.Unwritable.{Unwritable};
ghost use Rattle.cmap_bundle_maker.specs.Unwritables.{AreSound, IsTablesObstacle, IsUnwritableOf, IsWholeObstacle};

use crate::slots::{Slot, push_slots, slots_of};
use crate::source::Source;
use crate::tables::tables_for;
use crate::unwritable::Unwritable;
use cmap_binary_writer::pieces::push_sized;
use cmap_binary_writer::{Encoders, Obstacle};
use cmap_values::fault::Fault;
use std::alloc::Global;

/// A bundle of these files, each at the index of its name, with tables for the numbers that spell
/// the files. Of two files of one name, the bundle contains the first.
///
/// The bundle contains the text of a file with an obstacle, behind a comment. A name without a
/// source has ten bytes that are no binary file.
///
/// A refusal contains the index of the first source whose name has no place. If each name has a
/// place, the refusal contains the index of the first source, in the order of places, that can't be
/// written and has no text; a later source of the same name isn't looked at. A refusal has no index
/// if the bundle as a whole can't be written: there is no table for the deltas of the files, which
/// are 2^16 different deltas or more, or a file is too long by the tables, or a text with its
/// comment is too long.
pub fn make_named_bundle(
    alloc: Global,
    sources: &[Source<'_, '_>],
) -> Result<Vec<u8>, Fault<Unwritable>>
    ensures written { IfOk result (λ bytes. IsNamedBundle sources.now bytes.items) }

    // A file has a map over the bundle if and only if it has a map over the texts of the sources,
    // and the two maps answer alike.
    ensures alike { IfOk result (λ bytes. AnswersAsTexts sources.now bytes.items) }
    ensures err { IfErr result (RefusesWith (IsUnwritableOf sources.now)) }

    // The bundle is refused if a source, or the bundle as a whole, can't be written.
    ensures sure { IfOk result (λ _. (unwritable : Unwritable) → IsUnwritableOf sources.now unwritable → ⊥) }
{
    let slots = slots_of(alloc, sources)?;
    match bundle_of(alloc, &slots) {
        Ok(bytes) => Ok(bytes),
        Err(Fault::Memory) => Err(Fault::Memory),
        Err(Fault::Refused(obstacle)) => {
            let index = None;
            Err(Fault::Refused(Unwritable { index, obstacle }))
        }
    }
}

/// A bundle with these files.
fn bundle_of(alloc: Global, slots: &[Slot<'_>]) -> Result<Vec<u8>, Fault<Obstacle>>
    ensures written { IfOk result (λ bytes. IsBundleOfSlots slots.now bytes.items) }
    ensures err { IfErr result (RefusesWith (λ obstacle. AreSound slots.now → IsWholeObstacle slots.now obstacle)) }
{
    let tables = tables_for(alloc, slots)?;
    bundle_by(alloc, &tables, slots)
}

/// A bundle with these files, whose numbers these tables spell.
fn bundle_by(
    alloc: Global,
    tables: &Encoders,
    slots: &[Slot<'_>],
) -> Result<Vec<u8>, Fault<Obstacle>>
    requires spelled { AreTablesFor slots.now (encoders_seen tables.now) }
    requires alone { HaveOneWordEach (encoders_seen tables.now) }
    ensures written { IfOk result (λ bytes. IsBundleOfSlots slots.now bytes.items) }
    ensures err { IfErr result (RefusesWith (IsTablesObstacle (encoders_seen tables.now) slots.now)) }
{
    if !tables.count.fits(LARGEST_COUNT) || !tables.delta.fits(u32::MAX) {
        return Err(Fault::Refused(Obstacle::NoWord));
    }
    let text = tables_text(alloc, tables)?;
    let mut bytes = Vec::new(alloc);
    push_sized(&mut bytes, &text)?;
    push_slots(alloc, tables, slots, &mut bytes)?;
    Ok(bytes)
}

/// The bytes of the two tables, one after another.
fn tables_text(alloc: Global, tables: &Encoders) -> Result<Vec<u8>, Fault<Obstacle>>
    requires { HaveSymbols (encoders_seen tables.now) }
    ensures err { IfErr result (IsTooLongIf ⊥) }
    ensures written { IfOk result (λ text. HoldsTables text.items (encoders_seen tables.now)) }
    ensures len { IfOk result (λ text. length text.items < 2 ^ 25) }
{
    let mut text = Vec::new(alloc);
    tables.delta.write(&mut text, DELTA_WIDTH)?;
    tables.count.write(&mut text, COUNT_WIDTH)?;
    Ok(text)
}

/// The number of bytes of a symbol in the table of deltas, and in the table of counts.
const DELTA_WIDTH: u8 = 4;

const COUNT_WIDTH: u8 = 1;

/// The largest count.
const LARGEST_COUNT: u32 = 255;
