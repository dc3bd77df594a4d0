//! The files of a bundle, each at the index of its name.

ghost use Rattle.std.specs.Prelude.{ℕ, IfErr, IfOk, List, Some};
ghost use Rattle.cmap_values.specs.Outcomes.{RefusesWith};
ghost use Rattle.cmap_binary.specs.Fronts.{FramedAt};
ghost use Rattle.cmap_binary_writer.specs.EncodersSeen.{encoders_seen};
ghost use Rattle.cmap_bundle_maker.specs.Slots.{AllHavePlaces, AreSlotsFor, AreSlotsWritten, IsSlotFor, IsSlotWritten, places, source_at};
ghost use Rattle.cmap_bundle_maker.specs.Unwritables.{IsSlotObstacle, IsSlotsObstacle, IsUnwritableAs, IsUnwritableAt, IsUnwritableOf};
ghost use Rattle.cmap_binary_writer.specs.Written.{Appends, WritesAll};

use crate::behind::push_text;
use crate::source::Source;
use crate::unwritable::Unwritable;
use cmap_binary::NO_FILE;
use cmap_binary_writer::prepared::{Prepared, prepare};
use cmap_binary_writer::{Encoders, Obstacle};
use cmap_values::fault::Fault;
use cmap_values::names::KNOWN_COUNT;
use std::alloc::Global;

/// A file of a bundle.
#[derive(Drop)]
pub(crate) enum Slot<'s> {
    /// A file in the binary form.
    File(Prepared),
    /// A file as a text.
    Text(&'s [u8]),
    /// No file.
    Absent,
}

/// The files of a bundle of these sources, by their indices.
pub(crate) fn slots_of<'s>(
    alloc: Global,
    sources: &[Source<'s, '_>],
) -> Result<Vec<Slot<'s>>, Fault<Unwritable>>
    ensures made { IfOk result (λ slots. AreSlotsFor sources.now slots.items places) }
    ensures all { IfOk result (λ _. AllHavePlaces sources.now) }
    ensures err { IfErr result (RefusesWith (IsUnwritableOf sources.now)) }
{
    check_names(sources)?;
    let mut slots = Vec::with_capacity(alloc, KNOWN_COUNT)?;
    for place in 0..KNOWN_COUNT {
        let slot = slot_at(alloc, sources, place)?;
        slots.push(slot)?;
    }
    Ok(slots)
}

/// Checks that each name has a place.
fn check_names(sources: &[Source<'_, '_>]) -> Result<(), Fault<Unwritable>>
    ensures all { IfOk result (λ _. AllHavePlaces sources.now) }
    ensures err { IfErr result (RefusesWith (IsUnwritableOf sources.now)) }
{
    for index in 0..sources.len() {
        if sources[index].name.index().is_none() {
            return Err(Fault::Refused(Unwritable {
                index: Some(index),
                obstacle: Obstacle::NoPlace,
            }));
        }
    }
    Ok(())
}

/// The file at a place: the file of the first source whose name has this index.
fn slot_at<'s>(
    alloc: Global,
    sources: &[Source<'s, '_>],
    place: usize,
) -> Result<Slot<'s>, Fault<Unwritable>>
    ensures made { IfOk result (IsSlotFor (source_at sources.now place)) }
    ensures err { IfErr result (RefusesWith (IsUnwritableAt sources.now place)) }
{
    for index in 0..sources.len() {
        if sources[index].name.index() == Some(place) {
            return slot_of(alloc, &sources[index], index);
        }
    }
    Ok(Slot::Absent)
}

/// The file of a source.
fn slot_of<'s>(
    alloc: Global,
    source: &Source<'s, '_>,
    index: usize,
) -> Result<Slot<'s>, Fault<Unwritable>>
    ensures made { IfOk result (IsSlotFor (Some source.now)) }
    ensures err { IfErr result (RefusesWith (IsUnwritableAs source.now index)) }
{
    match (prepare(alloc, source.file), source.text) {
        (Ok(prepared), _) => Ok(Slot::File(prepared)),
        (Err(Fault::Memory), _) => Err(Fault::Memory),
        (Err(Fault::Refused(_)), Some(text)) => Ok(Slot::Text(text)),
        (Err(Fault::Refused(obstacle)), None) => Err(Fault::Refused(Unwritable {
            index: Some(index),
            obstacle,
        })),
    }
}

/// Writes the files of a bundle, in order.
pub(crate) fn push_slots(
    alloc: Global,
    tables: &Encoders,
    slots: &[Slot<'_>],
    out: &mut Vec<u8>,
) -> Result<(), Fault<Obstacle>>
    ensures written { IfOk result (λ _. (texts : List (List ℕ)) × Appends out.old.items out.new.items (WritesAll (FramedAt 6) texts) × AreSlotsWritten (encoders_seen tables.now) slots.now texts) }
    ensures err { IfErr result (RefusesWith (IsSlotsObstacle (encoders_seen tables.now) slots.now)) }
{
    for slot in slots {
        push_slot(alloc, tables, slot, out)?;
    }
    Ok(())
}

/// Writes a file of a bundle.
fn push_slot(
    alloc: Global,
    tables: &Encoders,
    slot: &Slot<'_>,
    out: &mut Vec<u8>,
) -> Result<(), Fault<Obstacle>>
    ensures written { IfOk result (λ _. Appends out.old.items out.new.items (IsSlotWritten (encoders_seen tables.now) slot.now)) }
    ensures err { IfErr result (RefusesWith (IsSlotObstacle (encoders_seen tables.now) slot.now)) }
{
    match slot {
        Slot::File(prepared) => {
            let text = prepared.write(alloc, tables)?;
            out.extend_from_slice(&text)?;
            Ok(())
        }
        Slot::Text(text) => push_text(alloc, text, out),
        Slot::Absent => {
            out.extend_from_slice(NO_FILE)?;
            Ok(())
        }
    }
}
