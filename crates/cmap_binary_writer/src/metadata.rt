//! Segments for the metadata of a file, and for the names of the files that it uses.

ghost use Rattle.std.specs.Prelude.{◌≡◌, ◌<◌, ◌^◌, ◌++◌, All, Any, IfErr, IfNone, IfOk, IfSome, IsSomeAnd, option_map, pos};
ghost use Rattle.cmap_values.specs.NamesSeen.{names_seen};
ghost use Rattle.cmap_values.specs.MetadataSeen.{collection_seen, family_seen, metadata_seen, mode_seen};
ghost use Rattle.cmap_values.specs.Names.{family_of, ordering_of, registry_of};
ghost use Rattle.cmap_values.specs.Outcomes.{Outcome, RefusesWith};
ghost use Rattle.cmap_binary_writer.specs.Fields.{CollectionFits, IsSayableCollection, IsUnterminated, MetadataFits, NameFits, collection_bytes, collection_payload, metadata_bytes, mode_bytes, mode_number, name_bytes, terminated_bytes, uses_bytes};
ghost use Rattle.cmap_binary_writer.specs.Obstacles.{HasWideSupplement, IsCollectionObstacle, IsFamilyObstacle, IsGivenCollectionObstacle, IsLongName, IsMetadataObstacle, IsTerminatedObstacle};
ghost use Rattle.cmap_binary_writer.specs.declared.obstacle.Obstacle.TheVariants.{TooLong};

use crate::bytes::push_number;
use crate::obstacle::Obstacle;
use crate::pieces::push_segment;
use cmap_values::character_collection::{CharacterCollection, CidFamily};
use cmap_values::fault::Fault;
use cmap_values::metadata::Metadata;
use cmap_values::writing_mode::WritingMode;
use std::alloc::Global;

/// The types of segments.
const USES: u8 = 9;

const MODE: u8 = 11;

const NAME: u8 = 13;

const COLLECTION: u8 = 14;

/// Writes a segment for each part of the metadata that is present.
pub(crate) fn push_metadata(
    alloc: Global,
    metadata: &Metadata,
    out: &mut Vec<u8>,
) -> Result<(), Fault<Obstacle>>
    ensures { Outcome (λ _. MetadataFits (metadata_seen metadata.now) × (out.new.items ≡ out.old.items ++ metadata_bytes (metadata_seen metadata.now)))
        (IsMetadataObstacle (metadata_seen metadata.now)) result }
{
    push_collection(alloc, &metadata.character_collection, out)?;
    push_name(&metadata.name, out)?;
    push_mode(metadata.writing_mode, out)
}

/// Writes segments for the names of the used files, in order.
pub(crate) fn push_uses(names: &[&[u8]], out: &mut Vec<u8>) -> Result<(), Fault<Obstacle>>
    ensures { Outcome (λ _. All NameFits (names_seen names.now) × (out.new.items ≡ out.old.items ++ uses_bytes (names_seen names.now)))
        (λ o. (o ≡ TooLong) × Any IsLongName (names_seen names.now)) result }
{
    for name in names {
        push_segment(out, USES, *name)?;
    }
    Ok(())
}

/// Writes a segment for a name.
fn push_name(name: &Option<Vec<u8>>, out: &mut Vec<u8>) -> Result<(), Fault<Obstacle>>
    ensures { Outcome (λ _. IfSome (option_map (λ name. name.items) name.now) NameFits
        × (out.new.items ≡ out.old.items ++ name_bytes (option_map (λ name. name.items) name.now)))
        (λ o. (o ≡ TooLong) × IsSomeAnd (option_map (λ name. name.items) name.now) IsLongName) result }
{
    match name {
        Some(name) => push_segment(out, NAME, name),
        None => Ok(()),
    }
}

/// Writes a segment for a writing mode.
fn push_mode(mode: Option<WritingMode>, out: &mut Vec<u8>) -> Result<(), Fault<Obstacle>>
    ensures { Outcome (λ _. out.new.items ≡ out.old.items ++ mode_bytes (option_map mode_seen mode)) (λ o. ⊥) result }
{
    match mode {
        Some(mode) => push_segment(out, MODE, &[mode_number(mode)]),
        None => Ok(()),
    }
}

/// The number of a writing mode.
fn mode_number(mode: WritingMode) -> u8
    ensures { result ≡ mode_number (mode_seen mode) }
{
    match mode {
        WritingMode::Horizontal => 0,
        WritingMode::Vertical => 1,
    }
}

/// Writes a segment for a character collection.
fn push_collection(
    alloc: Global,
    collection: &Option<CharacterCollection>,
    out: &mut Vec<u8>,
) -> Result<(), Fault<Obstacle>>
    ensures { Outcome (λ _. IfSome (option_map collection_seen collection.now) CollectionFits
        × (out.new.items ≡ out.old.items ++ collection_bytes (option_map collection_seen collection.now)))
        (IsGivenCollectionObstacle (option_map collection_seen collection.now)) result }
{
    match collection {
        Some(collection) => {
            let payload = collection_payload(alloc, collection)?;
            push_segment(out, COLLECTION, &payload)
        }
        None => Ok(()),
    }
}

/// The payload of a segment for a character collection.
fn collection_payload(
    alloc: Global,
    collection: &CharacterCollection,
) -> Result<Vec<u8>, Fault<Obstacle>>
    ensures { Outcome (λ payload. IsSayableCollection (collection_seen collection.now)
        × (payload.items ≡ collection_payload (collection_seen collection.now)))
        (IsCollectionObstacle (collection_seen collection.now)) result }
{
    let family = &collection.family;
    check_family(alloc, family)?;
    let Some(supplement) = supplement_number(collection) else {
        return Err(Fault::Refused(Obstacle::Supplement(collection.supplement)));
    };
    let mut payload = Vec::new(alloc);
    push_terminated(&mut payload, family.registry())?;
    push_terminated(&mut payload, family.ordering())?;
    push_number(&mut payload, u32::from(supplement), 2)?;
    Ok(payload)
}

/// The number of a supplement, if it fits in two bytes.
fn supplement_number(collection: &CharacterCollection) -> Option<u16>
    ensures some { IfSome result (λ number. (number < 2 ^ 16) × (pos number ≡ collection.now.supplement)) }
    ensures none { IfNone result (HasWideSupplement collection.now.supplement (collection_seen collection.now)) }
{
    u16::try_from(collection.supplement).ok()
}

/// Checks that a family is the family of its registry and ordering.
fn check_family(alloc: Global, family: &CidFamily) -> Result<(), Fault<Obstacle>>
    ensures same { IfOk result (λ _. family_of (registry_of (family_seen family.now)) (ordering_of (family_seen family.now)) ≡ family_seen family.now) }
    ensures err { IfErr result (RefusesWith (IsFamilyObstacle (family_seen family.now))) }
{
    let CidFamily::Custom { registry, ordering } = family else {
        return Ok(());
    };
    match CidFamily::from_registry_ordering(alloc, registry, ordering)? {
        CidFamily::Custom { .. } => Ok(()),
        _ => Err(Fault::Refused(Obstacle::CustomFamily)),
    }
}

/// Writes a text and the zero byte that ends it.
fn push_terminated(out: &mut Vec<u8>, text: &[u8]) -> Result<(), Fault<Obstacle>>
    ensures { Outcome (λ _. IsUnterminated text.now × (out.new.items ≡ out.old.items ++ terminated_bytes text.now))
        (IsTerminatedObstacle text.now) result }
{
    if text.contains(&0) {
        return Err(Fault::Refused(Obstacle::ZeroByte));
    }
    out.extend_from_slice(text)?;
    out.push(0)?;
    Ok(())
}
