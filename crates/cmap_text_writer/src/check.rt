//! Checks that a text can represent a file.

ghost use Rattle.std.specs.Prelude.{◌≡◌, ◌≢◌, ◌≤◌, ◌^◌, All, Any, IfErr, IfOk, IfSome, IsSomeAnd, map, option_map};
ghost use Rattle.cmap_values.specs.DeclarationsSeen.{bf_entry_seen, by_length_seen, codespace_seen, entries_seen, lists_seen};
ghost use Rattle.cmap_values.specs.FilesSeen.{file_seen};
ghost use Rattle.cmap_values.specs.CodeLengths.{length_of};
ghost use Rattle.cmap_values.specs.MetadataSeen.{collection_seen, family_seen};
ghost use Rattle.cmap_values.specs.Names.{family_of, ordering_of, registry_of};
ghost use Rattle.cmap_values.specs.NamesSeen.{names_seen};
ghost use Rattle.cmap_values.specs.Outcomes.{RefusesWith};
ghost use Rattle.cmap_text_writer.specs.Fits.{AllFit, BeginsFitting, Fits, HasOwnFamily, HasUnits, IsName, IsSayable, IsSayableName, IsSpaceFitting, ListsFit};
ghost use Rattle.cmap_text_writer.specs.Obstacles.{IsByLengthObstacle, IsCidsObstacle, IsListsObstacle, IsObstacle, IsSpacesObstacle, IsTextsObstacle};
ghost use Rattle.cmap_text_writer.specs.declared.obstacle.Obstacle.TheVariants.{CustomFamily, LargeCode, Name, Use};

use crate::digits::largest_code;
use crate::names::{is_bracket, is_name};
use crate::obstacle::Obstacle;
use cmap_values::character_collection::{CharacterCollection, CidFamily};
use cmap_values::code_length::CodeLength;
use cmap_values::declarations::{BfRange, ByLength, CidRange, Codespace, Lists};
use cmap_values::fault::Fault;
use cmap_values::file::File;
use std::alloc::Global;

/// Checks that a text can represent a file.
pub(crate) fn check_file(alloc: Global, file: &File<'_>) -> Result<(), Fault<Obstacle>>
    ensures fit { IfOk result (λ _. IsSayable (file_seen file.now)) }
    ensures err { IfErr result (RefusesWith (IsObstacle (file_seen file.now))) }
{
    check_uses(&file.uses)?;
    check_name(&file.metadata.name)?;
    check_collection(alloc, &file.metadata.character_collection)?;
    check_lists(&file.lists)
}

/// Checks that the names of the used files are names.
fn check_uses(names: &[&[u8]]) -> Result<(), Fault<Obstacle>>
    ensures fit { IfOk result (λ _. All IsName (names_seen names.now)) }
    ensures err { IfErr result (RefusesWith (λ o. (o ≡ Use) × Any (λ n. IsName n → ⊥) (names_seen names.now))) }
{
    for name in names {
        if !is_name(*name) {
            return Err(Fault::Refused(Obstacle::Use));
        }
    }
    Ok(())
}

/// Checks that the name of a file is a name.
fn check_name(name: &Option<Vec<u8>>) -> Result<(), Fault<Obstacle>>
    ensures fit { IfOk result (λ _. IfSome (option_map (λ name. name.items) name.now) IsSayableName) }
    ensures err { IfErr result (RefusesWith (λ o. (o ≡ Name)
        × IsSomeAnd (option_map (λ name. name.items) name.now) (λ n. IsSayableName n → ⊥))) }
{
    match name {
        Some(name) => check_name_bytes(name),
        None => Ok(()),
    }
}

/// Checks that these are the bytes of a name.
fn check_name_bytes(name: &[u8]) -> Result<(), Fault<Obstacle>>
    ensures fit { IfOk result (λ _. IsSayableName name.now) }
    ensures err { IfErr result (RefusesWith (λ o. (o ≡ Name) × (IsSayableName name.now → ⊥))) }
{
    if is_name(name) || is_bracket(name) {
        return Ok(());
    }
    Err(Fault::Refused(Obstacle::Name))
}

/// Checks that the family of a collection is the family of its registry and ordering.
fn check_collection(
    alloc: Global,
    collection: &Option<CharacterCollection>,
) -> Result<(), Fault<Obstacle>>
    ensures fit { IfOk result (λ _. IfSome (option_map collection_seen collection.now) HasOwnFamily) }
    ensures err { IfErr result (RefusesWith (λ o. (o ≡ CustomFamily)
        × IsSomeAnd (option_map collection_seen collection.now) (λ c. HasOwnFamily c → ⊥))) }
{
    match collection {
        Some(collection) => check_family(alloc, &collection.family),
        None => Ok(()),
    }
}

/// Checks that a family is the family of its registry and ordering.
fn check_family(alloc: Global, family: &CidFamily) -> Result<(), Fault<Obstacle>>
    ensures fit { IfOk result (λ _. family_of (registry_of (family_seen family.now)) (ordering_of (family_seen family.now)) ≡ family_seen family.now) }
    ensures err { IfErr result (RefusesWith (λ o. (o ≡ CustomFamily)
        × (family_of (registry_of (family_seen family.now)) (ordering_of (family_seen family.now)) ≢ family_seen family.now))) }
{
    let CidFamily::Custom { registry, ordering } = family else {
        return Ok(());
    };
    match CidFamily::from_registry_ordering(alloc, registry, ordering)? {
        CidFamily::Custom { .. } => Ok(()),
        _ => Err(Fault::Refused(Obstacle::CustomFamily)),
    }
}

/// Checks all lists of a file.
fn check_lists(lists: &Lists) -> Result<(), Fault<Obstacle>>
    ensures fit { IfOk result (λ _. AllFit (lists_seen lists.now)) }
    ensures err { IfErr result (RefusesWith (IsListsObstacle (lists_seen lists.now))) }
{
    check_spaces(&lists.spaces)?;
    check_by_length(&lists.notdefs)?;
    check_by_length(&lists.cids)?;
    check_texts(&lists.bfs)
}

/// Checks that the codes of codespace ranges fit in their lengths.
fn check_spaces(spaces: &[Codespace]) -> Result<(), Fault<Obstacle>>
    ensures fit { IfOk result (λ _. All IsSpaceFitting (map codespace_seen spaces.now)) }
    ensures err { IfErr result (RefusesWith (IsSpacesObstacle (map codespace_seen spaces.now))) }
{
    for space in spaces {
        check_code(space.len, space.low)?;
        check_code(space.len, space.high)?;
    }
    Ok(())
}

/// Checks declarations of CIDs for codes of each length.
fn check_by_length(lists: &ByLength<Vec<CidRange>>) -> Result<(), Fault<Obstacle>>
    ensures fit { IfOk result (λ _. ListsFit (by_length_seen lists.now)) }
    ensures err { IfErr result (RefusesWith (IsByLengthObstacle (by_length_seen lists.now))) }
{
    check_cids(CodeLength::One, &lists.one)?;
    check_cids(CodeLength::Two, &lists.two)?;
    check_cids(CodeLength::Three, &lists.three)?;
    check_cids(CodeLength::Four, &lists.four)
}

/// Checks that the first codes of declarations of CIDs fit in this length.
fn check_cids(len: CodeLength, entries: &[CidRange]) -> Result<(), Fault<Obstacle>>
    ensures fit { IfOk result (λ _. All (BeginsFitting (length_of len)) (entries_seen entries.now)) }
    ensures err { IfErr result (RefusesWith (IsCidsObstacle (length_of len) (entries_seen entries.now))) }
{
    for entry in entries {
        check_code(len, entry.range.start)?;
    }
    Ok(())
}

/// Checks that a code fits in this length.
fn check_code(len: CodeLength, code: u32) -> Result<(), Fault<Obstacle>>
    ensures fit { IfOk result (λ _. Fits (length_of len) code) }
    ensures err { IfErr result (RefusesWith (λ o. (o ≡ LargeCode code) × (256 ^ length_of len ≤ code))) }
{
    if code > largest_code(len) {
        return Err(Fault::Refused(Obstacle::LargeCode(code)));
    }
    Ok(())
}

/// Checks that each text has a unit or more.
fn check_texts(entries: &[BfRange]) -> Result<(), Fault<Obstacle>>
    ensures fit { IfOk result (λ _. All HasUnits (map bf_entry_seen entries.now)) }
    ensures err { IfErr result (RefusesWith (IsTextsObstacle (map bf_entry_seen entries.now))) }
{
    for entry in entries {
        if entry.units.as_slice().is_empty() {
            return Err(Fault::Refused(Obstacle::EmptyText(entry.range)));
        }
    }
    Ok(())
}
