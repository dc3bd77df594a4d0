//! `cmap make`: makes a file from a table.

use crate::collection::spelled_collection;
use crate::command::text_of;
use crate::naming::{given_name, with_name};
use crate::table::{Declared, TableFault, declared_by};
use cmap_io::beside::write_output;
use cmap_io::failure::{Failure, fault};
use cmap_io::inputs::needed;
use cmap_io::path_text::is_plain;
use cmap_io::status::ACCEPTED;
use cmap_values::character_collection::CharacterCollection;
use cmap_values::fault::Fault;
use cmap_values::file::File;
use cmap_values::metadata::Metadata;
use cmap_values::writing_mode::WritingMode;
use std::alloc::{AllocError, Global};
use std::str;

/// The parsed arguments of `cmap make`.
#[derive(Clone, Copy)]
pub struct MakeOptions<'m, 'w> {
    /// The path of the table; `-` is the standard input.
    pub table: &'w str,
    /// The path of the file; `-` is the standard output.
    pub output: &'w str,
    /// The name of the file.
    pub name: Option<&'w str>,
    /// The character collection, such as Adobe-Japan1-6.
    pub collection: Option<&'w str>,
    /// Whether the text is vertical.
    pub is_vertical: bool,
    /// The names of the files that the file uses.
    pub uses: &'m [&'w str],
}

/// Writes a file from a table, and returns the exit status.
pub fn make(rt: &HostRuntime, options: &MakeOptions<'_, '_>) -> Result<u8, Failure> {
    let metadata = metadata_of(rt, options)?;
    let bytes = needed(rt, options.table)?;
    let Ok(table) = str::from_utf8(&bytes) else {
        return Err(fault(rt, options.table, "not UTF-8"));
    };
    let declared = match declared_by(rt.alloc(), table) {
        Ok(declared) => declared,
        Err(Fault::Refused(wrong)) => return Err(wrong_line(rt, options.table, wrong)),
        Err(Fault::Memory) => return Err(Failure::Memory),
    };
    write_made(rt, options, metadata, declared)
}

/// Writes a file with the declarations of a table. The options take precedence over the metadata of
/// the table.
fn write_made(
    rt: &HostRuntime,
    options: &MakeOptions<'_, '_>,
    metadata: Metadata,
    declared: Declared,
) -> Result<u8, Failure> {
    let lengths = declared.text_lengths();
    let names = names_of(rt, options.uses)?;
    let Declared {
        lists,
        metadata: stated,
        ..
    } = declared;
    let file = File {
        metadata: completed(metadata, stated),
        lists,
        uses: slices_of(rt.alloc(), &names)?,
    };
    let file = with_name(rt.alloc(), file, options.output)?;
    let text = text_of(rt.alloc(), options.table, &file, lengths)?;
    write_output(rt, options.output, &text)?;
    Ok(ACCEPTED)
}

/// The metadata `given`, completed with the parts of `other` that `given` lacks.
fn completed(given: Metadata, other: Metadata) -> Metadata {
    Metadata {
        character_collection: given.character_collection.or(other.character_collection),
        name: given.name.or(other.name),
        writing_mode: given.writing_mode.or(other.writing_mode),
    }
}

/// The failure of a line of a table.
fn wrong_line(rt: &HostRuntime, path: &str, fault_of_line: TableFault) -> Failure {
    let TableFault { line, wrong } = fault_of_line;
    match format!(in rt.alloc(); "line {line}: {}", wrong.words()) {
        Ok(words) => fault(rt, path, words.as_str()),
        Err(AllocError) => Failure::Memory,
    }
}

/// The metadata that the options give.
fn metadata_of(rt: &HostRuntime, options: &MakeOptions<'_, '_>) -> Result<Metadata, Failure> {
    let character_collection = match options.collection {
        Some(spelled) => Some(collection_of(rt, spelled)?),
        None => None,
    };
    let name = match options.name {
        Some(name) => Some(given_name(rt, "--name", name)?),
        None => None,
    };
    Ok(Metadata {
        character_collection,
        name,
        writing_mode: options.is_vertical.then_some(WritingMode::Vertical),
    })
}

/// The collection with this spelling, such as Adobe-Japan1-6.
fn collection_of(rt: &HostRuntime, spelled: &str) -> Result<CharacterCollection, Failure> {
    if !is_plain(spelled) {
        return Err(fault(rt, spelled, "not UTF-8"));
    }
    match spelled_collection(rt.alloc(), spelled)? {
        Some(collection) => Ok(collection),
        None => Err(fault(rt, spelled, "not REGISTRY-ORDERING-SUPPLEMENT")),
    }
}

/// The bytes of the names.
fn names_of(rt: &HostRuntime, arguments: &[&str]) -> Result<Vec<Vec<u8>>, Failure> {
    let mut names = Vec::new(rt.alloc());
    for argument in arguments {
        names.push(given_name(rt, "--use", argument)?)?;
    }
    Ok(names)
}

fn slices_of(alloc: Global, names: &[Vec<u8>]) -> Result<Vec<&[u8]>, AllocError> {
    names.iter().map(|name| name.as_slice()).collect(alloc)
}
