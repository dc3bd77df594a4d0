//! The metadata of a layer, as comments over its lines. `cmap make` reads them.

use crate::info::{mode_name, push_collection};
use cmap_io::escape::push_name;
use hayro_cmap::{CharacterCollection, Metadata};
use std::alloc::AllocError;

/// Adds a comment for each part of the metadata that a file declares.
pub fn push_metadata(out: &mut String, metadata: &Metadata) -> Result<(), AllocError> {
    if let Some(name) = &metadata.name {
        push_name_comment(out, name)?;
    }
    if let Some(collection) = &metadata.character_collection {
        push_collection_comment(out, collection)?;
    }
    match mode_name(metadata.writing_mode) {
        Some(mode) => writeln!(out, "# writing mode: {mode}"),
        None => Ok(()),
    }
}

fn push_name_comment(out: &mut String, name: &[u8]) -> Result<(), AllocError> {
    out.push_str("# name: ")?;
    push_name(out, name)?;
    out.push('\n')
}

fn push_collection_comment(
    out: &mut String,
    collection: &CharacterCollection,
) -> Result<(), AllocError> {
    out.push_str("# collection: ")?;
    push_collection(out, collection)?;
    out.push('\n')
}
