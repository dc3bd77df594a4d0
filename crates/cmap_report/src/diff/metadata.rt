//! The metadata in which two files differ.

use crate::diff::Side;
use crate::info::{mode_name, push_collection};
use cmap_io::escape::push_name;
use cmap_io::json;
use cmap_io::object::Object;
use hayro_cmap::{CMap, CharacterCollection, Layers, WritingMode};
use std::alloc::{AllocError, Global};

/// A part of the metadata that is compared.
#[derive(Clone, Copy)]
enum Key {
    Name,
    Collection,
    WritingMode,
}

impl Key {
    /// The word for the part in a line.
    fn word(self) -> &'static str {
        match self {
            Key::Name => "name",
            Key::Collection => "collection",
            Key::WritingMode => "writing mode",
        }
    }

    /// The member name of the part's value in an object.
    fn member(self) -> &'static str {
        match self {
            Key::WritingMode => "writing_mode",
            _ => self.word(),
        }
    }

    /// The printed value of the part; `None` if the map has no value.
    fn value(self, alloc: Global, map: &CMap) -> Result<Option<String>, AllocError> {
        match self {
            Key::Name => name_of(alloc, map),
            Key::Collection => collection_text(alloc, collection_of(map.layers())),
            Key::WritingMode => match mode_name(Some(mode_of(map.layers()))) {
                Some(mode) => Ok(Some(String::from_str(alloc, mode)?)),
                None => Ok(None),
            },
        }
    }
}

/// A value in the metadata of one file that the other file doesn't have.
#[derive(Drop)]
pub struct Statement {
    side: Side,
    key: Key,
    value: String,
}

/// The differences between the metadata of two files: in the names, and in the collections and writing modes of the
/// first layers that have them. Without a layer that has a writing mode, text is horizontal.
pub fn statements(alloc: Global, left: &CMap, right: &CMap) -> Result<Vec<Statement>, AllocError> {
    let mut found = Vec::new(alloc);
    for key in &[Key::Name, Key::Collection, Key::WritingMode] {
        let (left, right) = (key.value(alloc, left)?, key.value(alloc, right)?);
        if left != right {
            add(&mut found, Side::Left, *key, left)?;
            add(&mut found, Side::Right, *key, right)?;
        }
    }
    Ok(found)
}

/// Adds a value, if a file has it.
fn add(
    found: &mut Vec<Statement>,
    side: Side,
    key: Key,
    value: Option<String>,
) -> Result<(), AllocError> {
    if let Some(value) = value {
        found.push(Statement { side, key, value })?;
    }
    Ok(())
}

fn name_of(alloc: Global, map: &CMap) -> Result<Option<String>, AllocError> {
    let Some(name) = &map.metadata().name else {
        return Ok(None);
    };
    let mut shown = String::new(alloc);
    push_name(&mut shown, name)?;
    Ok(Some(shown))
}

fn collection_text(
    alloc: Global,
    collection: Option<&CharacterCollection>,
) -> Result<Option<String>, AllocError> {
    let Some(collection) = collection else {
        return Ok(None);
    };
    let mut shown = String::new(alloc);
    push_collection(&mut shown, collection)?;
    Ok(Some(shown))
}

/// The collection of the first layer that has one.
fn collection_of(layers: &Layers) -> Option<&CharacterCollection> {
    for layer in layers.as_slice() {
        if let Some(collection) = &layer.metadata().character_collection {
            return Some(collection);
        }
    }
    None
}

/// The writing mode of the first layer that has one.
fn mode_of(layers: &Layers) -> WritingMode {
    for layer in layers.as_slice() {
        if let Some(mode) = layer.metadata().writing_mode {
            return mode;
        }
    }
    WritingMode::Horizontal
}

/// Adds a line, such as `- name Small-H`, and ends it.
pub fn push_statement(out: &mut String, statement: &Statement) -> Result<(), AllocError> {
    out.push_str(statement.side.mark())?;
    out.push_str(statement.key.word())?;
    out.push(' ')?;
    out.push_str(statement.value.as_str())?;
    out.push('\n')
}

/// Adds the object of a statement, and ends the line.
pub fn push_statement_json(
    alloc: Global,
    out: &mut String,
    statement: &Statement,
) -> Result<(), AllocError> {
    let mut object = Object::new(alloc);
    object.set_text("side", statement.side.word());
    object.set_text("kind", statement.key.member());
    object.set_text(statement.key.member(), statement.value.as_str());
    json::push_line(alloc, out, &object.finish()?)
}
