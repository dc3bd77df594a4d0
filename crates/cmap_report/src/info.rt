//! The metadata, the codespace ranges and the numbers of declarations in the files of a map, layer by layer.

ghost use Rattle.std.specs.Prelude.{OnOk, string_bytes};
ghost use Rattle.cmap_io.specs.Escapes.{AddsLine, AddsOfLine};

use cmap_io::digits::{code_digits, push_code};
use cmap_io::object::Object;
use cmap_io::value::Value;
use cmap_io::{escape, json};
use hayro_cmap::{
    ByLength, CMap, CharacterCollection, CodeLength, Codespace, Layer, Metadata, WritingMode,
};
use std::alloc::{AllocError, Global};

/// Adds the paragraph of a file, with a section for the file and for each file that it is based on. `uses` has the
/// names that the file of each layer uses. Each value follows a label of seventeen columns.
pub fn push_info(
    out: &mut String,
    file: &str,
    map: &CMap,
    uses: &[Vec<&[u8]>],
) -> Result<(), AllocError> {
    for (index, layer) in map.layers().as_slice().iter().enumerate() {
        push_heading(out, file, index + 1)?;
        push_layer(out, layer, names_at(uses, index))?;
    }
    Ok(())
}

/// The names that the file of a layer uses.
fn names_at<T>(uses: &[Vec<T>], index: usize) -> &[T] {
    match uses.get(index) {
        Some(names) => names.as_slice(),
        None => &[],
    }
}

/// Adds the heading of a layer: the path of the file for layer 1, and the number of any other layer.
fn push_heading(out: &mut String, file: &str, layer: usize) -> Result<(), AllocError> {
    if layer == 1 {
        escape::push_text(out, file)?;
        out.push('\n')
    } else {
        writeln!(out, "layer {layer}")
    }
}

/// Adds the section of a layer.
fn push_layer(out: &mut String, layer: &Layer, uses: &[&[u8]]) -> Result<(), AllocError> {
    push_metadata(out, layer.metadata())?;
    push_uses(out, uses)?;
    push_codespaces(out, layer.codespaces())?;
    push_declarations(out, layer)
}

fn push_metadata(out: &mut String, metadata: &Metadata) -> Result<(), AllocError> {
    push_name(out, metadata)?;
    push_collection_or_dash(out, metadata)?;
    let mode = mode_name(metadata.writing_mode).unwrap_or("-");
    writeln!(out, "  writing mode   {mode}")
}

fn push_name(out: &mut String, metadata: &Metadata) -> Result<(), AllocError> {
    out.push_str("  name           ")?;
    match &metadata.name {
        Some(name) => escape::push_name(out, name)?,
        None => out.push('-')?,
    }
    out.push('\n')
}

fn push_collection_or_dash(out: &mut String, metadata: &Metadata) -> Result<(), AllocError> {
    out.push_str("  collection     ")?;
    match &metadata.character_collection {
        Some(collection) => push_collection(out, collection)?,
        None => out.push('-')?,
    }
    out.push('\n')
}

/// Adds a collection in the form `Adobe-Japan1-2`.
pub(crate) fn push_collection(
    out: &mut String,
    collection: &CharacterCollection,
) -> Result<(), AllocError> {
    escape::push_name(out, collection.family.registry())?;
    out.push('-')?;
    escape::push_name(out, collection.family.ordering())?;
    write!(out, "-{}", collection.supplement)
}

/// The word for a writing mode.
pub(crate) fn mode_name(mode: Option<WritingMode>) -> Option<&'static str> {
    match mode? {
        WritingMode::Horizontal => Some("horizontal"),
        WritingMode::Vertical => Some("vertical"),
    }
}

/// Adds the names of the files that are used, each after a slash.
fn push_uses(out: &mut String, names: &[&[u8]]) -> Result<(), AllocError> {
    if names.is_empty() {
        return out.push_str("  files used     -\n");
    }
    out.push_str("  files used    ")?;
    for name in names {
        push_used(out, name)?;
    }
    out.push('\n')
}

fn push_used(out: &mut String, name: &[u8]) -> Result<(), AllocError> {
    out.push_str(" /")?;
    escape::push_name(out, name)
}

/// Adds codespace ranges, one a line.
fn push_codespaces(out: &mut String, spaces: &[Codespace]) -> Result<(), AllocError> {
    if spaces.is_empty() {
        return out.push_str("  codespaces     -\n");
    }
    let mut label = "  codespaces     ";
    for space in spaces {
        push_codespace(out, label, space)?;
        label = "                 ";
    }
    Ok(())
}

/// Adds a codespace range in the form `<8140> <9FFC>`, and ends the line.
fn push_codespace(out: &mut String, label: &str, space: &Codespace) -> Result<(), AllocError> {
    let byte_len = space.len.count();
    write!(out, "{label}<")?;
    push_code(out, byte_len, space.low)?;
    out.push_str("> <")?;
    push_code(out, byte_len, space.high)?;
    out.push_str(">\n")
}

/// Adds the numbers of declarations of a layer.
fn push_declarations(out: &mut String, layer: &Layer) -> Result<(), AllocError> {
    push_counts(out, "  CID ranges     ", &layer.counts().cids)?;
    push_counts(out, "  notdef ranges  ", &layer.counts().notdefs)?;
    match layer.texts().decl_count() {
        0 => out.push_str("  text ranges    -\n"),
        count => writeln!(out, "  text ranges    {count}"),
    }
}

/// Adds a line with the counts above 0, such as `2 of 1 byte, 1 of 2 bytes`.
fn push_counts(out: &mut String, label: &str, counts: &ByLength<usize>) -> Result<(), AllocError> {
    out.push_str(label)?;
    let before = out.len();
    for len in CodeLength::ALL {
        let separator = if out.len() == before { "" } else { ", " };
        push_count(out, separator, *len, *counts.get(*len))?;
    }
    out.push_str(if out.len() == before { "-\n" } else { "\n" })
}

fn push_count(
    out: &mut String,
    separator: &str,
    len: CodeLength,
    count: usize,
) -> Result<(), AllocError> {
    if count == 0 {
        return Ok(());
    }
    let unit = match len {
        CodeLength::One => "byte",
        _ => "bytes",
    };
    write!(out, "{separator}{count} of {} {unit}", len.count())
}

/// Adds the object of a file, and ends the line. `uses` has the names that the file of each layer
/// uses.
pub fn push_json(
    alloc: Global,
    out: &mut String,
    file: &str,
    map: &CMap,
    uses: &[Vec<&[u8]>],
) -> Result<(), AllocError>
    ensures line { OnOk result (AddsLine (string_bytes out.old) (string_bytes out.new)) }

    // This holds even if memory runs out.
    ensures printable { AddsOfLine (string_bytes out.old) (string_bytes out.new) }
{
    let object = file_object(alloc, file, map, uses)?;
    json::push_line(alloc, out, &object)
}

fn file_object(
    alloc: Global,
    file: &str,
    map: &CMap,
    uses: &[Vec<&[u8]>],
) -> Result<Value, AllocError> {
    let mut object = Object::new(alloc);
    object.set_text("file", file);
    object.set_list("layers", layer_objects(alloc, map, uses));
    object.finish()
}

fn layer_objects(alloc: Global, map: &CMap, uses: &[Vec<&[u8]>]) -> Result<Vec<Value>, AllocError> {
    let mut layers = Vec::new(alloc);
    for (index, layer) in map.layers().as_slice().iter().enumerate() {
        layers.push(layer_object(alloc, layer, names_at(uses, index))?)?;
    }
    Ok(layers)
}

fn layer_object(alloc: Global, layer: &Layer, uses: &[&[u8]]) -> Result<Value, AllocError> {
    let mut object = Object::new(alloc);
    set_declarations(alloc, &mut object, layer);
    set_metadata(alloc, &mut object, layer.metadata());
    object.set_list("uses", escape::escaped_names(alloc, uses));
    object.finish()
}

fn set_declarations(alloc: Global, object: &mut Object, layer: &Layer) {
    let counts = layer.counts();
    object.set_list("cids", count_list(alloc, &counts.cids));
    object.set_list("notdefs", count_list(alloc, &counts.notdefs));
    object.set("texts", Value::from(counts.bfs));
    object.set_list("codespaces", codespace_lists(alloc, layer.codespaces()));
}

fn set_metadata(alloc: Global, object: &mut Object, metadata: &Metadata) {
    object.set_made("name", name_value(alloc, metadata));
    object.set_made("collection", collection_value(alloc, metadata));
    match mode_name(metadata.writing_mode) {
        Some(mode) => object.set_text("writing_mode", mode),
        None => object.set("writing_mode", Value::Null),
    }
}

/// The counts for codes of one, two, three and four bytes.
fn count_list(alloc: Global, counts: &ByLength<usize>) -> Result<Vec<Value>, AllocError> {
    let mut list = Vec::new(alloc);
    for len in CodeLength::ALL {
        list.push(Value::from(*counts.get(*len)))?;
    }
    Ok(list)
}

/// Codespace ranges, each as a list of its two ends.
fn codespace_lists(alloc: Global, spaces: &[Codespace]) -> Result<Vec<Value>, AllocError> {
    let mut lists = Vec::new(alloc);
    for space in spaces {
        lists.push(codespace_list(alloc, space)?)?;
    }
    Ok(lists)
}

fn codespace_list(alloc: Global, space: &Codespace) -> Result<Value, AllocError> {
    let mut ends = Vec::new(alloc);
    push_end(alloc, &mut ends, space.len, space.low)?;
    push_end(alloc, &mut ends, space.len, space.high)?;
    Ok(Value::Array(ends))
}

fn push_end(
    alloc: Global,
    ends: &mut Vec<Value>,
    len: CodeLength,
    code: u32,
) -> Result<(), AllocError> {
    ends.push(Value::from(code_digits(alloc, len.count(), code)?))?;
    Ok(())
}

fn name_value(alloc: Global, metadata: &Metadata) -> Result<Value, AllocError> {
    match &metadata.name {
        Some(name) => Ok(Value::from(escape::escaped_name(alloc, name)?)),
        None => Ok(Value::Null),
    }
}

fn collection_value(alloc: Global, metadata: &Metadata) -> Result<Value, AllocError> {
    let Some(collection) = &metadata.character_collection else {
        return Ok(Value::Null);
    };
    let mut name = String::new(alloc);
    push_collection(&mut name, collection)?;
    Ok(Value::from(name))
}
