//! The contents of a bundle.

use cmap_binary::is_marked_binary;
use cmap_io::escape::{escaped_name, escaped_names, push_name};
use cmap_io::failure::Failure;
use cmap_io::json::push_line;
use cmap_io::object::Object;
use cmap_io::value::Value;
use cmap_sources::uses::uses_by_layer;
use cmap_values::names::{KNOWN_COUNT, KNOWN_NAMES};
use hayro_cmap::{Bundle, BundleFiles, NamedFiles};
use std::alloc::{AllocError, Global};

/// A file of a bundle.
#[derive(Drop)]
pub struct Held<'b> {
    pub name: &'static [u8],
    pub bytes: &'b [u8],
    /// The names that the file uses, in order.
    pub uses: Vec<&'b [u8]>,
}

impl<'b> Held<'b> {
    /// Whether the file is in the binary form, and not a text.
    pub fn is_binary(&self) -> bool {
        is_marked_binary(self.bytes)
    }

    fn form(&self) -> &'static str {
        if self.is_binary() { "binary" } else { "text" }
    }
}

/// The files of a bundle, in the order of their names. Placeholders for absent files aren't among them.
pub fn contents_of<'b>(alloc: Global, bundle: &'b Bundle<'b>) -> Result<Vec<Held<'b>>, AllocError> {
    let mut files = Vec::new(alloc);
    for name in KNOWN_NAMES {
        let name = name.to_bytes();
        if let Some(bytes) = bundle.file_of(name) {
            let uses = uses_of(alloc, bundle, bytes)?;
            files.push(Held { name, bytes, uses })?;
        }
    }
    Ok(files)
}

/// The names that a file of a bundle uses.
fn uses_of<'b>(
    alloc: Global,
    bundle: &'b Bundle<'b>,
    bytes: &'b [u8],
) -> Result<Vec<&'b [u8]>, AllocError> {
    let none: &[(&[u8], &[u8])] = &[];
    let files = NamedFiles {
        files: none,
        bundle: Some(bundle),
    };
    let mut layers = uses_by_layer(alloc, bytes, &files, &[], 1)?;
    Ok(layers.pop().unwrap_or(Vec::new(alloc)))
}

/// The number of known names without a file.
pub fn absent_of(files: &[Held<'_>]) -> usize {
    KNOWN_COUNT.saturating_sub(files.len())
}

/// Prints the contents of the bundle of this path.
pub fn print_contents(
    rt: &HostRuntime,
    path: &str,
    bundle: &Bundle<'_>,
    json: bool,
) -> Result<(), Failure> {
    let files = contents_of(rt.alloc(), bundle)?;
    let mut lines = String::new(rt.alloc());
    if json {
        push_json(rt.alloc(), &mut lines, path, &files)?;
    } else {
        push_contents(rt.alloc(), &mut lines, &files)?;
    }
    Ok(rt.print(lines.as_str())?)
}

/// Adds a line for each file of a bundle, and the number of names without a file.
fn push_contents(alloc: Global, out: &mut String, files: &[Held<'_>]) -> Result<(), AllocError> {
    for file in files {
        push_held(alloc, out, file)?;
    }
    writeln!(
        out,
        "{} of {} names have no file",
        absent_of(files),
        KNOWN_COUNT
    )
}

/// Adds the line of a file: the name, the number of bytes, the form, and the names that the file uses.
fn push_held(alloc: Global, out: &mut String, file: &Held<'_>) -> Result<(), AllocError> {
    let Held { name, bytes, uses } = file;
    let name = escaped_name(alloc, name)?;
    write!(out, "{name:<18}{:>9}  {:<6} ", bytes.len(), file.form())?;
    push_uses(out, uses)
}

fn push_uses(out: &mut String, names: &[&[u8]]) -> Result<(), AllocError> {
    if names.is_empty() {
        return out.push_str(" -\n");
    }
    for name in names {
        out.push_str(" /")?;
        push_name(out, name)?;
    }
    out.push('\n')
}

/// Adds the object of the bundle of this path, and ends the line.
fn push_json(
    alloc: Global,
    out: &mut String,
    path: &str,
    files: &[Held<'_>],
) -> Result<(), AllocError> {
    let mut object = Object::new(alloc);
    object.set("absent", Value::from(absent_of(files)));
    object.set_text("file", path);
    object.set_list("files", held_objects(alloc, files));
    push_line(alloc, out, &object.finish()?)
}

fn held_objects(alloc: Global, files: &[Held<'_>]) -> Result<Vec<Value>, AllocError> {
    let mut objects = Vec::new(alloc);
    for file in files {
        objects.push(held_object(alloc, file)?)?;
    }
    Ok(objects)
}

fn held_object(alloc: Global, file: &Held<'_>) -> Result<Value, AllocError> {
    let mut object = Object::new(alloc);
    object.set("bytes", Value::from(file.bytes.len()));
    object.set_text("form", file.form());
    object.set_string("name", escaped_name(alloc, file.name));
    object.set_list("uses", escaped_names(alloc, &file.uses));
    object.finish()
}
