//! `cmap write` and `cmap repair`.

use crate::binary::binary_of;
use crate::changes::{one_file, repaired, tidied};
use crate::naming::{given_name, named, with_name};
use crate::obstacle::push_obstacle;
use cmap_io::beside::write_output;
use cmap_io::escape::push_text;
use cmap_io::failure::Failure;
use cmap_io::status::ACCEPTED;
use cmap_sources::alone::file_of;
use cmap_sources::bases::Bases;
use cmap_sources::maps::{bytes_needed, map_needed};
use cmap_sources::reading::{Input, Manner};
use cmap_text_writer::{Obstacle, TextLengths, write_text_by};
use cmap_values::fault::Fault;
use cmap_values::file::File;
use std::alloc::{AllocError, Global};

/// The change to the declarations of a file.
#[derive(Clone, Copy)]
pub enum Change {
    /// The declarations stay as they are.
    Nothing,
    /// The file gets the fewest declarations.
    Tidy,
    /// The file gets the fewest declarations that all readers accept.
    Repair,
}

/// The parsed arguments of `cmap write` and `cmap repair`.
#[derive(Clone, Copy)]
pub struct RewriteOptions<'m, 'w> {
    /// The file, by its path or its name.
    pub file: &'w str,
    /// The path of the written file; `-` is the standard output.
    pub output: &'w str,
    /// How the file is read.
    pub manner: Manner,
    /// Whether one file is made of all layers.
    pub is_flat: bool,
    /// The change to the declarations of the file.
    pub change: Change,
    /// The new name of the written file.
    pub name: Option<&'w str>,
    /// Whether the file is written in the binary form.
    pub is_binary: bool,
    /// Strings of hexadecimal digits, or lists of such strings after `@`. If there are any, one file is made for only
    /// the codes of these strings.
    pub codes: &'m [&'w str],
}

/// Writes the contents of a file anew, and returns the exit status. The faults of the file are reported. `strings` are
/// the strings of `options.codes`.
pub fn rewrite(
    rt: &HostRuntime,
    options: &RewriteOptions<'_, '_>,
    strings: &[Vec<u8>],
    bases: &mut Bases<'_>,
) -> Result<u8, Failure> {
    let name = new_name(rt, options)?;
    if options.is_flat || !options.codes.is_empty() {
        let map = map_needed(rt, options.file, options.manner, bases)?;
        let kept = (!options.codes.is_empty()).then_some(strings);
        let file = one_file(rt.alloc(), options.file, &map, kept)?;
        return finish(rt, options, renamed(file, name), bases);
    }
    let bytes = bytes_needed(rt, options.file, bases)?;
    let input = Input {
        path: options.file,
        bytes: bytes.as_slice(),
    };
    let file = file_of(rt, input, options.manner.faults, bases)?;
    let file = match options.change {
        Change::Nothing => file,
        Change::Tidy => tidied(rt.alloc(), file)?,
        Change::Repair => with_name(rt.alloc(), repaired(rt.alloc(), file)?, options.output)?,
    };
    finish(rt, options, renamed(file, name), bases)
}

/// Writes the file.
fn finish(
    rt: &HostRuntime,
    options: &RewriteOptions<'_, '_>,
    file: File<'_>,
    bases: &Bases<'_>,
) -> Result<u8, Failure> {
    let bytes = if options.is_binary {
        binary_of(rt, options.file, &file, bases.bundle)?
    } else {
        text_of(
            rt.alloc(),
            options.file,
            &file,
            TextLengths::by(&file.lists.spaces),
        )?
    };
    write_output(rt, options.output, &bytes)?;
    Ok(ACCEPTED)
}

/// The name that the options give, if any.
fn new_name(
    rt: &HostRuntime,
    options: &RewriteOptions<'_, '_>,
) -> Result<Option<Vec<u8>>, Failure> {
    match options.name {
        Some(name) => Ok(Some(given_name(rt, "--name", name)?)),
        None => Ok(None),
    }
}

/// The file with a new name, if there is one.
fn renamed<'d>(file: File<'d>, name: Option<Vec<u8>>) -> File<'d> {
    match name {
        Some(name) => named(file, name),
        None => file,
    }
}

/// The text of a file, with these lengths for the codes of texts. `path` is the path that the file was read from.
pub(crate) fn text_of(
    alloc: Global,
    path: &str,
    file: &File<'_>,
    lengths: TextLengths,
) -> Result<Vec<u8>, Failure> {
    match write_text_by(alloc, file, lengths) {
        Ok(text) => Ok(text),
        Err(Fault::Memory) => Err(Failure::Memory),
        Err(Fault::Refused(obstacle)) => {
            Err(Failure::Message(obstacle_line(alloc, path, obstacle)?))
        }
    }
}

/// The line that states why no text can express a file.
fn obstacle_line(alloc: Global, path: &str, obstacle: Obstacle) -> Result<String, AllocError> {
    let mut line = String::new(alloc);
    push_text(&mut line, path)?;
    line.push_str(": ")?;
    push_obstacle(&mut line, obstacle)?;
    Ok(line)
}
