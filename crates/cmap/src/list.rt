//! `cmap list`: the declarations of a file and of the files that it is based on.

use crate::command_line::file_of;
use crate::command_line::flags::{EFFECTIVE, JSON};
use crate::options::{Sources, manner_of};
use clap::ArgMatches;
use cmap_io::failure::Failure;
use cmap_io::status::ACCEPTED;
use cmap_report::list::effective::effective_lines;
use cmap_report::list::line::{Line, Place, push_json, push_line};
use cmap_report::list::lines_by_layer;
use cmap_report::list::metadata::push_metadata;
use cmap_sources::bases::Bases;
use cmap_sources::maps::map_needed;
use cmap_sources::reading::Manner;
use hayro_cmap::{CMap, Layer};
use std::alloc::{AllocError, Global};

/// The parsed arguments of `list`.
#[derive(Clone, Copy)]
pub(crate) struct ListOptions<'m, 'w> {
    file: &'w str,
    pub(crate) sources: Sources<'m, 'w>,
    manner: Manner,
    json: bool,
    /// Whether the values of codes over all layers are printed, in place of the declarations of each layer.
    is_effective: bool,
}

impl<'m, 'w> ListOptions<'m, 'w> {
    pub(crate) fn of(arguments: &'m ArgMatches<'w>) -> ListOptions<'m, 'w> {
        ListOptions {
            file: file_of(arguments),
            sources: Sources::of(arguments),
            manner: manner_of(arguments),
            json: JSON.is_given(arguments),
            is_effective: EFFECTIVE.is_given(arguments),
        }
    }
}

/// Prints each declaration, layer by layer, or the values of codes over all layers, and returns the exit status.
pub(crate) fn list(
    rt: &HostRuntime,
    options: &ListOptions<'_, '_>,
    bases: &mut Bases<'_>,
) -> Result<u8, Failure> {
    let map = map_needed(rt, options.file, options.manner, bases)?;
    let lines = lines_of(rt.alloc(), &map, options)?;
    rt.print(lines.as_str())?;
    Ok(ACCEPTED)
}

fn lines_of(
    alloc: Global,
    map: &CMap,
    options: &ListOptions<'_, '_>,
) -> Result<String, AllocError> {
    if options.is_effective {
        effective(alloc, map, options.json)
    } else {
        declared(alloc, map, options.json)
    }
}

/// The values of codes over all layers.
fn effective(alloc: Global, map: &CMap, json: bool) -> Result<String, AllocError> {
    let mut printed = String::new(alloc);
    if !json {
        push_metadata(&mut printed, map.metadata())?;
    }
    let lines = effective_lines(alloc, map)?;
    push_lines(alloc, &mut printed, lines, Place::AllLayers, json)?;
    Ok(printed)
}

/// The declarations of each layer after its metadata. Each layer except the top layer has its number above them.
fn declared(alloc: Global, map: &CMap, json: bool) -> Result<String, AllocError> {
    let mut printed = String::new(alloc);
    let layers = lines_by_layer(alloc, map)?;
    for (index, lines) in layers.into_iter().enumerate() {
        let layer = index + 1;
        if !json {
            push_heading(&mut printed, layer, map.layers().as_slice().get(index))?;
        }
        push_lines(alloc, &mut printed, lines, Place::Layer(layer), json)?;
    }
    Ok(printed)
}

/// Adds the number of a layer, except for the top layer, and its metadata.
fn push_heading(
    printed: &mut String,
    number: usize,
    layer: Option<&Layer>,
) -> Result<(), AllocError> {
    if number > 1 {
        writeln!(printed, "layer {number}")?;
    }
    match layer {
        Some(layer) => push_metadata(printed, layer.metadata()),
        None => Ok(()),
    }
}

fn push_lines(
    alloc: Global,
    printed: &mut String,
    lines: Vec<Line>,
    place: Place,
    json: bool,
) -> Result<(), AllocError> {
    for line in lines {
        if json {
            push_json(alloc, printed, line, place)?;
        } else {
            push_line(printed, &line)?;
        }
    }
    Ok(())
}
