//! `cmap info`: the metadata and the numbers of declarations of files.

use crate::command_line::files_of;
use crate::command_line::flags::JSON;
use crate::options::{Sources, manner_of};
use clap::ArgMatches;
use cmap_bundle::contents::print_contents;
use cmap_io::failure::{Failure, report_message};
use cmap_io::status::{ACCEPTED, FAILED, REFUSED};
use cmap_report::info::{push_info, push_json};
use cmap_sources::bases::{Bases, Files};
use cmap_sources::maps::{Opened, open};
use cmap_sources::reading::{Input, Manner, faults_of};
use cmap_sources::uses::uses_by_layer;
use hayro_cmap::CMap;
use std::alloc::{AllocError, Global};

/// The parsed arguments of `info`.
#[derive(Clone, Copy)]
pub(crate) struct InfoOptions<'m, 'w> {
    /// The files. Without files, the contents of the bundle are printed.
    files: &'m [&'w str],
    pub(crate) sources: Sources<'m, 'w>,
    manner: Manner,
    json: bool,
}

impl<'m, 'w> InfoOptions<'m, 'w> {
    pub(crate) fn of(arguments: &'m ArgMatches<'w>) -> InfoOptions<'m, 'w> {
        InfoOptions {
            files: files_of(arguments),
            sources: Sources::of(arguments),
            manner: manner_of(arguments),
            json: JSON.is_given(arguments),
        }
    }
}

/// Prints the information about each file, or the contents of the bundle, and returns the exit
/// status.
pub(crate) fn info(
    rt: &HostRuntime,
    options: &InfoOptions<'_, '_>,
    bases: &mut Bases<'_>,
) -> Result<u8, Failure> {
    if options.files.is_empty() {
        info_of_bundle(rt, options, bases)
    } else {
        info_of_files(rt, options, bases)
    }
}

/// Prints the contents of the bundle. `clap` refuses `info` without a file and without a bundle.
fn info_of_bundle(
    rt: &HostRuntime,
    options: &InfoOptions<'_, '_>,
    bases: &Bases<'_>,
) -> Result<u8, Failure> {
    let (Some(path), Some(bundle)) = (options.sources.bundle, bases.bundle) else {
        return Ok(FAILED);
    };
    print_contents(rt, path, bundle, options.json)?;
    Ok(ACCEPTED)
}

/// Prints the information about each file.
fn info_of_files(
    rt: &HostRuntime,
    options: &InfoOptions<'_, '_>,
    bases: &mut Bases<'_>,
) -> Result<u8, Failure> {
    let mut status = ACCEPTED;
    for (index, path) in options.files.iter().enumerate() {
        if index > 0 && !options.json {
            rt.println("")?;
        }
        status = status.max(info_of(rt, path, options, bases)?);
    }
    Ok(status)
}

/// Prints the information about a file.
fn info_of(
    rt: &HostRuntime,
    path: &str,
    options: &InfoOptions<'_, '_>,
    bases: &mut Bases<'_>,
) -> Result<u8, Failure> {
    match open(rt, path, options.manner, bases) {
        Ok(opened) => print_info(rt, path, &opened, options, bases),
        Err(Failure::Refused) => Ok(REFUSED),
        Err(failure) => {
            report_message(rt, failure)?;
            Ok(FAILED)
        }
    }
}

fn print_info(
    rt: &HostRuntime,
    path: &str,
    opened: &Opened<'_>,
    options: &InfoOptions<'_, '_>,
    bases: &Bases<'_>,
) -> Result<u8, Failure> {
    let input = Input {
        path,
        bytes: opened.bytes.as_slice(),
    };
    let lines = lines_of(rt.alloc(), input, &opened.map, options, &bases.files())?;
    rt.print(lines.as_str())?;
    Ok(ACCEPTED)
}

/// The lines about a file with this map.
fn lines_of(
    alloc: Global,
    input: Input<'_>,
    map: &CMap,
    options: &InfoOptions<'_, '_>,
    files: &Files<'_>,
) -> Result<String, AllocError> {
    let faults = faults_of(alloc, input, options.manner, files)?;
    let layers = map.layers().as_slice().len();
    let uses = uses_by_layer(alloc, input.bytes, files, &faults, layers)?;
    let mut lines = String::new(alloc);
    if options.json {
        push_json(alloc, &mut lines, input.path, map, &uses)?;
    } else {
        push_info(&mut lines, input.path, map, &uses)?;
    }
    Ok(lines)
}
