//! `cmap where`: the paths of the files that names stand for.

use crate::command_line::files_of;
use crate::command_line::flags::JSON;
use crate::options::Sources;
use clap::ArgMatches;
use cmap_io::escape::push_text;
use cmap_io::failure::{Failure, report_message};
use cmap_io::folders::is_file;
use cmap_io::json;
use cmap_io::object::Object;
use cmap_io::path_text::path_bytes;
use cmap_io::status::{ACCEPTED, REFUSED};
use cmap_sources::bases::Bases;
use cmap_sources::maps::unknown_name;
use std::alloc::{AllocError, Global};

/// The parsed arguments of `where`.
#[derive(Clone, Copy)]
pub(crate) struct LocateOptions<'m, 'w> {
    names: &'m [&'w str],
    pub(crate) sources: Sources<'m, 'w>,
    json: bool,
}

impl<'m, 'w> LocateOptions<'m, 'w> {
    pub(crate) fn of(arguments: &'m ArgMatches<'w>) -> LocateOptions<'m, 'w> {
        LocateOptions {
            names: files_of(arguments),
            sources: Sources::of(arguments),
            json: JSON.is_given(arguments),
        }
    }
}

/// Prints the path of the file that each argument stands for, and returns the exit status.
pub(crate) fn locate(
    rt: &HostRuntime,
    options: &LocateOptions<'_, '_>,
    bases: &mut Bases<'_>,
) -> Result<u8, Failure> {
    let mut status = ACCEPTED;
    for argument in options.names {
        match path_of(rt, argument, options, bases)? {
            Some(path) => print_path(rt, argument, path.as_str(), options.json)?,
            None => {
                report_message(rt, unknown_name(rt, argument, bases))?;
                status = REFUSED;
            }
        }
    }
    Ok(status)
}

/// The path of the file that an argument stands for. The path of a file in the bundle is the path of the bundle.
fn path_of(
    rt: &HostRuntime,
    argument: &str,
    options: &LocateOptions<'_, '_>,
    bases: &mut Bases<'_>,
) -> Result<Option<String>, Failure> {
    if is_file(rt, argument) {
        return Ok(Some(String::from_str(rt.alloc(), argument)?));
    }
    let name = path_bytes(rt.alloc(), argument)?;
    bases.locate(rt, &name, options.sources.bundle)
}

/// Prints the path of the file that an argument stands for.
fn print_path(rt: &HostRuntime, argument: &str, path: &str, json: bool) -> Result<(), Failure> {
    let mut line = String::new(rt.alloc());
    if json {
        push_json(rt.alloc(), &mut line, argument, path)?;
    } else {
        push_text(&mut line, path)?;
    }
    rt.println(line.as_str())?;
    Ok(())
}

fn push_json(
    alloc: Global,
    line: &mut String,
    argument: &str,
    path: &str,
) -> Result<(), AllocError> {
    let mut object = Object::new(alloc);
    object.set_text("file", argument);
    object.set_text("path", path);
    json::push_value(alloc, line, &object.finish()?)
}
