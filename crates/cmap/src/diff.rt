//! `cmap diff`: where two files differ.

use crate::command_line::flags::JSON;
use crate::command_line::{file_of, other_of};
use crate::options::{Sources, manner_of};
use clap::ArgMatches;
use cmap_io::failure::Failure;
use cmap_io::inputs::STANDARD_INPUT;
use cmap_io::status::{ACCEPTED, DIFFERENT, FAILED};
use cmap_report::diff::metadata::{Statement, push_statement, push_statement_json, statements};
use cmap_report::diff::{DiffLine, diff_lines, push_diff_json, push_diff_line};
use cmap_sources::bases::Bases;
use cmap_sources::maps::map_needed;
use cmap_sources::reading::Manner;
use hayro_cmap::CMap;
use std::alloc::{AllocError, Global};

/// The parsed arguments of `diff`.
#[derive(Clone, Copy)]
pub(crate) struct DiffOptions<'m, 'w> {
    left: &'w str,
    right: &'w str,
    pub(crate) sources: Sources<'m, 'w>,
    manner: Manner,
    json: bool,
}

impl<'m, 'w> DiffOptions<'m, 'w> {
    pub(crate) fn of(arguments: &'m ArgMatches<'w>) -> DiffOptions<'m, 'w> {
        DiffOptions {
            left: file_of(arguments),
            right: other_of(arguments).unwrap_or(STANDARD_INPUT),
            sources: Sources::of(arguments),
            manner: manner_of(arguments),
            json: JSON.is_given(arguments),
        }
    }
}

/// Prints the differences between two files in metadata and in the values of codes, and returns the exit status.
/// Unlike with other subcommands, a refused file is a failure, since status 1 means that the files differ.
pub(crate) fn diff(
    rt: &HostRuntime,
    options: &DiffOptions<'_, '_>,
    bases: &mut Bases<'_>,
) -> Result<u8, Failure> {
    match compare(rt, options, bases) {
        Err(Failure::Refused) => Ok(FAILED),
        compared => compared,
    }
}

fn compare(
    rt: &HostRuntime,
    options: &DiffOptions<'_, '_>,
    bases: &mut Bases<'_>,
) -> Result<u8, Failure> {
    let left = map_needed(rt, options.left, options.manner, bases)?;
    let right = map_needed(rt, options.right, options.manner, bases)?;
    let printed = printed(rt.alloc(), &left, &right, options.json)?;
    rt.print(printed.as_str())?;
    Ok(if printed.is_empty() {
        ACCEPTED
    } else {
        DIFFERENT
    })
}

/// A line for each difference.
fn printed(alloc: Global, left: &CMap, right: &CMap, json: bool) -> Result<String, AllocError> {
    let mut printed = String::new(alloc);
    push_statements(alloc, &mut printed, &statements(alloc, left, right)?, json)?;
    push_lines(alloc, &mut printed, diff_lines(alloc, left, right)?, json)?;
    Ok(printed)
}

/// Adds the differences in metadata.
fn push_statements(
    alloc: Global,
    printed: &mut String,
    found: &[Statement],
    json: bool,
) -> Result<(), AllocError> {
    for statement in found {
        if json {
            push_statement_json(alloc, printed, statement)?;
        } else {
            push_statement(printed, statement)?;
        }
    }
    Ok(())
}

/// Adds the differences in the values of codes.
fn push_lines(
    alloc: Global,
    printed: &mut String,
    lines: Vec<DiffLine>,
    json: bool,
) -> Result<(), AllocError> {
    for line in lines {
        if json {
            push_diff_json(alloc, printed, line)?;
        } else {
            push_diff_line(printed, &line)?;
        }
    }
    Ok(())
}
