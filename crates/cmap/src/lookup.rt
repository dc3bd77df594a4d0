//! `cmap lookup`: the CIDs and the texts of single codes.

use crate::command_line::flags::JSON;
use crate::command_line::{arguments_of, file_of};
use crate::options::{Sources, manner_of};
use clap::ArgMatches;
use cmap_io::failure::{Failure, fault};
use cmap_io::status::ACCEPTED;
use cmap_queries::query::Query;
use cmap_report::lookup::{push_answer, push_json};
use cmap_sources::bases::Bases;
use cmap_sources::maps::map_needed;
use cmap_sources::reading::Manner;
use hayro_cmap::CMap;
use std::alloc::{AllocError, Global};

/// The parsed arguments of `lookup`.
#[derive(Clone, Copy)]
pub(crate) struct LookupOptions<'m, 'w> {
    file: &'w str,
    /// The arguments `L:HEX` and `bf:HEX`.
    codes: &'m [&'w str],
    pub(crate) sources: Sources<'m, 'w>,
    manner: Manner,
    json: bool,
}

impl<'m, 'w> LookupOptions<'m, 'w> {
    pub(crate) fn of(arguments: &'m ArgMatches<'w>) -> LookupOptions<'m, 'w> {
        LookupOptions {
            file: file_of(arguments),
            codes: arguments_of(arguments),
            sources: Sources::of(arguments),
            manner: manner_of(arguments),
            json: JSON.is_given(arguments),
        }
    }
}

/// Prints the answer to each query, and returns the exit status.
pub(crate) fn lookup(
    rt: &HostRuntime,
    options: &LookupOptions<'_, '_>,
    bases: &mut Bases<'_>,
) -> Result<u8, Failure> {
    let queries = queries_of(rt, options.codes)?;
    let map = map_needed(rt, options.file, options.manner, bases)?;
    let lines = lines_of(rt.alloc(), &map, &queries, options.json)?;
    rt.print(lines.as_str())?;
    Ok(ACCEPTED)
}

/// The answers to queries.
fn lines_of(
    alloc: Global,
    map: &CMap,
    queries: &[Query<'_>],
    json: bool,
) -> Result<String, AllocError> {
    let mut lines = String::new(alloc);
    for query in queries {
        if json {
            push_json(alloc, &mut lines, map, query)?;
        } else {
            push_answer(alloc, &mut lines, map, query)?;
        }
    }
    Ok(lines)
}

/// The queries that the arguments spell.
fn queries_of<'w>(rt: &HostRuntime, arguments: &[&'w str]) -> Result<Vec<Query<'w>>, Failure> {
    let mut queries = Vec::new(rt.alloc());
    for argument in arguments {
        match Query::parse(argument) {
            Some(query) => queries.push(query)?,
            None => return Err(fault(rt, argument, "neither L:HEX nor bf:HEX")),
        }
    }
    Ok(queries)
}
