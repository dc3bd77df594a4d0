//! The program `cmap_query` as a call, which answers arguments from a CMap file, perhaps after a bundle.

mod lines;

use self::lines::lines_of;
use crate::embedded::Embedded;
use crate::failure::Failure;
use crate::input::{read_all, split_bundle};
use crate::options::RunOptions;
use crate::output::{report, send};
use crate::query::Query;
use hayro_cmap::bcmap::Bundle;
use hayro_cmap::{CMap, Cause, Fault};
use std::alloc::Global;
use std::io::{Read, Write};

/// Answers the queries in the arguments from the CMap file that `input` gives, perhaps after a bundle, with one line
/// each on `out`. Returns the exit status: 0, or the status of a failure. `err` then names the failure in one line.
///
/// The arguments are parsed before the input is read, and all answers are made before the first answer is written.
pub fn run<R: Read, W: Write, E: Write>(
    alloc: Global,
    arguments: &[String],
    input: &mut R,
    out: &mut W,
    err: &mut E,
) -> u8 {
    match answer(alloc, arguments, input, out) {
        Ok(()) => 0,
        Err(failure) => report(failure, err),
    }
}

fn answer<R: Read, W: Write>(
    alloc: Global,
    arguments: &[String],
    input: &mut R,
    out: &mut W,
) -> Result<(), Failure> {
    let (options, arguments) = RunOptions::parse(arguments)?;
    let queries = Query::parse_all(alloc, arguments)?;
    let lines = answers_over(alloc, options, &queries, input)?;
    Ok(send(out, lines.as_str())?)
}

/// The lines that answer the queries, over the file that the input gives.
fn answers_over<R: Read>(
    alloc: Global,
    options: RunOptions,
    queries: &[Query<'_>],
    input: &mut R,
) -> Result<String, Failure> {
    let bytes = read_all(alloc, input)?;
    answers_in(alloc, options, queries, &bytes)
}

/// The lines that answer the queries, over the file in these bytes.
fn answers_in(
    alloc: Global,
    options: RunOptions,
    queries: &[Query<'_>],
    input: &[u8],
) -> Result<String, Failure> {
    let map = map_of(alloc, options, input)?;
    Ok(lines_of(alloc, &map, queries)?)
}

/// The map of the input: of all its bytes, or of those after the bundle.
fn map_of(alloc: Global, options: RunOptions, input: &[u8]) -> Result<CMap, Failure> {
    let Some(bundle_len) = options.bundle else {
        return map_over(alloc, options.budget, input, None);
    };
    let (front, file) = split_bundle(input, bundle_len).ok_or(Failure::Refused)?;
    match Bundle::parse(alloc, front)? {
        Some(bundle) => map_over(alloc, options.budget, file, Some(&bundle)),
        None => Err(Failure::Refused),
    }
}

/// The map of a file, which may use the files of the bundle as `load_embedded` gives them, and no other files.
fn map_over(
    alloc: Global,
    budget: Option<u64>,
    file: &[u8],
    bundle: Option<&Bundle<'_>>,
) -> Result<CMap, Failure> {
    match CMap::parse_from(alloc, budget, file, bundle, &Embedded { bundle }) {
        Ok(map) => Ok(map),
        Err(Fault::Refused(refusal)) => match refusal.cause {
            Cause::OverBudget => Err(Failure::OverBudget),
            _ => Err(Failure::Refused),
        },
        Err(Fault::Memory) => Err(Failure::NoMemory),
    }
}
