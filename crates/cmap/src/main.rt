//! The command `cmap`: the contents and the faults of CMap files, and the texts of strings.
#![tactic(auto)]

mod bundle;
mod check;
mod collection;
mod command_line;
mod decode;
mod diff;
mod encode;
mod find;
mod font;
mod info;
mod list;
mod locate;
mod lookup;
mod make;
mod options;
mod rewrite;
mod strings;
mod subcommands;
mod text;
mod usage;

use crate::command_line::command;
use crate::options::{Sources, asks_twice_for_standard_input};
use crate::subcommands::Subcommand;
use crate::usage::print_usage;
use clap::ArgMatches;
use cmap_io::arguments::arguments;
use cmap_io::failure::{Failure, fault, report};
use cmap_io::inputs::needed;
use cmap_io::status::{FAILED, REFUSED};
use cmap_sources::bases::Bases;
use hayro_cmap::Bundle;
use std::process::ExitCode;

fn main(rt: HostRuntime) -> ExitCode {
    let status = match run(&rt) {
        Ok(status) => status,
        Err(failure) => {
            let _ = report(&rt, &failure);
            failure.status()
        }
    };
    ExitCode::from(status)
}

fn run(rt: &HostRuntime) -> Result<u8, Failure> {
    let arguments = arguments(rt)?;
    let command = command(rt.alloc())?;
    match command.try_get_matches_from(arguments.as_slice()) {
        Ok(matches) => run_arguments(rt, &matches),
        Err(error) => print_usage(rt, &arguments, &error),
    }
}

/// Runs the subcommand of the arguments, and returns the exit status.
fn run_arguments(rt: &HostRuntime, matches: &ArgMatches<'_>) -> Result<u8, Failure> {
    let Some((name, arguments)) = matches.subcommand() else {
        return Ok(FAILED);
    };
    if asks_twice_for_standard_input(arguments) {
        let message = String::from_str(rt.alloc(), "the standard input can be used only once")?;
        return Err(Failure::Message(message));
    }
    match Subcommand::of(name, arguments) {
        Some(subcommand) => run_subcommand(rt, &subcommand, subcommand.sources()),
        None => Ok(FAILED),
    }
}

/// Reads the bundle, if there is one, and runs the subcommand.
fn run_subcommand(
    rt: &HostRuntime,
    subcommand: &Subcommand<'_, '_>,
    sources: Sources<'_, '_>,
) -> Result<u8, Failure> {
    let Some(path) = sources.bundle else {
        return run_with(rt, subcommand, sources, None);
    };
    let bytes = needed(rt, path)?;
    match Bundle::parse(rt.alloc(), &bytes)? {
        Some(bundle) => run_with(rt, subcommand, sources, Some(&bundle)),
        None => Err(fault(rt, path, "invalid bundle")),
    }
}

/// Runs the subcommand with a bundle, or without a bundle.
fn run_with(
    rt: &HostRuntime,
    subcommand: &Subcommand<'_, '_>,
    sources: Sources<'_, '_>,
    bundle: Option<&Bundle<'_>>,
) -> Result<u8, Failure> {
    let mut bases = Bases::new(rt.alloc(), bundle);
    run_over(rt, subcommand, sources, &mut bases)
}

/// Adds the folders to the bases, and runs the subcommand over the bases.
fn run_over(
    rt: &HostRuntime,
    subcommand: &Subcommand<'_, '_>,
    sources: Sources<'_, '_>,
    bases: &mut Bases<'_>,
) -> Result<u8, Failure> {
    sources.add_folders(rt, bases)?;
    let status = match subcommand.run(rt, bases) {
        Err(Failure::Refused) => REFUSED,
        ran => ran?,
    };
    Ok(status.max(bases.status()))
}
