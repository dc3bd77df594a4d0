//! Answers which CIDs and which texts the character codes on the command line stand for, in the
//! CMap file on the standard input; or measures how long a file takes to read, and its codes to look
//! up: `cmap_query bench parse|lookup|bf|decode FILE N`.
#![tactic(auto)]

mod bench;
#[cfg(test)]
mod callers;
#[cfg(test)]
mod examples;

use crate::bench::bench;
use cmap_queries::answers::run;
use cmap_queries::arguments::arguments;
use cmap_queries::output::report;
use std::process::ExitCode;

fn main(rt: HostRuntime) -> ExitCode {
    let status = match arguments(&rt) {
        Ok(arguments) => started(&rt, &arguments),
        Err(failure) => report(failure, &mut rt.stderr()),
    };
    ExitCode::from(status)
}

/// Does what the arguments ask for, and gives the status.
fn started(rt: &HostRuntime, arguments: &[String]) -> u8 {
    match arguments.split_first() {
        Some((first, others)) if first.as_str() == "bench" => bench(rt, others),
        _ => run(
            rt.alloc(),
            arguments,
            &mut rt.stdin(),
            &mut rt.stdout(),
            &mut rt.stderr(),
        ),
    }
}
