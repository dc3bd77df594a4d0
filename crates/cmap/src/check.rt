//! `cmap check`: the faults of refused files, and the warnings about accepted files.

mod files;
mod printed;
mod progress;
mod tally;
mod warnings;

use self::files::{CheckOptions, check};
use self::warnings::LintOptions;
use crate::command_line::files_of;
use crate::command_line::flags::{
    BUDGET, DENY, FILES_FROM, FIRST, JSON, LINT, LINT_TO_UNICODE, MAX_FAULTS, NULL, QUIET,
};
use crate::options::Sources;
use clap::ArgMatches;
use cmap_io::failure::Failure;
use cmap_io::paths::PathList;
use cmap_sources::bases::Bases;
use cmap_sources::reading::{Faults, Form, MOST_FAULTS, Manner};

/// The parsed arguments of `check`, and the places where files are looked up by their names.
#[derive(Clone, Copy)]
pub(crate) struct Checking<'m, 'w> {
    options: CheckOptions<'m, 'w>,
    pub(crate) sources: Sources<'m, 'w>,
}

impl<'m, 'w> Checking<'m, 'w> {
    pub(crate) fn of(arguments: &'m ArgMatches<'w>) -> Checking<'m, 'w> {
        Checking {
            options: CheckOptions {
                paths: files_of(arguments),
                list: list_of(arguments),
                manner: manner_of(arguments),
                lint: LintOptions::new(
                    LINT.is_given(arguments),
                    LINT_TO_UNICODE.is_given(arguments),
                    DENY.texts(arguments),
                ),
                is_quiet: QUIET.is_given(arguments),
            },
            sources: Sources::of(arguments),
        }
    }

    /// Runs `check`, and returns the exit status.
    pub(crate) fn run(&self, rt: &HostRuntime, bases: &mut Bases<'_>) -> Result<u8, Failure> {
        check(rt, &self.options, bases)
    }
}

/// The file that lists more files and folders.
fn list_of<'w>(arguments: &ArgMatches<'w>) -> Option<PathList<'w>> {
    let path = FILES_FROM.text(arguments)?;
    let end = if NULL.is_given(arguments) { 0 } else { b'\n' };
    Some(PathList { path, end })
}

/// How files are read.
fn manner_of(arguments: &ArgMatches<'_>) -> Manner {
    let (form, most_faults) = if JSON.is_given(arguments) {
        (Form::Json, u64::MAX)
    } else {
        (Form::Text, MOST_FAULTS)
    };
    Manner {
        budget: BUDGET.number(arguments),
        faults: if FIRST.is_given(arguments) {
            Faults::First
        } else {
            Faults::All
        },
        form,
        most_faults: MAX_FAULTS.number(arguments).unwrap_or(most_faults),
    }
}
