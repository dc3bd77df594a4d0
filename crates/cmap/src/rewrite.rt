//! `cmap write` and `cmap repair`.

use crate::command_line::file_of;
use crate::command_line::flags::{BINARY, BUDGET, CMAP_NAME, CODES, FLATTEN, TEXT_OUTPUT, TIDY};
use crate::options::Sources;
use crate::strings::listed_strings;
use clap::ArgMatches;
use cmap_io::failure::Failure;
use cmap_rewrite::command::{Change, RewriteOptions, rewrite};
use cmap_sources::bases::Bases;
use cmap_sources::reading::{Faults, Form, MOST_FAULTS, Manner};

/// The parsed arguments, and the places where files are looked up by their names. `clap` refuses arguments without a
/// path for the text.
#[derive(Clone, Copy)]
pub(crate) struct Rewriting<'m, 'w> {
    options: RewriteOptions<'m, 'w>,
    pub(crate) sources: Sources<'m, 'w>,
}

impl<'m, 'w> Rewriting<'m, 'w> {
    /// The parsed arguments of `write`.
    pub(crate) fn writing(arguments: &'m ArgMatches<'w>) -> Rewriting<'m, 'w> {
        Rewriting {
            options: RewriteOptions {
                file: file_of(arguments),
                output: TEXT_OUTPUT.text(arguments).unwrap_or(""),
                manner: Manner {
                    budget: BUDGET.number(arguments),
                    faults: Faults::First,
                    form: Form::Text,
                    most_faults: MOST_FAULTS,
                },
                is_flat: FLATTEN.is_given(arguments),
                change: if TIDY.is_given(arguments) {
                    Change::Tidy
                } else {
                    Change::Nothing
                },
                name: CMAP_NAME.text(arguments),
                is_binary: BINARY.is_given(arguments),
                codes: CODES.texts(arguments),
            },
            sources: Sources::of(arguments),
        }
    }

    /// The parsed arguments of `repair`.
    pub(crate) fn repairing(arguments: &'m ArgMatches<'w>) -> Rewriting<'m, 'w> {
        Rewriting {
            options: RewriteOptions {
                file: file_of(arguments),
                output: TEXT_OUTPUT.text(arguments).unwrap_or(""),
                manner: Manner {
                    budget: None,
                    faults: Faults::All,
                    form: Form::Text,
                    most_faults: MOST_FAULTS,
                },
                is_flat: false,
                change: Change::Repair,
                name: None,
                is_binary: false,
                codes: CODES.texts(arguments),
            },
            sources: Sources::of(arguments),
        }
    }

    /// Runs `write` or `repair`, and returns the exit status.
    pub(crate) fn run(&self, rt: &HostRuntime, bases: &mut Bases<'_>) -> Result<u8, Failure> {
        let strings = listed_strings(rt, self.options.codes)?;
        rewrite(rt, &self.options, &strings, bases)
    }
}
