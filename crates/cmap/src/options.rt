//! Options that several subcommands have.

use crate::command_line::flags::{
    BASE, BUDGET, BUNDLE, CODES, FILES_FROM, LENIENT, NAME, NO_PREDEFINED, TO_UNICODE,
};
use crate::command_line::{arguments_of, files_of, other_of};
use crate::strings::LISTED_STANDARD_INPUT;
use clap::ArgMatches;
use cmap_io::count::Count;
use cmap_io::failure::Failure;
use cmap_io::inputs::STANDARD_INPUT;
use cmap_sources::bases::Bases;
use cmap_sources::reading::{Faults, Form, MOST_FAULTS, Manner};

/// The places where files are looked up by their names.
#[derive(Clone, Copy)]
pub(crate) struct Sources<'m, 'w> {
    /// The folders of `--base`.
    bases: &'m [&'w str],
    /// The path of the bundle.
    pub(crate) bundle: Option<&'w str>,
    /// Whether the predefined CMaps are looked up too.
    has_predefined: bool,
}

impl<'m, 'w> Sources<'m, 'w> {
    pub(crate) fn of(arguments: &'m ArgMatches<'w>) -> Sources<'m, 'w> {
        Sources {
            bases: BASE.texts(arguments),
            bundle: BUNDLE.text(arguments),
            has_predefined: !NO_PREDEFINED.is_given(arguments),
        }
    }

    /// No places, for a subcommand that looks up no names.
    pub(crate) fn nowhere() -> Sources<'m, 'w> {
        Sources {
            bases: &[],
            bundle: None,
            has_predefined: false,
        }
    }

    /// Adds the folders of these sources to the bases.
    pub(crate) fn add_folders(
        &self,
        rt: &HostRuntime,
        bases: &mut Bases<'_>,
    ) -> Result<(), Failure> {
        if self.has_predefined {
            bases.search.add_environment(rt)?;
        }
        bases.add_folders(rt, self.bases)
    }
}

/// The way in which all subcommands but `check` read files.
pub(crate) fn manner_of(arguments: &ArgMatches<'_>) -> Manner {
    Manner {
        budget: BUDGET.number(arguments),
        faults: if LENIENT.is_given(arguments) {
            Faults::All
        } else {
            Faults::First
        },
        form: Form::Text,
        most_faults: MOST_FAULTS,
    }
}

/// Whether several arguments ask for the standard input, which can be read once.
pub(crate) fn asks_twice_for_standard_input(arguments: &ArgMatches<'_>) -> bool {
    let mut count = Count::of(0);
    add_asking(&mut count, files_of(arguments), STANDARD_INPUT);
    add_asking(&mut count, arguments_of(arguments), STANDARD_INPUT);
    add_asking(&mut count, CODES.texts(arguments), LISTED_STANDARD_INPUT);
    for option in &[BUNDLE, TO_UNICODE, FILES_FROM] {
        if option.text(arguments) == Some(STANDARD_INPUT) {
            count.add_one();
        }
    }
    if other_of(arguments) == Some(STANDARD_INPUT) {
        count.add_one();
    }
    add_named(&mut count, NAME.texts(arguments));
    count.get() > 1
}

/// Counts the arguments that ask for the standard input by this spelling.
fn add_asking(count: &mut Count, arguments: &[&str], spelled: &str) {
    for argument in arguments {
        if *argument == spelled {
            count.add_one();
        }
    }
}

/// Counts the arguments `NAME=FILE` that ask for the standard input.
fn add_named(count: &mut Count, arguments: &[&str]) {
    for argument in arguments {
        if let Some((_, STANDARD_INPUT)) = argument.split_once('=') {
            count.add_one();
        }
    }
}
