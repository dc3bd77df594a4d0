//! The command line of `cmap`: its subcommands, with their options and arguments.

pub(crate) mod flags;

use self::flags::{
    BASE, BINARY, BUDGET, BUNDLE, CMAP_NAME, CODES, COLLECTION, DENY, EFFECTIVE, EXACT, FILES_FROM,
    FIRST, FLATTEN, FOLD, Flag, JSON, LENIENT, LINT, LINT_TO_UNICODE, MAX_FAULTS, MISSING, NAME,
    NO_PREDEFINED, NULL, OF_COLLECTION, OUTPUT, PIECES, QUIET, SIMPLE, TEXT_OUTPUT, TIDY,
    TO_UNICODE, USE, VERIFY, VERTICAL, values_of,
};
use clap::{Arg, ArgAction, ArgMatches, Command};
use cmap_io::inputs::STANDARD_INPUT;
use std::alloc::{AllocError, Global};

/// The id of files and folders.
const FILE: &str = "FILE";

/// The id of the file with which another file is compared.
const OTHER: &str = "OTHER";

/// The id of other arguments, after a file.
const ARGUMENT: &str = "ARGUMENT";

/// The name, the help and the arguments of a subcommand.
struct Form {
    name: &'static str,
    about: &'static str,
    /// Its options, in the order of the help.
    flags: &'static [Flag],
    /// Its first arguments, each one file.
    files: &'static [FileArgument],
    /// Its other arguments. `list`, `diff`, `write`, `repair` and `make` have none.
    arguments: Option<Arguments>,
}

/// An argument that is one file.
#[derive(Clone, Copy)]
struct FileArgument {
    id: &'static str,
    /// Its name in the help.
    value_name: &'static str,
    /// Its text in the help.
    help: &'static str,
}

/// A file whose map is asked.
const CMAP_FILE: FileArgument = FileArgument {
    id: FILE,
    value_name: "FILE",
    help: "A CMap file, by its path or its name; - is the standard input",
};

/// The second file of `diff`, with which the first file is compared.
const OTHER_FILE: FileArgument = FileArgument {
    id: OTHER,
    value_name: "OTHER",
    help: "The CMap file with which FILE is compared",
};

/// The table from which `make` makes a file.
const TABLE: FileArgument = FileArgument {
    id: FILE,
    value_name: "TABLE",
    help: "The lines that cmap list prints for one layer; - is the standard input",
};

/// Arguments of a subcommand, at least one.
struct Arguments {
    /// Their id.
    id: &'static str,
    /// Their name in the help.
    value_name: &'static str,
    /// The option with which no argument is needed.
    unless: Option<&'static str>,
    /// Their text in the help.
    help: &'static str,
}

/// The options of `decode` and `text`.
const SHOWN_FLAGS: &[Flag] = &[
    BASE,
    BUNDLE,
    NO_PREDEFINED,
    JSON,
    TO_UNICODE,
    OF_COLLECTION,
    SIMPLE,
    FOLD,
    BUDGET,
    LENIENT,
];

/// The options of `encode`.
const ENCODE_FLAGS: &[Flag] = &[
    BASE,
    BUNDLE,
    NO_PREDEFINED,
    JSON,
    TO_UNICODE,
    OF_COLLECTION,
    SIMPLE,
    EXACT,
    MISSING,
    PIECES,
    BUDGET,
    LENIENT,
];

/// The strings of `decode` and `text`.
const STRINGS: Arguments = Arguments {
    id: ARGUMENT,
    value_name: "HEX",
    unless: None,
    help: "Strings, two hexadecimal digits for each byte; - reads them from the standard input",
};

/// The texts of `encode`.
const TEXTS: Arguments = Arguments {
    id: ARGUMENT,
    value_name: "TEXT",
    unless: None,
    help: "Texts; - reads one from each line of the standard input",
};

/// The subcommands about whole files.
const OF_FILES: &[Form] = &[
    Form {
        name: "info",
        about: "Prints the content of files: names, codespace ranges, declarations and layers",
        flags: &[BASE, BUNDLE, NO_PREDEFINED, JSON, BUDGET, LENIENT],
        files: &[],
        arguments: Some(Arguments {
            id: FILE,
            value_name: "FILE",
            unless: Some("bundle"),
            help: "CMap files, each by its path or its name; - is the standard input",
        }),
    },
    Form {
        name: "list",
        about: "Prints each declaration of a file and of its bases",
        flags: &[
            BASE,
            BUNDLE,
            NO_PREDEFINED,
            JSON,
            BUDGET,
            LENIENT,
            EFFECTIVE,
        ],
        files: &[CMAP_FILE],
        arguments: None,
    },
    Form {
        name: "find",
        about: "Prints the codes that have a CID or a text",
        flags: &[
            BASE,
            BUNDLE,
            NO_PREDEFINED,
            JSON,
            TO_UNICODE,
            OF_COLLECTION,
            SIMPLE,
            BUDGET,
            LENIENT,
        ],
        files: &[CMAP_FILE],
        arguments: Some(Arguments {
            id: ARGUMENT,
            value_name: "WANTED",
            unless: None,
            help: "cid:N for the codes of a CID, text:TEXT for the codes of a text",
        }),
    },
    Form {
        name: "diff",
        about: "Prints the differences between two files: their metadata, and the answers for codes",
        flags: &[BASE, BUNDLE, NO_PREDEFINED, JSON, BUDGET, LENIENT],
        files: &[CMAP_FILE, OTHER_FILE],
        arguments: None,
    },
    Form {
        name: "check",
        about: "Prints for each file that it is ok, or the places and the reasons of its faults",
        flags: &[
            BASE,
            BUNDLE,
            NO_PREDEFINED,
            JSON,
            BUDGET,
            FILES_FROM,
            NULL,
            FIRST,
            MAX_FAULTS,
            QUIET,
            LINT,
            LINT_TO_UNICODE,
            DENY,
        ],
        files: &[],
        arguments: Some(Arguments {
            id: FILE,
            value_name: "FILE|FOLDER",
            unless: Some("files-from"),
            help: "CMap files, and folders of them; - is the standard input",
        }),
    },
];

/// The subcommands for strings, codes and names.
const OF_STRINGS: &[Form] = &[
    Form {
        name: "decode",
        about: "Prints the codes of strings, with their CIDs and their texts",
        flags: SHOWN_FLAGS,
        files: &[CMAP_FILE],
        arguments: Some(STRINGS),
    },
    Form {
        name: "text",
        about: "Prints the texts of strings",
        flags: SHOWN_FLAGS,
        files: &[CMAP_FILE],
        arguments: Some(STRINGS),
    },
    Form {
        name: "encode",
        about: "Prints the strings that show texts",
        flags: ENCODE_FLAGS,
        files: &[CMAP_FILE],
        arguments: Some(TEXTS),
    },
    Form {
        name: "lookup",
        about: "Prints the CIDs and the texts of single codes",
        flags: &[BASE, BUNDLE, NO_PREDEFINED, JSON, BUDGET, LENIENT],
        files: &[CMAP_FILE],
        arguments: Some(Arguments {
            id: ARGUMENT,
            value_name: "CODE",
            unless: None,
            help: "L:HEX for the CID of a code of L bytes, bf:HEX for the text of a code",
        }),
    },
    Form {
        name: "where",
        about: "Prints the paths of the files that names stand for",
        flags: &[BASE, BUNDLE, NO_PREDEFINED, JSON],
        files: &[],
        arguments: Some(Arguments {
            id: FILE,
            value_name: "NAME",
            unless: None,
            help: "Names of CMaps",
        }),
    },
];

/// The subcommands that write files.
const WRITING: &[Form] = &[
    Form {
        name: "bundle",
        about: "Makes a bundle of the files with known names",
        flags: &[OUTPUT, NAME, VERIFY],
        files: &[],
        arguments: Some(Arguments {
            id: FILE,
            value_name: "FILE|FOLDER",
            unless: Some("name"),
            help: "CMap files, and folders of them; - is the standard input",
        }),
    },
    Form {
        name: "write",
        about: "Writes the content of a file anew, as text",
        flags: &[
            BASE,
            BUNDLE,
            NO_PREDEFINED,
            BUDGET,
            FLATTEN,
            CODES,
            TIDY,
            CMAP_NAME,
            BINARY,
            TEXT_OUTPUT,
        ],
        files: &[CMAP_FILE],
        arguments: None,
    },
    Form {
        name: "repair",
        about: "Writes a file anew without its faults, and reports these",
        flags: &[BASE, BUNDLE, NO_PREDEFINED, TEXT_OUTPUT],
        files: &[CMAP_FILE],
        arguments: None,
    },
    Form {
        name: "make",
        about: "Makes a file from the lines that list prints",
        flags: &[CMAP_NAME, COLLECTION, VERTICAL, USE, TEXT_OUTPUT],
        files: &[TABLE],
        arguments: None,
    },
];

/// The command line of `cmap`.
pub(crate) fn command<'a>(alloc: Global) -> Result<Command<'a>, AllocError> {
    let command = add_of_files(alloc, program(alloc)?)?;
    let command = add_of_strings(alloc, command)?;
    add_writing(alloc, command)
}

// A list of subcommands takes many steps to check, so each list has its own function.
fn add_of_files<'a>(alloc: Global, command: Command<'a>) -> Result<Command<'a>, AllocError> {
    add_forms(alloc, command, OF_FILES)
}

fn add_of_strings<'a>(alloc: Global, command: Command<'a>) -> Result<Command<'a>, AllocError> {
    add_forms(alloc, command, OF_STRINGS)
}

fn add_writing<'a>(alloc: Global, command: Command<'a>) -> Result<Command<'a>, AllocError> {
    add_forms(alloc, command, WRITING)
}

/// Adds subcommands.
fn add_forms<'a>(
    alloc: Global,
    mut command: Command<'a>,
    forms: &[Form],
) -> Result<Command<'a>, AllocError> {
    for form in forms {
        command = command.subcommand(form.command(alloc)?)?;
    }
    Ok(command)
}

fn program<'a>(alloc: Global) -> Result<Command<'a>, AllocError> {
    Command::new(alloc, "cmap")
        .about("Prints, checks, repairs and writes CMap files; decodes and encodes strings")
        .version("1.0.0 (a port of hayro-cmap 0.1.1)")
        .subcommand_required(true)
        .arg_required_else_help(true)
        .bin_name("cmap")
}

impl Form {
    fn command<'a>(&self, alloc: Global) -> Result<Command<'a>, AllocError> {
        let command = Command::new(alloc, self.name).about(self.about);
        let command = self.add_files(alloc, self.add_flags(alloc, command)?)?;
        match &self.arguments {
            Some(arguments) => command.arg(arguments.arg(alloc)?),
            None => Ok(command),
        }
    }

    /// The subcommand with its options.
    fn add_flags<'a>(
        &self,
        alloc: Global,
        mut command: Command<'a>,
    ) -> Result<Command<'a>, AllocError> {
        for flag in self.flags {
            command = command.arg(flag.arg(alloc))?;
        }
        Ok(command)
    }

    /// The subcommand with its first arguments.
    fn add_files<'a>(
        &self,
        alloc: Global,
        mut command: Command<'a>,
    ) -> Result<Command<'a>, AllocError> {
        for file in self.files {
            command = command.arg(file.arg(alloc))?;
        }
        Ok(command)
    }
}

impl Arguments {
    /// The arguments as `clap` takes them.
    fn arg<'a>(&self, alloc: Global) -> Result<Arg<'a>, AllocError> {
        let arg = Arg::new(alloc, self.id)
            .value_name(self.value_name)
            .help(self.help)
            .action(ArgAction::Append)
            .num_args(1..);
        match self.unless {
            Some(option) => arg.required_unless_present(option),
            None => Ok(arg.required(true)),
        }
    }
}

impl FileArgument {
    /// The argument as `clap` takes it.
    fn arg<'a>(self, alloc: Global) -> Arg<'a> {
        Arg::new(alloc, self.id)
            .value_name(self.value_name)
            .required(true)
            .action(ArgAction::Set)
            .help(self.help)
    }
}

/// The files among the arguments; for `check` and `bundle`, also the folders.
pub(crate) fn files_of<'m, 'w>(arguments: &'m ArgMatches<'w>) -> &'m [&'w str] {
    values_of(arguments, FILE)
}

/// The first file. `clap` refuses arguments without a file if the subcommand has a file argument.
pub(crate) fn file_of<'w>(arguments: &ArgMatches<'w>) -> &'w str {
    files_of(arguments)
        .first()
        .copied()
        .unwrap_or(STANDARD_INPUT)
}

/// The file with which `diff` compares the first file. Only `diff` has this argument, and `clap`
/// refuses `diff` without it.
pub(crate) fn other_of<'w>(arguments: &ArgMatches<'w>) -> Option<&'w str> {
    arguments.get_str(OTHER)
}

/// The arguments after the file: strings, texts, codes, or the conditions of `find`.
pub(crate) fn arguments_of<'m, 'w>(arguments: &'m ArgMatches<'w>) -> &'m [&'w str] {
    values_of(arguments, ARGUMENT)
}
