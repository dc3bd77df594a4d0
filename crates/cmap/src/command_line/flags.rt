//! The options of the subcommands.

use clap::{Arg, ArgAction, ArgMatches, value_parser};
use std::alloc::Global;

/// An option of subcommands.
pub(crate) struct Flag {
    id: &'static str,
    short: Option<char>,
    long: &'static str,
    value: Value,
    /// Its text in the help.
    help: &'static str,
}

/// The value of an option, by its name in the help.
enum Value {
    Nothing,
    /// A text.
    Text(&'static str),
    /// A text. The option is required.
    Needed(&'static str),
    /// A text. The option may be given several times.
    Texts(&'static str),
    Number(&'static str),
}

impl Flag {
    /// The option as `clap` takes it.
    pub(crate) fn arg<'a>(&self, alloc: Global) -> Arg<'a> {
        let arg = Arg::new(alloc, self.id).long(self.long).help(self.help);
        self.value.added(match self.short {
            Some(short) => arg.short(short),
            None => arg,
        })
    }

    /// Whether the option is given.
    pub(crate) fn is_given(&self, arguments: &ArgMatches<'_>) -> bool {
        arguments.get_flag(self.id)
    }

    /// The text of the option, if it is given.
    pub(crate) fn text<'w>(&self, arguments: &ArgMatches<'w>) -> Option<&'w str> {
        arguments.get_str(self.id)
    }

    /// The texts of the option, one for each time that it is given.
    pub(crate) fn texts<'m, 'w>(&self, arguments: &'m ArgMatches<'w>) -> &'m [&'w str] {
        values_of(arguments, self.id)
    }

    /// The number of the option, if it is given.
    pub(crate) fn number(&self, arguments: &ArgMatches<'_>) -> Option<u64> {
        arguments.get_one::<u64>(self.id)
    }
}

/// The values of an option or an argument with this id.
pub(crate) fn values_of<'m, 'w>(arguments: &'m ArgMatches<'w>, id: &str) -> &'m [&'w str] {
    given(arguments.get_strs(id))
}

/// The values that are given, or none.
fn given<'m, T>(values: Option<&'m [T]>) -> &'m [T] {
    match values {
        Some(values) => values,
        None => &[],
    }
}

impl Value {
    /// Adds the value to an option.
    fn added<'a>(&self, arg: Arg<'a>) -> Arg<'a> {
        match self {
            Value::Nothing => arg.action(ArgAction::SetTrue),
            Value::Text(name) => arg.value_name(name).action(ArgAction::Set),
            Value::Needed(name) => arg.value_name(name).action(ArgAction::Set).required(true),
            Value::Texts(name) => arg.value_name(name).action(ArgAction::Append),
            Value::Number(name) => arg
                .value_name(name)
                .action(ArgAction::Set)
                .value_parser(value_parser!(u64)),
        }
    }
}

pub(crate) const BASE: Flag = Flag {
    id: "base",
    short: None,
    long: "base",
    value: Value::Texts("FOLDER"),
    help: "A folder in which, and in whose subfolders, used files are found by name",
};

pub(crate) const BUNDLE: Flag = Flag {
    id: "bundle",
    short: None,
    long: "bundle",
    value: Value::Text("FILE"),
    help: "A bundle: its tables decode binary files, and it has files for names that no folder has",
};

pub(crate) const NO_PREDEFINED: Flag = Flag {
    id: "no-predefined",
    short: None,
    long: "no-predefined",
    value: Value::Nothing,
    help: "Looks up names only in --base folders and the bundle, not in the folders of CMAP_PATH",
};

pub(crate) const JSON: Flag = Flag {
    id: "json",
    short: None,
    long: "json",
    value: Value::Nothing,
    help: "One JSON object per line",
};

pub(crate) const BUDGET: Flag = Flag {
    id: "budget",
    short: None,
    long: "budget",
    value: Value::Number("N"),
    help: "The greatest number of bytes of a file and the files that it uses together",
};

pub(crate) const LENIENT: Flag = Flag {
    id: "lenient",
    short: None,
    long: "lenient",
    value: Value::Nothing,
    help: "Reads files past their faults, and reports these",
};

pub(crate) const EFFECTIVE: Flag = Flag {
    id: "effective",
    short: None,
    long: "effective",
    value: Value::Nothing,
    help: "Prints the answers for codes over all layers, instead of the declarations of each layer",
};

/// An option of `find`, `decode`, `text` and `encode`; `check` has an option of this name too.
pub(crate) const TO_UNICODE: Flag = Flag {
    id: "to-unicode-file",
    short: None,
    long: "to-unicode",
    value: Value::Text("FILE"),
    help: "The font's ToUnicode CMap, which gives codes their texts",
};

pub(crate) const MISSING: Flag = Flag {
    id: "missing",
    short: None,
    long: "missing",
    value: Value::Text("HEX"),
    help: "The bytes that replace each character that can't be encoded",
};

/// An option of `find`, `decode`, `text` and `encode`.
pub(crate) const OF_COLLECTION: Flag = Flag {
    id: "of-collection",
    short: None,
    long: "collection",
    value: Value::Text("NAME"),
    help: "The character collection of the font's CIDs, such as Adobe-Japan1",
};

/// An option of `find`, `decode`, `text` and `encode`.
pub(crate) const SIMPLE: Flag = Flag {
    id: "simple",
    short: None,
    long: "simple",
    value: Value::Nothing,
    help: "FILE is the ToUnicode CMap of a simple font, whose codes have one byte",
};

pub(crate) const EXACT: Flag = Flag {
    id: "exact",
    short: None,
    long: "exact",
    value: Value::Nothing,
    help: "Uses only codes that are read back as the same text",
};

pub(crate) const FOLD: Flag = Flag {
    id: "fold",
    short: None,
    long: "fold",
    value: Value::Nothing,
    help: "Prints texts without variation selectors and presentation forms, with usual spaces and punctuation",
};

pub(crate) const PIECES: Flag = Flag {
    id: "pieces",
    short: None,
    long: "pieces",
    value: Value::Nothing,
    help: "Also prints the pieces of each text, with their codes and grades",
};

pub(crate) const FILES_FROM: Flag = Flag {
    id: "files-from",
    short: None,
    long: "files-from",
    value: Value::Text("LIST"),
    help: "A list of more files and folders, one per line; - is the standard input",
};

pub(crate) const NULL: Flag = Flag {
    id: "null",
    short: Some('0'),
    long: "null",
    value: Value::Nothing,
    help: "A zero byte, instead of a line feed, ends each path of the list",
};

pub(crate) const FIRST: Flag = Flag {
    id: "first",
    short: None,
    long: "first",
    value: Value::Nothing,
    help: "Prints only the first fault of each file",
};

pub(crate) const MAX_FAULTS: Flag = Flag {
    id: "max-faults",
    short: None,
    long: "max-faults",
    value: Value::Number("N"),
    help: "The greatest number of printed faults of a file: 100 by default, with --json all",
};

pub(crate) const QUIET: Flag = Flag {
    id: "quiet",
    short: Some('q'),
    long: "quiet",
    value: Value::Nothing,
    help: "Doesn't report the number of checked files",
};

pub(crate) const LINT: Flag = Flag {
    id: "lint",
    short: None,
    long: "lint",
    value: Value::Nothing,
    help: "Also prints warnings about accepted files",
};

pub(crate) const LINT_TO_UNICODE: Flag = Flag {
    id: "to-unicode",
    short: None,
    long: "to-unicode",
    value: Value::Nothing,
    help: "Like --lint, with the warnings for maps to Unicode; name-differs and no-mapping only with --deny NAME",
};

pub(crate) const DENY: Flag = Flag {
    id: "deny",
    short: None,
    long: "deny",
    value: Value::Texts("NAME"),
    help: "Like --lint, with status 1 if there is a warning of this name; all stands for each name",
};

pub(crate) const OUTPUT: Flag = Flag {
    id: "output",
    short: Some('o'),
    long: "output",
    value: Value::Needed("BUNDLE"),
    help: "The bundle, which is written as a whole or not at all",
};

pub(crate) const TEXT_OUTPUT: Flag = Flag {
    id: "output",
    short: Some('o'),
    long: "output",
    value: Value::Needed("OUT"),
    help: "The CMap file, which is written as a whole or not at all; - is the standard output",
};

pub(crate) const NAME: Flag = Flag {
    id: "name",
    short: None,
    long: "name",
    value: Value::Texts("NAME=FILE"),
    help: "A file and its name in the bundle; it precedes the files of the arguments",
};

pub(crate) const VERIFY: Flag = Flag {
    id: "verify",
    short: None,
    long: "verify",
    value: Value::Nothing,
    help: "Compares the bundle with the files, code by code, before the bundle is put in place",
};

pub(crate) const CMAP_NAME: Flag = Flag {
    id: "cmap-name",
    short: None,
    long: "name",
    value: Value::Text("NAME"),
    help: "The name of the file, its CMapName",
};

pub(crate) const COLLECTION: Flag = Flag {
    id: "collection",
    short: None,
    long: "collection",
    value: Value::Text("COLLECTION"),
    help: "The character collection, such as Adobe-Japan1-6",
};

pub(crate) const VERTICAL: Flag = Flag {
    id: "vertical",
    short: None,
    long: "vertical",
    value: Value::Nothing,
    help: "The file is for vertical text",
};

pub(crate) const USE: Flag = Flag {
    id: "use",
    short: None,
    long: "use",
    value: Value::Texts("NAME"),
    help: "The name of a file that the file uses",
};

pub(crate) const FLATTEN: Flag = Flag {
    id: "flatten",
    short: None,
    long: "flatten",
    value: Value::Nothing,
    help: "Makes one file of FILE and its bases, with the same answers",
};

pub(crate) const CODES: Flag = Flag {
    id: "codes",
    short: None,
    long: "codes",
    value: Value::Texts("HEX|@LIST"),
    help: "Like --flatten, with answers only for the codes of these strings; @LIST is a file of strings, and @- the standard input",
};

pub(crate) const TIDY: Flag = Flag {
    id: "tidy",
    short: None,
    long: "tidy",
    value: Value::Nothing,
    help: "Writes the same answers in the fewest declarations",
};

pub(crate) const BINARY: Flag = Flag {
    id: "binary",
    short: None,
    long: "binary",
    value: Value::Nothing,
    help: "Writes the binary form, by the tables of the bundle",
};
