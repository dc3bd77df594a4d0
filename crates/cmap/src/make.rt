//! The options of `cmap make`.

use crate::command_line::file_of;
use crate::command_line::flags::{CMAP_NAME, COLLECTION, TEXT_OUTPUT, USE, VERTICAL};
use clap::ArgMatches;
use cmap_rewrite::make::MakeOptions;

/// The parsed arguments of `make`. `clap` refuses arguments without a path for the file.
pub(crate) fn make_options<'m, 'w>(arguments: &'m ArgMatches<'w>) -> MakeOptions<'m, 'w> {
    MakeOptions {
        table: file_of(arguments),
        output: TEXT_OUTPUT.text(arguments).unwrap_or(""),
        name: CMAP_NAME.text(arguments),
        collection: COLLECTION.text(arguments),
        is_vertical: VERTICAL.is_given(arguments),
        uses: USE.texts(arguments),
    }
}
