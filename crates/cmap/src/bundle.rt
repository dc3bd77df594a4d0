//! The options of `cmap bundle`.

use crate::command_line::files_of;
use crate::command_line::flags::{NAME, OUTPUT, VERIFY};
use clap::ArgMatches;
use cmap_bundle::command::BundleOptions;

/// The parsed arguments of `bundle`. `clap` refuses arguments without a path for the bundle.
pub(crate) fn bundle_options<'m, 'w>(arguments: &'m ArgMatches<'w>) -> BundleOptions<'m, 'w> {
    BundleOptions {
        output: OUTPUT.text(arguments).unwrap_or(""),
        named: NAME.texts(arguments),
        paths: files_of(arguments),
        is_compared: VERIFY.is_given(arguments),
    }
}
