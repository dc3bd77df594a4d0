//! `cmap find`: the codes that have a CID or a text.

use crate::font::{StringOptions, font_of};
use crate::strings::NOT_UTF8;
use cmap_io::failure::{Failure, fault};
use cmap_io::path_text::is_plain;
use cmap_io::status::{ACCEPTED, REFUSED};
use cmap_report::find::{Wanted, fault_of, push_codes, push_json};
use cmap_sources::bases::Bases;
use cmap_unicode::Extractor;
use std::alloc::{AllocError, Global};

/// Prints the codes that each argument asks for. The status states whether there are codes for each
/// argument.
pub(crate) fn find(
    rt: &HostRuntime,
    options: &StringOptions<'_, '_>,
    bases: &mut Bases<'_>,
) -> Result<u8, Failure> {
    let wanted = wanted_of(rt, options.strings)?;
    let font = font_of(rt, options, bases)?;
    let mut lines = String::new(rt.alloc());
    let are_found = push_all(
        rt.alloc(),
        &mut lines,
        &font.extractor(),
        &wanted,
        options.json,
    )?;
    rt.print(lines.as_str())?;
    font.report_unknown(rt, options, bases)?;
    Ok(if are_found { ACCEPTED } else { REFUSED })
}

/// Adds the lines of all arguments. The result states whether there are codes for each argument.
fn push_all(
    alloc: Global,
    lines: &mut String,
    font: &Extractor<'_>,
    wanted: &[(&str, Wanted<'_>)],
    json: bool,
) -> Result<bool, AllocError> {
    let mut are_found = true;
    for (argument, wanted) in wanted {
        are_found &= if json {
            push_json(alloc, lines, font, argument, *wanted)?
        } else {
            push_codes(alloc, lines, font, argument, *wanted)?
        };
    }
    Ok(are_found)
}

/// The conditions of the arguments, each with its argument.
fn wanted_of<'w>(
    rt: &HostRuntime,
    arguments: &[&'w str],
) -> Result<Vec<(&'w str, Wanted<'w>)>, Failure> {
    let mut asked = Vec::new(rt.alloc());
    for argument in arguments {
        if !is_plain(argument) {
            return Err(fault(rt, argument, NOT_UTF8));
        }
        match Wanted::parse(argument) {
            Some(wanted) => asked.push((*argument, wanted))?,
            None => return Err(fault(rt, argument, fault_of(argument))),
        }
    }
    Ok(asked)
}
