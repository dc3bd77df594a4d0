//! `cmap text`: the texts of strings.

use crate::font::{StringOptions, font_and_strings};
use cmap_io::failure::Failure;
use cmap_io::status::{ACCEPTED, REFUSED};
use cmap_report::decode::{push_text_json, push_text_line};
use cmap_sources::bases::Bases;
use cmap_unicode::Extractor;

/// Prints the text of each string. The status states whether each code has a text.
pub(crate) fn text(
    rt: &HostRuntime,
    options: &StringOptions<'_, '_>,
    bases: &mut Bases<'_>,
) -> Result<u8, Failure> {
    let (font, strings) = font_and_strings(rt, options, bases)?;
    let status = print_texts(rt, options, &font.extractor(), &strings)?;
    if status != ACCEPTED {
        font.report_missing(rt, bases)?;
    }
    Ok(status)
}

fn print_texts(
    rt: &HostRuntime,
    options: &StringOptions<'_, '_>,
    extractor: &Extractor<'_>,
    strings: &[Vec<u8>],
) -> Result<u8, Failure> {
    let mut status = ACCEPTED;
    for string in strings {
        let mut line = String::new(rt.alloc());
        let is_whole = if options.json {
            push_text_json(rt.alloc(), &mut line, extractor, string, options.texts)?
        } else {
            push_text_line(rt.alloc(), &mut line, extractor, string, options.texts)?
        };
        rt.print(line.as_str())?;
        if !is_whole {
            status = REFUSED;
        }
    }
    Ok(status)
}
