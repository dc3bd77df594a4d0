//! `cmap decode`: the codes of strings, with their CIDs and texts.

use crate::font::{StringOptions, font_and_strings};
use cmap_io::failure::Failure;
use cmap_io::status::ACCEPTED;
use cmap_report::decode::{push_codes, push_json};
use cmap_sources::bases::Bases;
use cmap_unicode::Extractor;

/// Prints the codes of each string, and returns the exit status.
pub(crate) fn decode(
    rt: &HostRuntime,
    options: &StringOptions<'_, '_>,
    bases: &mut Bases<'_>,
) -> Result<u8, Failure> {
    let (font, strings) = font_and_strings(rt, options, bases)?;
    let status = print_codes(rt, options, &font.extractor(), &strings)?;
    font.report_unknown(rt, options, bases)?;
    Ok(status)
}

fn print_codes(
    rt: &HostRuntime,
    options: &StringOptions<'_, '_>,
    extractor: &Extractor<'_>,
    strings: &[Vec<u8>],
) -> Result<u8, Failure> {
    for (index, string) in strings.iter().enumerate() {
        if index > 0 && !options.json {
            rt.println("")?;
        }
        let mut lines = String::new(rt.alloc());
        if options.json {
            push_json(rt.alloc(), &mut lines, extractor, string, options.texts)?;
        } else {
            push_codes(rt.alloc(), &mut lines, extractor, string, options.texts)?;
        }
        rt.print(lines.as_str())?;
    }
    Ok(ACCEPTED)
}
