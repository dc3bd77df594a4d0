//! `cmap encode`: the strings of a font that show texts.

use crate::command_line::flags::{EXACT, MISSING, PIECES};
use crate::font::{StringOptions, font_and_texts};
use crate::strings::spelled;
use clap::ArgMatches;
use cmap_encode::Encoder;
use cmap_io::failure::{Failure, fault};
use cmap_io::path_text::push_path;
use cmap_io::status::{ACCEPTED, REFUSED};
use cmap_report::encode::{Asked, push_pieces, push_string_json, push_string_line, string_of};
use cmap_sources::bases::Bases;

/// The parsed arguments of `encode`.
#[derive(Clone, Copy)]
pub(crate) struct EncodeOptions<'m, 'w> {
    pub(crate) of_texts: StringOptions<'m, 'w>,
    /// The bytes that stand for a character that can't be shown, in hexadecimal digits.
    missing: Option<&'w str>,
    /// Whether codes have to be read as the pieces for which they stand.
    is_exact: bool,
    /// Whether the pieces of texts are printed too.
    pieces: bool,
}

impl<'m, 'w> EncodeOptions<'m, 'w> {
    pub(crate) fn of(arguments: &'m ArgMatches<'w>) -> EncodeOptions<'m, 'w> {
        EncodeOptions {
            of_texts: StringOptions::of(arguments),
            missing: MISSING.text(arguments),
            is_exact: EXACT.is_given(arguments),
            pieces: PIECES.is_given(arguments),
        }
    }
}

/// Prints the string of each text. The status states whether each text has a string.
pub(crate) fn encode(
    rt: &HostRuntime,
    options: &EncodeOptions<'_, '_>,
    bases: &mut Bases<'_>,
) -> Result<u8, Failure> {
    let missing = missing_of(rt, options)?;
    let (font, texts) = font_and_texts(rt, &options.of_texts, bases)?;
    let from_unicode = font.from_unicode(rt, &options.of_texts, bases)?;
    let glyphs = font.glyphs(&from_unicode);
    let encoder = Encoder::build_with(rt.alloc(), &font.extractor(), glyphs, options.is_exact)?;
    check_missing(rt, options, &encoder, missing.as_deref())?;
    let printer = Printer {
        encoder,
        missing,
        pieces: options.pieces,
        json: options.of_texts.json,
    };
    let status = printer.print_strings(rt, &texts)?;
    if status != ACCEPTED && glyphs.is_none() {
        font.report_missing(rt, bases)?;
    }
    Ok(status)
}

/// The bytes that stand for a character that can't be shown.
fn missing_of(
    rt: &HostRuntime,
    options: &EncodeOptions<'_, '_>,
) -> Result<Option<Vec<u8>>, Failure> {
    match options.missing {
        Some(digits) => Ok(Some(spelled(rt, digits)?)),
        None => Ok(None),
    }
}

/// Refuses bytes for missing characters that would change how the codes after them are read.
fn check_missing(
    rt: &HostRuntime,
    options: &EncodeOptions<'_, '_>,
    encoder: &Encoder,
    missing: Option<&[u8]>,
) -> Result<(), Failure> {
    match (options.missing, missing) {
        (Some(digits), Some(missing)) if !encoder.are_codes(missing) => {
            Err(fault(rt, digits, "not whole codes of the font"))
        }
        _ => Ok(()),
    }
}

/// The encoder and the options for printing the strings of texts.
#[derive(Drop)]
struct Printer {
    encoder: Encoder,
    missing: Option<Vec<u8>>,
    pieces: bool,
    json: bool,
}

impl Printer {
    fn print_strings(&self, rt: &HostRuntime, texts: &[String]) -> Result<u8, Failure> {
        let mut status = ACCEPTED;
        for (index, text) in texts.iter().enumerate() {
            if index > 0 && self.pieces && !self.json {
                rt.println("")?;
            }
            if !self.print_string(rt, text.as_str())? {
                status = REFUSED;
            }
        }
        Ok(status)
    }

    /// Prints the string of a text. The result states whether the string shows the whole text.
    fn print_string(&self, rt: &HostRuntime, text: &str) -> Result<bool, Failure> {
        let asked = Asked {
            missing: self.missing.as_deref(),
            pieces: self.pieces,
        };
        let found = string_of(rt.alloc(), &self.encoder, text, asked)?;
        let mut line = String::new(rt.alloc());
        if self.json {
            push_string_json(rt.alloc(), &mut line, text, &found)?;
        } else {
            push_pieces(rt.alloc(), &mut line, text, &found)?;
            push_string_line(rt.alloc(), &mut line, &found)?;
        }
        rt.print(line.as_str())?;
        match found.stop {
            None => Ok(true),
            Some(stop) => report_stop(rt, text, stop.offset),
        }
    }
}

/// Reports the first character of a text that can't be encoded.
fn report_stop(rt: &HostRuntime, text: &str, offset: usize) -> Result<bool, Failure> {
    let mut shown = String::new(rt.alloc());
    push_path(&mut shown, text)?;
    eprintln!(rt; "cmap: {shown}: the character at byte {offset} can't be encoded")?;
    Ok(false)
}
