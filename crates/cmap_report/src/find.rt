//! The codes that have a CID or a text.

ghost use Rattle.std.specs.Prelude.{OnOk, string_bytes};
ghost use Rattle.cmap_io.specs.Escapes.{AddsLine, AddsOfLine};

use crate::list::line::push_range;
use cmap_io::digits::code_digits;
use cmap_io::object::Object;
use cmap_io::value::Value;
use cmap_io::{escape, json};
use cmap_queries::arguments::decimal;
use cmap_queries::code_lengths::{fewest_bytes, has_codes, text_code_len};
use cmap_unicode::Extractor;
use hayro_cmap::runs::Range;
use hayro_cmap::{CodeLength, Layers};
use std::alloc::{AllocError, Global};

/// The most codes of a range that are looked at one by one.
const MOST_CODES: u32 = 1 << 16;

/// The condition by which codes are found.
#[derive(Clone, Copy)]
pub enum Wanted<'a> {
    /// The codes that have this CID.
    Cid(u32),
    /// The codes that have this text.
    Text(&'a str),
}

impl<'a> Wanted<'a> {
    /// The condition of an argument: `cid:N` with a decimal number, or `text:TEXT`.
    pub fn parse(argument: &'a str) -> Option<Wanted<'a>> {
        match argument.split_once(':')? {
            ("cid", digits) => Some(Wanted::Cid(u32::try_from(decimal(digits)?).ok()?)),
            ("text", text) if !text.is_empty() => Some(Wanted::Text(text)),
            _ => None,
        }
    }
}

/// The message about an argument that isn't a condition.
pub fn fault_of(argument: &str) -> &'static str {
    match argument.strip_prefix("cid:") {
        Some(digits) if is_decimal(digits) => "a CID has at most 32 bits",
        _ => "neither cid:N nor text:TEXT",
    }
}

/// Whether a text is a decimal number.
fn is_decimal(text: &str) -> bool {
    !text.is_empty() && text.bytes().all(|byte| byte.is_ascii_digit())
}

/// Codes of one length.
#[derive(Clone, Copy)]
struct Codes {
    byte_len: u8,
    range: Range,
}

/// Adds a line for each range of codes that an argument asks for, or a line with `-` if there are no codes. The
/// argument comes first, in thirteen columns. The result states whether there are codes.
pub fn push_codes(
    alloc: Global,
    out: &mut String,
    font: &Extractor<'_>,
    argument: &str,
    wanted: Wanted<'_>,
) -> Result<bool, AllocError> {
    let mut word = String::new(alloc);
    escape::push_text(&mut word, argument)?;
    let found = codes_of(alloc, font, wanted)?;
    push_found(out, word.as_str(), &found)?;
    Ok(!found.is_empty())
}

/// Adds a line for each range of codes.
fn push_found(out: &mut String, word: &str, found: &[Codes]) -> Result<(), AllocError> {
    if found.is_empty() {
        return writeln!(out, "{word:<12} -");
    }
    for codes in found {
        push_found_line(out, word, *codes)?;
    }
    Ok(())
}

fn push_found_line(out: &mut String, word: &str, codes: Codes) -> Result<(), AllocError> {
    write!(out, "{word:<12} ")?;
    push_range(out, codes.byte_len, codes.range)?;
    out.push('\n')
}

/// Adds the object of an argument, and ends the line. The result states whether there are codes.
pub fn push_json(
    alloc: Global,
    out: &mut String,
    font: &Extractor<'_>,
    argument: &str,
    wanted: Wanted<'_>,
) -> Result<bool, AllocError>
    ensures line { OnOk result (AddsLine (string_bytes out.old) (string_bytes out.new)) }

    // This holds even if memory runs out.
    ensures printable { AddsOfLine (string_bytes out.old) (string_bytes out.new) }
{
    let found = codes_of(alloc, font, wanted)?;
    let object = codes_object(alloc, argument, &found)?;
    json::push_line(alloc, out, &object)?;
    Ok(!found.is_empty())
}

fn codes_object(alloc: Global, argument: &str, found: &[Codes]) -> Result<Value, AllocError> {
    let mut object = Object::new(alloc);
    object.set_text("word", argument);
    object.set_list("codes", code_lists(alloc, found));
    object.finish()
}

/// The ranges of codes, each as a list of its two ends.
fn code_lists(alloc: Global, found: &[Codes]) -> Result<Vec<Value>, AllocError> {
    let mut ranges = Vec::new(alloc);
    for codes in found {
        ranges.push(range_list(alloc, *codes)?)?;
    }
    Ok(ranges)
}

/// A range as a list of its two ends.
fn range_list(alloc: Global, codes: Codes) -> Result<Value, AllocError> {
    let mut ends = Vec::new(alloc);
    push_end(alloc, &mut ends, codes.byte_len, codes.range.start)?;
    push_end(alloc, &mut ends, codes.byte_len, codes.range.end)?;
    Ok(Value::Array(ends))
}

fn push_end(
    alloc: Global,
    ends: &mut Vec<Value>,
    byte_len: u8,
    code: u32,
) -> Result<(), AllocError> {
    ends.push(Value::from(code_digits(alloc, byte_len, code)?))?;
    Ok(())
}

/// The codes that are asked for.
fn codes_of(
    alloc: Global,
    font: &Extractor<'_>,
    wanted: Wanted<'_>,
) -> Result<Vec<Codes>, AllocError> {
    match (wanted, font.collection, font.to_unicode) {
        (Wanted::Cid(cid), _, _) => codes_of_cid(alloc, font.encoding, cid),
        (Wanted::Text(text), None, Some(map)) => codes_of_text_in(alloc, map, font.encoding, text),
        (Wanted::Text(text), _, _) => codes_of_text(alloc, font, text),
    }
}

/// The codes of a CID, for each length that codes of the font have.
fn codes_of_cid(alloc: Global, encoding: &Layers, cid: u32) -> Result<Vec<Codes>, AllocError> {
    let mut found = Vec::new(alloc);
    for len in CodeLength::ALL {
        if has_codes(encoding, *len) {
            let ranges = encoding.codes_of_cid(alloc, cid, *len)?;
            add_ranges(&mut found, &ranges, *len)?;
        }
    }
    Ok(found)
}

/// Adds the codes of ranges that have this length.
fn add_ranges(found: &mut Vec<Codes>, ranges: &[Range], len: CodeLength) -> Result<(), AllocError> {
    let last = len.last_code();
    for range in ranges {
        if range.start <= last {
            let (start, end) = (range.start, range.end.min(last));
            found.push(Codes {
                byte_len: len.count(),
                range: Range { start, end },
            })?;
        }
    }
    Ok(())
}

/// The codes of a text by a ToUnicode CMap alone. Its declarations have no code lengths.
fn codes_of_text_in(
    alloc: Global,
    map: &Layers,
    encoding: &Layers,
    text: &str,
) -> Result<Vec<Codes>, AllocError> {
    let mut found = Vec::new(alloc);
    for range in &map.codes_of_text(alloc, text)? {
        add_with_lengths(&mut found, encoding, *range)?;
    }
    Ok(found)
}

/// Adds the codes of a range: for each length the codes that strings of this length are read as, and the codes in no
/// codespace range with the fewest bytes.
fn add_with_lengths(
    found: &mut Vec<Codes>,
    encoding: &Layers,
    range: Range,
) -> Result<(), AllocError> {
    if is_long(range) {
        let byte_len = text_code_len(encoding, range);
        found.push(Codes { byte_len, range })?;
        return Ok(());
    }
    for len in CodeLength::ALL {
        add_read(found, encoding, range, *len)?;
    }
    add_outside(found, encoding, range)
}

/// Adds the codes of a range that strings of this length are read as.
fn add_read(
    found: &mut Vec<Codes>,
    encoding: &Layers,
    range: Range,
    len: CodeLength,
) -> Result<(), AllocError> {
    for code in range.start..=range.end {
        if is_read(encoding, code, len) {
            add_code(found, len.count(), code)?;
        }
    }
    Ok(())
}

/// Adds the codes of a range that lie in no codespace range.
fn add_outside(found: &mut Vec<Codes>, encoding: &Layers, range: Range) -> Result<(), AllocError> {
    for code in range.start..=range.end {
        if !is_in_codespace(encoding, code) {
            let (start, end) = (code, code);
            add_code(found, fewest_bytes(Range { start, end }), code)?;
        }
    }
    Ok(())
}

/// The codes of a text, for each length that codes of the font have.
fn codes_of_text(
    alloc: Global,
    font: &Extractor<'_>,
    text: &str,
) -> Result<Vec<Codes>, AllocError> {
    let mut found = Vec::new(alloc);
    for len in CodeLength::ALL {
        if has_codes(font.encoding, *len) {
            for range in &font.codes_of_text(alloc, text, *len)? {
                add_readable(&mut found, font.encoding, *range, *len)?;
            }
        }
    }
    Ok(found)
}

/// Adds the codes of a range that strings of this length are read as, or that lie in no codespace range. A ToUnicode
/// CMap gives texts to codes of any length.
fn add_readable(
    found: &mut Vec<Codes>,
    encoding: &Layers,
    range: Range,
    len: CodeLength,
) -> Result<(), AllocError> {
    if is_long(range) {
        if is_readable(encoding, range.start, len) {
            let byte_len = len.count();
            found.push(Codes { byte_len, range })?;
        }
        return Ok(());
    }
    for code in range.start..=range.end {
        if is_readable(encoding, code, len) {
            add_code(found, len.count(), code)?;
        }
    }
    Ok(())
}

/// Whether a range has too many codes to look at each. Then its first code stands for all.
fn is_long(range: Range) -> bool {
    range.end.saturating_sub(range.start) >= MOST_CODES
}

/// Adds a code. The last range is extended if it ends with the preceding code.
fn add_code(found: &mut Vec<Codes>, byte_len: u8, code: u32) -> Result<(), AllocError> {
    if let Some(last) = found.last_mut() {
        if last.byte_len == byte_len && last.range.end.checked_add(1) == Some(code) {
            last.range.end = code;
            return Ok(());
        }
    }
    let (start, end) = (code, code);
    found.push(Codes {
        byte_len,
        range: Range { start, end },
    })?;
    Ok(())
}

/// Whether a code of this length is read as itself, or lies in no codespace range.
fn is_readable(encoding: &Layers, code: u32, len: CodeLength) -> bool {
    is_read(encoding, code, len) || !is_in_codespace(encoding, code)
}

/// Whether a string of the bytes of a code is read as this code, which lies in a codespace range.
fn is_read(encoding: &Layers, code: u32, len: CodeLength) -> bool {
    let bytes = code.to_be_bytes();
    match encoding.next_code(&bytes[4 - usize::from(len.count())..]) {
        Some(read) => code <= len.last_code() && read.in_codespace && read.byte_len == len.count(),
        None => false,
    }
}

/// Whether a code lies in a codespace range, as a code of some length.
fn is_in_codespace(encoding: &Layers, code: u32) -> bool {
    CodeLength::ALL
        .iter()
        .any(|len| encoding.in_codespace(code, len.count()))
}
