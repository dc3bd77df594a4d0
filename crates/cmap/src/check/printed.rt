//! The printed forms of warnings: lines for people, and JSON objects.

ghost use Rattle.std.specs.Prelude.{OnOk, string_bytes};
ghost use Rattle.cmap_io.specs.Escapes.{AddsLine, AddsOfLine};

use cmap_io::digits::{byte_digits, code_digits, push_code};
use cmap_io::object::Object;
use cmap_io::value::Value;
use cmap_io::{escape, json};
use cmap_lint::finding::{Finding, Place};
use cmap_lint::warning::Warning;
use cmap_queries::code_lengths::printed_len;
use hayro_cmap::runs::Range;
use std::alloc::{AllocError, Global};

/// Adds a warning about a file, such as `FILE: warning: overlap: 25 codes, first <8140>`, and ends the line.
pub(crate) fn push_finding(
    out: &mut String,
    file: &str,
    finding: &Finding<'_>,
) -> Result<(), AllocError> {
    escape::push_text(out, file)?;
    write!(out, ": warning: {}: ", finding.warning.name())?;
    push_detail(out, finding)?;
    out.push('\n')
}

/// Adds what a warning concerns.
fn push_detail(out: &mut String, finding: &Finding<'_>) -> Result<(), AllocError> {
    match words_of(finding.warning) {
        Words::Sentence(sentence) => out.push_str(sentence)?,
        Words::Unit(unit) => push_count(out, finding.count, unit)?,
    }
    push_place(out, finding.first)
}

/// The words of a warning.
#[derive(Clone, Copy)]
enum Words {
    /// The sentence of a warning about a whole file.
    Sentence(&'static str),
    /// The unit that a warning counts.
    Unit(&'static str),
}

fn words_of(warning: Warning) -> Words {
    match warning {
        Warning::NothingDeclared => {
            Words::Sentence(
                "the file has no codespace range, no declaration and no use of another file",
            )
        }
        Warning::NoCodespace => Words::Sentence("no layer has a codespace range"),
        Warning::NameDiffers => Words::Sentence("the file has another name than"),
        Warning::ModeDiffers => Words::Sentence(
            "the writing mode isn't vertical, contrary to the name",
        ),
        Warning::NoEndcmap => Words::Sentence("after begincmap comes no endcmap"),
        Warning::OutsideCodespace
        | Warning::Overlap
        | Warning::PrivateUse
        | Warning::Noncharacter
        | Warning::ReplacementCharacter
        | Warning::NullCharacter
        | Warning::NoMapping => Words::Unit("code"),
        Warning::InvertedRange | Warning::CrossesRow | Warning::LastByte | Warning::NoText => {
            Words::Unit("declaration")
        }
        Warning::CountDiffers | Warning::LongSection => Words::Unit("section"),
        Warning::CodeLength | Warning::OddDigits | Warning::OddText => Words::Unit("string"),
    }
}

/// Adds the number of codes, declarations, sections or strings that a warning concerns.
fn push_count(out: &mut String, count: u64, unit: &str) -> Result<(), AllocError> {
    let plural = if count == 1 { "" } else { "s" };
    write!(out, "{count} {unit}{plural}")
}

/// Adds the first place that a warning concerns, or the name that the warning is about.
fn push_place(out: &mut String, place: Place<'_>) -> Result<(), AllocError> {
    match place {
        Place::File => Ok(()),
        Place::Name(name) => {
            out.push_str(" /")?;
            escape::push_name(out, name)
        }
        Place::Code { byte_len, code } => {
            out.push_str(", first ")?;
            push_code_in_brackets(out, byte_len, code)
        }
        Place::Range { byte_len, range } => {
            out.push_str(", first ")?;
            push_range(out, byte_len, range)
        }
        Place::Offset(offset) => write!(out, ", first at byte {offset}"),
    }
}

fn push_code_in_brackets(out: &mut String, byte_len: u8, code: u32) -> Result<(), AllocError> {
    out.push('<')?;
    push_code(out, printed_len(byte_len, code), code)?;
    out.push('>')
}

fn push_range(out: &mut String, byte_len: u8, range: Range) -> Result<(), AllocError> {
    push_code_in_brackets(out, byte_len, range.start)?;
    out.push(' ')?;
    push_code_in_brackets(out, byte_len, range.end)
}

/// Adds the object of a warning about a file, and ends the line.
pub(crate) fn push_json(
    alloc: Global,
    out: &mut String,
    file: &str,
    finding: &Finding<'_>,
) -> Result<(), AllocError>
    ensures line { OnOk result (AddsLine (string_bytes out.old) (string_bytes out.new)) }

    // This holds even if memory runs out.
    ensures printable { AddsOfLine (string_bytes out.old) (string_bytes out.new) }
{
    let object = finding_object(alloc, file, finding)?;
    json::push_line(alloc, out, &object)
}

fn finding_object(alloc: Global, file: &str, finding: &Finding<'_>) -> Result<Value, AllocError> {
    let mut object = Object::new(alloc);
    object.set_text("file", file);
    object.set_text("warning", finding.warning.name());
    object.set("count", Value::from(finding.count));
    set_place(alloc, &mut object, finding.first);
    object.finish()
}

/// Sets the place of a warning: a name in its printed form and by its bytes, a code, the ends of a range, or an
/// offset.
fn set_place(alloc: Global, object: &mut Object, place: Place<'_>) {
    match place {
        Place::File => {}
        Place::Name(name) => {
            object.set_string("name", escape::escaped_name(alloc, name));
            object.set_string("name_bytes", byte_digits(alloc, name));
        }
        Place::Code { byte_len, code } => {
            object.set_string("first", digits_of(alloc, byte_len, code));
        }
        Place::Range { byte_len, range } => {
            object.set_string("first", digits_of(alloc, byte_len, range.start));
            object.set_string("last", digits_of(alloc, byte_len, range.end));
        }
        Place::Offset(offset) => object.set("byte", Value::from(offset)),
    }
}

/// The digits of a code.
fn digits_of(alloc: Global, byte_len: u8, code: u32) -> Result<String, AllocError> {
    code_digits(alloc, printed_len(byte_len, code), code)
}
