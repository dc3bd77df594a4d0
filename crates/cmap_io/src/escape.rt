//! Names and texts in a form that is safe on a terminal.

ghost use Rattle.std.specs.Prelude.{◌≡◌, ◌++◌, IfOk, OnOk, map, string_bytes};
ghost use Rattle.cmap_io.specs.Escapes.{AddsPrintable, byte_shown, name_shown};
ghost use Rattle.cmap_io.specs.Shown.{AddsShown, character_shown, number_shown, quoted_shown, text_shown};
ghost use Rattle.cmap_io.specs.Values.{view};
ghost use Rattle.serde_json.specs.Data.{string};

use crate::digits::{Letters, push_byte, push_number};
use crate::hidden::is_hidden;
use crate::value::Value;
use std::alloc::{AllocError, Global};

/// Adds a name: bytes from 0x20 to 0x7E as they are, except `\` as `\\`, and any other byte as `\xHH`.
pub fn push_name(out: &mut String, name: &[u8]) -> Result<(), AllocError>
    ensures shown { OnOk result (string_bytes out.new
        ≡ string_bytes out.old ++ name_shown name.now) }

    // This holds also where memory runs out.
    ensures printable { AddsPrintable (string_bytes out.old) (string_bytes out.new) }
{
    for byte in name {
        push_name_byte(out, *byte)?;
    }
    Ok(())
}

/// A name, escaped as in `push_name`.
pub fn escaped_name(alloc: Global, name: &[u8]) -> Result<String, AllocError>
    ensures { IfOk result (λ escaped. string_bytes escaped ≡ name_shown name.now) }
{
    let mut escaped = String::new(alloc);
    push_name(&mut escaped, name)?;
    Ok(escaped)
}

/// Names, escaped as in `push_name`, as values of JSON.
pub fn escaped_names(alloc: Global, names: &[&[u8]]) -> Result<Vec<Value>, AllocError>
    ensures { IfOk result (λ values. map view values.items
        ≡ map (λ name. string (name_shown name.now)) names.now) }
{
    let mut values = Vec::with_capacity(alloc, names.len())?;
    for name in names {
        values.push(Value::from(escaped_name(alloc, name)?))?;
    }
    Ok(values)
}

/// Adds a byte of a name.
fn push_name_byte(out: &mut String, byte: u8) -> Result<(), AllocError>
    ensures shown { OnOk result (string_bytes out.new ≡ string_bytes out.old ++ byte_shown byte) }
    ensures printable { AddsPrintable (string_bytes out.old) (string_bytes out.new) }
{
    match byte {
        b'\\' => out.push_str("\\\\"),
        b' '..=b'~' => out.push(char::from(byte)),
        _ => {
            out.push_str("\\x")?;
            push_byte(out, Letters::Capital, byte)
        }
    }
}

/// Adds a text: characters as they are, except `\` as `\\`, `"` as `\"`, and as `\u{H..}` control and format
/// characters, separators of lines and paragraphs, and characters for private use or unassigned.
pub fn push_text(out: &mut String, text: &str) -> Result<(), AllocError>
    ensures shown { OnOk result (string_bytes out.new
        ≡ string_bytes out.old ++ text_shown text.now) }

    // This holds also where memory runs out.
    ensures harmless { AddsShown (string_bytes out.old) (string_bytes out.new) }
{
    for character in text.chars() {
        push_character(out, character)?;
    }
    Ok(())
}

/// Adds a text, escaped, between quotation marks.
pub fn push_quoted(out: &mut String, text: &str) -> Result<(), AllocError>
    ensures shown { OnOk result (string_bytes out.new
        ≡ string_bytes out.old ++ quoted_shown text.now) }

    // This holds also where memory runs out.
    ensures harmless { AddsShown (string_bytes out.old) (string_bytes out.new) }
{
    out.push('"')?;
    push_text(out, text)?;
    out.push('"')
}

/// Adds a character of a text.
fn push_character(out: &mut String, character: char) -> Result<(), AllocError>
    ensures shown { OnOk result (string_bytes out.new
        ≡ string_bytes out.old ++ character_shown character) }
    ensures harmless { AddsShown (string_bytes out.old) (string_bytes out.new) }
{
    match character {
        '\\' => out.push_str("\\\\"),
        '"' => out.push_str("\\\""),
        _ if is_hidden(character) => push_by_number(out, character),
        _ => out.push(character),
    }
}

/// Adds the number of a character, as `\u{H..}`.
fn push_by_number(out: &mut String, character: char) -> Result<(), AllocError>
    ensures shown { OnOk result (string_bytes out.new
        ≡ string_bytes out.old ++ number_shown character) }
    ensures printable { AddsPrintable (string_bytes out.old) (string_bytes out.new) }
{
    out.push_str("\\u{")?;
    push_number(out, u32::from(character))?;
    out.push('}')
}
