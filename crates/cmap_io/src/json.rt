//! Values of JSON as text, in bytes from 0x20 to 0x7E. RFC 8259.

ghost use Rattle.std.specs.Prelude.{◌≡◌, [], ◌∷◌, ◌++◌, OnOk, string_bytes};
ghost use Rattle.std.specs.Char.Escape.{encode_utf16};
ghost use Rattle.std.specs.List.{flat_map};
ghost use Rattle.cmap_io.specs.Escapes.{AddsLine, AddsOfLine, AddsPrintable};
ghost use Rattle.cmap_io.specs.Json.{character_escaped, escaped, unit_escaped};
ghost use Rattle.cmap_io.specs.Values.{view};
ghost use Rattle.serde_json.specs.Written.{compact_text};

use crate::compact::push_compact;
use crate::digits::{Letters, push_byte};
use crate::value::Value;
use std::alloc::{AllocError, Global};

/// Adds the text of a value, without spaces. A character outside 0x20 to 0x7E is added as its units
/// in UTF-16, each as `\uhhhh`.
pub fn push_value(alloc: Global, out: &mut String, value: &Value) -> Result<(), AllocError>
    ensures text { OnOk result (string_bytes out.new
        ≡ string_bytes out.old ++ escaped (compact_text (view value.now))) }

    // This holds also where memory runs out.
    ensures printable { AddsPrintable (string_bytes out.old) (string_bytes out.new) }
{
    let mut text = String::new(alloc);
    push_compact(&mut text, value)?;
    push_text(out, text.as_str())
}

/// Adds the text of a value, and ends the line.
pub fn push_line(alloc: Global, out: &mut String, value: &Value) -> Result<(), AllocError>
    ensures text { OnOk result (string_bytes out.new
        ≡ string_bytes out.old ++ escaped (compact_text (view value.now)) ++ 0x0A ∷ []) }
    ensures line { OnOk result (AddsLine (string_bytes out.old) (string_bytes out.new)) }

    // This holds also where memory runs out.
    ensures printable { AddsOfLine (string_bytes out.old) (string_bytes out.new) }
{
    push_value(alloc, out, value)?;
    out.push('\n')
}

/// Adds a text, character by character.
fn push_text(out: &mut String, text: &str) -> Result<(), AllocError>
    ensures text { OnOk result (string_bytes out.new ≡ string_bytes out.old ++ escaped text.now) }
    ensures printable { AddsPrintable (string_bytes out.old) (string_bytes out.new) }
{
    for character in text.chars() {
        push_character(out, character)?;
    }
    Ok(())
}

/// Adds a character, as it is or as its units in UTF-16.
fn push_character(out: &mut String, character: char) -> Result<(), AllocError>
    ensures escaped { OnOk result (string_bytes out.new
        ≡ string_bytes out.old ++ character_escaped character) }
    ensures printable { AddsPrintable (string_bytes out.old) (string_bytes out.new) }
{
    match character {
        ' '..='~' => out.push(character),
        _ => push_units(out, character),
    }
}

/// Adds the units of a character.
fn push_units(out: &mut String, character: char) -> Result<(), AllocError>
    ensures escaped { OnOk result (string_bytes out.new
        ≡ string_bytes out.old ++ flat_map unit_escaped (encode_utf16 character)) }
    ensures printable { AddsPrintable (string_bytes out.old) (string_bytes out.new) }
{
    let mut units = [0; 2];
    for unit in character.encode_utf16(&mut units).iter() {
        push_unit(out, *unit)?;
    }
    Ok(())
}

/// Adds a unit as `\uhhhh`.
fn push_unit(out: &mut String, unit: u16) -> Result<(), AllocError>
    ensures escaped { OnOk result (string_bytes out.new
        ≡ string_bytes out.old ++ unit_escaped unit) }
    ensures printable { AddsPrintable (string_bytes out.old) (string_bytes out.new) }
{
    out.push_str("\\u")?;
    push_byte(out, Letters::Small, (unit / 0x100) as u8)?;
    push_byte(out, Letters::Small, (unit % 0x100) as u8)
}
