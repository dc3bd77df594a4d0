//! The text of a value of JSON, without spaces. RFC 8259.

ghost use Rattle.std.specs.Prelude.{◌≡◌, ◌∷◌, ◌++◌, OnOk, encode_utf8, string_bytes};
ghost use Rattle.cmap_io.specs.Escapes.{digits_of};
ghost use Rattle.cmap_io.specs.Json.{text_spelled};
ghost use Rattle.cmap_io.specs.Values.{items_view, members_view, view};
ghost use Rattle.serde_json.specs.Data.{array, object, string};
ghost use Rattle.serde_json.specs.Written.{comma_if, compact_text};
ghost use Rattle.cmap_io.specs.declared.digits.Letters.TheVariants.{Small};

use crate::digits::{Letters, push_byte};
use crate::value::Value;
use std::alloc::AllocError;
use std::collections::BTreeMap;

/// Adds the text of a value.
#[cycle(push_compact)]
pub(crate) fn push_compact(out: &mut String, value: &Value) -> Result<(), AllocError>
    ensures { OnOk result (string_bytes out.new
        ≡ string_bytes out.old ++ compact_text (view value.now)) }
{
    match value {
        Value::Null => out.push_str("null"),
        Value::Bool(true) => out.push_str("true"),
        Value::Bool(false) => out.push_str("false"),
        Value::Number(number) => write!(out, "{number}"),
        Value::String(text) => push_string(out, text.as_str()),
        Value::Array(items) => push_items(out, items),
        Value::Object(members) => push_members(out, members),
    }
}

/// Adds values between brackets, with a comma between them.
#[cycle(push_compact)]
fn push_items(out: &mut String, items: &Vec<Value>) -> Result<(), AllocError>
    ensures { OnOk result (string_bytes out.new
        ≡ string_bytes out.old ++ compact_text (array (items_view items.now.items))) }
{
    out.push('[')?;
    let mut is_later = false;
    for item in items {
        push_comma(out, is_later)?;
        push_compact(out, item)?;
        is_later = true;
    }
    out.push(']')
}

/// Adds members between braces, with a comma between them.
#[cycle(push_compact)]
fn push_members(out: &mut String, members: &BTreeMap<String, Value>) -> Result<(), AllocError>
    ensures { OnOk result (string_bytes out.new
        ≡ string_bytes out.old ++ compact_text (object (members_view members.now.entries))) }
{
    out.push('{')?;
    let mut is_later = false;
    for (key, value) in members.iter() {
        push_comma(out, is_later)?;
        push_string(out, key.as_str())?;
        out.push(':')?;
        push_compact(out, value)?;
        is_later = true;
    }
    out.push('}')
}

/// Adds a comma, if a value or a member stands before.
fn push_comma(out: &mut String, is_later: bool) -> Result<(), AllocError>
    ensures { OnOk result (string_bytes out.new ≡ string_bytes out.old ++ comma_if is_later) }
{
    if is_later { out.push(',') } else { Ok(()) }
}

/// Adds a string between quotation marks.
fn push_string(out: &mut String, text: &str) -> Result<(), AllocError>
    ensures { OnOk result (string_bytes out.new
        ≡ string_bytes out.old ++ compact_text (string text.now)) }
{
    out.push('"')?;
    push_escaped(out, text)?;
    out.push('"')
}

/// Adds the characters of a string.
fn push_escaped(out: &mut String, text: &str) -> Result<(), AllocError>
    ensures { OnOk result (string_bytes out.new ≡ string_bytes out.old ++ text_spelled text.now) }
{
    for character in text.chars() {
        push_character(out, character)?;
    }
    Ok(())
}

/// Adds a character of a string, as it is or as its escape.
fn push_character(out: &mut String, character: char) -> Result<(), AllocError>
    ensures { OnOk result (string_bytes out.new
        ≡ string_bytes out.old ++ text_spelled (encode_utf8 character)) }
{
    match character {
        '"' => out.push_str("\\\""),
        '\\' => out.push_str("\\\\"),
        '\u{8}' => out.push_str("\\b"),
        '\t' => out.push_str("\\t"),
        '\n' => out.push_str("\\n"),
        '\u{C}' => out.push_str("\\f"),
        '\r' => out.push_str("\\r"),
        _ if character < ' ' => push_control(out, character as u8),
        _ => out.push(character),
    }
}

/// Adds the number of a control character that has no letter.
fn push_control(out: &mut String, number: u8) -> Result<(), AllocError>
    ensures { OnOk result (string_bytes out.new
        ≡ string_bytes out.old ++ 0x5C ∷ 0x75 ∷ 0x30 ∷ 0x30 ∷ digits_of Small number) }
{
    out.push_str("\\u00")?;
    push_byte(out, Letters::Small, number)
}
