//! Paths as texts. The standard library opens no path that isn't UTF-8, but a message names such a path. No path has a
//! zero byte: in the text of a path that isn't UTF-8, U+0000 and two hexadecimal digits stand for each byte from 0x80
//! on.

ghost use Rattle.std.specs.Prelude.{◌≡◌, [], ◌∷◌, ◌==◌, ◌<◌, ◌++◌, ℕ, List, length, IfOk, OnOk, IfSome, not, string_bytes};
ghost use Rattle.std.specs.List.{list_any};
ghost use Rattle.std.specs.Char as Char;
ghost use Rattle.cmap_io.specs.Escapes.{bytes_shown};
ghost use Rattle.cmap_io.specs.Shown.{AddsShown};
ghost use Rattle.cmap_io.specs.PathTexts.{AreBytes, AreSpelled, IsTextOf, TakesFirst, marked, marked_byte, path_character_shown, path_shown};

use crate::digits::byte_digits;
use crate::escape::push_text;
use std::alloc::{AllocError, Global};
use std::str;

/// The character before the digits of a byte.
const MARK: char = '\0';

/// Whether the text is the path itself, so that the path can be opened.
pub fn is_plain(path: &str) -> bool
    ensures { result ≡ not (list_any (λ byte. byte == 0) path.now) }
{
    !path.as_bytes().contains(&0)
}

/// The text of a path with these bytes.
pub fn path_text(alloc: Global, path: &[u8]) -> Result<String, AllocError>
    ensures { IfOk result (λ text. IsTextOf path.now (string_bytes text)) }
{
    match str::from_utf8(path) {
        Ok(text) if is_plain(text) => String::from_str(alloc, text),
        _ => marked_text(alloc, path),
    }
}

fn marked_text(alloc: Global, path: &[u8]) -> Result<String, AllocError>
    ensures { IfOk result (λ text. string_bytes text ≡ marked path.now) }
{
    let mut text = String::new(alloc);
    for byte in path {
        push_byte(alloc, &mut text, *byte)?;
    }
    Ok(text)
}

fn push_byte(alloc: Global, text: &mut String, byte: u8) -> Result<(), AllocError>
    ensures { OnOk result (string_bytes text.new ≡ string_bytes text.old ++ marked_byte byte) }
{
    if matches!(byte, 1..=0x7F) {
        return text.push(char::from(byte));
    }
    text.push(MARK)?;
    text.push_str(byte_digits(alloc, &[byte])?.as_str())
}

/// The bytes of the path with this text.
pub fn path_bytes(alloc: Global, text: &str) -> Result<Vec<u8>, AllocError>
    ensures { IfOk result (λ path. (bytes : List ℕ) → AreBytes bytes → IsTextOf bytes text.now → path.items ≡ bytes) }
{
    let mut path = Vec::new(alloc);
    let mut rest = text.as_bytes();
    while let Some(byte) = take_byte(&mut rest) {
        path.push(byte)?;
    }
    Ok(path)
}

/// Takes the next byte of a path from the rest of its text.
fn take_byte(rest: &mut &[u8]) -> Option<u8>
    ensures takes { (bytes : List ℕ) → AreBytes bytes → AreSpelled bytes rest.old.now
        → TakesFirst bytes result rest.new.now }
    ensures shrinks { IfSome result (λ byte. length rest.new.now < length rest.old.now) }
{
    match *rest {
        [0, high, low, after @ ..] => {
            *rest = after;
            Some(byte_of(*high, *low))
        }
        [byte, after @ ..] => {
            *rest = after;
            Some(*byte)
        }
        [] => None,
    }
}

/// The byte of these two digits.
fn byte_of(high: u8, low: u8) -> u8
    ensures { (byte : ℕ) → byte < 0x100 → high ∷ low ∷ [] ≡ bytes_shown (byte ∷ []) → result ≡ byte }
{
    16 * digit_value(high) + digit_value(low)
}

/// The value of a hexadecimal digit.
fn digit_value(digit: u8) -> u8
    ensures below { result < 16 }
    ensures value { Char.digit_value digit < 16 → result ≡ Char.digit_value digit }
{
    match char::from(digit).to_digit(16) {
        Some(value) => value as u8,
        None => 0,
    }
}

/// Adds a path, escaped. A byte with a mark is added as `\xHH`.
pub fn push_path(out: &mut String, path: &str) -> Result<(), AllocError>
    ensures shown { OnOk result (string_bytes out.new
        ≡ string_bytes out.old ++ path_shown path.now) }

    // This holds also where memory runs out.
    ensures harmless { AddsShown (string_bytes out.old) (string_bytes out.new) }
{
    for character in path.chars() {
        push_character(out, character)?;
    }
    Ok(())
}

fn push_character(out: &mut String, character: char) -> Result<(), AllocError>
    ensures shown { OnOk result (string_bytes out.new
        ≡ string_bytes out.old ++ path_character_shown character) }
    ensures harmless { AddsShown (string_bytes out.old) (string_bytes out.new) }
{
    if character == MARK {
        out.push_str("\\x")
    } else {
        push_text(out, character.encode_utf8(&mut [0; 4]))
    }
}
