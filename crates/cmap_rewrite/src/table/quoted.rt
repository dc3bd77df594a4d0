//! Texts between quotation marks, as `cmap list` prints them.

use std::alloc::{AllocError, Global};

/// How far an escape has been read.
#[derive(Clone, Copy)]
enum Escape {
    /// No escape has begun.
    Outside,
    /// `\`
    Begun,
    /// `\u`
    Numbered,
    /// `\u{` and digits with this value.
    Within(u32),
}

/// The text between quotation marks, with its escapes `\\`, `\"` and `\u{H..}` resolved; `None` if there is no such
/// text.
pub(super) fn unquoted(alloc: Global, quoted: &str) -> Result<Option<String>, AllocError> {
    let Some(inner) = inner_of(quoted) else {
        return Ok(None);
    };
    let mut text = String::new(alloc);
    let mut escape = Escape::Outside;
    for character in inner.chars() {
        let Some(next) = read_character(&mut text, escape, character)? else {
            return Ok(None);
        };
        escape = next;
    }
    Ok(matches!(escape, Escape::Outside).then_some(text))
}

/// The characters between the quotation marks.
fn inner_of(quoted: &str) -> Option<&str> {
    quoted.strip_prefix('"')?.strip_suffix('"')
}

/// Adds a character, or reads on in an escape; `None` if no text continues with this character.
fn read_character(
    text: &mut String,
    escape: Escape,
    character: char,
) -> Result<Option<Escape>, AllocError> {
    match (escape, character) {
        (Escape::Outside, '\\') => Ok(Some(Escape::Begun)),
        (Escape::Outside, '"') => Ok(None),
        (Escape::Outside, _) | (Escape::Begun, '\\' | '"') => {
            text.push(character)?;
            Ok(Some(Escape::Outside))
        }
        (Escape::Begun, 'u') => Ok(Some(Escape::Numbered)),
        (Escape::Numbered, '{') => Ok(Some(Escape::Within(0))),
        (Escape::Within(number), '}') => push_numbered(text, number),
        (Escape::Within(number), digit) => Ok(with_digit(number, digit)),
        _ => Ok(None),
    }
}

/// Adds the character of a number, which ends the escape.
fn push_numbered(text: &mut String, number: u32) -> Result<Option<Escape>, AllocError> {
    let Some(character) = char::from_u32(number) else {
        return Ok(None);
    };
    text.push(character)?;
    Ok(Some(Escape::Outside))
}

/// The escape with one more hexadecimal digit; `None` if the character isn't a digit or the number is too large.
fn with_digit(number: u32, digit: char) -> Option<Escape> {
    let digit = digit.to_digit(16)?;
    let number = number.checked_mul(16)?.checked_add(digit)?;
    Some(Escape::Within(number))
}
