//! Names as `cmap list` prints them, with escapes.

use std::alloc::{AllocError, Global};

/// How far an escape has been read.
#[derive(Clone, Copy)]
enum Escape {
    /// No escape has begun.
    Outside,
    /// `\`
    Begun,
    /// `\x`
    Numbered,
    /// `\x` and a digit of this value.
    Within(u32),
}

/// The bytes of a name, with its escapes `\\` and `\xHH` resolved; `None` if there is any other
/// escape.
pub(crate) fn name_bytes(alloc: Global, shown: &str) -> Result<Option<Vec<u8>>, AllocError> {
    let mut bytes = Vec::new(alloc);
    let mut escape = Escape::Outside;
    for byte in shown.as_bytes() {
        let Some(next) = read_byte(&mut bytes, escape, *byte)? else {
            return Ok(None);
        };
        escape = next;
    }
    Ok(matches!(escape, Escape::Outside).then_some(bytes))
}

/// Adds a byte, or reads on in an escape; `None` if no name continues with this byte.
fn read_byte(bytes: &mut Vec<u8>, escape: Escape, byte: u8) -> Result<Option<Escape>, AllocError> {
    match (escape, byte) {
        (Escape::Outside, b'\\') => Ok(Some(Escape::Begun)),
        (Escape::Outside, _) | (Escape::Begun, b'\\') => {
            bytes.push(byte)?;
            Ok(Some(Escape::Outside))
        }
        (Escape::Begun, b'x') => Ok(Some(Escape::Numbered)),
        (Escape::Numbered, digit) => Ok(begun_by(digit)),
        (Escape::Within(high), digit) => push_numbered(bytes, high, digit),
        _ => Ok(None),
    }
}

/// The escape after its first digit.
fn begun_by(digit: u8) -> Option<Escape> {
    Some(Escape::Within(char::from(digit).to_digit(16)?))
}

/// Adds the byte of two hexadecimal digits, the first of which has the value `high`.
fn push_numbered(bytes: &mut Vec<u8>, high: u32, digit: u8) -> Result<Option<Escape>, AllocError> {
    let Some(byte) = byte_of(high, digit) else {
        return Ok(None);
    };
    bytes.push(byte)?;
    Ok(Some(Escape::Outside))
}

fn byte_of(high: u32, digit: u8) -> Option<u8> {
    let low = char::from(digit).to_digit(16)?;
    u8::try_from(high.checked_mul(16)?.checked_add(low)?).ok()
}
