//! The bytes that strings stand for.

ghost use Rattle.std.specs.Prelude.{◌≡◌, ◌+◌, ◌≤◌, ◌<◌, ◌++◌, length, vec_len, vec_capacity, IfSome, MatchOption};
ghost use Rattle.cmap_tokens.specs.TokenReading as reading;
ghost use Rattle.std.specs.Int.Digits.{number_from_digits};
ghost use Rattle.cmap_tokens.specs.Strings.{ArePairs, escape_value, hex_value};
ghost use Rattle.cmap_tokens.specs.TokenReading.{text_value};

use super::byte_class::{BACKSPACE, digit_value};
use super::gaps::FORM_FEED;
use super::numerals::{digits_len, digits_number};

/// The number of bytes that one to four pairs of digits stand for, and the big-endian number of
/// these bytes. `None` for any other text.
pub(super) fn pairs_number(digits: &[u8]) -> Option<(u8, u32)>
    ensures value { MatchOption result (ArePairs digits.now → ⊥)
        (λ first. ArePairs digits.now × (first.0 ≡ length (hex_value digits.now))
        × (first.1 ≡ number_from_digits 256 (hex_value digits.now))) }
    ensures some { IfSome result (λ first. 1 ≤ first.0) }
    ensures few { IfSome result (λ first. first.0 ≤ 4) }
{
    let len = digits.len();
    if len > 8 || len % 2 != 0 {
        return None;
    }
    let number = digits_number(16, digits)?;
    Some((len as u8 / 2, number as u32))
}

/// Appends the bytes of hexadecimal digits. White space may stand among the digits.
pub(super) fn decode_hex(digits: &[u8], out: &mut Vec<u8>)
    requires { vec_len out.old + length digits.now ≤ vec_capacity out.old }
    ensures { out.new.items ≡ out.old.items ++ hex_value digits.now }
{
    let mut high = None;
    for byte in digits {
        let digit = digit_value(*byte);
        if digit < 16 {
            match high {
                None => high = Some(digit),
                Some(first) => {
                    out.push_reserved(16 * first + digit);
                    high = None;
                }
            }
        }
    }
    if let Some(first) = high {
        out.push_reserved(16 * first);
    }
}

/// Appends the bytes that the body of a string in parentheses stands for.
pub(super) fn decode_text(body: &[u8], out: &mut Vec<u8>)
    requires { vec_len out.old + length body.now ≤ vec_capacity out.old }
    ensures { out.new.items ≡ out.old.items ++ text_value body.now }
{
    let mut rest = body;
    while !rest.is_empty() {
        let (byte, len) = first_part(rest);
        if let Some(byte) = byte {
            out.push_reserved(byte);
        }
        rest = &rest[len..];
    }
}

/// The byte that the first part of a body stands for, if any, and how many bytes the part takes.
#[tactic(auto, unfolding(crate::specs::TokenReading::first_part))]
fn first_part(body: &[u8]) -> (Option<u8>, usize)
    requires { 0 < length body.now }
    ensures exact { result ≡ reading.first_part body.now }
    ensures moves { 0 < result.1 }
    ensures within { result.1 ≤ length body.now }
{
    let [first, rest @ ..] = body else {
        unreachable!();
    };
    match *first {
        b'\\' => {
            let (byte, len) = escape(rest);
            (byte, 1 + len)
        }
        b'\r' => (Some(b'\n'), return_len(rest)),
        byte => (Some(byte), 1),
    }
}

/// The byte that an escape means, if any, and the number of bytes that the escape takes after its
/// backslash.
#[tactic(auto, unfolding(crate::specs::TokenReading::escape))]
fn escape(text: &[u8]) -> (Option<u8>, usize)
    ensures exact { result ≡ reading.escape text.now }
    ensures within { result.1 ≤ length text.now }
{
    let [first, rest @ ..] = text else {
        return (None, 0);
    };
    match *first {
        b'\r' => (None, return_len(rest)),
        b'\n' => (None, 1),
        b'0'..=b'7' => {
            let (byte, len) = octal(text);
            (Some(byte), len)
        }
        byte => (Some(escaped_byte(byte)), 1),
    }
}

/// The length of a line end that begins with a carriage return, in bytes. `text` is the part after
/// the carriage return.
fn return_len(text: &[u8]) -> usize
    ensures exact { result ≡ reading.return_len text.now }
    ensures within { result ≤ 1 + length text.now }
{
    match text {
        [b'\n', ..] => 2,
        _ => 1,
    }
}

/// The byte that a letter means after a backslash. Any other byte means itself.
fn escaped_byte(byte: u8) -> u8
    ensures { result ≡ escape_value byte }
{
    match byte {
        b'n' => b'\n',
        b'r' => b'\r',
        b't' => b'\t',
        b'b' => BACKSPACE,
        b'f' => FORM_FEED,
        _ => byte,
    }
}

/// The value of up to three octal digits, modulo 256, and the number of the digits.
fn octal(text: &[u8]) -> (u8, usize)
    ensures exact { result ≡ reading.octal text.now }
    ensures within { result.1 ≤ length text.now }
{
    let len = digits_len(8, text).min(3);
    let value = digits_number(8, &text[..len]).unwrap_or(0);
    ((value % 256) as u8, len)
}
