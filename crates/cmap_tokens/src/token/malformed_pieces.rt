//! Malformed pieces of a text, where no token stands.

ghost use Rattle.std.specs.Prelude.{◌≡◌, ◌+◌, ◌≤◌, length, true};
ghost use Rattle.std.specs.List.{list_any};
ghost use Rattle.cmap_tokens.specs.Malformed as malformed;
ghost use Rattle.cmap_tokens.specs.Malformed.{blank_after, ends_line, is_line_blank, last_digits};
ghost use Rattle.cmap_tokens.specs.TokenSeen.{malformed_seen};

use super::Malformed;
use super::byte_class::{digit_value, is_regular};
use super::gaps::FORM_FEED;
use super::lengths::hex_body_len;

/// Why a text begins with no token, for a text that begins with none.
pub(super) fn malformed_kind(text: &[u8]) -> Malformed
    ensures { malformed_seen result ≡ malformed.malformed_kind text.now }
{
    match text {
        [b'<', rest @ ..] => hexadecimal_kind(rest),
        [b'(', ..] => Malformed::UnclosedText,
        _ => Malformed::Stray,
    }
}

/// Why a malformed hexadecimal string is no string, from the bytes after its `<`.
fn hexadecimal_kind(text: &[u8]) -> Malformed
    ensures { malformed_seen result ≡ malformed.hexadecimal_kind text.now }
{
    if hex_body_len(text) == text.len() {
        Malformed::UnclosedHexadecimal
    } else {
        Malformed::WrongDigit
    }
}

/// The offset of the fault in the malformed piece that a text begins with.
pub(super) fn fault_len(text: &[u8]) -> usize
    ensures exact { result ≡ malformed.fault_len text.now }
    ensures within { result ≤ length text.now }
{
    match text {
        [b'<', rest @ ..] => hexadecimal_fault_len(rest),
        [b'>', ..] => 1,
        _ => 0,
    }
}

/// The offset of the fault in a malformed hexadecimal string with its `<`. `text` is the part after the
/// `<`.
fn hexadecimal_fault_len(text: &[u8]) -> usize
    ensures exact { result ≡ malformed.hexadecimal_fault_len text.now }
    ensures within { result ≤ 1 + length text.now }
{
    let len = hex_body_len(text);
    if len == text.len() { 0 } else { 1 + len }
}

/// The length of the malformed piece that a text begins with, in bytes.
pub(super) fn malformed_piece_len(text: &[u8]) -> usize
    ensures exact { result ≡ malformed.malformed_piece_len text.now }
    ensures within { result ≤ length text.now }
{
    match text {
        [b'<', rest @ ..] => hexadecimal_piece_len(text, 1 + hex_body_len(rest)),
        [_, ..] => 1,
        [] => 0,
    }
}

/// The length of a malformed hexadecimal string, in bytes. The wrong byte, or the end of the text, is at
/// the offset `wrong`. If the word with the wrong byte stands on another line, the string ends before the
/// word.
fn hexadecimal_piece_len(text: &[u8], wrong: usize) -> usize
    requires { wrong ≤ length text.now }
    ensures exact { result ≡ malformed.hexadecimal_piece_len wrong text.now }
    ensures within { result ≤ length text.now }
{
    let word = wrong_word(text, wrong);
    if wrong < text.len() && has_line_end(&text[..word]) {
        word
    } else {
        wrong + hex_left(&text[wrong..])
    }
}

/// The offset of the word with the wrong byte at the offset `wrong`. If the wrong byte is regular, the
/// word begins with the digits right before it.
fn wrong_word(text: &[u8], wrong: usize) -> usize
    requires { wrong ≤ length text.now }
    ensures exact { result ≡ malformed.wrong_word wrong text.now }
    ensures within { result ≤ wrong }
{
    match &text[wrong..] {
        [byte, ..] if is_regular(*byte) => wrong - last_digits(&text[..wrong]),
        _ => wrong,
    }
}

/// How many hexadecimal digits a text ends with.
fn last_digits(text: &[u8]) -> usize
    ensures exact { result ≡ last_digits 0 text.now }
    ensures within { result ≤ length text.now }
{
    let mut count = 0;
    for byte in text {
        if digit_value(*byte) < 16 {
            count += 1;
        } else {
            count = 0;
        }
    }
    count
}

fn has_line_end(text: &[u8]) -> bool
    ensures { result ≡ list_any ends_line text.now }
{
    for byte in text {
        if is_line_end(*byte) {
            return true;
        }
    }
    false
}

fn is_line_end(byte: u8) -> bool
    ensures { result ≡ ends_line byte }
{
    byte == b'\n' || byte == b'\r'
}

/// How many bytes of a hexadecimal string are left from its first wrong byte on: up to and including a
/// `>`, or up to a `<`, the end of the line or the end of the text.
fn hex_left(text: &[u8]) -> usize
    ensures exact { result ≡ malformed.hex_left text.now }
    ensures within { result ≤ length text.now }
{
    for (i, byte) in text.iter().enumerate() {
        match byte {
            b'>' => return i + 1,
            b'<' => return i,
            _ if is_line_end(*byte) => return i,
            _ => {}
        }
    }
    text.len()
}

/// Whether a byte is white and ends no line.
fn is_line_blank(byte: u8) -> bool
    ensures { result ≡ is_line_blank byte }
{
    matches!(byte, 0 | b'\t' | FORM_FEED | b' ')
}

/// Whether the byte after this text begins a line: only blanks stand between the byte and the last line
/// end, or the start of the text.
pub(super) fn ends_blank_line(text: &[u8]) -> bool
    ensures { result ≡ blank_after true text.now }
{
    for i in (0..text.len()).rev() {
        let byte = text[i];
        if !is_line_blank(byte) {
            return is_line_end(byte);
        }
    }
    true
}
