//! The lengths of runs and strings, in bytes.

ghost use Rattle.std.specs.Prelude.{◌≡◌, ◌+◌, ◌≤◌, length, IfSome};
ghost use Rattle.std.specs.List.{prefix_len};
ghost use Rattle.cmap_tokens.specs.Bytes.{is_regular};
ghost use Rattle.cmap_tokens.specs.Tokens.{is_hex_body};
ghost use Rattle.cmap_tokens.specs.TokenReading.{opened};
ghost use Rattle.cmap_tokens.specs.TokenReading as reading;

use super::byte_class::{digit_value, is_regular, is_white};

/// How many regular bytes a text begins with.
pub(super) fn run_len(text: &[u8]) -> usize
    ensures exact { result ≡ prefix_len is_regular text.now }
    ensures within { result ≤ length text.now }
{
    for (i, byte) in text.iter().enumerate() {
        if !is_regular(*byte) {
            return i;
        }
    }
    text.len()
}

/// The length of the string at the start of a text, in bytes; `None` if the text begins with no
/// string.
pub(super) fn string_len(text: &[u8]) -> Option<usize>
    ensures exact { result ≡ reading.string_len text.now }
    ensures within { IfSome result (λ len. len ≤ length text.now) }
{
    match text {
        [b'<', rest @ ..] => hex_len(rest),
        [b'(', rest @ ..] => text_len(rest),
        _ => None,
    }
}

/// The number of bytes before the first byte that rules out a token, for a text that begins with no
/// token.
pub(super) fn malformed_len(text: &[u8]) -> usize
    ensures exact { result ≡ reading.malformed_len text.now }
    ensures within { result ≤ length text.now }
{
    match text {
        [b'<', rest @ ..] => 1 + hex_body_len(rest),
        [b'>', ..] => 1,
        [b'(', ..] => text.len(),
        _ => 0,
    }
}

/// How many digits and white bytes a text begins with.
pub(super) fn hex_body_len(text: &[u8]) -> usize
    ensures exact { result ≡ prefix_len is_hex_body text.now }
    ensures within { result ≤ length text.now }
{
    for (i, byte) in text.iter().enumerate() {
        if digit_value(*byte) >= 16 && !is_white(*byte) {
            return i;
        }
    }
    text.len()
}

/// The length of a hexadecimal string with its brackets, in bytes. `text` is the part after the `<`.
fn hex_len(text: &[u8]) -> Option<usize>
    ensures exact { result ≡ reading.one_more (reading.hex_len text.now) }
    ensures within { IfSome result (λ len. len ≤ 1 + length text.now) }
{
    let len = hex_body_len(text);
    match text.get(len) {
        Some(b'>') => Some(len + 2),
        _ => None,
    }
}

/// The length of a string in parentheses with its brackets, in bytes. `text` is the part after the
/// `(`.
fn text_len(text: &[u8]) -> Option<usize>
    ensures exact { result ≡ reading.one_more (reading.text_len opened text.now) }
    ensures within { IfSome result (λ len. len ≤ 1 + length text.now) }
{
    let mut depth: usize = 1;
    let mut escaped = false;
    for (i, byte) in text.iter().enumerate() {
        if escaped {
            escaped = false;
        } else {
            match byte {
                b'\\' => escaped = true,
                b'(' => depth += 1,
                b')' if depth == 1 => return Some(i + 2),
                b')' => depth -= 1,
                _ => {}
            }
        }
    }
    None
}
