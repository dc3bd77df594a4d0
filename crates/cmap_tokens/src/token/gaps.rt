//! Gaps, which separate tokens: white space and comments. A comment goes from `%` to the end of the
//! line, which a form feed ends too.

ghost use Rattle.std.specs.Prelude.{◌≡◌, ◌+◌, ◌≤◌, false, true, drop, length};
ghost use Rattle.std.specs.List.{list_all};
ghost use Rattle.cmap_tokens.specs.Gaps as gaps;
ghost use Rattle.cmap_tokens.specs.TokenReading as reading;

use super::byte_class::is_white;

pub(super) const FORM_FEED: u8 = 12;

/// How many bytes of white space and comments a text begins with.
#[inline(always)]
pub(super) fn gap_len(text: &[u8]) -> usize
    ensures exact { result ≡ reading.gap_len false text.now }
    ensures within { result ≤ length text.now }
{
    let mut i = 0;
    while i < text.len() {
        let byte = text[i];
        if is_white(byte) {
            i += 1;
        } else if byte == b'%' {
            i += 1 + comment_len(&text[i + 1..]);
        } else {
            return i;
        }
    }
    i
}

/// How many bytes are left of a comment, including the byte that ends the comment.
fn comment_len(text: &[u8]) -> usize
    ensures exact { reading.gap_len true text.now
        ≡ result + reading.gap_len false (drop result text.now) }
    ensures within { result ≤ length text.now }
{
    let plain = plain_len(text);
    plain + line_len(&text[plain..])
}

/// How many bytes are passed at once if none of them ends a comment.
const AT_ONCE: usize = 16;

/// How many bytes are passed at once after the steps of `AT_ONCE` bytes.
const FEWER: usize = 8;

/// How many bytes of a comment are passed in steps of sixteen and then of eight, before a byte that
/// may end the comment.
fn plain_len(text: &[u8]) -> usize
    ensures exact { reading.gap_len true text.now
        ≡ result + reading.gap_len true (drop result text.now) }
    ensures within { result ≤ length text.now }
{
    let mut i = 0;
    while text.len() - i >= AT_ONCE && are_plain(&text[i..i + AT_ONCE]) {
        i += AT_ONCE;
    }
    if text.len() - i >= FEWER && are_plain(&text[i..i + FEWER]) {
        i += FEWER;
    }
    i
}

/// Whether all these bytes lie above all bytes that end a line.
#[inline(always)]
fn are_plain(bytes: &[u8]) -> bool
    ensures { result ≡ list_all reading.is_plain bytes.now }
{
    let mut ends = false;
    for byte in bytes {
        ends = ends | (*byte <= b'\r');
    }
    !ends
}

/// How many bytes are left of a comment, including the byte that ends the comment, in steps of one
/// byte.
fn line_len(text: &[u8]) -> usize
    ensures exact { reading.gap_len true text.now
        ≡ result + reading.gap_len false (drop result text.now) }
    ensures within { result ≤ length text.now }
{
    for (i, byte) in text.iter().enumerate() {
        if matches!(*byte, b'\n' | FORM_FEED | b'\r') {
            return i + 1;
        }
    }
    text.len()
}
