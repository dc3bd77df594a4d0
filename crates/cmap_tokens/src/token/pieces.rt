//! The token that a text begins with.

ghost use Rattle.std.specs.Prelude.{◌≡◌, ℕ, ◌+◌, ◌*◌, ◌%◌, ◌<◌, ◌≤◌, ◌^◌, drop, false, true, List, ◌∷◌, ◌++◌, length, take, option_map, pos, Some, IfOk, IfSome, IsSome, IsTrue, MatchOption, MatchResult};
ghost use Rattle.std.specs.List.{prefix_len};
ghost use Rattle.cmap_tokens.specs.Bytes.{is_regular};
ghost use Rattle.cmap_tokens.specs.Gaps.{IsBlank};
ghost use Rattle.cmap_tokens.specs.Numbers.{Integer};
ghost use Rattle.cmap_tokens.specs.Tokens as tokens;
ghost use Rattle.cmap_tokens.specs.Tokens.{IsMalformed, name_or_number};
ghost use Rattle.cmap_tokens.specs.Scanner.{FirstToken, closed_number, closed_parts, short_pairs, spaced_pairs, spaced_parts, spaced_two_bytes};
ghost use Rattle.cmap_tokens.specs.TokenReading as reading;
ghost use Rattle.cmap_tokens.specs.TokenSeen.{malformed_seen, token_seen};
ghost use Rattle.cmap_tokens.specs.Malformed.{malformed_kind};
ghost use Rattle.cmap_tokens.specs.TokensLeft.{after_gap};

use super::byte_class::{is_regular, is_white};
use super::gaps::gap_len;
use super::lengths::{run_len, string_len};
use super::malformed_pieces::malformed_kind;
use super::numerals::{hex_number, number_of, plain_decimal};
use super::{Malformed, Name, StringToken, Token};

/// The token that a text begins with, and how many bytes it takes with the gap before it.
#[tactic(auto, using(crate::proofs::Fronts::first_token_is, crate::proofs::Fronts::blank_is))]
pub(super) fn first_token(text: &[u8]) -> Result<Option<(Token<'_>, usize)>, Malformed>
    ensures outcome { MatchResult result (λ found. MatchOption found (IsBlank text.now)
        (λ first. FirstToken text.now (token_seen first.0) first.1))
        (λ malformed. IsMalformed text.now × (malformed_seen malformed ≡ malformed_kind (after_gap text.now))) }
    ensures within { IfOk result (λ found. IfSome found (λ first. first.1 ≤ length text.now)) }
{
    let gap = gap_len(text);
    let rest = &text[gap..];
    match first_piece(rest) {
        Some((token, len)) => Ok(Some((token, gap + len))),
        None if rest.is_empty() => Ok(None),
        None => Err(malformed_kind(rest)),
    }
}

/// The token that a text begins with, with no gap before it, and how many bytes it takes.
#[tactic(auto, unfolding(crate::specs::TokenReading::first_piece))]
pub(super) fn first_piece(text: &[u8]) -> Option<(Token<'_>, usize)>
    ensures exact { option_map (λ first. (token_seen first.0, first.1)) result
        ≡ reading.first_piece text.now }
    ensures within { IfSome result (λ first. first.1 ≤ length text.now) }
{
    match text {
        [b'[' | b']' | b'{' | b'}', ..] => Some((executable_name(&text[..1]), 1)),
        [b'<', b'<', ..] | [b'>', b'>', ..] => Some((executable_name(&text[..2]), 2)),
        [b'<' | b'(', ..] => string_piece(text),
        [b'/', rest @ ..] => Some(literal_name(rest)),
        [first, ..] if is_regular(*first) => Some(run_piece(text)),
        _ => None,
    }
}

/// The string that a text begins with, and how many bytes it takes.
#[tactic(auto, using(crate::proofs::StringLengths::front_is_string))]
fn string_piece(text: &[u8]) -> Option<(Token<'_>, usize)>
    ensures exact { option_map (λ first. (token_seen first.0, first.1)) result
        ≡ reading.string_of text.now (reading.string_len text.now) }
    ensures within { IfSome result (λ first. first.1 ≤ length text.now) }
{
    let len = string_len(text)?;
    Some((Token::String(StringToken { raw: &text[..len] }), len))
}

/// The name after a slash, and how many bytes both take.
fn literal_name(text: &[u8]) -> (Token<'_>, usize)
    ensures token { token_seen result.0
        ≡ tokens.Name true (take (prefix_len is_regular text.now) text.now) }
    ensures len { result.1 ≡ 1 + prefix_len is_regular text.now }
    ensures within { result.1 ≤ 1 + length text.now }
{
    let len = run_len(text);
    let name = Name {
        literal: true,
        bytes: &text[..len],
    };
    (Token::Name(name), 1 + len)
}

/// The number or the name of the run of regular bytes at the start of a text, and the length of the run in
/// bytes.
fn run_piece(text: &[u8]) -> (Token<'_>, usize)
    ensures token { token_seen result.0
        ≡ name_or_number (take (prefix_len is_regular text.now) text.now) }
    ensures len { result.1 ≡ prefix_len is_regular text.now }
    ensures within { result.1 ≤ length text.now }
{
    let run = &text[..run_len(text)];
    match number_of(run) {
        Some(number) => (Token::Number(number), run.len()),
        None => (executable_name(run), run.len()),
    }
}

fn executable_name(bytes: &[u8]) -> Token<'_>
    ensures { token_seen result ≡ tokens.Name false bytes.now }
{
    Token::Name(Name {
        literal: false,
        bytes,
    })
}

/// The length of one white byte and a string such as `<8140>`, in bytes.
pub(super) const TWO_BYTES_LEN: usize = 7;

/// The big-endian number of a string of two bytes, such as `<8140>`, at the start of a text after one white
/// byte.
#[inline(always)]
pub(super) fn two_bytes(text: &[u8]) -> Option<u16>
    ensures front { result ≡ spaced_two_bytes text.now }
    ensures within { IfSome result (λ _. 7 ≤ length text.now) }
{
    match text {
        [blank, b'<', _, _, _, _, b'>', ..] if is_white(*blank) => {
            Some(hex_number(&text[2..6])? as u16)
        }
        _ => None,
    }
}

/// The big-endian numbers of two strings of two bytes at the start of a text, each after one white byte.
#[inline(always)]
pub(super) fn two_strings(text: &[u8]) -> Option<(u16, u16)>
    ensures first { IfSome result (λ found. spaced_two_bytes text.now ≡ Some found.0) }
    ensures second { IfSome result (λ found. spaced_two_bytes (drop 7 text.now) ≡ Some found.1) }
    ensures within { IfSome result (λ _. 14 ≤ length text.now) }
{
    if text.len() < 2 * TWO_BYTES_LEN || text[2 * TWO_BYTES_LEN - 1] != b'>' {
        return None;
    }
    let first = two_bytes(text)?;
    let second = two_bytes(&text[TWO_BYTES_LEN..])?;
    Some((first, second))
}

/// The least number of bytes in which `two_bytes_and_decimal` looks for a string and a number.
const TWO_BYTES_AND_DECIMAL_LEN: usize = 14;

/// The number of a string of two bytes, the decimal number after the string, and the number of bytes that
/// the decimal number takes with the white bytes before it. The string stands at the start of the text
/// after one white byte.
#[inline(always)]
pub(super) fn two_bytes_and_decimal(text: &[u8]) -> Option<(u16, u64, usize)>
    ensures string { IfSome result (λ first. spaced_two_bytes text.now ≡ Some first.0) }
    ensures decimal { IfSome result (λ first.
        FirstToken (drop 7 text.now) (tokens.Numeral (Integer (pos first.1))) first.2) }
    ensures few { IfSome result (λ first. first.1 < 2 ^ 32) }
    ensures within { IfSome result (λ first. 7 + first.2 ≤ length text.now) }
{
    if text.len() < TWO_BYTES_AND_DECIMAL_LEN {
        return None;
    }
    let number = two_bytes(text)?;
    let (decimal, len) = plain_decimal(&text[TWO_BYTES_LEN..])?;
    Some((number, decimal, len))
}

/// The least number of bytes in which `two_strings_and_decimal` looks for two strings and a number.
const TWO_STRINGS_AND_DECIMAL_LEN: usize = TWO_BYTES_LEN + TWO_BYTES_AND_DECIMAL_LEN;

/// The numbers of two strings of two bytes, the decimal number after the strings, and the number of bytes
/// that the decimal number takes with the white bytes before it. The strings stand at the start of the
/// text, each after one white byte.
#[inline(always)]
pub(super) fn two_strings_and_decimal(text: &[u8]) -> Option<(u16, u16, u64, usize)>
    ensures first { IfSome result (λ found. spaced_two_bytes text.now ≡ Some found.0) }
    ensures second { IfSome result (λ found. spaced_two_bytes (drop 7 text.now) ≡ Some found.1) }
    ensures decimal { IfSome result (λ found.
        FirstToken (drop 7 (drop 7 text.now)) (tokens.Numeral (Integer (pos found.2))) found.3) }
    ensures few { IfSome result (λ found. found.2 < 2 ^ 32) }
    ensures within { IfSome result (λ found. 14 + found.3 ≤ length text.now) }
{
    if text.len() < TWO_STRINGS_AND_DECIMAL_LEN {
        return None;
    }
    let first = two_bytes(text)?;
    let (second, decimal, len) = two_bytes_and_decimal(&text[TWO_BYTES_LEN..])?;
    Some((first, second, decimal, len))
}

/// The number of bytes of a string of one to four pairs of digits, and the big-endian number of these
/// bytes. The string stands at the start of the text after one white byte.
#[inline(always)]
pub(super) fn spaced_pairs(text: &[u8]) -> Option<(u8, u32)>
    ensures front { result ≡ spaced_pairs text.now }
    ensures few { IfSome result (λ first. (1 ≤ first.0) × (first.0 ≤ 4)) }
    ensures within { IfSome result (λ first. 3 + 2 * first.0 ≤ length text.now) }
{
    match text {
        [blank, b'<', rest @ ..] if is_white(*blank) => short_pairs(rest),
        _ => None,
    }
}

/// The answer of `spaced_pairs`, from the bytes after the `<`.
#[inline(always)]
fn short_pairs(text: &[u8]) -> Option<(u8, u32)>
    ensures exact { result ≡ short_pairs text.now }
    ensures few { IfSome result (λ first. (1 ≤ first.0) × (first.0 ≤ 4)) }
    ensures within { IfSome result (λ first. 2 * first.0 < length text.now) }
{
    if let Some(number) = closed_number(text, 2) {
        Some((1, number))
    } else if let Some(number) = closed_number(text, 4) {
        Some((2, number))
    } else if let Some(number) = closed_number(text, 6) {
        Some((3, number))
    } else {
        Some((4, closed_number(text, 8)?))
    }
}

/// The number of bytes of a string of six or eight pairs of digits, the number of the first four bytes, and
/// the number of the other bytes. The string stands at the start of the text after one white byte.
#[inline(always)]
pub(super) fn spaced_parts(text: &[u8]) -> Option<(u8, u32, u32)>
    ensures front { result ≡ spaced_parts text.now }
    ensures few { IfSome result (λ first. (6 ≤ first.0) × (first.0 ≤ 8) × (first.0 % 2 ≡ 0)) }
    ensures within { IfSome result (λ first. 3 + 2 * first.0 ≤ length text.now) }
{
    match text {
        [blank, b'<', rest @ ..] if is_white(*blank) => {
            if let Some(found) = closed_parts(rest, 2) {
                Some(found)
            } else {
                closed_parts(rest, 4)
            }
        }
        _ => None,
    }
}

/// The number of bytes of four pairs of digits and `count` more, the number of the first four bytes, and
/// the number of the other bytes, if a `>` follows the digits.
#[inline(always)]
fn closed_parts(text: &[u8], count: u8) -> Option<(u8, u32, u32)>
    requires some { 1 ≤ count }
    requires few { count ≤ 4 }
    ensures exact { result ≡ closed_parts count text.now }
    ensures within { IfSome result (λ first. (first.0 ≡ 4 + count) × (2 * first.0 < length text.now)) }
{
    if text.len() < 8 {
        return None;
    }
    let high = hex_number(&text[..8])?;
    let low = closed_number(&text[8..], 2 * usize::from(count))?;
    Some((4 + count, high, low))
}

/// The number that the first `len` bytes of a text write, if they are digits and a `>` follows them.
#[inline(always)]
fn closed_number(text: &[u8], len: usize) -> Option<u32>
    requires some { 1 ≤ len }
    requires few { len ≤ 8 }
    requires pairs { len % 2 ≡ 0 }
    ensures exact { result ≡ closed_number len text.now }
    ensures within { IfSome result (λ _. len < length text.now) }
{
    if text.len() > len && text[len] == b'>' {
        hex_number(&text[..len])
    } else {
        None
    }
}
