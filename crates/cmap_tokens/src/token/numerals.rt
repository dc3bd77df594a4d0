//! The numbers that runs of regular bytes spell.

ghost use Rattle.std.specs.Prelude.{◌≡◌, ℕ, ◌+◌, ◌-◌, ◌<◌, ◌≤◌, ◌^◌, ◌%◌, false, List, ◌∷◌, ◌++◌, min, length, get_or, drop, take, true, IfSome, IsSome, IsTrue, MatchOption, Some, option_map, pos, neg_ℤ, if◌then◌else◌};
ghost use Rattle.std.specs.List.{prefix_len};
ghost use Rattle.cmap_tokens.specs.Bytes as bytes;
ghost use Rattle.cmap_tokens.specs.Numbers as numbers;
ghost use Rattle.cmap_tokens.specs.Scanner.{FirstToken, spaced_decimal};
ghost use Rattle.cmap_tokens.specs.Tokens.{Numeral};
ghost use Rattle.cmap_tokens.specs.NumberSeen.{number_seen};
ghost use Rattle.cmap_tokens.specs.TokenReading as reading;

use super::Number;
use super::byte_class::{
    NO_DIGIT, begins_number, decimal_pair, decimal_weight, digit_value, hex_pair, is_regular,
    is_white,
};

/// The decimal number that a text begins with after one white byte, and how many digits it has.
#[tactic(auto, using(std::proofs::lemmas::List::take_rest))]
pub(super) fn blank_decimal(text: &[u8]) -> Option<(u64, usize)>
    ensures front { result ≡ spaced_decimal text.now }
    ensures within { IfSome result (λ first. 1 + first.1 ≤ length text.now) }
{
    match text {
        [blank, rest @ ..] if is_white(*blank) => decimal(rest),
        _ => None,
    }
}

/// The decimal number that a text begins with after two white bytes, and how many digits it has.
pub(super) fn padded_decimal(text: &[u8]) -> Option<(u64, usize)>
    ensures blank { IfSome result (λ _. bytes.is_white (get_or text.now 0 0) ≡ true) }
    ensures front { IfSome result (λ first. spaced_decimal (drop 1 text.now) ≡ Some first) }
    ensures within { IfSome result (λ first. 2 + first.1 ≤ length text.now) }
{
    match text {
        [blank, ..] if is_white(*blank) => blank_decimal(&text[1..]),
        _ => None,
    }
}

/// The decimal number of three to five digits at the start of a text, and the number of bytes that it takes
/// with the white bytes before it. One white byte stands before the number, or two before three digits, and
/// one white byte after it. If few bytes are left in the text, the number may not be found.
#[inline(always)]
pub(super) fn plain_decimal(text: &[u8]) -> Option<(u64, usize)>
    ensures token { IfSome result (λ first. FirstToken text.now (Numeral (numbers.Integer (pos first.0))) first.1) }
    ensures few { IfSome result (λ first. first.0 < 2 ^ 32) }
    ensures within { IfSome result (λ first. first.1 ≤ length text.now) }
{
    if let Some((number, len)) = short_decimal(text) {
        return Some((number, 1 + len));
    }
    other_decimal(text)
}

/// The answer of `plain_decimal` for a number of three digits. Few numbers have three digits.
#[inline(always)]
fn other_decimal(text: &[u8]) -> Option<(u64, usize)>
    ensures token { IfSome result (λ first. FirstToken text.now (Numeral (numbers.Integer (pos first.0))) first.1) }
    ensures few { IfSome result (λ first. first.0 < 2 ^ 32) }
    ensures within { IfSome result (λ first. first.1 ≤ length text.now) }
{
    match text {
        [first, second, ..] if is_white(*first) && is_white(*second) => {
            let (number, len) = three_digits(&text[1..])?;
            Some((number, 1 + (1 + len)))
        }
        _ => {
            let (number, len) = three_digits(text)?;
            Some((number, 1 + len))
        }
    }
}

/// The least number of bytes in which `three_digits` looks for a number.
const THREE_DIGITS_LEN: usize = 5;

/// The decimal number of three digits between two white bytes at the start of a text, and the number of its
/// digits.
#[cold]
#[inline(never)]
fn three_digits(text: &[u8]) -> Option<(u64, usize)>
    ensures front { IfSome result (λ first. spaced_decimal text.now ≡ Some first) }
    ensures few { IfSome result (λ first. first.0 < 2 ^ 32) }
    ensures within { IfSome result (λ first. 2 + first.1 ≤ length text.now) }
{
    if text.len() < THREE_DIGITS_LEN || !is_white(text[0]) || !is_white(text[4]) {
        return None;
    }
    let number = decimal_pair(text[1], text[2]) * 10 + decimal_weight(text[3]);
    if_digits(number, 3)
}

/// The least number of bytes in which `short_decimal` looks for a number.
const SHORT_LEN: usize = 7;

/// The decimal number of four or five digits between two white bytes at the start of a text, and the number
/// of its digits. `None` for any other text, and for a text of fewer than `SHORT_LEN` bytes.
#[inline(always)]
pub(super) fn short_decimal(text: &[u8]) -> Option<(u64, usize)>
    ensures front { IfSome result (λ first. spaced_decimal text.now ≡ Some first) }
    ensures few { IfSome result (λ first. first.0 < 2 ^ 32) }
    ensures within { IfSome result (λ first. 2 + first.1 ≤ length text.now) }
{
    if text.len() < SHORT_LEN || !is_white(text[0]) {
        return None;
    }
    let four = decimal_pair(text[1], text[2]) * 100 + decimal_pair(text[3], text[4]);
    if is_white(text[5]) {
        return if_digits(four, 4);
    }
    if is_white(text[6]) {
        return if_digits(four * 10 + decimal_weight(text[5]), 5);
    }
    None
}

/// A sum of weights of decimal digits as a number, and the number of the digits. `None` if a byte among
/// them is no digit.
#[inline(always)]
fn if_digits(number: u64, len: usize) -> Option<(u64, usize)>
    ensures { MatchOption result (2 ^ 32 ≤ number) (λ first. (first ≡ (number, len)) × (number < 2 ^ 32)) }
{
    if number < NO_DIGIT {
        Some((number, len))
    } else {
        None
    }
}

/// The number that one to 18 decimal digits at the start of a text write, and the number of the digits.
/// `None` if there are more digits, or if a regular byte or nothing follows the digits.
#[inline(always)]
fn decimal(text: &[u8]) -> Option<(u64, usize)>
    ensures front { result ≡ numbers.decimal_front text.now }
    ensures within { IfSome result (λ first. first.1 ≤ length text.now) }
{
    let (number, len) = leading_digits(text)?;
    if len == 0 || is_regular(text[len]) {
        return None;
    }
    Some((number, len))
}

/// Most numbers have fewer digits than this.
const FEW_DIGITS: usize = 8;

/// The greatest number of digits that `leading_digits` reads.
const MOST_DIGITS: usize = 18;

/// The number that the digits at the start of a text write, and the number of the digits. `None` if there
/// are more than 18 digits, or if nothing follows the digits.
#[inline(always)]
fn leading_digits(text: &[u8]) -> Option<(u64, usize)>
    ensures { result ≡ numbers.leading_decimal text.now }
{
    if text.len() >= FEW_DIGITS {
        if let Some(found) = ended_digits(&text[..FEW_DIGITS]) {
            return Some(found);
        }
    }
    ended_digits(&text[..text.len().min(MOST_DIGITS + 1)])
}

/// The number that the digits at the start of a text write, and the number of the digits. `None` if nothing
/// follows the digits.
#[inline(always)]
fn ended_digits(text: &[u8]) -> Option<(u64, usize)>
    requires { length text.now ≤ 19 }
    ensures { result ≡ reading.leading_digits text.now }
{
    let mut number: u64 = 0;
    for (i, byte) in text.iter().enumerate() {
        let digit = decimal_weight(*byte);
        if digit >= 10 {
            return Some((number, i));
        }
        number = number * 10 + digit;
    }
    None
}

/// The number that a run of regular bytes spells. The first byte of most runs shows that the run is a name.
pub(super) fn number_of(run: &[u8]) -> Option<Number>
    ensures { option_map number_seen result ≡ numbers.numeral run.now }
{
    match run {
        [first, ..] if begins_number(*first) => spelled_number(run),
        _ => None,
    }
}

/// The number that a run of regular bytes spells, by all bytes of the run.
#[tactic(auto, unfolding(crate::specs::Numbers::numeral))]
fn spelled_number(run: &[u8]) -> Option<Number>
    ensures { option_map number_seen result ≡ numbers.numeral run.now }
{
    if let Some(number) = integer_of(run) {
        Some(number)
    } else if let Some(number) = radix_integer_of(run) {
        Some(number)
    } else if is_real(run) {
        Some(Number::Real)
    } else {
        None
    }
}

/// `-17`, `+4`, `08`
#[tactic(auto, unfolding(crate::specs::Numbers::integer))]
fn integer_of(run: &[u8]) -> Option<Number>
    ensures { option_map number_seen result ≡ numbers.integer run.now }
{
    match run {
        [b'-', digits @ ..] => integer(true, 10, digits),
        [b'+', digits @ ..] => integer(false, 10, digits),
        digits => integer(false, 10, digits),
    }
}

/// `16#1F`: a base of one or two digits.
#[tactic(auto, unfolding(crate::specs::Numbers::radix_integer))]
fn radix_integer_of(run: &[u8]) -> Option<Number>
    ensures { option_map number_seen result ≡ numbers.radix_integer run.now }
{
    match run {
        [_, b'#', digits @ ..] => integer_in_base(&run[..1], digits),
        [_, _, b'#', digits @ ..] => integer_in_base(&run[..2], digits),
        _ => None,
    }
}

/// The integer that digits write in a base from 2 to 36.
#[tactic(auto, unfolding(crate::specs::Numbers::integer_in_base))]
fn integer_in_base(base: &[u8], digits: &[u8]) -> Option<Number>
    ensures { option_map number_seen result ≡ numbers.integer_in_base base.now digits.now }
{
    let base = digits_number(10, base)?;
    if base < 2 || base > 36 {
        return None;
    }
    integer(false, base, digits)
}

/// `4.5`, `-.5e3`, `1E9`: with a dot or an exponent.
#[tactic(auto, unfolding(crate::specs::Numbers::is_real))]
fn is_real(run: &[u8]) -> bool
    ensures { result ≡ numbers.is_real run.now }
{
    let unsigned = without_sign(run);
    let len = digits_len(10, unsigned);
    ends_real(len, &unsigned[len..])
}

/// Whether a text is the rest of a real after its first `len` digits.
#[tactic(auto, using(std::proofs::lemmas::List::take_rest))]
fn ends_real(len: usize, text: &[u8]) -> bool
    requires { len + length text.now < 2 ^ 64 }
    ensures { result ≡ numbers.ends_real len text.now }
{
    match text {
        [b'.', fraction @ ..] => {
            let fraction_len = digits_len(10, fraction);
            let exponent = &fraction[fraction_len..];
            len + fraction_len > 0 && (exponent.is_empty() || is_exponent(exponent))
        }
        _ => len > 0 && is_exponent(text),
    }
}

/// How many digits of a base a text begins with.
pub(super) fn digits_len(base: u8, text: &[u8]) -> usize
    ensures exact { result ≡ numbers.digits_len base text.now }
    ensures within { result ≤ length text.now }
{
    for (i, byte) in text.iter().enumerate() {
        if digit_value(*byte) >= base {
            return i;
        }
    }
    text.len()
}

/// `e5`, `E-12`
fn is_exponent(text: &[u8]) -> bool
    ensures { result ≡ numbers.is_exponent text.now }
{
    match text {
        [b'e' | b'E', rest @ ..] => digits_number(10, without_sign(rest)).is_some(),
        _ => false,
    }
}

fn without_sign(text: &[u8]) -> &[u8]
    ensures { result.now ≡ numbers.without_sign text.now }
{
    match text {
        [b'+' | b'-', rest @ ..] => rest,
        _ => text,
    }
}

/// The number that one or more digits of a base write, or `u64::MAX` if the number is larger.
pub(super) fn digits_number(base: u64, text: &[u8]) -> Option<u64>
    requires low { 2 ≤ base }
    requires high { base ≤ 36 }
    ensures { result ≡ option_map (λ n. min n (2 ^ 64 - 1)) (numbers.digits_value base text.now) }
{
    if text.is_empty() {
        return None;
    }
    let mut number: u64 = 0;
    for byte in text {
        let digit = u64::from(digit_value(*byte));
        if digit >= base {
            return None;
        }
        number = number.saturating_mul(base).saturating_add(digit);
    }
    Some(number)
}

/// The number that one to four pairs of hexadecimal digits write.
#[inline(always)]
pub(super) fn hex_number(digits: &[u8]) -> Option<u32>
    requires some { 1 ≤ length digits.now }
    requires few { length digits.now ≤ 8 }
    requires pairs { length digits.now % 2 ≡ 0 }
    ensures { result ≡ numbers.digits_value 16 digits.now }
{
    let mut number: u64 = 0;
    for i in 0..digits.len() / 2 {
        number = number * 256 + hex_pair(digits[2 * i], digits[2 * i + 1]);
    }
    if number < NO_DIGIT {
        Some(number as u32)
    } else {
        None
    }
}

/// The integer that digits of a base write after a sign.
fn integer(is_negative: bool, base: u64, digits: &[u8]) -> Option<Number>
    requires low { 2 ≤ base }
    requires high { base ≤ 36 }
    ensures { option_map number_seen result ≡ option_map
        (λ n. numbers.number_of (if is_negative then neg_ℤ (pos n) else pos n))
        (numbers.digits_value base digits.now) }
{
    let magnitude = digits_number(base, digits)?;
    Some(if magnitude <= i64::MAX as u64 {
        let value = magnitude as i64;
        Number::Integer(if is_negative { -value } else { value })
    } else if is_negative && magnitude == 1 << 63 {
        Number::Integer(i64::MIN)
    } else {
        Number::Real
    })
}
