//! The classes of bytes: white, delimiter, regular, digit.

ghost use Rattle.std.specs.Prelude.{◌≡◌, ◌+◌, ◌*◌};
ghost use Rattle.std.specs.Char.{digit_value};
ghost use Rattle.cmap_tokens.specs.Bytes as bytes;
ghost use Rattle.cmap_tokens.specs.TokenReading as reading;

pub(super) const BACKSPACE: u8 = 8;

const WHITE: u8 = 1;

const REGULAR: u8 = 2;

const BEGINS_NUMBER: u8 = 4;

/// The sum of the classes of each byte. A delimiter has none.
static CLASSES: [u8; 256] = [
    1, 2, 2, 2, 2, 2, 2, 2, 2, 1, 1, 2, 1, 1, 2, 2, 2, 2, 2, 2, 2, 2, 2, 2, 2, 2, 2, 2, 2, 2, 2, 2,
    1, 2, 2, 2, 2, 0, 2, 2, 0, 0, 2, 6, 2, 6, 6, 0, 6, 6, 6, 6, 6, 6, 6, 6, 6, 6, 2, 2, 0, 2, 0, 2,
    2, 2, 2, 2, 2, 2, 2, 2, 2, 2, 2, 2, 2, 2, 2, 2, 2, 2, 2, 2, 2, 2, 2, 2, 2, 2, 2, 0, 2, 0, 2, 2,
    2, 2, 2, 2, 2, 2, 2, 2, 2, 2, 2, 2, 2, 2, 2, 2, 2, 2, 2, 2, 2, 2, 2, 2, 2, 2, 2, 0, 2, 0, 2, 2,
    2, 2, 2, 2, 2, 2, 2, 2, 2, 2, 2, 2, 2, 2, 2, 2, 2, 2, 2, 2, 2, 2, 2, 2, 2, 2, 2, 2, 2, 2, 2, 2,
    2, 2, 2, 2, 2, 2, 2, 2, 2, 2, 2, 2, 2, 2, 2, 2, 2, 2, 2, 2, 2, 2, 2, 2, 2, 2, 2, 2, 2, 2, 2, 2,
    2, 2, 2, 2, 2, 2, 2, 2, 2, 2, 2, 2, 2, 2, 2, 2, 2, 2, 2, 2, 2, 2, 2, 2, 2, 2, 2, 2, 2, 2, 2, 2,
    2, 2, 2, 2, 2, 2, 2, 2, 2, 2, 2, 2, 2, 2, 2, 2, 2, 2, 2, 2, 2, 2, 2, 2, 2, 2, 2, 2, 2, 2, 2, 2,
];

/// The value of each byte as a digit, and 36 for any other byte.
static DIGITS: [u8; 256] = [
    36, 36, 36, 36, 36, 36, 36, 36, 36, 36, 36, 36, 36, 36, 36, 36, 36, 36, 36, 36, 36, 36, 36, 36,
    36, 36, 36, 36, 36, 36, 36, 36, 36, 36, 36, 36, 36, 36, 36, 36, 36, 36, 36, 36, 36, 36, 36, 36,
    0, 1, 2, 3, 4, 5, 6, 7, 8, 9, 36, 36, 36, 36, 36, 36, 36, 10, 11, 12, 13, 14, 15, 16, 17, 18,
    19, 20, 21, 22, 23, 24, 25, 26, 27, 28, 29, 30, 31, 32, 33, 34, 35, 36, 36, 36, 36, 36, 36, 10,
    11, 12, 13, 14, 15, 16, 17, 18, 19, 20, 21, 22, 23, 24, 25, 26, 27, 28, 29, 30, 31, 32, 33, 34,
    35, 36, 36, 36, 36, 36, 36, 36, 36, 36, 36, 36, 36, 36, 36, 36, 36, 36, 36, 36, 36, 36, 36, 36,
    36, 36, 36, 36, 36, 36, 36, 36, 36, 36, 36, 36, 36, 36, 36, 36, 36, 36, 36, 36, 36, 36, 36, 36,
    36, 36, 36, 36, 36, 36, 36, 36, 36, 36, 36, 36, 36, 36, 36, 36, 36, 36, 36, 36, 36, 36, 36, 36,
    36, 36, 36, 36, 36, 36, 36, 36, 36, 36, 36, 36, 36, 36, 36, 36, 36, 36, 36, 36, 36, 36, 36, 36,
    36, 36, 36, 36, 36, 36, 36, 36, 36, 36, 36, 36, 36, 36, 36, 36, 36, 36, 36, 36, 36, 36, 36, 36,
    36, 36, 36, 36, 36, 36, 36, 36, 36, 36, 36, 36, 36, 36,
];

/// The weight of a byte that is no digit: more than any number of eight digits.
pub(super) const NO_DIGIT: u64 = 0x1_0000_0000;

/// The weight of each byte as a hexadecimal digit.
static HEX_DIGITS: [u64; 256] = [
    NO_DIGIT, NO_DIGIT, NO_DIGIT, NO_DIGIT, NO_DIGIT, NO_DIGIT, NO_DIGIT, NO_DIGIT, NO_DIGIT,
    NO_DIGIT, NO_DIGIT, NO_DIGIT, NO_DIGIT, NO_DIGIT, NO_DIGIT, NO_DIGIT, NO_DIGIT, NO_DIGIT,
    NO_DIGIT, NO_DIGIT, NO_DIGIT, NO_DIGIT, NO_DIGIT, NO_DIGIT, NO_DIGIT, NO_DIGIT, NO_DIGIT,
    NO_DIGIT, NO_DIGIT, NO_DIGIT, NO_DIGIT, NO_DIGIT, NO_DIGIT, NO_DIGIT, NO_DIGIT, NO_DIGIT,
    NO_DIGIT, NO_DIGIT, NO_DIGIT, NO_DIGIT, NO_DIGIT, NO_DIGIT, NO_DIGIT, NO_DIGIT, NO_DIGIT,
    NO_DIGIT, NO_DIGIT, NO_DIGIT, 0, 1, 2, 3, 4, 5, 6, 7, 8, 9, NO_DIGIT, NO_DIGIT, NO_DIGIT,
    NO_DIGIT, NO_DIGIT, NO_DIGIT, NO_DIGIT, 10, 11, 12, 13, 14, 15, NO_DIGIT, NO_DIGIT, NO_DIGIT,
    NO_DIGIT, NO_DIGIT, NO_DIGIT, NO_DIGIT, NO_DIGIT, NO_DIGIT, NO_DIGIT, NO_DIGIT, NO_DIGIT,
    NO_DIGIT, NO_DIGIT, NO_DIGIT, NO_DIGIT, NO_DIGIT, NO_DIGIT, NO_DIGIT, NO_DIGIT, NO_DIGIT,
    NO_DIGIT, NO_DIGIT, NO_DIGIT, NO_DIGIT, NO_DIGIT, 10, 11, 12, 13, 14, 15, NO_DIGIT, NO_DIGIT,
    NO_DIGIT, NO_DIGIT, NO_DIGIT, NO_DIGIT, NO_DIGIT, NO_DIGIT, NO_DIGIT, NO_DIGIT, NO_DIGIT,
    NO_DIGIT, NO_DIGIT, NO_DIGIT, NO_DIGIT, NO_DIGIT, NO_DIGIT, NO_DIGIT, NO_DIGIT, NO_DIGIT,
    NO_DIGIT, NO_DIGIT, NO_DIGIT, NO_DIGIT, NO_DIGIT, NO_DIGIT, NO_DIGIT, NO_DIGIT, NO_DIGIT,
    NO_DIGIT, NO_DIGIT, NO_DIGIT, NO_DIGIT, NO_DIGIT, NO_DIGIT, NO_DIGIT, NO_DIGIT, NO_DIGIT,
    NO_DIGIT, NO_DIGIT, NO_DIGIT, NO_DIGIT, NO_DIGIT, NO_DIGIT, NO_DIGIT, NO_DIGIT, NO_DIGIT,
    NO_DIGIT, NO_DIGIT, NO_DIGIT, NO_DIGIT, NO_DIGIT, NO_DIGIT, NO_DIGIT, NO_DIGIT, NO_DIGIT,
    NO_DIGIT, NO_DIGIT, NO_DIGIT, NO_DIGIT, NO_DIGIT, NO_DIGIT, NO_DIGIT, NO_DIGIT, NO_DIGIT,
    NO_DIGIT, NO_DIGIT, NO_DIGIT, NO_DIGIT, NO_DIGIT, NO_DIGIT, NO_DIGIT, NO_DIGIT, NO_DIGIT,
    NO_DIGIT, NO_DIGIT, NO_DIGIT, NO_DIGIT, NO_DIGIT, NO_DIGIT, NO_DIGIT, NO_DIGIT, NO_DIGIT,
    NO_DIGIT, NO_DIGIT, NO_DIGIT, NO_DIGIT, NO_DIGIT, NO_DIGIT, NO_DIGIT, NO_DIGIT, NO_DIGIT,
    NO_DIGIT, NO_DIGIT, NO_DIGIT, NO_DIGIT, NO_DIGIT, NO_DIGIT, NO_DIGIT, NO_DIGIT, NO_DIGIT,
    NO_DIGIT, NO_DIGIT, NO_DIGIT, NO_DIGIT, NO_DIGIT, NO_DIGIT, NO_DIGIT, NO_DIGIT, NO_DIGIT,
    NO_DIGIT, NO_DIGIT, NO_DIGIT, NO_DIGIT, NO_DIGIT, NO_DIGIT, NO_DIGIT, NO_DIGIT, NO_DIGIT,
    NO_DIGIT, NO_DIGIT, NO_DIGIT, NO_DIGIT, NO_DIGIT, NO_DIGIT, NO_DIGIT, NO_DIGIT, NO_DIGIT,
    NO_DIGIT, NO_DIGIT, NO_DIGIT, NO_DIGIT, NO_DIGIT, NO_DIGIT, NO_DIGIT, NO_DIGIT, NO_DIGIT,
    NO_DIGIT, NO_DIGIT, NO_DIGIT, NO_DIGIT, NO_DIGIT, NO_DIGIT, NO_DIGIT, NO_DIGIT, NO_DIGIT,
    NO_DIGIT, NO_DIGIT, NO_DIGIT, NO_DIGIT, NO_DIGIT, NO_DIGIT, NO_DIGIT,
];

/// The weight of each byte as a decimal digit.
static DECIMAL_DIGITS: [u64; 256] = [
    NO_DIGIT, NO_DIGIT, NO_DIGIT, NO_DIGIT, NO_DIGIT, NO_DIGIT, NO_DIGIT, NO_DIGIT, NO_DIGIT,
    NO_DIGIT, NO_DIGIT, NO_DIGIT, NO_DIGIT, NO_DIGIT, NO_DIGIT, NO_DIGIT, NO_DIGIT, NO_DIGIT,
    NO_DIGIT, NO_DIGIT, NO_DIGIT, NO_DIGIT, NO_DIGIT, NO_DIGIT, NO_DIGIT, NO_DIGIT, NO_DIGIT,
    NO_DIGIT, NO_DIGIT, NO_DIGIT, NO_DIGIT, NO_DIGIT, NO_DIGIT, NO_DIGIT, NO_DIGIT, NO_DIGIT,
    NO_DIGIT, NO_DIGIT, NO_DIGIT, NO_DIGIT, NO_DIGIT, NO_DIGIT, NO_DIGIT, NO_DIGIT, NO_DIGIT,
    NO_DIGIT, NO_DIGIT, NO_DIGIT, 0, 1, 2, 3, 4, 5, 6, 7, 8, 9, NO_DIGIT, NO_DIGIT, NO_DIGIT,
    NO_DIGIT, NO_DIGIT, NO_DIGIT, NO_DIGIT, NO_DIGIT, NO_DIGIT, NO_DIGIT, NO_DIGIT, NO_DIGIT,
    NO_DIGIT, NO_DIGIT, NO_DIGIT, NO_DIGIT, NO_DIGIT, NO_DIGIT, NO_DIGIT, NO_DIGIT, NO_DIGIT,
    NO_DIGIT, NO_DIGIT, NO_DIGIT, NO_DIGIT, NO_DIGIT, NO_DIGIT, NO_DIGIT, NO_DIGIT, NO_DIGIT,
    NO_DIGIT, NO_DIGIT, NO_DIGIT, NO_DIGIT, NO_DIGIT, NO_DIGIT, NO_DIGIT, NO_DIGIT, NO_DIGIT,
    NO_DIGIT, NO_DIGIT, NO_DIGIT, NO_DIGIT, NO_DIGIT, NO_DIGIT, NO_DIGIT, NO_DIGIT, NO_DIGIT,
    NO_DIGIT, NO_DIGIT, NO_DIGIT, NO_DIGIT, NO_DIGIT, NO_DIGIT, NO_DIGIT, NO_DIGIT, NO_DIGIT,
    NO_DIGIT, NO_DIGIT, NO_DIGIT, NO_DIGIT, NO_DIGIT, NO_DIGIT, NO_DIGIT, NO_DIGIT, NO_DIGIT,
    NO_DIGIT, NO_DIGIT, NO_DIGIT, NO_DIGIT, NO_DIGIT, NO_DIGIT, NO_DIGIT, NO_DIGIT, NO_DIGIT,
    NO_DIGIT, NO_DIGIT, NO_DIGIT, NO_DIGIT, NO_DIGIT, NO_DIGIT, NO_DIGIT, NO_DIGIT, NO_DIGIT,
    NO_DIGIT, NO_DIGIT, NO_DIGIT, NO_DIGIT, NO_DIGIT, NO_DIGIT, NO_DIGIT, NO_DIGIT, NO_DIGIT,
    NO_DIGIT, NO_DIGIT, NO_DIGIT, NO_DIGIT, NO_DIGIT, NO_DIGIT, NO_DIGIT, NO_DIGIT, NO_DIGIT,
    NO_DIGIT, NO_DIGIT, NO_DIGIT, NO_DIGIT, NO_DIGIT, NO_DIGIT, NO_DIGIT, NO_DIGIT, NO_DIGIT,
    NO_DIGIT, NO_DIGIT, NO_DIGIT, NO_DIGIT, NO_DIGIT, NO_DIGIT, NO_DIGIT, NO_DIGIT, NO_DIGIT,
    NO_DIGIT, NO_DIGIT, NO_DIGIT, NO_DIGIT, NO_DIGIT, NO_DIGIT, NO_DIGIT, NO_DIGIT, NO_DIGIT,
    NO_DIGIT, NO_DIGIT, NO_DIGIT, NO_DIGIT, NO_DIGIT, NO_DIGIT, NO_DIGIT, NO_DIGIT, NO_DIGIT,
    NO_DIGIT, NO_DIGIT, NO_DIGIT, NO_DIGIT, NO_DIGIT, NO_DIGIT, NO_DIGIT, NO_DIGIT, NO_DIGIT,
    NO_DIGIT, NO_DIGIT, NO_DIGIT, NO_DIGIT, NO_DIGIT, NO_DIGIT, NO_DIGIT, NO_DIGIT, NO_DIGIT,
    NO_DIGIT, NO_DIGIT, NO_DIGIT, NO_DIGIT, NO_DIGIT, NO_DIGIT, NO_DIGIT, NO_DIGIT, NO_DIGIT,
    NO_DIGIT, NO_DIGIT, NO_DIGIT, NO_DIGIT, NO_DIGIT, NO_DIGIT, NO_DIGIT, NO_DIGIT, NO_DIGIT,
    NO_DIGIT, NO_DIGIT, NO_DIGIT, NO_DIGIT, NO_DIGIT, NO_DIGIT, NO_DIGIT, NO_DIGIT, NO_DIGIT,
    NO_DIGIT, NO_DIGIT, NO_DIGIT, NO_DIGIT, NO_DIGIT, NO_DIGIT, NO_DIGIT, NO_DIGIT, NO_DIGIT,
    NO_DIGIT, NO_DIGIT, NO_DIGIT, NO_DIGIT, NO_DIGIT, NO_DIGIT,
];

/// The weight of a byte that is no digit, as the first of two hexadecimal digits.
const NO_HIGH: u64 = 0x10_0000_0000;

/// The weight of each byte as the first of two hexadecimal digits.
static HIGH_HEX_DIGITS: [u64; 256] = [
    NO_HIGH, NO_HIGH, NO_HIGH, NO_HIGH, NO_HIGH, NO_HIGH, NO_HIGH, NO_HIGH, NO_HIGH, NO_HIGH,
    NO_HIGH, NO_HIGH, NO_HIGH, NO_HIGH, NO_HIGH, NO_HIGH, NO_HIGH, NO_HIGH, NO_HIGH, NO_HIGH,
    NO_HIGH, NO_HIGH, NO_HIGH, NO_HIGH, NO_HIGH, NO_HIGH, NO_HIGH, NO_HIGH, NO_HIGH, NO_HIGH,
    NO_HIGH, NO_HIGH, NO_HIGH, NO_HIGH, NO_HIGH, NO_HIGH, NO_HIGH, NO_HIGH, NO_HIGH, NO_HIGH,
    NO_HIGH, NO_HIGH, NO_HIGH, NO_HIGH, NO_HIGH, NO_HIGH, NO_HIGH, NO_HIGH, 0, 16, 32, 48, 64, 80,
    96, 112, 128, 144, NO_HIGH, NO_HIGH, NO_HIGH, NO_HIGH, NO_HIGH, NO_HIGH, NO_HIGH, 160, 176,
    192, 208, 224, 240, NO_HIGH, NO_HIGH, NO_HIGH, NO_HIGH, NO_HIGH, NO_HIGH, NO_HIGH, NO_HIGH,
    NO_HIGH, NO_HIGH, NO_HIGH, NO_HIGH, NO_HIGH, NO_HIGH, NO_HIGH, NO_HIGH, NO_HIGH, NO_HIGH,
    NO_HIGH, NO_HIGH, NO_HIGH, NO_HIGH, NO_HIGH, NO_HIGH, NO_HIGH, NO_HIGH, 160, 176, 192, 208,
    224, 240, NO_HIGH, NO_HIGH, NO_HIGH, NO_HIGH, NO_HIGH, NO_HIGH, NO_HIGH, NO_HIGH, NO_HIGH,
    NO_HIGH, NO_HIGH, NO_HIGH, NO_HIGH, NO_HIGH, NO_HIGH, NO_HIGH, NO_HIGH, NO_HIGH, NO_HIGH,
    NO_HIGH, NO_HIGH, NO_HIGH, NO_HIGH, NO_HIGH, NO_HIGH, NO_HIGH, NO_HIGH, NO_HIGH, NO_HIGH,
    NO_HIGH, NO_HIGH, NO_HIGH, NO_HIGH, NO_HIGH, NO_HIGH, NO_HIGH, NO_HIGH, NO_HIGH, NO_HIGH,
    NO_HIGH, NO_HIGH, NO_HIGH, NO_HIGH, NO_HIGH, NO_HIGH, NO_HIGH, NO_HIGH, NO_HIGH, NO_HIGH,
    NO_HIGH, NO_HIGH, NO_HIGH, NO_HIGH, NO_HIGH, NO_HIGH, NO_HIGH, NO_HIGH, NO_HIGH, NO_HIGH,
    NO_HIGH, NO_HIGH, NO_HIGH, NO_HIGH, NO_HIGH, NO_HIGH, NO_HIGH, NO_HIGH, NO_HIGH, NO_HIGH,
    NO_HIGH, NO_HIGH, NO_HIGH, NO_HIGH, NO_HIGH, NO_HIGH, NO_HIGH, NO_HIGH, NO_HIGH, NO_HIGH,
    NO_HIGH, NO_HIGH, NO_HIGH, NO_HIGH, NO_HIGH, NO_HIGH, NO_HIGH, NO_HIGH, NO_HIGH, NO_HIGH,
    NO_HIGH, NO_HIGH, NO_HIGH, NO_HIGH, NO_HIGH, NO_HIGH, NO_HIGH, NO_HIGH, NO_HIGH, NO_HIGH,
    NO_HIGH, NO_HIGH, NO_HIGH, NO_HIGH, NO_HIGH, NO_HIGH, NO_HIGH, NO_HIGH, NO_HIGH, NO_HIGH,
    NO_HIGH, NO_HIGH, NO_HIGH, NO_HIGH, NO_HIGH, NO_HIGH, NO_HIGH, NO_HIGH, NO_HIGH, NO_HIGH,
    NO_HIGH, NO_HIGH, NO_HIGH, NO_HIGH, NO_HIGH, NO_HIGH, NO_HIGH, NO_HIGH, NO_HIGH, NO_HIGH,
    NO_HIGH, NO_HIGH, NO_HIGH, NO_HIGH, NO_HIGH, NO_HIGH, NO_HIGH, NO_HIGH, NO_HIGH, NO_HIGH,
    NO_HIGH, NO_HIGH, NO_HIGH, NO_HIGH, NO_HIGH, NO_HIGH, NO_HIGH, NO_HIGH, NO_HIGH, NO_HIGH,
    NO_HIGH, NO_HIGH, NO_HIGH, NO_HIGH,
];

/// The weight of a byte that is no digit, as the first of two decimal digits.
const NO_TEN: u64 = 0xA_0000_0000;

/// The weight of each byte as the first of two decimal digits.
static DECIMAL_TENS: [u64; 256] = [
    NO_TEN, NO_TEN, NO_TEN, NO_TEN, NO_TEN, NO_TEN, NO_TEN, NO_TEN, NO_TEN, NO_TEN, NO_TEN, NO_TEN,
    NO_TEN, NO_TEN, NO_TEN, NO_TEN, NO_TEN, NO_TEN, NO_TEN, NO_TEN, NO_TEN, NO_TEN, NO_TEN, NO_TEN,
    NO_TEN, NO_TEN, NO_TEN, NO_TEN, NO_TEN, NO_TEN, NO_TEN, NO_TEN, NO_TEN, NO_TEN, NO_TEN, NO_TEN,
    NO_TEN, NO_TEN, NO_TEN, NO_TEN, NO_TEN, NO_TEN, NO_TEN, NO_TEN, NO_TEN, NO_TEN, NO_TEN, NO_TEN,
    0, 10, 20, 30, 40, 50, 60, 70, 80, 90, NO_TEN, NO_TEN, NO_TEN, NO_TEN, NO_TEN, NO_TEN, NO_TEN,
    NO_TEN, NO_TEN, NO_TEN, NO_TEN, NO_TEN, NO_TEN, NO_TEN, NO_TEN, NO_TEN, NO_TEN, NO_TEN, NO_TEN,
    NO_TEN, NO_TEN, NO_TEN, NO_TEN, NO_TEN, NO_TEN, NO_TEN, NO_TEN, NO_TEN, NO_TEN, NO_TEN, NO_TEN,
    NO_TEN, NO_TEN, NO_TEN, NO_TEN, NO_TEN, NO_TEN, NO_TEN, NO_TEN, NO_TEN, NO_TEN, NO_TEN, NO_TEN,
    NO_TEN, NO_TEN, NO_TEN, NO_TEN, NO_TEN, NO_TEN, NO_TEN, NO_TEN, NO_TEN, NO_TEN, NO_TEN, NO_TEN,
    NO_TEN, NO_TEN, NO_TEN, NO_TEN, NO_TEN, NO_TEN, NO_TEN, NO_TEN, NO_TEN, NO_TEN, NO_TEN, NO_TEN,
    NO_TEN, NO_TEN, NO_TEN, NO_TEN, NO_TEN, NO_TEN, NO_TEN, NO_TEN, NO_TEN, NO_TEN, NO_TEN, NO_TEN,
    NO_TEN, NO_TEN, NO_TEN, NO_TEN, NO_TEN, NO_TEN, NO_TEN, NO_TEN, NO_TEN, NO_TEN, NO_TEN, NO_TEN,
    NO_TEN, NO_TEN, NO_TEN, NO_TEN, NO_TEN, NO_TEN, NO_TEN, NO_TEN, NO_TEN, NO_TEN, NO_TEN, NO_TEN,
    NO_TEN, NO_TEN, NO_TEN, NO_TEN, NO_TEN, NO_TEN, NO_TEN, NO_TEN, NO_TEN, NO_TEN, NO_TEN, NO_TEN,
    NO_TEN, NO_TEN, NO_TEN, NO_TEN, NO_TEN, NO_TEN, NO_TEN, NO_TEN, NO_TEN, NO_TEN, NO_TEN, NO_TEN,
    NO_TEN, NO_TEN, NO_TEN, NO_TEN, NO_TEN, NO_TEN, NO_TEN, NO_TEN, NO_TEN, NO_TEN, NO_TEN, NO_TEN,
    NO_TEN, NO_TEN, NO_TEN, NO_TEN, NO_TEN, NO_TEN, NO_TEN, NO_TEN, NO_TEN, NO_TEN, NO_TEN, NO_TEN,
    NO_TEN, NO_TEN, NO_TEN, NO_TEN, NO_TEN, NO_TEN, NO_TEN, NO_TEN, NO_TEN, NO_TEN, NO_TEN, NO_TEN,
    NO_TEN, NO_TEN, NO_TEN, NO_TEN, NO_TEN, NO_TEN, NO_TEN, NO_TEN, NO_TEN, NO_TEN, NO_TEN, NO_TEN,
    NO_TEN, NO_TEN, NO_TEN, NO_TEN, NO_TEN, NO_TEN, NO_TEN, NO_TEN, NO_TEN, NO_TEN, NO_TEN, NO_TEN,
    NO_TEN, NO_TEN, NO_TEN, NO_TEN, NO_TEN, NO_TEN, NO_TEN, NO_TEN, NO_TEN, NO_TEN, NO_TEN,
];

pub(super) fn is_white(byte: u8) -> bool
    ensures { result ≡ bytes.is_white byte }
{
    CLASSES[byte as usize] & WHITE != 0
}

/// Whether a byte is regular: neither white space nor a delimiter. PostScript Language Reference,
/// third edition, 3.2.2.
pub fn is_regular(byte: u8) -> bool
    ensures { result ≡ bytes.is_regular byte }
{
    CLASSES[byte as usize] & REGULAR != 0
}

/// Whether a number may begin with a byte: a decimal digit, a sign or a dot.
pub(super) fn begins_number(byte: u8) -> bool
    ensures { result ≡ reading.begins_number byte }
{
    CLASSES[byte as usize] & BEGINS_NUMBER != 0
}

/// The value of a digit or letter, from 0 to 35, and 36 for any other byte.
pub(super) fn digit_value(byte: u8) -> u8
    ensures { result ≡ digit_value byte }
{
    DIGITS[byte as usize]
}

/// The value of a hexadecimal digit, and 2^32 for any other byte.
pub(super) fn hex_weight(byte: u8) -> u64
    ensures { result ≡ reading.weight 16 byte }
{
    HEX_DIGITS[byte as usize]
}

/// The value of a decimal digit, and 2^32 for any other byte.
pub(super) fn decimal_weight(byte: u8) -> u64
    ensures { result ≡ reading.weight 10 byte }
{
    DECIMAL_DIGITS[byte as usize]
}

/// 16 times the value of a hexadecimal digit, and 2^36 for any other byte.
fn high_hex_weight(byte: u8) -> u64
    ensures { result ≡ 16 * reading.weight 16 byte }
{
    HIGH_HEX_DIGITS[byte as usize]
}

/// Ten times the value of a decimal digit, and 10 * 2^32 for any other byte.
fn decimal_ten(byte: u8) -> u64
    ensures { result ≡ 10 * reading.weight 10 byte }
{
    DECIMAL_TENS[byte as usize]
}

/// The number of two hexadecimal digits, and 2^32 or more if one of the bytes is no digit.
#[inline(always)]
pub(super) fn hex_pair(first: u8, second: u8) -> u64
    ensures { result ≡ 16 * reading.weight 16 first + reading.weight 16 second }
{
    high_hex_weight(first) + hex_weight(second)
}

/// The number of two decimal digits, and 2^32 or more if one of the bytes is no digit.
#[inline(always)]
pub(super) fn decimal_pair(first: u8, second: u8) -> u64
    ensures { result ≡ 10 * reading.weight 10 first + reading.weight 10 second }
{
    decimal_ten(first) + decimal_weight(second)
}
