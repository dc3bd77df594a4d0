//! Bytes and codes in hexadecimal digits.

ghost use Rattle.std.specs.Prelude.{◌≡◌, ◌<◌, [], ◌∷◌, ◌++◌, IfOk, OnOk, string_bytes, true};
ghost use Rattle.std.specs.Fmt.{digits};
ghost use Rattle.cmap_io.specs.Escapes.{AddsPrintable, bytes_shown, code_shown, digit_of, digits_of};

use std::alloc::{AllocError, Global};

/// The letters for the digits from 10 on.
#[derive(Clone, Copy)]
pub(crate) enum Letters {
    Capital,
    Small,
}

/// The two digits of each byte.
pub fn byte_digits(alloc: Global, bytes: &[u8]) -> Result<String, AllocError>
    ensures { IfOk result (λ text. string_bytes text ≡ bytes_shown bytes.now) }
{
    let mut text = String::new(alloc);
    push_bytes(&mut text, bytes)?;
    Ok(text)
}

/// A code in two digits for each of its bytes, one to four.
pub fn code_digits(alloc: Global, byte_len: u8, code: u32) -> Result<String, AllocError>
    ensures { IfOk result (λ text. string_bytes text ≡ code_shown byte_len code) }
{
    let mut text = String::new(alloc);
    push_code(&mut text, byte_len, code)?;
    Ok(text)
}

/// Adds a code in two digits for each of its bytes, one to four.
pub fn push_code(out: &mut String, byte_len: u8, code: u32) -> Result<(), AllocError>
    ensures shown { OnOk result (string_bytes out.new
        ≡ string_bytes out.old ++ code_shown byte_len code) }
    ensures printable { AddsPrintable (string_bytes out.old) (string_bytes out.new) }
{
    let bytes = code.to_be_bytes();
    let absent = bytes.len().saturating_sub(usize::from(byte_len));
    push_bytes(out, &bytes[absent..])
}

/// Adds the two digits of each byte.
fn push_bytes(out: &mut String, bytes: &[u8]) -> Result<(), AllocError>
    ensures shown { OnOk result (string_bytes out.new
        ≡ string_bytes out.old ++ bytes_shown bytes.now) }
    ensures printable { AddsPrintable (string_bytes out.old) (string_bytes out.new) }
{
    for byte in bytes {
        push_byte(out, Letters::Capital, *byte)?;
    }
    Ok(())
}

/// Adds the two digits of a byte.
pub(crate) fn push_byte(out: &mut String, letters: Letters, byte: u8) -> Result<(), AllocError>
    ensures digits { OnOk result (string_bytes out.new
        ≡ string_bytes out.old ++ digits_of letters byte) }
    ensures printable { AddsPrintable (string_bytes out.old) (string_bytes out.new) }
{
    push_digit(out, letters, byte / 16)?;
    push_digit(out, letters, byte % 16)
}

/// Adds the digits of a number, at least one.
pub(crate) fn push_number(out: &mut String, number: u32) -> Result<(), AllocError>
    ensures shown { OnOk result (string_bytes out.new
        ≡ string_bytes out.old ++ digits 16 true number) }
    ensures printable { AddsPrintable (string_bytes out.old) (string_bytes out.new) }
{
    if number < 16 {
        return push_digit(out, Letters::Capital, number as u8);
    }
    push_number(out, number / 16)?;
    push_digit(out, Letters::Capital, (number % 16) as u8)
}

/// Adds the digit of a number below 16.
fn push_digit(out: &mut String, letters: Letters, number: u8) -> Result<(), AllocError>
    requires { number < 16 }
    ensures digit { OnOk result (string_bytes out.new
        ≡ string_bytes out.old ++ digit_of letters number ∷ []) }
    ensures printable { AddsPrintable (string_bytes out.old) (string_bytes out.new) }
{
    out.push(digit(letters, number))
}

/// The digit of a number below 16.
fn digit(letters: Letters, number: u8) -> char
    requires { number < 16 }
    ensures { result ≡ digit_of letters number }
{
    match letters {
        _ if number < 10 => char::from(b'0' + number),
        Letters::Capital => char::from(b'A' + (number - 10)),
        Letters::Small => char::from(b'a' + (number - 10)),
    }
}
