//! The reading of a part at fault.

ghost use Rattle.std.specs.Prelude.{◌≡◌, ◌<◌, ◌↔◌, false, ◌∷◌, [], ◌++◌, ℕ, List, IsTrue, MatchOption};
ghost use Rattle.cmap_tokens.specs.Ascii.{byte};
ghost use Rattle.cmap_values.specs.Outcomes.{Finds};
ghost use Rattle.cmap_lint.specs.PartsRead as parts_read;
ghost use Rattle.cmap_lint.specs.PartsRead.{AreBeforeDigits, AreBeforeEmpty, EndInEmptyString, EndInLongerCode, EndWith, IsReadAs, IsTrimmed, bytes_of, is_blank, ends_or_escapes};

use cmap_values::fault::{Reason, Stop};
use std::fmt::{self, Display, Formatter, Write};

/// The byte FF, which ends comments.
const FORM_FEED: u8 = 12;

/// The reading of a part at fault, if the part shows what was meant.
#[derive(Clone, Copy, Debug, PartialEq, Eq)]
pub enum ReadAs {
    /// An empty string in place of a text, as the text without units.
    EmptyText,
    /// The second code of a codespace range, longer than the first, which gets leading bytes 0.
    ExtendedCode,
}

impl ReadAs {
    /// The reading of the part at a fault of a text, if the bytes before the fault show it. The text is read past its
    /// faults.
    ///
    /// A string at the beginning of a line may be a code, and the entry before it may lack a text. So the function
    /// gives no answer for such a string.
    pub fn of(text: &[u8], fault: Stop) -> Option<ReadAs>
        ensures { Finds (IsReadAs text.now fault) (λ found. found) result }
    {
        let before = text.get(..fault.offset)?;
        match fault.reason {
            Reason::TextExpected if ends_in_empty_string(before) => Some(ReadAs::EmptyText),
            Reason::UnequalLengths if ends_in_longer_code(before) => Some(ReadAs::ExtendedCode),
            _ => None,
        }
    }

    /// The number of the reading in the C interface.
    pub fn number(self) -> u32
        ensures { result ≡ parts_read.number self }
    {
        match self {
            ReadAs::EmptyText => 1,
            ReadAs::ExtendedCode => 2,
        }
    }
}

impl Display for ReadAs {
    fn fmt<W: Write>(&self, f: &mut Formatter<W>) -> fmt::Result {
        f.write_str(match self {
            ReadAs::EmptyText => "the empty text",
            ReadAs::ExtendedCode => "a range whose first code has leading bytes 0",
        })
    }
}

/// Whether bytes end in an empty string that follows another part on its line.
fn ends_in_empty_string(bytes: &[u8]) -> bool
    ensures { IsTrue result ↔ EndInEmptyString bytes.now }
{
    match before_empty_string(bytes) {
        Some(before) => ends_within_line(without_blanks(before)),
        None => false,
    }
}

/// The bytes before an empty string at the end of bytes.
fn before_empty_string(bytes: &[u8]) -> Option<&[u8]>
    ensures { MatchOption result ((before : List ℕ) → AreBeforeEmpty bytes.now before → ⊥)
        (λ before. AreBeforeEmpty bytes.now before.now) }
{
    match without_last(bytes, b')') {
        Some(inner) => without_last(inner, b'('),
        None => without_last(without_blanks(without_last(bytes, b'>')?), b'<'),
    }
}

/// Bytes without the last one, if the last one is `wanted`.
fn without_last(bytes: &[u8], wanted: u8) -> Option<&[u8]>
    ensures { MatchOption result (EndWith bytes.now wanted → ⊥)
        (λ before. bytes.now ≡ before.now ++ wanted ∷ []) }
{
    match bytes {
        [before @ .., last] if *last == wanted => Some(before),
        _ => None,
    }
}

/// Whether there is a last byte that neither ends a line nor escapes the next byte.
fn ends_within_line(bytes: &[u8]) -> bool
    ensures { IsTrue result ↔ ((before : List ℕ) × (b : ℕ) × (bytes.now ≡ before ++ b ∷ [])
        × (ends_or_escapes b ≡ false)) }
{
    match bytes {
        [.., last] => *last != b'\n' && *last != FORM_FEED && *last != b'\r' && *last != b'\\',
        [] => false,
    }
}

/// Whether bytes end in two hexadecimal strings on one line, the second of which has more bytes.
fn ends_in_longer_code(bytes: &[u8]) -> bool
    ensures { IsTrue result ↔ EndInLongerCode bytes.now }
{
    let Some(high) = HexString::last_of(bytes) else {
        return false;
    };
    let Some(low) = HexString::last_of(without_blanks(high.before)) else {
        return false;
    };
    low.is_shorter_code(&high)
}

/// A hexadecimal string on one line.
#[derive(Clone, Copy)]
struct HexString<'t> {
    /// The bytes before the string.
    before: &'t [u8],
    digits: usize,
}

impl<'t> HexString<'t> {
    /// The hexadecimal string at the end of bytes.
    fn last_of(bytes: &'t [u8]) -> Option<HexString<'t>>
        ensures { MatchOption result
            ((before : List ℕ) (digits : ℕ) → AreBeforeDigits bytes.now before digits → ⊥)
            (λ found. AreBeforeDigits bytes.now found.before.now found.digits) }
    {
        let mut rest = without_last(bytes, b'>')?;
        let mut digits = 0;
        while let [before @ .., last] = rest {
            if *last == b'<' {
                return Some(HexString { before, digits });
            }
            if last.is_ascii_hexdigit() {
                digits += 1;
            } else if !is_blank(*last) {
                return None;
            }
            rest = before;
        }
        None
    }

    /// Whether the string is a code with fewer bytes than another string. A string after a `<` doesn't count as a
    /// code.
    fn is_shorter_code(&self, other: &HexString<'_>) -> bool
        ensures { IsTrue result
            ↔ ((0 < bytes_of self.now.digits)
            × (bytes_of self.now.digits < bytes_of other.now.digits)
            × (EndWith self.now.before.now (byte "<") → ⊥)) }
    {
        0 < self.len() && self.len() < other.len() && without_last(self.before, b'<').is_none()
    }

    /// The number of bytes that the string stands for.
    fn len(&self) -> usize
        ensures { result ≡ bytes_of self.now.digits }
    {
        self.digits / 2 + self.digits % 2
    }
}

/// Bytes without the blanks at their end.
fn without_blanks(bytes: &[u8]) -> &[u8]
    ensures { IsTrimmed bytes.now result.now }
{
    let mut rest = bytes;
    while let [before @ .., last] = rest {
        if !is_blank(*last) {
            break;
        }
        rest = before;
    }
    rest
}

/// Whether the byte is white space that ends neither a line nor a comment.
fn is_blank(byte: u8) -> bool
    ensures { result ≡ is_blank byte }
{
    byte == 0 || byte == b'\t' || byte == b' '
}
