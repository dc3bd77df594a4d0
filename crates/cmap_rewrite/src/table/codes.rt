//! Codes in a table.

use cmap_values::code_length::CodeLength;
use cmap_values::range::Range;

/// A code and its length.
#[derive(Clone, Copy)]
pub(super) struct Code {
    pub(super) len: CodeLength,
    pub(super) number: u32,
}

/// A first code and a last one.
#[derive(Clone, Copy)]
pub(super) struct CodePair {
    pub(super) first: Code,
    pub(super) last: Code,
}

impl CodePair {
    /// The codes from the first to the last one.
    pub(super) fn range(self) -> Range {
        Range {
            start: self.first.number,
            end: self.last.number,
        }
    }
}

/// The two codes at the start of a line, such as `<8140> <817E>`, and the rest of the line.
pub(super) fn code_pair(line: &str) -> Option<(CodePair, &str)> {
    let (first, rest) = code_and_rest(line)?;
    let (last, rest) = code_and_rest(rest)?;
    Some((CodePair { first, last }, rest))
}

/// The code at the start of a line, and the rest of the line without leading white space.
fn code_and_rest(line: &str) -> Option<(Code, &str)> {
    let (digits, rest) = line.strip_prefix('<')?.split_once('>')?;
    Some((code_of(digits)?, rest.trim_start()))
}

/// The code of one to four bytes that hexadecimal digits in pairs spell.
fn code_of(digits: &str) -> Option<Code> {
    if digits.len() % 2 != 0 || digits.starts_with('+') {
        return None;
    }
    let byte_len = u8::try_from(digits.len() / 2).ok()?;
    let len = CodeLength::of(byte_len)?;
    let number = u32::from_str_radix(digits, 16).ok()?;
    Some(Code { len, number })
}
