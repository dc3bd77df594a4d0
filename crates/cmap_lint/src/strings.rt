//! The form of the strings of entries.

use crate::codespaces::codespace_lengths;
use crate::finding::{OpenFinding, Place};
use crate::lint::Subject;
use crate::warning::Warning;
use cmap_runs::runs::Range;
use cmap_tokens::token::StringToken;
use cmap_values::code_length::{CodeLength, read_code};
use cmap_values::declarations::ByLength;
use std::alloc::{AllocError, Global};

/// The role of a string in an entry.
#[derive(Clone, Copy)]
pub(crate) enum Part {
    /// The only code.
    Code,
    /// The first code of a range.
    First,
    /// The last code of a range.
    Last,
    /// The destination of all codes.
    Text,
    /// A destination in a list, for the first code that has no destination yet.
    Listed,
}

/// The flaws of a string.
#[derive(Clone, Copy)]
struct Flaws {
    code_length: bool,
    odd_digits: bool,
    odd_text: bool,
}

/// No codes.
const NO_CODES: Range = Range { start: 1, end: 0 };

/// The warnings about the strings of a text.
#[derive(Drop)]
pub(crate) struct Strings<'m> {
    pub(crate) code_length: OpenFinding<'m>,
    pub(crate) odd_digits: OpenFinding<'m>,
    pub(crate) odd_text: OpenFinding<'m>,
    /// The lengths for which the map has a codespace range.
    lengths: ByLength<bool>,
    /// The bytes of the current string.
    bytes: Vec<u8>,
    /// The codes of the current entry; in a list, the codes that have no text yet.
    codes: Range,
    /// The flaws of the string of the first code.
    first: Flaws,
}

impl<'m> Strings<'m> {
    /// No warnings yet.
    pub(crate) fn new(alloc: Global, subject: &Subject<'m>) -> Strings<'m> {
        Strings {
            code_length: OpenFinding::new(alloc, Warning::CodeLength, subject.shown),
            odd_digits: OpenFinding::new(alloc, Warning::OddDigits, subject.shown),
            odd_text: OpenFinding::new(alloc, Warning::OddText, subject.shown),
            lengths: codespace_lengths(subject.map),
            bytes: Vec::new(alloc),
            codes: NO_CODES,
            first: Flaws::none(),
        }
    }

    /// Checks the string at this offset.
    pub(crate) fn add(
        &mut self,
        string: &StringToken<'_>,
        part: Part,
        offset: usize,
    ) -> Result<(), AllocError> {
        string.decode_into(&mut self.bytes)?;
        let flaws = self.flaws_of(string.raw(), part);
        self.count(flaws, Place::Offset(offset));
        self.add_shown(flaws, part);
        Ok(())
    }

    /// The flaws of the current string.
    fn flaws_of(&self, raw: &[u8], part: Part) -> Flaws {
        let is_text = matches!(part, Part::Text | Part::Listed);
        Flaws {
            code_length: !is_text && !self.has_codespace(self.bytes.len()),
            odd_digits: has_odd_digits(raw),
            odd_text: is_text && self.bytes.len() % 2 == 1,
        }
    }

    /// Counts the flaws of a string.
    fn count(&mut self, flaws: Flaws, place: Place<'m>) {
        self.code_length
            .found
            .add(u64::from(flaws.code_length), place);
        self.odd_digits
            .found
            .add(u64::from(flaws.odd_digits), place);
        self.odd_text.found.add(u64::from(flaws.odd_text), place);
    }

    /// Adds the codes that the flaws of a string concern: for a code the codes of its entry, once the last code is
    /// known, and for a text the codes that have the text.
    fn add_shown(&mut self, flaws: Flaws, part: Part) {
        match part {
            Part::Code => {
                self.codes = self.code();
                self.add_codes(flaws, self.codes);
            }
            Part::First => {
                self.codes = self.code();
                self.first = flaws;
            }
            Part::Last => {
                self.codes.end = self.code().end;
                self.add_codes(flaws.or(self.first), self.codes);
            }
            Part::Text => self.add_codes(flaws, self.codes),
            Part::Listed => self.add_listed(flaws),
        }
    }

    /// Adds the code of a text in a list, and continues with the next code.
    fn add_listed(&mut self, flaws: Flaws) {
        let Range { start, end } = self.codes;
        let end = start.min(end);
        self.add_codes(flaws, Range { start, end });
        self.codes.start = start.saturating_add(1);
    }

    /// Adds the codes of a string with these flaws.
    fn add_codes(&mut self, flaws: Flaws, codes: Range) {
        if flaws.code_length {
            self.code_length.concerned.add(codes);
        }
        if flaws.odd_digits {
            self.odd_digits.concerned.add(codes);
        }
        if flaws.odd_text {
            self.odd_text.concerned.add(codes);
        }
    }

    /// The code that the current string is, as a range; no codes if the string isn't a code.
    fn code(&self) -> Range {
        match read_code(&self.bytes) {
            Some((_, code)) => Range {
                start: code,
                end: code,
            },
            None => NO_CODES,
        }
    }

    /// Whether a codespace range of the map has codes of `byte_len` bytes.
    fn has_codespace(&self, byte_len: usize) -> bool {
        CodeLength::ALL.iter().any(|len| usize::from(len.count()) == byte_len
            && *self.lengths.get(*len))
    }
}

impl Flaws {
    fn none() -> Flaws {
        Flaws {
            code_length: false,
            odd_digits: false,
            odd_text: false,
        }
    }

    /// The flaws that one of two strings has.
    fn or(self, other: Flaws) -> Flaws {
        Flaws {
            code_length: self.code_length || other.code_length,
            odd_digits: self.odd_digits || other.odd_digits,
            odd_text: self.odd_text || other.odd_text,
        }
    }
}

/// Whether a string is hexadecimal with an odd number of digits.
fn has_odd_digits(raw: &[u8]) -> bool {
    matches!(raw, [b'<', ..]) && digits_in(raw) % 2 == 1
}

/// The number of hexadecimal digits.
fn digits_in(raw: &[u8]) -> usize {
    raw.iter().filter(|byte| is_digit(**byte)).count()
}

fn is_digit(byte: u8) -> bool {
    matches!(byte, b'0'..=b'9' | b'A'..=b'F' | b'a'..=b'f')
}
