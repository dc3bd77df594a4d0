//! The form of the sections of a text: the numbers before them, their lengths, and the names around them. Adobe
//! Technical Note 5014.
//!
//! The tokens of entries are read again: `cmap_text` gives the codes and texts of an accepted file, and not the
//! strings that spell them nor their offsets, which these warnings concern.

ghost use Rattle.std.specs.Prelude.{◌<◌};

use crate::finding::{Finding, Place};
use crate::lint::Subject;
use crate::strings::{Part, Strings};
use crate::warning::Warning;
use cmap_text::{Extent, Section, is_key, opened_section};
use cmap_tokens::token::{Number, Scanner, Token};
use std::alloc::{AllocError, Global};

/// The most entries that a section may have.
const MOST_ENTRIES: usize = 100;

/// The names that enclose all sections.
const CMAP_START: &[u8] = b"begincmap";

const CMAP_END: &[u8] = b"endcmap";

/// The names that enclose the texts of a list.
const LIST_START: &[u8] = b"[";

const LIST_END: &[u8] = b"]";

/// The warnings about the sections of a text.
#[derive(Drop)]
pub(crate) struct Sections<'m> {
    /// The count includes a section without a number before it.
    pub(crate) count_differs: Finding<'m>,
    pub(crate) long: Finding<'m>,
    pub(crate) no_endcmap: Finding<'m>,
    pub(crate) strings: Strings<'m>,
}

impl<'m> Sections<'m> {
    /// The warnings of an accepted text. `subject` has the map of the text.
    pub(crate) fn of(
        alloc: Global,
        subject: &Subject<'m>,
        text: &[u8],
    ) -> Result<Sections<'m>, AllocError> {
        let mut sections = Sections {
            count_differs: Finding::new(Warning::CountDiffers),
            long: Finding::new(Warning::LongSection),
            no_endcmap: Finding::new(Warning::NoEndcmap),
            strings: Strings::new(alloc, subject),
        };
        sections.add_text(text)?;
        Ok(sections)
    }

    /// Looks at a text, item by item.
    fn add_text(&mut self, text: &[u8]) -> Result<(), AllocError> {
        let mut scanner = Scanner::new(text);
        let mut before = None;
        let mut is_open = false;
        for _ in 0..text.len() {
            let Ok(Some(token)) = scanner.next_token() else {
                break;
            };
            if is_key(&token) {
                let _value = scanner.next_token();
            } else if let Some(section) = opened_section(&token) {
                let offset = offset_of(executable(&token), &scanner);
                let entries = self.add_entries(&mut scanner, section, text.len())?;
                self.add_section(before, entries, offset);
            }
            is_open = is_open_after(is_open, &token);
            before = number_of(&token);
        }
        if is_open {
            self.no_endcmap.add(1, Place::File);
        }
        Ok(())
    }

    /// Checks the number before a section and the number of its entries.
    fn add_section(&mut self, before: Option<usize>, entries: usize, offset: usize) {
        let place = Place::Offset(offset);
        if before != Some(entries) {
            self.count_differs.add(1, place);
        }
        if entries > MOST_ENTRIES {
            self.long.add(1, place);
        }
    }

    /// Reads a section up to its end, checks the strings of its entries, and counts the entries. A list of texts is
    /// one part of an entry.
    fn add_entries(
        &mut self,
        scanner: &mut Scanner<'_>,
        section: Section,
        most: usize,
    ) -> Result<usize, AllocError> {
        let mut parts: usize = 0;
        let mut is_in_list = false;
        for _ in 0..most {
            let Ok(Some(token)) = scanner.next_token() else {
                break;
            };
            match executable(&token) {
                Some(name) if name == LIST_START => is_in_list = true,
                Some(name) if name == LIST_END => {
                    is_in_list = false;
                    parts = parts.saturating_add(1);
                }
                Some(_) => break,
                None if is_in_list => self.add_part(&token, scanner, Part::Listed)?,
                None => {
                    self.add_part(&token, scanner, part_of(section, parts))?;
                    parts = parts.saturating_add(1);
                }
            }
        }
        Ok(parts / parts_of(section))
    }

    /// Checks the part of an entry that was read last, if it is a string.
    fn add_part(
        &mut self,
        token: &Token<'_>,
        scanner: &Scanner<'_>,
        part: Part,
    ) -> Result<(), AllocError> {
        match token {
            Token::String(string) => {
                let offset = offset_of(Some(string.raw()), scanner);
                self.strings.add(string, part, offset)
            }
            _ => Ok(()),
        }
    }
}

/// Whether an `endcmap` is still to come after a token.
fn is_open_after(is_open: bool, token: &Token<'_>) -> bool {
    match executable(token) {
        Some(name) if name == CMAP_START => true,
        Some(name) if name == CMAP_END => false,
        _ => is_open,
    }
}

/// The offset of the token that was read last, which has these bytes.
fn offset_of(bytes: Option<&[u8]>, scanner: &Scanner<'_>) -> usize {
    let len = bytes.map_or(0, |bytes| bytes.len());
    scanner.offset().saturating_sub(len)
}

/// The number of a token, if the number may be a number of entries.
fn number_of(token: &Token<'_>) -> Option<usize> {
    match token {
        Token::Number(Number::Integer(number)) => usize::try_from(*number).ok(),
        _ => None,
    }
}

/// The bytes of an executable name.
fn executable<'t>(token: &Token<'t>) -> Option<&'t [u8]> {
    match token {
        Token::Name(name) if !name.is_literal() => Some(name.as_bytes()),
        _ => None,
    }
}

/// The number of parts of an entry of a section: codes, and a CID or texts.
fn parts_of(section: Section) -> usize
    ensures some { 0 < result }
{
    match section {
        Section::Cids(_, Extent::Range) | Section::BfRange => 3,
        Section::Cids(_, Extent::Single) | Section::BfChar | Section::Codespaces => 2,
    }
}

/// The role of a string that comes after `parts` parts of a section.
fn part_of(section: Section, parts: usize) -> Part {
    let further = parts % parts_of(section);
    match section {
        Section::BfChar if further == 1 => Part::Text,
        Section::BfRange if further == 2 => Part::Text,
        Section::BfChar | Section::Cids(_, Extent::Single) => Part::Code,
        _ if further == 0 => Part::First,
        _ => Part::Last,
    }
}
