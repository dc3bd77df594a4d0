//! The codes of a font that have a text.

ghost use Rattle.std.specs.Prelude.{◌≡◌, ◌↔◌, ◌+◌, ◌-◌, ◌<◌, ◌≤◌, ◌^◌, ℕ, Option, Some, IfOk, length};
ghost use Rattle.std.specs.Str.{chars};
ghost use Rattle.cmap_tokens.specs.TextSeen.{text_seen};
ghost use Rattle.cmap_tokens.specs.Texts.{Text};
ghost use Rattle.cmap_values.specs.CodeLengths.{length_of};
ghost use Rattle.cmap_unicode.specs.Characters.{characters_of, font_of};
ghost use Rattle.cmap_unicode.specs.CodesOfTexts.{AreAmong, AreCodesOfText, AreFilled, CountsTo, HasText, Spells};
ghost use Rattle.cmap_unicode.specs.TextRows.{AreTexts};

use crate::extractor::Extractor;
use crate::rows::TextRow;
use cmap_layers::code_ranges::add_range;
use cmap_tokens::utf16::BfString;
use cmap_values::code_length::CodeLength;
use cmap_values::range::Range;
use std::alloc::{AllocError, Global};

impl Extractor<'_> {
    /// The codes of this length that have the text, as `character_of` gives it: ranges in order, each as
    /// long as possible. Codes in no codespace range are included.
    ///
    /// It fails only if memory runs out.
    pub fn codes_of_text(
        &self,
        alloc: Global,
        text: &str,
        len: CodeLength,
    ) -> Result<Vec<Range>, AllocError>
        ensures { IfOk result (λ ranges.
            AreCodesOfText (font_of self.now) (length_of len) (chars text.now) ranges.items) }
    {
        let wanted = chars_of(alloc, text)?;
        let last = len.last_code();
        let mut ranges = Vec::new(alloc);
        let mut next = 0;
        while next <= u64::from(last) {
            let (found, end) = self.codes_from(alloc, next as u32, len, &wanted)?;
            if let Some(range) = found {
                add_range(&mut ranges, range)?;
            }
            next = u64::from(end) + 1;
        }
        Ok(ranges)
    }

    /// The codes that have the text, from `first` to a last code; and that last code.
    fn codes_from(
        &self,
        alloc: Global,
        first: u32,
        len: CodeLength,
        text: &[char],
    ) -> Result<(Option<Range>, u32), AllocError>
        requires { first < 256 ^ length_of len }
        ensures { IfOk result (λ codes. (first ≤ codes.1) × (codes.1 < 256 ^ length_of len)
            × AreAmong (HasText (font_of self.now) (length_of len) text.now)
            (record { start = first; end = codes.1 }) codes.0) }
    {
        let row = self.text_row(alloc, first, len)?;
        let end = row.last.min(len.last_code());
        let found = codes_among(alloc, &row, Range { start: first, end }, text)?;
        Ok((found, end))
    }
}

/// The characters of a text.
fn chars_of(alloc: Global, text: &str) -> Result<Vec<char>, AllocError>
    ensures { IfOk result (λ characters. characters.items ≡ chars text.now) }
{
    text.chars().collect(alloc)
}

/// The codes that have the text, in a range that begins with a row and lies within the row.
fn codes_among(
    alloc: Global,
    row: &TextRow,
    range: Range,
    text: &[char],
) -> Result<Option<Range>, AllocError>
    requires filled { range.start ≤ range.end }
    requires within { range.end ≤ row.now.last }
    ensures { IfOk result (λ found. (texts : ℕ → Option Text) → AreFilled texts
        → AreTexts texts range.start row.now → AreAmong (Spells texts text.now) range found) }
{
    let Some(begin) = &row.text else {
        return Ok(None);
    };
    let begin = characters_of(alloc, begin)?;
    if row.counts_on {
        Ok(code_among(&begin, range, text))
    } else {
        Ok((begin.as_slice() == text).then_some(range))
    }
}

/// The characters of the text of a code.
fn characters_of(alloc: Global, text: &BfString) -> Result<Vec<char>, AllocError>
    ensures { IfOk result (λ found. found.items ≡ characters_of (text_seen text.now)) }
{
    match text {
        BfString::Char(only) => {
            let mut characters = Vec::new(alloc);
            characters.push(*only)?;
            Ok(characters)
        }
        BfString::String(text) => chars_of(alloc, text.as_str()),
    }
}

/// The code of a range that has the text, if the text of the first code counts on.
fn code_among(begin: &[char], range: Range, text: &[char]) -> Option<Range>
    requires { range.start ≤ range.end }
    ensures { 0 < length begin.now
        → AreAmong (λ code. CountsTo begin.now text.now (code - range.start)) range result }
{
    let further = further_of(begin, text)?;
    let code = range.start.checked_add(further)?;
    (code <= range.end).then_some(Range {
        start: code,
        end: code,
    })
}

/// The number of characters from the last character of `begin` to the last character of `text`, if all
/// characters before are the same.
fn further_of(begin: &[char], text: &[char]) -> Option<u32>
    ensures { 0 < length begin.now
        → (k : ℕ) → (CountsTo begin.now text.now k ↔ (result ≡ Some k)) }
{
    let [begin_front @ .., begin_last] = begin else {
        return None;
    };
    let [front @ .., last] = text else {
        return None;
    };
    if begin_front != front {
        return None;
    }
    u32::from(*last).checked_sub(u32::from(*begin_last))
}
