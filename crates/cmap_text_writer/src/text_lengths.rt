//! The number of bytes of the codes of texts, which a file doesn't keep.

ghost use Rattle.std.specs.Prelude.{◌≡◌, ℕ, List, [], ◌∷◌, ◌++◌, map, max, min};
ghost use Rattle.cmap_values.specs.CodeLengths.{length_of};
ghost use Rattle.cmap_values.specs.declared.code_length.CodeLength.{CodeLength};
ghost use Rattle.cmap_values.specs.Files as files;
ghost use Rattle.cmap_values.specs.DeclarationsSeen.{codespace_seen};
ghost use Rattle.cmap_text_writer.specs.Lengths.{AreBounds, is_within, length_around, length_by, text_length};
ghost use Rattle.cmap_text_writer.specs.Spelled.{end_length};

use crate::digits::fitting;
use cmap_values::code_length::CodeLength;
use cmap_values::declarations::Codespace;
use cmap_values::range::Range;

/// No codes.
const NONE: Range = Range {
    start: u32::MAX,
    end: 0,
};

/// The number of bytes of the codes of texts. A code that doesn't fit in its number of bytes has four.
#[derive(Clone, Copy)]
pub struct TextLengths {
    /// The ranges from the lowest to the highest code of the codespace ranges, for each length.
    one: Range,
    two: Range,
    three: Range,
    four: Range,
    /// The length of other codes.
    other: CodeLength,
}

impl TextLengths {
    /// This length, for all codes that fit in it.
    pub fn same(len: CodeLength) -> TextLengths
        ensures { (code : ℕ) → text_length result code ≡ end_length (length_of len) code }
    {
        TextLengths::outside(len)
    }

    /// The least length whose codespace ranges have codes around a code, and two bytes where there is none.
    pub fn by(spaces: &[Codespace]) -> TextLengths
        ensures { (code : ℕ) → text_length result code ≡ length_by (map codespace_seen spaces.now) code }
    {
        let mut lengths = TextLengths::outside(CodeLength::Two);
        for space in spaces {
            lengths = lengths.widened(*space);
        }
        lengths
    }

    /// Lengths without codespace ranges.
    fn outside(other: CodeLength) -> TextLengths
        ensures { AreBounds result other [] }
    {
        TextLengths {
            one: NONE,
            two: NONE,
            three: NONE,
            four: NONE,
            other,
        }
    }

    /// The lengths with a further codespace range.
    fn widened(self, space: Codespace) -> TextLengths
        ensures { (other : CodeLength) → (ss : List files.Codespace) → AreBounds self other ss → AreBounds result other (ss ++ codespace_seen space ∷ []) }
    {
        let mut lengths = self;
        match space.len {
            CodeLength::One => lengths.one = widened(self.one, space),
            CodeLength::Two => lengths.two = widened(self.two, space),
            CodeLength::Three => lengths.three = widened(self.three, space),
            CodeLength::Four => lengths.four = widened(self.four, space),
        }
        lengths
    }

    /// The length of a code.
    pub(crate) fn of(self, code: u32) -> CodeLength
        ensures { length_of result ≡ text_length self code }
    {
        fitting(self.around(code), code)
    }

    /// The least length whose codespace ranges have codes around a code, or `other`.
    fn around(self, code: u32) -> CodeLength
        ensures { length_of result ≡ length_around self code }
    {
        if contains(self.one, code) {
            CodeLength::One
        } else if contains(self.two, code) {
            CodeLength::Two
        } else if contains(self.three, code) {
            CodeLength::Three
        } else if contains(self.four, code) {
            CodeLength::Four
        } else {
            self.other
        }
    }
}

/// The range, extended to the codes of a codespace range.
fn widened(range: Range, space: Codespace) -> Range
    ensures start { result.start ≡ min range.start space.low }
    ensures end { result.end ≡ max range.end space.high }
{
    Range {
        start: range.start.min(space.low),
        end: range.end.max(space.high),
    }
}

/// Whether a range has a code.
fn contains(range: Range, code: u32) -> bool
    ensures { result ≡ is_within range code }
{
    range.start <= code && code <= range.end
}
