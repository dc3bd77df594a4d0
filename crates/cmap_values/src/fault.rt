//! Why a file gives no map.

use std::alloc::{AllocError, AllocFailed};
use std::fmt::{self, Display, Formatter, Write};

/// The reason why the reading of a file stopped.
#[derive(Clone, Copy, Debug, PartialEq, Eq)]
pub enum Reason {
    /// A string of a text isn't closed.
    UnclosedString,
    /// A hexadecimal string of a text has a byte that is no digit.
    WrongDigit,
    /// A `)` or a `>` of a text stands alone.
    StrayDelimiter,
    /// A text ends within a section.
    EndWithinSection,
    /// Another token stands in the place of a code, which is a string.
    CodeExpected,
    /// A code has no bytes, or more than four bytes.
    CodeLength,
    /// The two ends of a codespace range have unequal lengths.
    UnequalLengths,
    /// Another token stands in the place of a CID, which is an integer from 0 to 2^32 - 1.
    CidExpected,
    /// Another token stands in the place of the text of a code, which is a string that isn't empty.
    TextExpected,
    /// Another token stands in the place of the `]` after the texts of a range.
    BracketExpected,
    /// A `usecmap` without a literal name before it.
    UseWithoutName,
    /// A binary file has no complete header of version 1, or fewer bytes than its header states.
    Header,
    /// The last segment of a binary file is cut short.
    SegmentLength,
    /// A binary file has a segment of an unknown type.
    SegmentType,
    /// A field of this segment of a binary file is cut short.
    Field(Segment),
    /// An entry of this segment of a binary file is cut short.
    Entry(Segment),
    /// The last code of an entry of this segment of a binary file passes 32 bits.
    CodeTooLarge(Segment),
    /// A CID of a binary file passes 32 bits.
    CidTooLarge,
}

impl Display for Reason {
    fn fmt<W: Write>(&self, f: &mut Formatter<W>) -> fmt::Result {
        let text = match self {
            Reason::UnclosedString => "a string isn't closed",
            Reason::WrongDigit => "a hexadecimal string has a byte that is no digit",
            Reason::StrayDelimiter => "a ) or > stands alone",
            Reason::EndWithinSection => "the file ends within a section",
            Reason::CodeExpected => "a code was expected",
            Reason::CodeLength => "a code must have one to four bytes",
            Reason::UnequalLengths => "the ends of a codespace range have unequal lengths",
            Reason::CidExpected => "a CID was expected",
            Reason::TextExpected => "the text of a code was expected",
            Reason::BracketExpected => "a ] was expected",
            Reason::UseWithoutName => "usecmap without a name before it",
            Reason::Header => "no whole binary file of version 1",
            Reason::SegmentLength => "a segment is cut short",
            Reason::SegmentType => "a segment of an unknown type",
            Reason::CidTooLarge => "a CID passes 32 bits",
            Reason::Field(segment) => {
                return write!(f, "a field of the segment of {segment} is cut short");
            }
            Reason::Entry(segment) => {
                return write!(f, "an entry of the segment of {segment} is cut short");
            }
            Reason::CodeTooLarge(segment) => {
                return write!(f, "a code of the segment of {segment} passes 32 bits");
            }
        };
        f.write_str(text)
    }
}

/// The segments of a binary file that can be cut short, named by their contents.
#[derive(Clone, Copy, Debug, PartialEq, Eq)]
pub enum Segment {
    Cids,
    Texts,
    Notdefs,
    WritingMode,
    Codespaces,
    Collection,
}

impl Display for Segment {
    fn fmt<W: Write>(&self, f: &mut Formatter<W>) -> fmt::Result {
        f.write_str(match self {
            Segment::Cids => "CIDs",
            Segment::Texts => "texts",
            Segment::Notdefs => "notdef CIDs",
            Segment::WritingMode => "the writing mode",
            Segment::Codespaces => "codespace ranges",
            Segment::Collection => "the character collection",
        })
    }
}

/// Why a call has no answer.
#[derive(Debug, Drop)]
pub enum Fault<R> {
    /// The input is refused.
    Refused(R),
    /// An allocation failed.
    Memory,
}

impl<R> From<AllocError> for Fault<R> {
    ghost use Rattle.std.specs.Prelude.{◌≡◌};
    ghost use Rattle.cmap_values.specs.declared.fault.Fault.TheVariants.{Memory};

    ghost from_gives = { λ _ e. e ≡ Memory };

    fn from(_fault: AllocError) -> Fault<R> {
        Fault::Memory
    }
}

impl<R, T: Drop> From<AllocFailed<T>> for Fault<R> {
    ghost use Rattle.std.specs.Prelude.{◌≡◌};
    ghost use Rattle.cmap_values.specs.declared.fault.Fault.TheVariants.{Memory};

    ghost from_gives = { λ _ e. e ≡ Memory };

    fn from(_fault: AllocFailed<T>) -> Fault<R> {
        Fault::Memory
    }
}

/// Where the reading of a file stopped, and why.
#[derive(Clone, Copy, Debug, PartialEq, Eq)]
pub struct Stop {
    /// The offset in the file, in bytes. In a text it is the end of the token that can't stand at its
    /// place; if no token stands there, the offset of the byte that shows this; and if only the end of
    /// the file shows it, the length of the file. In a text that is read past its faults, the offset
    /// for an unclosed string is the offset of its bracket. In a binary file it is the start of the
    /// segment at fault.
    pub offset: usize,
    pub reason: Reason,
}
