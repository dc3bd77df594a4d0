//! The types of segments.

ghost use Rattle.std.specs.Prelude.{◌≡◌, option_map};
ghost use Rattle.cmap_binary.specs.BinaryFiles.{kind_of};
ghost use Rattle.cmap_binary.specs.BinarySeen.{kind_seen};

use crate::columns::Shape;
use cmap_values::code_length::CodeLength;

/// The kind of content that a segment has.
#[derive(Clone, Copy)]
pub(crate) enum Kind {
    /// CIDs for codes of this length.
    Cids(Shape, CodeLength),
    /// Texts with this number of units each, or each after the number of its units.
    Texts(Shape, Option<u8>),
    /// The name of a file that is used.
    Base,
    /// Notdef declarations.
    Notdefs,
    /// The writing mode.
    Mode,
    /// Codespace ranges.
    Codespaces,
    /// The name of the file.
    Name,
    /// The character collection.
    Collection,
}

impl Kind {
    /// The kind of content that a segment of this type has; `None` for an unknown type.
    pub(crate) fn of(number: u8) -> Option<Kind>
        ensures { option_map kind_seen result ≡ kind_of number }
    {
        match number {
            0x01 => Some(Kind::Cids(Shape::Ranges, CodeLength::One)),
            0x02 => Some(Kind::Cids(Shape::Singles, CodeLength::One)),
            0x03 => Some(Kind::Cids(Shape::Ranges, CodeLength::Two)),
            0x04 => Some(Kind::Cids(Shape::Singles, CodeLength::Two)),
            0x05 => Some(Kind::Cids(Shape::Ranges, CodeLength::Three)),
            0x06 => Some(Kind::Cids(Shape::Singles, CodeLength::Three)),
            0x07 => Some(Kind::Cids(Shape::Ranges, CodeLength::Four)),
            0x08 => Some(Kind::Cids(Shape::Singles, CodeLength::Four)),
            0x09 => Some(Kind::Base),
            0x0A => Some(Kind::Notdefs),
            0x0B => Some(Kind::Mode),
            0x0C => Some(Kind::Codespaces),
            0x0D => Some(Kind::Name),
            0x0E => Some(Kind::Collection),
            0x0F => Some(Kind::Texts(Shape::Ranges, None)),
            0x10 => Some(Kind::Texts(Shape::Singles, None)),
            0x11 => Some(Kind::Texts(Shape::Singles, Some(1))),
            0x12 => Some(Kind::Texts(Shape::Singles, Some(2))),
            0x13 => Some(Kind::Texts(Shape::Singles, Some(3))),
            0x14 => Some(Kind::Texts(Shape::Singles, Some(4))),
            0x15 => Some(Kind::Texts(Shape::Ranges, Some(1))),
            0x16 => Some(Kind::Texts(Shape::Ranges, Some(2))),
            _ => None,
        }
    }
}
