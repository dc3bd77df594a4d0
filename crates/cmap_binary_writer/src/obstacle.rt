//! Obstacles to the binary form of a file or a bundle.

use cmap_values::range::Range;
use std::fmt::{self, Display, Formatter, Write};

/// Content that a binary file or a bundle can't represent.
#[derive(Clone, Copy, Debug)]
pub enum Obstacle {
    /// A CID above 65535, in a declaration for these codes.
    LargeCid(Range),
    /// A code that has more bytes than its declared length.
    LargeCode(u32),
    /// A registry or an ordering with a zero byte.
    ZeroByte,
    /// A `Custom` family with the registry and the ordering of a named family.
    CustomFamily,
    /// A supplement outside 0 to 65535.
    Supplement(i32),
    /// The texts of these codes: they have more than 255 units, or they are texts of more than 65536
    /// consecutive codes.
    Text(Range),
    /// A table has no code word for a number to spell; or there are more than 65535 different numbers
    /// to spell.
    NoWord,
    /// A part or the whole would have 2^32 bytes or more.
    TooLong,
    /// The name of the file isn't a known name, so a bundle has no place for the file.
    NoPlace,
}

impl Display for Obstacle {
    fn fmt<W: Write>(&self, f: &mut Formatter<W>) -> fmt::Result {
        f.write_str(match self {
            Obstacle::LargeCid(range) => return write_codes(f, "a CID above 65535", range),
            Obstacle::LargeCode(code) => {
                return write!(f, "the code {code:X} has more bytes than its length");
            }
            Obstacle::ZeroByte => "a registry or an ordering holds a zero byte",
            Obstacle::CustomFamily => "a custom collection has the name of a known one",
            Obstacle::Supplement(number) => {
                return write!(f, "the supplement {number} isn't from 0 to 65535");
            }
            Obstacle::Text(range) => {
                return write_codes(
                    f,
                    "a text of more than 255 units, or more than 65536 texts,",
                    range,
                );
            }
            Obstacle::NoWord => "more different numbers than a table holds",
            Obstacle::TooLong => "2^32 bytes or more",
            Obstacle::NoPlace => "none of the known names",
        })
    }
}

/// Writes an obstacle for the codes of a range, each code with as many bytes as the range needs.
fn write_codes<W: Write>(f: &mut Formatter<W>, what: &str, range: &Range) -> fmt::Result {
    let Range { start, end } = range;
    match *start.max(end) {
        0..0x100 => write!(f, "{what} for the codes <{start:02X}> to <{end:02X}>"),
        0x100..0x1_0000 => write!(f, "{what} for the codes <{start:04X}> to <{end:04X}>"),
        0x1_0000..0x100_0000 => write!(f, "{what} for the codes <{start:06X}> to <{end:06X}>"),
        _ => write!(f, "{what} for the codes <{start:08X}> to <{end:08X}>"),
    }
}
