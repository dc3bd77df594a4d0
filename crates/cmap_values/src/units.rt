//! The units of texts. Nearly every text has one or two units, and few texts have more than four.

ghost use Rattle.std.specs.Prelude.{◌≡◌, ◌≤◌, IfOk, IsOk, flat_map, length};
ghost use Rattle.std.specs.Char.Escape.{encode_utf16};
ghost use Rattle.std.specs.Str.{chars};
ghost use Rattle.cmap_values.specs.UnitsSeen.{units_seen};

use std::alloc::{AllocError, Global};
use std::fmt;

/// The units of a text in UTF-16. Up to four units lie in the value itself. More units lie in memory
/// behind one pointer, so that a value stays small.
#[derive(Drop)]
pub enum Units {
    Empty,
    One([u16; 1]),
    Two([u16; 2]),
    Three([u16; 3]),
    Four([u16; 4]),
    More(Box<Vec<u16>>),
}

impl fmt::Debug for Units {
    fn fmt<W: fmt::Write>(&self, f: &mut fmt::Formatter<W>) -> fmt::Result {
        fmt::Debug::fmt(self.as_slice(), f)
    }
}

impl Units {
    /// A value with these units.
    ///
    /// It fails only if memory runs out; up to four units allocate no memory.
    pub fn from_slice(alloc: Global, units: &[u16]) -> Result<Units, AllocError>
        ensures units { IfOk result (λ made. units_seen made ≡ units.now) }
        ensures few { length units.now ≤ 4 → IsOk result }
    {
        match units {
            [] => Ok(Units::Empty),
            [a] => Ok(Units::One([*a])),
            [a, b] => Ok(Units::Two([*a, *b])),
            [a, b, c] => Ok(Units::Three([*a, *b, *c])),
            [a, b, c, d] => Ok(Units::Four([*a, *b, *c, *d])),
            _ => {
                let units = Vec::from_slice(alloc, units)?;
                Ok(Units::More(Box::new(alloc, units)?))
            }
        }
    }

    /// The units of the characters of a text, one after another. The Unicode Standard, 3.9, D91.
    ///
    /// It fails only if memory runs out.
    pub fn from_text(alloc: Global, text: &str) -> Result<Units, AllocError>
        ensures { IfOk result (λ made. units_seen made ≡ flat_map encode_utf16 (chars text.now)) }
    {
        let mut units = Vec::new(alloc);
        for character in text.chars() {
            units.extend_from_slice(character.encode_utf16(&mut [0; 2]))?;
        }
        Units::from_slice(alloc, &units)
    }

    /// The units, in order.
    pub fn as_slice(&self) -> &[u16]
        ensures { result.now ≡ units_seen self.now }
    {
        match self {
            Units::Empty => &[],
            Units::One(units) => units,
            Units::Two(units) => units,
            Units::Three(units) => units,
            Units::Four(units) => units,
            Units::More(units) => units.as_slice(),
        }
    }

    /// A copy of the units.
    ///
    /// It fails only if memory runs out; a copy of up to four units allocates no memory.
    pub fn clone(&self, alloc: Global) -> Result<Units, AllocError>
        ensures units { IfOk result (λ copy. units_seen copy ≡ units_seen self.now) }
        ensures few { length (units_seen self.now) ≤ 4 → IsOk result }
    {
        Units::from_slice(alloc, self.as_slice())
    }
}
