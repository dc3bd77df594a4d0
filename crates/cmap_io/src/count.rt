//! Counts that can be printed.

ghost use Rattle.std.specs.Prelude.{◌≡◌};
ghost use Rattle.cmap_io.specs.Counts.{counted, number_seen};

use std::fmt::{self, Display, Formatter, Write};

/// A count. Files, lines and arguments never number 2^64, but no contract states that. So a count saturates, and a
/// caller needn't show that one more fits.
#[derive(Clone, Copy)]
pub struct Count {
    number: usize,
}

impl Count {
    /// A count that starts at this number.
    pub fn of(number: usize) -> Count
        ensures { number_seen result ≡ number }
    {
        Count { number }
    }

    /// Counts one more.
    pub fn add_one(&mut self)
        ensures { number_seen self.new ≡ counted (number_seen self.old) 1 }
    {
        self.add(1);
    }

    /// Counts `further` more.
    pub fn add(&mut self, further: usize)
        ensures { number_seen self.new ≡ counted (number_seen self.old) further }
    {
        self.number = self.number.saturating_add(further);
    }

    /// The number.
    pub fn get(self) -> usize
        ensures { result ≡ number_seen self }
    {
        self.number
    }
}

impl Display for Count {
    ghost use Rattle.std.specs.Prelude.{Some};
    ghost use Rattle.std.specs.Fmt.{decimal};

    ghost output = { λ count. Some (decimal (number_seen count)) };

    fn fmt<W: Write>(&self, f: &mut Formatter<W>) -> fmt::Result {
        write!(f, "{}", self.number)
    }
}
