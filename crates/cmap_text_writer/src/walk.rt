//! The end and the kind of a section of declarations, chosen so that few bytes are written.

use cmap_text::Extent;
use cmap_values::code_length::CodeLength;

/// The number of bytes of the count and the two names of a section.
const HEAD: i32 = 28;

/// The excess that keeps the codes of a range out of a section for single codes.
const NEVER: i32 = 1 << 20;

/// A point in a list where a section can end.
#[derive(Clone, Copy)]
struct Place {
    /// The number of declarations before this point.
    passed: usize,
    /// The number of bytes by which these declarations are longer in a section for ranges than in
    /// one for single codes.
    excess: i32,
}

/// The declarations, from the first one on, that may stand in one section.
#[derive(Drop)]
pub(crate) struct Walk {
    /// The number of bytes by which a single code is longer as a range.
    width: i32,
    /// The point after the declarations so far.
    here: Place,
    /// The point where a section for single codes saves most.
    greatest: Place,
    /// The point where a section for ranges saves most.
    least: Place,
    /// The kind of the section, once it saves as many bytes as the count and the names of a section
    /// take.
    extent: Option<Extent>,
}

impl Walk {
    /// A walk before the first declaration, whose codes have this length.
    pub(crate) fn new(len: CodeLength) -> Walk {
        let start = Place {
            passed: 0,
            excess: 0,
        };
        Walk {
            width: 2 * i32::from(len.count()) + 3,
            here: start,
            greatest: start,
            least: start,
            extent: None,
        }
    }

    /// Passes declarations of single codes.
    pub(crate) fn pass_singles(&mut self, count: usize) {
        self.pass(count, number_of(count).saturating_mul(self.width));
    }

    /// Passes declarations of ranges.
    pub(crate) fn pass_ranges(&mut self, count: usize) {
        self.pass(count, -NEVER);
    }

    /// Passes an array of texts. An array has two codes, in place of a code for each text.
    pub(crate) fn pass_array(&mut self, count: usize) {
        let saved = 2_i32.saturating_sub(number_of(count));
        self.pass(count, saved.saturating_mul(self.width));
    }

    /// Passes declarations that are longer by `excess` bytes in a section for ranges.
    fn pass(&mut self, count: usize, excess: i32) {
        let here = Place {
            passed: self.here.passed.saturating_add(count),
            excess: self.here.excess.saturating_add(excess),
        };
        if here.excess >= self.greatest.excess {
            self.greatest = here;
        }
        if here.excess <= self.least.excess {
            self.least = here;
        }
        if self.extent.is_none() {
            self.extent = worth_a_section(here.excess);
        }
        self.here = here;
    }

    /// Whether the last declarations are worth a section of the other kind, and a further section
    /// after it.
    pub(crate) fn is_over(&self) -> bool {
        match self.extent {
            Some(extent) => self.lost(extent) >= 2 * HEAD,
            None => false,
        }
    }

    /// The number of bytes by which the last declarations are longer in a section of this kind.
    fn lost(&self, extent: Extent) -> i32 {
        match extent {
            Extent::Single => self.greatest.excess.saturating_sub(self.here.excess),
            Extent::Range => self.here.excess.saturating_sub(self.least.excess),
        }
    }

    /// The kind of the section, and the number of its declarations.
    pub(crate) fn end(&self, all: usize) -> (Extent, usize) {
        let extent = self.extent.unwrap_or(if self.here.excess > 0 {
            Extent::Single
        } else {
            Extent::Range
        });
        let enough = if self.here.passed < all { 0 } else { HEAD };
        if self.lost(extent) <= enough {
            return (extent, self.here.passed);
        }
        match extent {
            Extent::Single => (extent, self.greatest.passed),
            Extent::Range => (extent, self.least.passed),
        }
    }
}

/// The kind of section that saves as many bytes as its count and names take, if there is one.
fn worth_a_section(excess: i32) -> Option<Extent> {
    if excess >= HEAD {
        Some(Extent::Single)
    } else if excess <= -HEAD {
        Some(Extent::Range)
    } else {
        None
    }
}

/// The number of declarations as a signed number.
fn number_of(count: usize) -> i32 {
    i32::try_from(count).unwrap_or(NEVER)
}
