//! A finding: a warning, the number of its instances, and the first place.

use crate::ranges::code_count;
use crate::shown::Concerned;
use crate::warning::Warning;
use cmap_runs::runs::Range;
use std::alloc::{AllocError, Global};

/// A warning, with the count and the first place of what it concerns.
#[derive(Clone, Copy)]
pub struct Finding<'m> {
    /// The warning.
    pub warning: Warning,
    /// The number of codes, declarations, sections or strings that the warning concerns; 1 where the warning
    /// concerns the file.
    pub count: u64,
    /// The place of the first of them.
    pub first: Place<'m>,
    /// The number of shown codes that the warning concerns; 0 where the warning isn't about codes.
    pub shown: usize,
    /// The lowest shown code that the warning concerns.
    pub first_shown: Option<u32>,
}

/// The place of a finding.
#[derive(Clone, Copy)]
pub enum Place<'m> {
    /// In the file as a whole.
    File,
    /// At a code of this many bytes.
    Code { byte_len: u8, code: u32 },
    /// At a declaration of codes of this many bytes.
    Range { byte_len: u8, range: Range },
    /// At the name of the file.
    Name(&'m [u8]),
    /// At the byte at this offset.
    Offset(usize),
}

impl<'m> Finding<'m> {
    /// A finding whose warning concerns nothing yet.
    pub(crate) fn new(warning: Warning) -> Finding<'m> {
        Finding {
            warning,
            count: 0,
            first: Place::File,
            shown: 0,
            first_shown: None,
        }
    }

    /// Adds `count` to the number that the warning concerns. The first of them is at this place. A sum that
    /// overflows stays at the largest number.
    pub(crate) fn add(&mut self, count: u64, place: Place<'m>) {
        if count == 0 {
            return;
        }
        if self.count == 0 {
            self.first = place;
        }
        self.count = self.count.saturating_add(count);
    }
}

/// A finding about codes, to which codes are added.
#[derive(Drop)]
pub(crate) struct OpenFinding<'m> {
    /// The finding without its shown codes.
    pub(crate) found: Finding<'m>,
    /// The shown codes that the finding concerns.
    pub(crate) concerned: Concerned<'m>,
}

impl<'m> OpenFinding<'m> {
    /// A finding whose warning concerns nothing yet. `shown` has the shown codes, in ascending order.
    pub(crate) fn new(alloc: Global, warning: Warning, shown: &'m [u32]) -> OpenFinding<'m> {
        OpenFinding {
            found: Finding::new(warning),
            concerned: Concerned::new(alloc, shown),
        }
    }

    /// Adds consecutive codes of `byte_len` bytes.
    pub(crate) fn add_codes(&mut self, byte_len: u8, codes: Range) {
        let code = codes.start;
        self.found
            .add(code_count(codes), Place::Code { byte_len, code });
        self.concerned.add(codes);
    }

    /// The finding. An error means that memory ran out, now or earlier for a shown code.
    pub(crate) fn finish(self, alloc: Global) -> Result<Finding<'m>, AllocError> {
        let OpenFinding { found, concerned } = self;
        let (shown, first_shown) = concerned.finish(alloc)?;
        Ok(Finding {
            shown,
            first_shown,
            ..found
        })
    }
}
