//! The codes for which a map is written.

ghost use Rattle.std.specs.Prelude.{◌≡◌, Any, MatchOption, None, map};
ghost use Rattle.cmap_values.specs.Outcomes.{Outcome};
ghost use Rattle.cmap_c_writer.specs.Given.{length_given};
ghost use Rattle.cmap_c_writer.specs.Whole.{chosen_seen};

use crate::code_lengths::code_length;
use crate::written::NoText;
use cmap_edit::flatten::Codes;
use cmap_values::fault::Fault;
use cmap_values::range::Range;
use std::alloc::Global;

/// Codes of one length, as C hands them in.
#[repr(C)]
#[derive(Clone, Copy)]
pub struct ChosenCodes {
    /// The first code.
    pub(crate) first: u32,
    /// The last code.
    pub(crate) last: u32,
    /// The number of bytes of each code, 1 to 4.
    pub(crate) byte_len: u32,
}

impl ChosenCodes {
    /// The codes, if their number of bytes is 1 to 4.
    fn codes(&self) -> Option<Codes>
        ensures { MatchOption result (length_given self.now.byte_len ≡ None)
            (λ codes. chosen_seen codes ≡ self.now) }
    {
        let len = code_length(self.byte_len)?;
        let range = Range {
            start: self.first,
            end: self.last,
        };
        Some(Codes { len, range })
    }
}

/// All chosen codes; refused if some codes have a number of bytes other than 1 to 4.
pub(crate) fn chosen_codes(
    alloc: Global,
    chosen: &[ChosenCodes],
) -> Result<Vec<Codes>, Fault<NoText>>
    ensures { Outcome (λ codes. map chosen_seen codes.items ≡ chosen.now)
        (λ _. Any (λ one. length_given one.byte_len ≡ None) chosen.now) result }
{
    let mut codes = Vec::new(alloc);
    for one in chosen {
        let Some(one) = one.codes() else {
            return Err(Fault::Refused(NoText));
        };
        codes.push(one)?;
    }
    Ok(codes)
}
