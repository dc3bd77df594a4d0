//! The chosen codes.

ghost use Rattle.std.specs.Prelude.{◌↔◌, ℕ, ◌<◌, ◌^◌, IfOk, IsSome};
ghost use Rattle.cmap_runs.specs.Ranges.{last_of};
ghost use Rattle.cmap_values.specs.CodeLengths.{IsCodeLength, length_of};
ghost use Rattle.cmap_edit.specs.Chosen.{Chosen, ChosenNumber, codes_span};

use cmap_runs::runs::Table;
use cmap_values::code_length::CodeLength;
use cmap_values::range::{HasRange, Range};
use std::alloc::{AllocError, Global};

/// Codes of one length, from a first code to a last one.
#[derive(Clone, Copy, Debug)]
pub struct Codes {
    /// The number of bytes of each code.
    pub len: CodeLength,
    /// The codes as numbers, with the first byte as the high byte; no codes where the range is
    /// empty.
    pub range: Range,
}

impl HasRange for Codes {
    ghost use Rattle.cmap_edit.specs.Chosen.{codes_span};

    ghost span = { codes_span };

    fn range(&self) -> &Range {
        &self.range
    }
}

/// The chosen codes of this length.
pub(crate) fn codes_of_length(
    alloc: Global,
    codes: &[Codes],
    len: CodeLength,
) -> Result<Table<Codes>, AllocError>
    ensures { IfOk result (λ table. (code : ℕ)
        → (IsSome (last_of codes_span table code) ↔ Chosen codes.now code (length_of len))) }
{
    let mut list = Vec::new(alloc);
    for one in codes {
        if one.len == len {
            list.push(*one)?;
        }
    }
    Table::build(alloc, list)
}

/// The numbers of all chosen codes.
pub(crate) fn numbers_of(alloc: Global, codes: &[Codes]) -> Result<Table<Codes>, AllocError>
    ensures { IfOk result (λ table. (code : ℕ)
        → (IsSome (last_of codes_span table code) ↔ ChosenNumber codes.now code)) }
{
    let list = Vec::from_slice(alloc, codes)?;
    Table::build(alloc, list)
}

/// All codes of each length.
pub(crate) fn all_codes() -> [Codes; 4]
    ensures { (code len : ℕ) → code < 2 ^ 32 → IsCodeLength len → Chosen result code len }
{
    let range = Range {
        start: 0,
        end: u32::MAX,
    };
    [
        Codes {
            len: CodeLength::One,
            range,
        },
        Codes {
            len: CodeLength::Two,
            range,
        },
        Codes {
            len: CodeLength::Three,
            range,
        },
        Codes {
            len: CodeLength::Four,
            range,
        },
    ]
}
