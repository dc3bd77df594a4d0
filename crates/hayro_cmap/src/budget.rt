//! The errors of reading within a budget.

use std::alloc::AllocError;

/// Why a map couldn't be read within a budget.
#[derive(Clone, Copy, Debug, PartialEq, Eq)]
pub enum ParseError {
    /// An allocation failed.
    Memory,
    /// The files that are opened have more bytes than the budget.
    OverBudget,
}

impl From<AllocError> for ParseError {
    ghost use Rattle.std.specs.Prelude.{◌≡◌};
    ghost use Rattle.hayro_cmap.specs.declared.budget.ParseError.TheVariants.{Memory};

    ghost from_gives = { λ _ e. e ≡ Memory };

    fn from(_fault: AllocError) -> ParseError {
        ParseError::Memory
    }
}
