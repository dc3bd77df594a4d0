//! The refusal of a wrong token, or of a text where no token comes.

ghost use Rattle.std.specs.Prelude.{◌≡◌, false, true};
ghost use Rattle.cmap_values.specs.declared.fault.Fault.TheVariants.{Refused};

use cmap_values::fault::{Fault, Reason};

/// Why a reader of tokens goes no further. The wrong token isn't stored; it is the token that was
/// read last.
#[derive(Clone, Copy)]
pub(crate) struct WrongToken {
    /// Whether a token can't stand at its place; otherwise no token comes.
    pub(crate) is_token: bool,
    pub(crate) reason: Reason,
}

/// The refusal of the token that was read last.
pub(crate) fn wrong(reason: Reason) -> Fault<WrongToken>
    ensures { result ≡ Refused (record { is_token = true; reason = reason }) }
{
    Fault::Refused(WrongToken {
        is_token: true,
        reason,
    })
}

/// The refusal of a text where no token comes.
pub(crate) fn no_token(reason: Reason) -> Fault<WrongToken>
    ensures { result ≡ Refused (record { is_token = false; reason = reason }) }
{
    Fault::Refused(WrongToken {
        is_token: false,
        reason,
    })
}
