//! What a part at fault is read as, for C.

ghost use Rattle.std.specs.Prelude.{◌≡◌, ◌⊎◌};
ghost use Rattle.cmap_values.specs.Only.{HoldsOfNone, IsOnly};
ghost use Rattle.cmap_values.specs.Outcomes.{Finds};
ghost use Rattle.cmap_lint.specs.PartsRead.{number};
ghost use Rattle.cmap_lint.specs.declared.read_as.ReadAs.{ReadAs};
ghost use Rattle.cmap_c.specs.Readings.{IsReading};

use crate::fault::FaultNumbers;
use cmap_lint::read_as::ReadAs;
use cmap_load::Cause;

/// The number for what the part at a fault of a text is read as, if the bytes before the fault show it; else 0. `text`
/// is the file at fault, and is read past its faults.
#[unsafe(no_mangle)]
pub extern "C" fn hayro_cmap_read_as(fault: &FaultNumbers, text: &[u8]) -> u32
    ensures { ((result ≡ 0) × HoldsOfNone (IsReading fault.now text.now))
        ⊎ ((found : ReadAs) × (result ≡ number found) × IsOnly (IsReading fault.now text.now) found) }
{
    match reading_of(fault, text) {
        Some(found) => found.number(),
        None => 0,
    }
}

/// What the part at a fault is read as.
fn reading_of(fault: &FaultNumbers, text: &[u8]) -> Option<ReadAs>
    ensures { Finds (IsReading fault.now text.now) (λ found. found) result }
{
    match fault.cause()? {
        Cause::Malformed(stop) => ReadAs::of(text, stop),
        _ => None,
    }
}
