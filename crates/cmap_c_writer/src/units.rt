//! Texts in UTF-8 that become units of UTF-16.

ghost use Rattle.std.specs.Prelude.{◌≡◌, Some, None};
ghost use Rattle.cmap_values.specs.Outcomes.{Outcome};
ghost use Rattle.cmap_values.specs.UnitsSeen.{units_seen};
ghost use Rattle.cmap_c_writer.specs.Given.{units_given};

use crate::written::NoText;
use cmap_values::fault::Fault;
use cmap_values::units::Units;
use std::alloc::Global;
use std::str;

/// The units of a text in UTF-8. A text that is empty or isn't UTF-8 is refused.
pub(crate) fn units_of(alloc: Global, text: &[u8]) -> Result<Units, Fault<NoText>>
    ensures { Outcome (λ units. units_given text.now ≡ Some (units_seen units))
        (λ _. units_given text.now ≡ None) result }
{
    let Ok(characters) = str::from_utf8(text) else {
        return Err(Fault::Refused(NoText));
    };
    if text.is_empty() {
        return Err(Fault::Refused(NoText));
    }
    Ok(Units::from_text(alloc, characters)?)
}
