//! The codes that have a text.

ghost use Rattle.std.specs.Prelude.{◌≡◌, ◌↔◌, ◌^◌, ◌<◌, ◌≤◌, ℕ, List, Some, IfOk, IfSome, option_and_then, option_map};
ghost use Rattle.std.specs.Option.{option_copied};
ghost use Rattle.std.specs.Str.{chars};
ghost use Rattle.cmap_tokens.specs.Texts.{text_at};
ghost use Rattle.cmap_values.specs.DeclarationsSeen.{bf_entry_seen};
ghost use Rattle.cmap_layers.specs.CodeStretches.{AreCodesOfText, AreUnitsOf};
ghost use Rattle.cmap_layers.specs.Lookups.{bf_at};

use crate::code_ranges::add_range;
use crate::layers::Layers;
use crate::stretches::TextStretch;
use cmap_values::declarations::BfRange;
use cmap_values::range::Range;
use cmap_values::units::Units;
use std::alloc::{AllocError, Global};

/// The number of codes of 32 bits.
pub(crate) const CODE_COUNT: u64 = 1 << 32;

impl Layers {
    /// The codes that have the text, as `text` gives it: ranges in order, each as long as possible.
    ///
    /// The codes are numbers without lengths: a text doesn't state how many bytes its code has. It
    /// fails only if memory runs out.
    pub fn codes_of_text(&self, alloc: Global, text: &str) -> Result<Vec<Range>, AllocError>
        ensures { IfOk result
            (λ ranges. AreCodesOfText self.now (chars text.now) ranges.items) }
    {
        let units = Units::from_text(alloc, text)?;
        let units = units.as_slice();
        let mut ranges = Vec::new(alloc);
        let mut next = 0;
        while next < CODE_COUNT {
            let first = next as u32;
            let stretch = self.text_stretch(first);
            if let Some(code) = code_among(stretch, first, units) {
                let (start, end) = (code, code);
                add_range(&mut ranges, Range { start, end })?;
            }
            next = u64::from(stretch.last) + 1;
        }
        Ok(ranges)
    }
}

/// The code from `first` on to which the declaration of a stretch gives the text of these units, if
/// there is such a code. A declaration gives no two codes the same text.
fn code_among(stretch: TextStretch<'_>, first: u32, units: &[u16]) -> Option<u32>
    requires { IfSome stretch.declaration
        (λ declaration. declaration.now.range.start ≤ first) }
    ensures code { (text : List ℕ) (code : ℕ) → AreUnitsOf text units.now
        → first ≤ code → code ≤ stretch.entry.last
        → ((option_and_then (λ entry. bf_at entry code)
        (option_map bf_entry_seen (option_copied stretch.entry.declaration)) ≡ Some text)
        ↔ (result ≡ Some code)) }
    ensures within { IfSome result (λ code. (first ≤ code) × (code ≤ stretch.entry.last)) }
{
    let code = code_with(stretch.declaration?, units)?;
    (first <= code && code <= stretch.last).then_some(code)
}

/// The code to which a declaration gives the text of these units.
fn code_with(declaration: &BfRange, units: &[u16]) -> Option<u32>
    ensures { (text : List ℕ) (code : ℕ) → AreUnitsOf text units.now
        → declaration.now.range.start ≤ code → code < 2 ^ 32
        → ((bf_at (bf_entry_seen declaration.now) code ≡ Some text) ↔ (result ≡ Some code)) }
{
    let offset = offset_of(declaration.units.as_slice(), units)?;
    declaration.range.start.checked_add(u32::from(offset))
}

/// The offset at which the declared units `begin` give the text of `units`.
fn offset_of(begin: &[u16], units: &[u16]) -> Option<u16>
    ensures { (text : List ℕ) (offset : ℕ) → AreUnitsOf text units.now
        → ((text_at begin.now offset ≡ Some text) ↔ (result ≡ Some offset)) }
{
    let [begin_front @ .., begin_last] = begin else {
        return None;
    };
    let [front @ .., last] = units else {
        return None;
    };
    if begin_front != front {
        return None;
    }
    last.checked_sub(*begin_last)
}
