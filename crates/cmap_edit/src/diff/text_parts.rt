//! Consecutive codes at which two maps differ in their texts, at each code or at none.

ghost use Rattle.std.specs.Prelude.{◌≡◌, ◌↔◌, ◌+◌, ◌-◌, ◌^◌, ◌<◌, ◌≤◌, ℕ, IfOk, IfSome, IsTrue, is_some, option_and_then};
ghost use Rattle.cmap_tokens.specs.Texts.{text_at};
ghost use Rattle.cmap_layers.specs.Lookups.{bf_at, bf_of, deciding_bf};
ghost use Rattle.cmap_edit.specs.Differences.{DiffersIf, declared};
ghost use Rattle.cmap_edit.specs.UnitsAlike.{AreAlike};

use crate::diff::compared::Comparison;
use cmap_layers::layers::Layers;
use cmap_layers::stretches::further_texts;
use cmap_tokens::utf16::text;
use cmap_values::declarations::BfRange;
use std::alloc::{AllocError, Global};

/// Consecutive codes, with the declarations that decide their texts in both maps. The texts differ
/// at each code or at none.
#[derive(Clone, Copy)]
pub(crate) struct TextPart<'l> {
    pub(crate) left: Option<&'l BfRange>,
    pub(crate) right: Option<&'l BfRange>,
    pub(crate) last: u32,
    pub(crate) differs: bool,
}

/// The part that begins with this code.
pub(crate) fn text_part<'l>(
    alloc: Global,
    left: &'l Layers,
    right: &'l Layers,
    first: u32,
) -> Result<TextPart<'l>, AllocError>
    ensures within { IfOk result (λ part. (first ≤ part.last) × (part.last < 2 ^ 32)) }
    ensures left { IfOk result (λ part. (code : ℕ) → first ≤ code → code ≤ part.last
        → deciding_bf left.now code ≡ declared part.left) }
    ensures right { IfOk result (λ part. (code : ℕ) → first ≤ code → code ≤ part.last
        → deciding_bf right.now code ≡ declared part.right) }
    ensures answers { IfOk result (λ part. (code : ℕ) → first ≤ code → code ≤ part.last
        → DiffersIf part.differs (bf_of left.now code) (bf_of right.now code)) }
{
    let here = left.text_stretch(first);
    let there = right.text_stretch(first);
    let most = here.last.min(there.last) - first;
    let (units, offset) = spelling(here.declaration, first);
    let (other_units, other_offset) = spelling(there.declaration, first);
    let part = compared_units(alloc, units, offset, other_units, other_offset)?;
    Ok(TextPart {
        left: here.declaration,
        right: there.declaration,
        last: first + most.min(part.more),
        differs: part.differs,
    })
}

/// The units of a declaration, and the offset of a code from its start; no units without a
/// declaration.
fn spelling(declaration: Option<&BfRange>, first: u32) -> (&[u16], u32)
    requires { IfSome declaration (λ declaration. declaration.now.range.start ≤ first) }
    ensures { (code : ℕ) → first ≤ code
        → option_and_then (λ entry. bf_at entry code) (declared declaration.entry)
        ≡ text_at result.0.now (result.1 + (code - first)) }
{
    match declaration {
        Some(declaration) => (
            declaration.units.as_slice(),
            first - declaration.range.start,
        ),
        None => (&[], 0),
    }
}

/// Compares the texts of two sequences of units, each from an offset on. If the units with their
/// offsets are equal, the texts are equal at each further offset; otherwise the texts are equal
/// only while there are none.
fn compared_units(
    alloc: Global,
    left: &[u16],
    offset: u32,
    right: &[u16],
    other_offset: u32,
) -> Result<Comparison, AllocError>
    ensures { IfOk result (λ part. (k : ℕ) → k ≤ part.more
        → DiffersIf part.differs (text_at left.now (offset + k))
        (text_at right.now (other_offset + k))) }
{
    if are_alike(left, offset, right, other_offset) {
        return Ok(Comparison {
            differs: false,
            more: u32::MAX,
        });
    }
    let here = is_there(alloc, left, offset)?;
    let there = is_there(alloc, right, other_offset)?;
    Ok(Comparison {
        differs: here || there,
        more: further_texts(left, offset).min(further_texts(right, other_offset)),
    })
}

/// Whether two sequences of units are equal when each offset is added to the last unit of its side.
fn are_alike(left: &[u16], offset: u32, right: &[u16], other_offset: u32) -> bool
    ensures { IsTrue result ↔ AreAlike left.now offset right.now other_offset }
{
    let [front @ .., last] = left else {
        return false;
    };
    let [other_front @ .., other_last] = right else {
        return false;
    };
    front == other_front
        && u64::from(*last) + u64::from(offset) == u64::from(*other_last) + u64::from(other_offset)
}

/// Whether units give a text at an offset.
fn is_there(alloc: Global, units: &[u16], offset: u32) -> Result<bool, AllocError>
    ensures { IfOk result (λ there. there ≡ is_some (text_at units.now offset)) }
{
    let text = text(alloc, units, offset)?;
    Ok(text.is_some())
}
