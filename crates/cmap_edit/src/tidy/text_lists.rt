//! Lists of texts, written anew as tidy lists.

ghost use Rattle.std.specs.Prelude.{◌≡◌, ◌+◌, ◌<◌, ◌≤◌, ◌^◌, ℕ, ◌-◌, None, All, IfOk, MatchOption, OnOk, length, map};
ghost use Rattle.cmap_values.specs.DeclarationsSeen.{bf_entry_seen};
ghost use Rattle.cmap_values.specs.UnitsSeen.{units_seen};
ghost use Rattle.cmap_edit.specs.Tidied.{AreTidiedTexts, SaysNone, SaysTheSame};
ghost use Rattle.cmap_edit.specs.Tidy.{AreTidyTexts, last_unit, units_at, units_said};
ghost use Rattle.cmap_edit.specs.TidyAdded.{AddsTexts, GivesTexts};

use crate::tidy::copies::copied_texts;
use crate::tidy::texts::{counted_on, fits, push_texts};
use cmap_runs::runs::{Looks, Table};
use cmap_values::declarations::BfRange;
use cmap_values::range::Range;
use cmap_values::units::Units;
use std::alloc::{AllocError, Global};

/// The tidy list with the same answers; or, where a text has no units or its last unit passes 16 bits, a
/// copy of the list.
pub(crate) fn tidied_texts(alloc: Global, list: &[BfRange]) -> Result<Vec<BfRange>, AllocError>
    ensures { IfOk result (λ tidied. AreTidiedTexts (map bf_entry_seen list.now)
        (map bf_entry_seen tidied.items)) }
{
    let table = Table::build(alloc, copied_texts(alloc, list)?)?;
    match texts_by_runs(alloc, &table)? {
        Some(tidied) => Ok(tidied),
        None => copied_texts(alloc, list),
    }
}

/// The tidy list with the same answers, run by run; `None` where a text has no units or its last unit
/// passes 16 bits.
fn texts_by_runs(alloc: Global, table: &Table<BfRange>) -> Result<Option<Vec<BfRange>>, AllocError>
    ensures { IfOk result (λ tidied. MatchOption tidied
        (SaysNone (units_said (map bf_entry_seen table.now)))
        (λ list. AreTidyTexts (map bf_entry_seen list.items)
        × SaysTheSame (units_said (map bf_entry_seen table.now))
        (units_said (map bf_entry_seen list.items)))) }
{
    let mut looks = Looks::new();
    let mut list = Vec::new(alloc);
    let mut stretches = table.stretches(0, &mut looks);
    let mut next: u64 = 0;
    while let Some(stretch) = stretches.next(&mut looks) {
        if let Some(declaration) = stretch.declaration {
            let range = Range {
                start: next as u32,
                end: stretch.last,
            };
            let Some(units) = first_units(alloc, declaration, &range)? else {
                return Ok(None);
            };
            push_units(alloc, &mut list, range, units)?;
        }
        next = u64::from(stretch.last) + 1;
    }
    Ok(Some(list))
}

/// Adds codes with texts that count on from these units, as `push_texts` does.
fn push_units(
    alloc: Global,
    list: &mut Vec<BfRange>,
    range: Range,
    units: Units,
) -> Result<(), AllocError>
    requires tidy { AreTidyTexts (map bf_entry_seen list.now.items) }
    requires after { All (λ e. e.end < range.start) (map bf_entry_seen list.now.items) }
    requires some { 0 < length (units_seen units) }
    requires counts { (range.start ≤ range.end)
        × (last_unit (units_seen units) + (range.end - range.start) < 2 ^ 16) }
    ensures { OnOk result (AddsTexts (map bf_entry_seen list.old.items) range (units_seen units)
        (map bf_entry_seen list.new.items)) }
{
    push_texts(alloc, list, range, units.as_slice())
}

/// The units of the first code of a range, which the declaration contains; `None` without units, or where
/// the last unit of the last code passes 16 bits.
fn first_units(
    alloc: Global,
    declaration: &BfRange,
    range: &Range,
) -> Result<Option<Units>, AllocError>
    requires starts { declaration.now.range.start ≤ range.now.start }
    requires filled { range.now.start ≤ range.now.end }
    ensures { IfOk result (λ units. MatchOption units
        (units_at (bf_entry_seen declaration.now) range.now.end ≡ None)
        (λ first. GivesTexts (bf_entry_seen declaration.now) range.now (units_seen first))) }
{
    let units = declaration.units.as_slice();
    if !fits(units, range.end - declaration.range.start) {
        return Ok(None);
    }
    let first = counted_on(alloc, units, range.start - declaration.range.start)?;
    Ok(Some(first))
}
