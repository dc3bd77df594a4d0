//! The declarations of texts for the chosen codes.

ghost use Rattle.std.specs.Prelude.{◌≡◌, ◌+◌, ◌-◌, ◌≤◌, ◌^◌, All, IfOk, OnOk, [], false, map};
ghost use Rattle.cmap_tokens.specs.Texts.{text_at};
ghost use Rattle.cmap_values.specs.DeclarationsSeen.{bf_entry_seen};
ghost use Rattle.cmap_layers.specs.Lookups.{bf_at, bf_of};
ghost use Rattle.cmap_edit.specs.Parts.{AreTexts, AreTextsAdded, AreTextsBelow, IsTextRoom};

use crate::flatten::codes::{Codes, numbers_of};
use crate::tidy::{counted_on, fits, push_texts};
use cmap_layers::layers::Layers;
use cmap_runs::runs::{Looks, Table};
use cmap_values::declarations::BfRange;
use cmap_values::range::Range;
use std::alloc::{AllocError, Global};

/// The declarations for the numbers of the chosen codes: each number gets the text that the layers give.
pub(crate) fn texts_of(
    alloc: Global,
    layers: &Layers,
    codes: &[Codes],
) -> Result<Vec<BfRange>, AllocError>
    ensures { IfOk result (λ texts. AreTexts layers.now codes.now (map bf_entry_seen texts.items)) }
{
    if !declare_texts(layers) {
        return Ok(Vec::new(alloc));
    }
    let chosen = numbers_of(alloc, codes)?;
    texts_in(alloc, layers, &chosen)
}

/// Whether some layer declares texts.
pub(crate) fn declare_texts(layers: &Layers) -> bool
    ensures { result ≡ false → All (λ layer. layer.lists.bfs ≡ []) layers.now }
{
    let layers = layers.as_slice();
    for layer in layers {
        if layer.texts().decl_count() > 0 {
            return true;
        }
    }
    false
}

/// The declarations for the codes of a table.
fn texts_in(
    alloc: Global,
    layers: &Layers,
    chosen: &Table<Codes>,
) -> Result<Vec<BfRange>, AllocError>
    ensures { IfOk result (λ texts. AreTextsBelow layers.now chosen.now (2 ^ 32)
        (map bf_entry_seen texts.items)) }
{
    let mut texts = Vec::new(alloc);
    let mut looks = Looks::new();
    let mut stretches = chosen.stretches(0, &mut looks);
    let mut next: u64 = 0;
    while let Some(stretch) = stretches.next(&mut looks) {
        if stretch.declaration.is_some() {
            let range = Range {
                start: next as u32,
                end: stretch.last,
            };
            add_texts(alloc, &mut texts, layers, range)?;
        }
        next = u64::from(stretch.last) + 1;
    }
    Ok(texts)
}

/// Adds the texts that the layers give to the codes of a range, after all others.
fn add_texts(
    alloc: Global,
    texts: &mut Vec<BfRange>,
    layers: &Layers,
    range: Range,
) -> Result<(), AllocError>
    requires room { IsTextRoom (map bf_entry_seen texts.now.items) range.start }
    requires range { range.start ≤ range.end }
    ensures { OnOk result (AreTextsAdded (map bf_entry_seen texts.old.items)
        range.start (range.end + 1)
        (λ code. bf_of layers.now code) (map bf_entry_seen texts.new.items)) }
{
    let end = u64::from(range.end);
    let mut next = u64::from(range.start);
    while next <= end {
        let start = next as u32;
        let stretch = layers.text_stretch(start);
        let part = Range {
            start,
            end: stretch.last.min(range.end),
        };
        next = u64::from(part.end) + 1;
        if let Some(declaration) = stretch.declaration {
            add_declared(alloc, texts, declaration, part)?;
        }
    }
    Ok(())
}

/// Adds the texts that a declaration gives to codes that it contains, after all others.
fn add_declared(
    alloc: Global,
    texts: &mut Vec<BfRange>,
    declaration: &BfRange,
    range: Range,
) -> Result<(), AllocError>
    requires room { IsTextRoom (map bf_entry_seen texts.now.items) range.start }
    requires range { range.start ≤ range.end }
    requires start { declaration.now.range.start ≤ range.start }
    ensures { OnOk result (AreTextsAdded (map bf_entry_seen texts.old.items)
        range.start (range.end + 1)
        (λ code. bf_at (bf_entry_seen declaration.now) code) (map bf_entry_seen texts.new.items)) }
{
    let units = declaration.units.as_slice();
    let offset = range.start - declaration.range.start;
    if !fits(units, offset) {
        return Ok(());
    }
    let units = counted_on(alloc, units, offset)?;
    add_units(alloc, texts, units.as_slice(), range)
}

/// Adds the texts that count on from these units, up to the code at which the last unit passes 16 bits.
fn add_units(
    alloc: Global,
    texts: &mut Vec<BfRange>,
    units: &[u16],
    range: Range,
) -> Result<(), AllocError>
    requires room { IsTextRoom (map bf_entry_seen texts.now.items) range.start }
    requires range { range.start ≤ range.end }
    ensures { OnOk result (AreTextsAdded (map bf_entry_seen texts.old.items)
        range.start (range.end + 1)
        (λ code. text_at units.now (code - range.start)) (map bf_entry_seen texts.new.items)) }
{
    let Some(last) = units.last() else {
        return Ok(());
    };
    let more = u32::from(u16::MAX - *last);
    let start = range.start;
    let end = start + (range.end - start).min(more);
    push_texts(alloc, texts, Range { start, end }, units)
}
