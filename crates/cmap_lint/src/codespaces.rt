//! Codes and codespace ranges that don't fit each other.

use crate::boxes::{CodeBox, boxes_apart, count_outside, first_outside};
use crate::declared::CID_LISTS;
use crate::finding::{Finding, OpenFinding, Place};
use crate::lint::Subject;
use crate::ranges::{push_range, ranges_apart};
use crate::shown::Concerned;
use crate::text_spans::without_text;
use crate::warning::Warning;
use cmap_layers::layer::Layer;
use cmap_layers::layers::Layers;
use cmap_layers::stretches::TextStretch;
use cmap_runs::runs::{Looks, Range, Table};
use cmap_values::code_length::CodeLength;
use cmap_values::declarations::{BfRange, ByLength, CidRange, Codespace};
use std::alloc::{AllocError, Global};

/// The lengths of the codes that `no_mapping` looks at.
const SHORT_LENGTHS: &[CodeLength] = &[CodeLength::One, CodeLength::Two];

/// A warning if no layer has a codespace range.
pub(crate) fn no_codespace<'m>(map: &Layers) -> Finding<'m> {
    let mut finding = Finding::new(Warning::NoCodespace);
    if !has_codespace(map) {
        finding.add(1, Place::File);
    }
    finding
}

/// Whether some layer has a codespace range.
pub(crate) fn has_codespace(map: &Layers) -> bool {
    for layer in map.as_slice() {
        if !layer.codespaces().is_empty() {
            return true;
        }
    }
    false
}

/// The lengths for which some layer has a codespace range.
pub(crate) fn codespace_lengths(map: &Layers) -> ByLength<bool> {
    ByLength {
        one: has_codespace_of(map, CodeLength::One),
        two: has_codespace_of(map, CodeLength::Two),
        three: has_codespace_of(map, CodeLength::Three),
        four: has_codespace_of(map, CodeLength::Four),
    }
}

/// Whether some layer has a codespace range of this length.
fn has_codespace_of(map: &Layers, len: CodeLength) -> bool {
    map.as_slice()
        .iter()
        .any(|layer| has_space_of(layer.codespaces(), len))
}

fn has_space_of(spaces: &[Codespace], len: CodeLength) -> bool {
    spaces.iter().any(|space| space.len == len)
}

/// The codes to which the top layer gives a CID or a notdef, and which lie in no codespace range.
pub(crate) fn outside_codespace<'m>(
    alloc: Global,
    subject: &Subject<'m>,
    layer: &Layer,
) -> Result<Finding<'m>, AllocError> {
    let mut finding = OpenFinding::new(alloc, Warning::OutsideCodespace, subject.shown);
    for len in CodeLength::ALL {
        add_outside(alloc, &mut finding, subject.map, layer, *len)?;
    }
    finding.finish(alloc)
}

/// Adds the codes of one length.
fn add_outside(
    alloc: Global,
    finding: &mut OpenFinding<'_>,
    map: &Layers,
    layer: &Layer,
    len: CodeLength,
) -> Result<(), AllocError> {
    if let Some(boxes) = boxes_of(alloc, map, len)? {
        let ranges = declared_codes(alloc, layer, len)?;
        add_outside_boxes(finding, &boxes, &ranges, len);
    }
    Ok(())
}

/// Adds the codes of ranges that lie in none of the boxes.
fn add_outside_boxes(
    finding: &mut OpenFinding<'_>,
    boxes: &[CodeBox],
    ranges: &[Range],
    len: CodeLength,
) {
    for range in ranges {
        let count = count_outside(boxes, *range);
        if count > 0 {
            let first = place_outside(&finding.found, boxes, *range, len);
            finding.found.add(count, first);
            add_shown_outside(&mut finding.concerned, boxes, *range);
        }
    }
}

/// Adds the shown codes of a range that lie in none of the boxes.
fn add_shown_outside(concerned: &mut Concerned<'_>, boxes: &[CodeBox], range: Range) {
    for code in concerned.shown_in(range) {
        let codes = Range {
            start: *code,
            end: *code,
        };
        if count_outside(boxes, codes) > 0 {
            concerned.add(codes);
        }
    }
}

/// The first place of a finding that gets codes of a range outside the boxes.
fn place_outside<'m>(
    finding: &Finding<'m>,
    boxes: &[CodeBox],
    range: Range,
    len: CodeLength,
) -> Place<'m> {
    if finding.count > 0 {
        return finding.first;
    }
    Place::Code {
        byte_len: len.count(),
        code: first_outside(boxes, range),
    }
}

/// The codes of a length that lie in a codespace range of some layer, as disjoint boxes.
fn boxes_of(
    alloc: Global,
    map: &Layers,
    len: CodeLength,
) -> Result<Option<Vec<CodeBox>>, AllocError> {
    boxes_apart(alloc, &spaces_of(alloc, map, len)?)
}

/// The codespace ranges of a length, of all layers.
fn spaces_of(alloc: Global, map: &Layers, len: CodeLength) -> Result<Vec<Codespace>, AllocError> {
    let mut spaces = Vec::new(alloc);
    for layer in map.as_slice() {
        add_spaces(&mut spaces, layer.codespaces(), len)?;
    }
    Ok(spaces)
}

fn add_spaces(
    spaces: &mut Vec<Codespace>,
    declared: &[Codespace],
    len: CodeLength,
) -> Result<(), AllocError> {
    for space in declared {
        if space.len == len {
            spaces.push(*space)?;
        }
    }
    Ok(())
}

/// The codes of a length to which a layer gives a CID or a notdef.
fn declared_codes(alloc: Global, layer: &Layer, len: CodeLength) -> Result<Vec<Range>, AllocError> {
    let mut ranges = Vec::new(alloc);
    for list in CID_LISTS {
        add_ranges(&mut ranges, list.table(layer, len))?;
    }
    ranges_apart(alloc, ranges)
}

fn add_ranges(ranges: &mut Vec<Range>, table: &Table<CidRange>) -> Result<(), AllocError> {
    let mut looks = Looks::new();
    for index in 0..table.decl_count() {
        push_range(ranges, table.decl(index, &mut looks).range)?;
    }
    Ok(())
}

/// The codes of one and of two bytes that lie in a codespace range and have no text.
pub(crate) fn no_mapping<'m>(
    alloc: Global,
    subject: &Subject<'m>,
) -> Result<Finding<'m>, AllocError> {
    let mut finding = OpenFinding::new(alloc, Warning::NoMapping, subject.shown);
    for len in SHORT_LENGTHS {
        if let Some(boxes) = boxes_of(alloc, subject.map, *len)? {
            add_unmapped(alloc, &mut finding, subject.map, &boxes, *len)?;
        }
    }
    finding.finish(alloc)
}

fn add_unmapped(
    alloc: Global,
    finding: &mut OpenFinding<'_>,
    map: &Layers,
    boxes: &[CodeBox],
    len: CodeLength,
) -> Result<(), AllocError> {
    for codes in boxes {
        add_unmapped_of(alloc, finding, map, codes, len)?;
    }
    Ok(())
}

/// Adds the codes of a box, row by row.
fn add_unmapped_of(
    alloc: Global,
    finding: &mut OpenFinding<'_>,
    map: &Layers,
    codes: &CodeBox,
    len: CodeLength,
) -> Result<(), AllocError> {
    for row in codes.rows() {
        add_unmapped_in(alloc, finding, map, codes.row(row), len)?;
    }
    Ok(())
}

/// Adds the codes of a range, stretch by stretch.
fn add_unmapped_in(
    alloc: Global,
    finding: &mut OpenFinding<'_>,
    map: &Layers,
    range: Range,
    len: CodeLength,
) -> Result<(), AllocError> {
    let end = u64::from(range.end);
    let mut next = u64::from(range.start);
    while next <= end {
        let start = next as u32;
        let stretch = map.text_stretch(start);
        let codes = Range {
            start,
            end: stretch.last.min(range.end),
        };
        add_unmapped_stretch(alloc, finding, stretch, codes, len)?;
        next = u64::from(stretch.last) + 1;
    }
    Ok(())
}

/// Adds the codes of a stretch for which its declaration has no text.
fn add_unmapped_stretch(
    alloc: Global,
    finding: &mut OpenFinding<'_>,
    stretch: TextStretch<'_>,
    codes: Range,
    len: CodeLength,
) -> Result<(), AllocError> {
    match stretch.declaration {
        Some(declared) => add_without_text(alloc, finding, declared, codes, len)?,
        None => finding.add_codes(len.count(), codes),
    }
    Ok(())
}

/// Adds the codes for which a declaration has no text.
fn add_without_text(
    alloc: Global,
    finding: &mut OpenFinding<'_>,
    declared: &BfRange,
    codes: Range,
    len: CodeLength,
) -> Result<(), AllocError> {
    for codes in &without_text(alloc, declared, codes)? {
        finding.add_codes(len.count(), *codes);
    }
    Ok(())
}
