//! The codes of a declaration that have a text, in spans whose last character counts on.

use crate::finding::{Finding, OpenFinding, Place};
use crate::lint::Subject;
use crate::ranges::{common, push_range};
use crate::warning::Warning;
use cmap_layers::code_lengths::text_code_len;
use cmap_layers::layer::Layer;
use cmap_runs::runs::{Looks, Range};
use cmap_tokens::utf16::{self, BfString};
use cmap_values::declarations::BfRange;
use std::alloc::{AllocError, Global};

/// Consecutive codes with texts that differ in their last character alone, which counts on.
#[derive(Drop)]
pub(crate) struct TextSpan {
    pub(crate) codes: Range,
    /// The text of the first code; `None` where the text has more than 256 units.
    pub(crate) text: Option<BfString>,
}

/// The most units of a text that is checked. A text is read once for each span, so the work is bounded.
const MOST_UNITS: usize = 256;

/// The units that are a character on their own: the units below the surrogates, and the units above. The Unicode
/// Standard, 3.9.
const SINGLE_UNITS: &[Range] = &[
    Range {
        start: 0,
        end: 0xD7FF,
    },
    Range {
        start: 0xE000,
        end: 0xFFFF,
    },
];

/// The second units of characters of two units.
const LOW_SURROGATES: &[Range] = &[Range {
    start: 0xDC00,
    end: 0xDFFF,
}];

/// The codes that have a text of a declaration, in order. A code whose text has more than 256 units counts as a code
/// with a text.
pub(crate) fn spans_of(
    alloc: Global,
    declared: &BfRange,
    codes: Range,
) -> Result<Vec<TextSpan>, AllocError> {
    let mut spans = Vec::new(alloc);
    if declared.units.as_slice().len() > MOST_UNITS {
        spans.push(TextSpan { codes, text: None })?;
    } else {
        add_spans(alloc, &mut spans, declared, codes)?;
    }
    Ok(spans)
}

/// Adds the codes that have a text of a declaration, in order.
fn add_spans(
    alloc: Global,
    spans: &mut Vec<TextSpan>,
    declared: &BfRange,
    codes: Range,
) -> Result<(), AllocError> {
    let Some((last, front)) = declared.units.as_slice().split_last() else {
        return Ok(());
    };
    for area in areas_after(front) {
        if let Some(offsets) = offsets_into(*last, *area) {
            add_span(alloc, spans, declared, codes, offsets)?;
        }
    }
    Ok(())
}

/// The units that may end a text after these units.
fn areas_after(front: &[u16]) -> &'static [Range] {
    match front.last() {
        Some(0xD800..=0xDBFF) => LOW_SURROGATES,
        _ => SINGLE_UNITS,
    }
}

/// The offsets that take a unit into an area.
fn offsets_into(unit: u16, area: Range) -> Option<Range> {
    Some(Range {
        start: area.start.saturating_sub(u32::from(unit)),
        end: area.end.checked_sub(u32::from(unit))?,
    })
}

/// Adds the codes at these offsets, where they have texts.
fn add_span(
    alloc: Global,
    spans: &mut Vec<TextSpan>,
    declared: &BfRange,
    codes: Range,
    offsets: Range,
) -> Result<(), AllocError> {
    let begin = declared.range.start;
    let Some(start) = begin.checked_add(offsets.start) else {
        return Ok(());
    };
    let end = begin.saturating_add(offsets.end);
    let codes = common(codes, Range { start, end });
    if codes.start > codes.end {
        return Ok(());
    }
    let offset = codes.start.saturating_sub(begin);
    let text = utf16::text(alloc, declared.units.as_slice(), offset)?;
    if text.is_some() {
        spans.push(TextSpan { codes, text })?;
    }
    Ok(())
}

/// The declarations of the top layer that have a code without a text. The warning concerns the shown codes without a
/// text.
pub(crate) fn no_text<'m>(
    alloc: Global,
    subject: &Subject<'m>,
    layer: &Layer,
) -> Result<Finding<'m>, AllocError> {
    let mut finding = OpenFinding::new(alloc, Warning::NoText, subject.shown);
    let table = layer.texts();
    let mut looks = Looks::new();
    for index in 0..table.decl_count() {
        let declared = table.decl(index, &mut looks);
        let ranges = without_text(alloc, declared, declared.range)?;
        if let Some(first) = ranges.first() {
            let byte_len = text_code_len(subject.map, declared.range);
            let code = first.start;
            finding.found.add(1, Place::Code { byte_len, code });
            finding.concerned.add_all(&ranges);
        }
    }
    finding.finish(alloc)
}

/// The codes that have no text of a declaration, as disjoint ranges, in order.
pub(crate) fn without_text(
    alloc: Global,
    declared: &BfRange,
    codes: Range,
) -> Result<Vec<Range>, AllocError> {
    let mut ranges = Vec::new(alloc);
    let mut next = Some(codes.start);
    for span in &spans_of(alloc, declared, codes)? {
        push_between(&mut ranges, next, span.codes.start.checked_sub(1))?;
        next = span.codes.end.checked_add(1);
    }
    push_between(&mut ranges, next, Some(codes.end))?;
    Ok(ranges)
}

/// Adds the codes from a first code to a last one, where both exist.
fn push_between(
    ranges: &mut Vec<Range>,
    first: Option<u32>,
    last: Option<u32>,
) -> Result<(), AllocError> {
    match (first, last) {
        (Some(start), Some(end)) => push_range(ranges, Range { start, end }),
        _ => Ok(()),
    }
}
