//! Texts with characters that a map to Unicode should not have.

use crate::finding::{Finding, OpenFinding};
use crate::lint::Subject;
use crate::ranges::common;
use crate::text_spans::{TextSpan, spans_of};
use crate::warning::Warning;
use cmap_layers::code_lengths::text_code_len;
use cmap_layers::layer::Layer;
use cmap_layers::layers::Layers;
use cmap_runs::runs::{Looks, Range};
use cmap_tokens::utf16::BfString;
use std::alloc::{AllocError, Global};
use std::str::Chars;

/// Code points from a first point to a last one.
type Points = (u32, u32);

/// The warnings about characters, each with its code points.
pub(crate) const CHARACTER_WARNINGS: &[(Warning, &[Points])] = &[
    (Warning::PrivateUse, PRIVATE_USE),
    (Warning::Noncharacter, NONCHARACTERS),
    (Warning::ReplacementCharacter, REPLACEMENT),
    (Warning::NullCharacter, NULL),
];

/// The characters for private use. The Unicode Standard, 23.5.
const PRIVATE_USE: &[Points] = &[
    (0xE000, 0xF8FF),
    (0xF_0000, 0xF_FFFD),
    (0x10_0000, 0x10_FFFD),
];

/// The noncharacters. The Unicode Standard, 23.7.
const NONCHARACTERS: &[Points] = &[
    (0xFDD0, 0xFDEF),
    (0xFFFE, 0xFFFF),
    (0x1_FFFE, 0x1_FFFF),
    (0x2_FFFE, 0x2_FFFF),
    (0x3_FFFE, 0x3_FFFF),
    (0x4_FFFE, 0x4_FFFF),
    (0x5_FFFE, 0x5_FFFF),
    (0x6_FFFE, 0x6_FFFF),
    (0x7_FFFE, 0x7_FFFF),
    (0x8_FFFE, 0x8_FFFF),
    (0x9_FFFE, 0x9_FFFF),
    (0xA_FFFE, 0xA_FFFF),
    (0xB_FFFE, 0xB_FFFF),
    (0xC_FFFE, 0xC_FFFF),
    (0xD_FFFE, 0xD_FFFF),
    (0xE_FFFE, 0xE_FFFF),
    (0xF_FFFE, 0xF_FFFF),
    (0x10_FFFE, 0x10_FFFF),
];

const REPLACEMENT: &[Points] = &[(0xFFFD, 0xFFFD)];

const NULL: &[Points] = &[(0, 0)];

/// The codes of the top layer whose texts have one of the code points of a warning.
pub(crate) fn characters<'m>(
    alloc: Global,
    subject: &Subject<'m>,
    layer: &Layer,
    warning: Warning,
    points: &[Points],
) -> Result<Finding<'m>, AllocError> {
    let mut finding = OpenFinding::new(alloc, warning, subject.shown);
    let table = layer.texts();
    let mut looks = Looks::new();
    for index in 0..table.run_count() {
        let (start, end, _) = table.run(index, &mut looks);
        if let Some(declared) = table.find(start, &mut looks) {
            let spans = spans_of(alloc, declared, Range { start, end })?;
            add_spans(&mut finding, subject.map, &spans, points);
        }
    }
    finding.finish(alloc)
}

fn add_spans(finding: &mut OpenFinding<'_>, map: &Layers, spans: &[TextSpan], points: &[Points]) {
    for span in spans {
        match &span.text {
            Some(BfString::Char(last)) => add_areas(finding, map, span.codes, *last, points),
            Some(BfString::String(text)) => {
                add_string(finding, map, span.codes, text.chars(), points)
            }
            None => {}
        }
    }
}

/// Adds the codes of a span whose texts have one of the points. All codes have one if a character before
/// the last is one of the points.
fn add_string(
    finding: &mut OpenFinding<'_>,
    map: &Layers,
    codes: Range,
    mut characters: Chars<'_>,
    points: &[Points],
) {
    let Some(last) = characters.next_back() else {
        return;
    };
    if has_any(characters, points) {
        add_codes(finding, map, codes);
    } else {
        add_areas(finding, map, codes, last, points);
    }
}

/// Whether one of these characters is one of the points.
fn has_any(characters: Chars<'_>, points: &[Points]) -> bool {
    for character in characters {
        if is_among(character, points) {
            return true;
        }
    }
    false
}

fn is_among(character: char, points: &[Points]) -> bool {
    let point = u32::from(character);
    for (start, end) in points {
        if *start <= point && point <= *end {
            return true;
        }
    }
    false
}

/// Adds the codes whose last character is one of the points. `last` belongs to the first code.
fn add_areas(
    finding: &mut OpenFinding<'_>,
    map: &Layers,
    codes: Range,
    last: char,
    points: &[Points],
) {
    for (start, end) in points {
        let area = Range {
            start: *start,
            end: *end,
        };
        if let Some(codes) = codes_with(codes, u32::from(last), area) {
            add_codes(finding, map, codes);
        }
    }
}

/// The codes whose last character lies in an area. `first` belongs to the first code.
fn codes_with(codes: Range, first: u32, area: Range) -> Option<Range> {
    let further = codes.end.saturating_sub(codes.start);
    let found = common(
        area,
        Range {
            start: first,
            end: first.saturating_add(further),
        },
    );
    Some(Range {
        start: codes
            .start
            .saturating_add(found.start.saturating_sub(first)),
        end: codes.start.saturating_add(found.end.checked_sub(first)?),
    })
}

fn add_codes(finding: &mut OpenFinding<'_>, map: &Layers, codes: Range) {
    finding.add_codes(text_code_len(map, codes), codes);
}
