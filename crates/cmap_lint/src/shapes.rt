//! Ranges with suspect ends, or with texts that count on too far.

use crate::declared::{CID_LISTS, CidList};
use crate::finding::{OpenFinding, Place};
use crate::lint::Subject;
use crate::warning::Warning;
use cmap_layers::code_lengths::text_code_len;
use cmap_layers::layer::Layer;
use cmap_layers::layers::Layers;
use cmap_runs::runs::{Looks, Range};
use cmap_values::code_length::CodeLength;
use cmap_values::declarations::BfRange;
use std::alloc::Global;

/// The suspect declarations of a layer, by the kind of their flaw.
#[derive(Drop)]
pub(crate) struct Shapes<'m> {
    pub(crate) inverted: OpenFinding<'m>,
    pub(crate) crossing: OpenFinding<'m>,
    pub(crate) passing: OpenFinding<'m>,
}

impl<'m> Shapes<'m> {
    /// The suspect declarations of the top layer.
    pub(crate) fn of(alloc: Global, subject: &Subject<'m>, layer: &Layer) -> Shapes<'m> {
        let mut shapes = Shapes {
            inverted: OpenFinding::new(alloc, Warning::InvertedRange, subject.shown),
            crossing: OpenFinding::new(alloc, Warning::CrossesRow, subject.shown),
            passing: OpenFinding::new(alloc, Warning::LastByte, subject.shown),
        };
        for list in CID_LISTS {
            shapes.add_list(layer, *list);
        }
        shapes.add_texts(subject.map, layer);
        shapes
    }

    /// Checks the declarations of a list, in ascending order of the length of their codes.
    fn add_list(&mut self, layer: &Layer, list: CidList) {
        for len in CodeLength::ALL {
            self.add_cids(layer, list, *len);
        }
    }

    /// Checks the declarations of a list for codes of a length.
    fn add_cids(&mut self, layer: &Layer, list: CidList, len: CodeLength) {
        let table = list.table(layer, len);
        let mut looks = Looks::new();
        for index in 0..table.decl_count() {
            self.add(len.count(), table.decl(index, &mut looks).range);
        }
    }

    /// Checks the declarations of texts.
    fn add_texts(&mut self, map: &Layers, layer: &Layer) {
        let table = layer.texts();
        let mut looks = Looks::new();
        for index in 0..table.decl_count() {
            let declared = table.decl(index, &mut looks);
            let range = declared.range;
            let byte_len = text_code_len(map, range);
            self.add(byte_len, range);
            if passes_last_byte(declared) {
                add_declaration(&mut self.passing, byte_len, range);
            }
        }
    }

    /// Checks the range of a declaration.
    fn add(&mut self, byte_len: u8, range: Range) {
        if range.start > range.end {
            add_declaration(&mut self.inverted, byte_len, range);
        } else if range.start >> 8 != range.end >> 8 {
            add_declaration(&mut self.crossing, byte_len, range);
        }
    }
}

/// Adds a declaration. The warning concerns the shown codes between the ends of the declaration.
fn add_declaration(finding: &mut OpenFinding<'_>, byte_len: u8, range: Range) {
    finding.found.add(1, Place::Range { byte_len, range });
    finding.concerned.add(Range {
        start: range.start.min(range.end),
        end: range.start.max(range.end),
    });
}

/// Whether the last byte of a text counts on past 255 before the last code. ISO 32000-1, 9.10.3.
fn passes_last_byte(declared: &BfRange) -> bool {
    let Some(unit) = declared.units.as_slice().last() else {
        return false;
    };
    let Range { start, end } = declared.range;
    let further = end.saturating_sub(start);
    u32::from(*unit % 256).saturating_add(further) > 255
}
