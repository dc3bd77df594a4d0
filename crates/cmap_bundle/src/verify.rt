//! The comparison of a bundle with the files that it was made from, code by code.

use crate::choice::Chosen;
use crate::difference::{Difference, push_difference};
use cmap_io::escape::push_text;
use cmap_unicode::declared_cid;
use hayro_cmap::runs::{HasRange, Looks, Range, Table};
use hayro_cmap::{
    Bundle, BundleFiles, CMap, CodeLength, Codespace, Layer, NamedFiles, SalvagedMap,
};
use std::alloc::{AllocError, Global};

/// The map of a given file, and the map of the bundle's file of the same name.
#[derive(Clone, Copy)]
struct Pair<'p> {
    of_file: &'p CMap,
    of_bundle: &'p CMap,
}

/// A line for each file from which the bundle differs, with the first difference.
pub fn differences(
    alloc: Global,
    bundle: &Bundle<'_>,
    files: &[Chosen<'_>],
) -> Result<Vec<String>, AllocError> {
    let named = named_of(alloc, files)?;
    let mut lines = Vec::new(alloc);
    for chosen in files {
        if let Some(difference) = difference_of(alloc, bundle, &named, chosen)? {
            lines.push(line_of(alloc, chosen, difference)?)?;
        }
    }
    Ok(lines)
}

/// The files by their names.
fn named_of<'f>(
    alloc: Global,
    files: &'f [Chosen<'_>],
) -> Result<Vec<(&'f [u8], &'f [u8])>, AllocError> {
    let mut named: Vec<(&'f [u8], &'f [u8])> = Vec::with_capacity(alloc, files.len())?;
    for chosen in files {
        named.push((chosen.name(), &chosen.candidate.bytes))?;
    }
    Ok(named)
}

fn line_of(
    alloc: Global,
    chosen: &Chosen<'_>,
    difference: Difference,
) -> Result<String, AllocError> {
    let mut line = String::new(alloc);
    push_text(&mut line, chosen.candidate.path.as_str())?;
    line.push_str(": ")?;
    push_difference(&mut line, difference)?;
    Ok(line)
}

/// The first difference between the bundle and a file.
fn difference_of(
    alloc: Global,
    bundle: &Bundle<'_>,
    named: &[(&[u8], &[u8])],
    chosen: &Chosen<'_>,
) -> Result<Option<Difference>, AllocError> {
    let Some(bytes) = bundle.file_of(chosen.name()) else {
        return Ok(Some(Difference::Absent));
    };
    if CMap::uses(alloc, bytes, Some(bundle))?.as_ref() != Some(&chosen.file.uses) {
        return Ok(Some(Difference::Uses));
    }
    let given: NamedFiles<'_, (&[u8], &[u8]), Bundle<'_>> = NamedFiles::alone(named);
    let of_file = CMap::salvage(alloc, None, &chosen.candidate.bytes, None, &given)?;
    difference_from(alloc, &of_file, bundle, bytes)
}

/// The first difference between a file and the bundle's file of the same name.
fn difference_from(
    alloc: Global,
    of_file: &SalvagedMap<'_>,
    bundle: &Bundle<'_>,
    bytes: &[u8],
) -> Result<Option<Difference>, AllocError> {
    let own = Some(bundle);
    let of_bundle = CMap::salvage(alloc, None, bytes, own, &own)?;
    if of_file.faults.len() != of_bundle.faults.len() {
        return Ok(Some(Difference::Faults));
    }
    let pair = Pair {
        of_file: &of_file.map,
        of_bundle: &of_bundle.map,
    };
    pair.difference(alloc)
}

impl Pair<'_> {
    /// The first difference.
    fn difference(&self, alloc: Global) -> Result<Option<Difference>, AllocError> {
        if let Some(difference) = self.of_metadata() {
            return Ok(Some(difference));
        }
        for len in CodeLength::ALL {
            if let Some(difference) = self.of_cids(*len) {
                return Ok(Some(difference));
            }
        }
        self.of_texts(alloc)
    }

    /// The first difference in metadata and codespace ranges.
    fn of_metadata(&self) -> Option<Difference> {
        let (file, bundle) = (self.of_file.metadata(), self.of_bundle.metadata());
        if file.name != bundle.name {
            Some(Difference::Name)
        } else if file.character_collection != bundle.character_collection {
            Some(Difference::Collection)
        } else if file.writing_mode != bundle.writing_mode {
            Some(Difference::WritingMode)
        } else if !are_alike(codespaces_of(self.of_file), codespaces_of(self.of_bundle)) {
            Some(Difference::Codespaces)
        } else {
            None
        }
    }

    /// The first CID that differs among the codes of a length. All codes of one and two bytes are compared, and longer
    /// codes only around the ends of declarations.
    fn of_cids(&self, len: CodeLength) -> Option<Difference> {
        match len {
            CodeLength::One | CodeLength::Two => {
                self.of_codes(
                    len,
                    Range {
                        start: 0,
                        end: len.last_code(),
                    },
                )
            }
            CodeLength::Three | CodeLength::Four => self
                .of_layers(self.of_file.layers().as_slice(), len)
                .or(self.of_layers(self.of_bundle.layers().as_slice(), len)),
        }
    }

    /// The first CID of these codes that differs, either by a lookup or as declared.
    fn of_codes(&self, len: CodeLength, codes: Range) -> Option<Difference> {
        for code in codes.start..=codes.end {
            let of_file = self.of_file.lookup_cid_code(code, len.count());
            let of_bundle = self.of_bundle.lookup_cid_code(code, len.count());
            if of_file != of_bundle {
                return Some(Difference::Cid {
                    code,
                    len,
                    of_file,
                    of_bundle,
                });
            }
            if !self.has_one_declared(len, code) {
                return Some(Difference::DeclaredCid { code, len });
            }
        }
        None
    }

    /// Whether the CID that is declared for a code is the same, also where its character is that number.
    fn has_one_declared(&self, len: CodeLength, code: u32) -> bool {
        let of_file = declared_cid(self.of_file.layers(), code, len.count());
        let of_bundle = declared_cid(self.of_bundle.layers(), code, len.count());
        of_file == of_bundle
    }

    fn of_layers(&self, layers: &[Layer], len: CodeLength) -> Option<Difference> {
        for layer in layers {
            let found = self
                .of_ends(layer.cids(len), len)
                .or(self.of_ends(layer.notdefs(len), len));
            if found.is_some() {
                return found;
            }
        }
        None
    }

    /// The first CID around the ends of declarations that differs.
    fn of_ends<T: HasRange>(&self, table: &Table<T>, len: CodeLength) -> Option<Difference> {
        let mut looks = Looks::new();
        for index in 0..table.decl_count() {
            let Range { start, end } = *table.decl(index, &mut looks).range();
            let found = self
                .of_codes(len, around(start))
                .or(self.of_codes(len, around(end)));
            if found.is_some() {
                return found;
            }
        }
        None
    }

    /// The first text that differs. All codes up to FFFF are compared, and further codes only around the ends of
    /// declarations.
    fn of_texts(&self, alloc: Global) -> Result<Option<Difference>, AllocError> {
        let first = Range {
            start: 0,
            end: 0xFFFF,
        };
        if let Some(difference) = self.of_texts_in(alloc, first)? {
            return Ok(Some(difference));
        }
        if let Some(difference) = self.of_text_layers(alloc, self.of_file.layers().as_slice())? {
            return Ok(Some(difference));
        }
        self.of_text_layers(alloc, self.of_bundle.layers().as_slice())
    }

    /// The first text of these codes that differs.
    fn of_texts_in(&self, alloc: Global, codes: Range) -> Result<Option<Difference>, AllocError> {
        for code in codes.start..=codes.end {
            let of_file = self.of_file.lookup_bf_string(alloc, code)?;
            let of_bundle = self.of_bundle.lookup_bf_string(alloc, code)?;
            if of_file != of_bundle {
                return Ok(Some(Difference::Text(code)));
            }
        }
        Ok(None)
    }

    fn of_text_layers(
        &self,
        alloc: Global,
        layers: &[Layer],
    ) -> Result<Option<Difference>, AllocError> {
        for layer in layers {
            if let Some(difference) = self.of_text_ends(alloc, layer)? {
                return Ok(Some(difference));
            }
        }
        Ok(None)
    }

    /// The first text around the ends of declarations that differs.
    fn of_text_ends(&self, alloc: Global, layer: &Layer) -> Result<Option<Difference>, AllocError> {
        let table = layer.texts();
        let mut looks = Looks::new();
        for index in 0..table.decl_count() {
            let Range { start, end } = table.decl(index, &mut looks).range;
            if let Some(difference) = self.of_texts_in(alloc, around(start))? {
                return Ok(Some(difference));
            }
            if let Some(difference) = self.of_texts_in(alloc, around(end))? {
                return Ok(Some(difference));
            }
        }
        Ok(None)
    }
}

/// The range of a code with its predecessor and its successor. The first code has no predecessor, and the last code
/// has no successor.
fn around(code: u32) -> Range {
    Range {
        start: code.saturating_sub(1),
        end: code.saturating_add(1),
    }
}

/// The codespace ranges of the file of a map.
fn codespaces_of(map: &CMap) -> &[Codespace] {
    match map.layers().as_slice() {
        [top, ..] => top.codespaces(),
        [] => &[],
    }
}

/// Whether these are the same codespace ranges in the same order.
fn are_alike(one: &[Codespace], other: &[Codespace]) -> bool {
    if one.len() != other.len() {
        return false;
    }
    for (one, other) in one.iter().zip(other) {
        if !is_same(one, other) {
            return false;
        }
    }
    true
}

fn is_same(one: &Codespace, other: &Codespace) -> bool {
    one.len == other.len && one.low == other.low && one.high == other.high
}
