//! The declarations of the layers of a map, one by one.

pub mod effective;
pub mod line;
pub mod metadata;

use self::line::{Given, Line, add_texts_of};
use hayro_cmap::runs::{Looks, Range, Table};
use hayro_cmap::{BfRange, CMap, CidRange, CodeLength, Codespace, Layer};
use std::alloc::{AllocError, Global};

/// The declarations of each layer, the top layer first: the codespace ranges, then the CIDs, the notdefs and the
/// texts, each in the order of the file.
pub fn lines_by_layer(alloc: Global, map: &CMap) -> Result<Vec<Vec<Line>>, AllocError> {
    let mut layers = Vec::new(alloc);
    for layer in map.layers().as_slice() {
        layers.push(lines_of(alloc, map, layer)?)?;
    }
    Ok(layers)
}

/// The declarations of a layer.
fn lines_of(alloc: Global, map: &CMap, layer: &Layer) -> Result<Vec<Line>, AllocError> {
    let mut lines = Vec::new(alloc);
    add_codespaces(&mut lines, layer.codespaces())?;
    add_list(&mut lines, layer, CidList::Cids)?;
    add_list(&mut lines, layer, CidList::Notdefs)?;
    add_texts(alloc, &mut lines, map, layer.texts())?;
    Ok(lines)
}

fn add_codespaces(lines: &mut Vec<Line>, spaces: &[Codespace]) -> Result<(), AllocError> {
    for space in spaces {
        lines.push(Line {
            byte_len: space.len.count(),
            range: Range {
                start: space.low,
                end: space.high,
            },
            given: Given::Codespace,
        })?;
    }
    Ok(())
}

/// The lists of a layer whose declarations give CIDs.
#[derive(Clone, Copy)]
enum CidList {
    Cids,
    Notdefs,
}

impl CidList {
    /// The declarations of this list for codes of a length.
    fn table(self, layer: &Layer, len: CodeLength) -> &Table<CidRange> {
        match self {
            CidList::Cids => layer.cids(len),
            CidList::Notdefs => layer.notdefs(len),
        }
    }

    /// The values that a declaration of this list gives, by its CID.
    fn given(self, cid: u32) -> Given {
        match self {
            CidList::Cids => Given::Cids(cid),
            CidList::Notdefs => Given::Notdef(cid),
        }
    }
}

/// Adds a list of a layer, the declarations for codes of one byte first.
fn add_list(lines: &mut Vec<Line>, layer: &Layer, list: CidList) -> Result<(), AllocError> {
    for len in CodeLength::ALL {
        add_declarations(lines, layer, list, *len)?;
    }
    Ok(())
}

/// Adds the declarations of a list for codes of a length.
fn add_declarations(
    lines: &mut Vec<Line>,
    layer: &Layer,
    list: CidList,
    len: CodeLength,
) -> Result<(), AllocError> {
    let table = list.table(layer, len);
    let mut looks = Looks::new();
    for index in 0..table.decl_count() {
        let declared = table.decl(index, &mut looks);
        lines.push(Line {
            byte_len: len.count(),
            range: declared.range,
            given: list.given(declared.cid),
        })?;
    }
    Ok(())
}

fn add_texts(
    alloc: Global,
    lines: &mut Vec<Line>,
    map: &CMap,
    table: &Table<BfRange>,
) -> Result<(), AllocError> {
    let mut looks = Looks::new();
    for index in 0..table.decl_count() {
        let declared = table.decl(index, &mut looks);
        add_texts_of(alloc, lines, map, declared, declared.range)?;
    }
    Ok(())
}
