//! Texts without units, which a file has where an empty string is read past its fault. No text file can declare such
//! texts.

use crate::within::part_of;
use cmap_runs::runs::{Looks, Table};
use cmap_values::declarations::{BfRange, Lists};
use cmap_values::file::File;
use std::alloc::{AllocError, Global};

/// The file without declarations of texts for the codes whose text has no units.
pub(crate) fn without_empty_texts<'d>(
    alloc: Global,
    file: File<'d>,
) -> Result<File<'d>, AllocError> {
    if !has_empty_text(&file.lists.bfs) {
        return Ok(file);
    }
    let File {
        metadata,
        lists,
        uses,
    } = file;
    let Lists {
        cids,
        notdefs,
        bfs,
        spaces,
    } = lists;
    let bfs = filled_texts(alloc, bfs)?;
    Ok(File {
        metadata,
        lists: Lists {
            cids,
            notdefs,
            bfs,
            spaces,
        },
        uses,
    })
}

fn has_empty_text(texts: &[BfRange]) -> bool {
    for text in texts {
        if text.units.as_slice().is_empty() {
            return true;
        }
    }
    false
}

/// The parts of declarations that decide the text of a code, except for parts without a text.
fn filled_texts(alloc: Global, texts: Vec<BfRange>) -> Result<Vec<BfRange>, AllocError> {
    let table = Table::build(alloc, texts)?;
    let mut looks = Looks::new();
    let mut filled = Vec::with_capacity(alloc, table.run_count())?;
    for index in 0..table.run_count() {
        let (first, last, _) = table.run(index, &mut looks);
        match table.find(first, &mut looks) {
            Some(text) if has_text(text, first) => filled.push(part_of(alloc, text, first, last)?)?,
            _ => {}
        }
    }
    Ok(filled)
}

/// Whether this code has a text: the last unit plus the offset of the code in the range stays within 16 bits.
fn has_text(text: &BfRange, code: u32) -> bool {
    let further = code.saturating_sub(text.range.start);
    match text.units.as_slice().last() {
        Some(last) => further <= u32::from(u16::MAX - *last),
        None => false,
    }
}
