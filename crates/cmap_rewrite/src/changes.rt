//! Changes to a file before it is written: one file for all layers of a map, or for some of its codes, and the fewest
//! declarations.

use crate::filled::without_empty_texts;
use crate::order::put_single_codes_first;
use crate::within::cut_texts;
use cmap_edit::flatten::{Codes, Contradiction, flatten, subset};
use cmap_edit::tidy::tidy;
use cmap_io::digits::push_code;
use cmap_io::escape::push_text;
use cmap_io::failure::Failure;
use cmap_runs::runs::{Looks, Table};
use cmap_values::code_length::CodeLength;
use cmap_values::declarations::{BfRange, ByLength, CidRange, Lists};
use cmap_values::fault::Fault;
use cmap_values::file::File;
use cmap_values::range::{HasRange, Range};
use hayro_cmap::{CMap, Layer};
use std::alloc::{AllocError, Global};

/// The most rows of 256 codes that the declarations of a file may have in all to be made tidy. One declaration can have
/// 2^24 rows.
const MOST_ROWS: u64 = 1 << 20;

/// The most units that the texts of a file may have in all to be made tidy, with each text as long as the longest text.
/// A range is cut where other ranges begin and end, and each part has a text of its own.
const MOST_UNITS: u64 = 1 << 24;

/// One file that gives the same answers as the map: for all codes, or only for the codes of the strings in `kept`.
pub(crate) fn one_file<'d>(
    alloc: Global,
    path: &str,
    map: &CMap,
    kept: Option<&[Vec<u8>]>,
) -> Result<File<'d>, Failure> {
    let made = match kept {
        Some(strings) => subset(alloc, map.layers(), &codes_of(alloc, map, strings)?),
        None if rows_of_map(map) > MOST_ROWS => {
            return Err(Failure::Message(large_line(alloc, path)?));
        }
        None if texts_of_map(map).units() > MOST_UNITS => {
            return Err(Failure::Message(long_line(alloc, path)?));
        }
        None => flatten(alloc, map.layers()),
    };
    match made {
        Ok(file) => Ok(ordered(file)?),
        Err(Fault::Refused(contradiction)) => {
            Err(Failure::Message(contradiction_line(alloc, path, contradiction)?))
        }
        Err(Fault::Memory) => Err(Failure::Memory),
    }
}

/// The codes of strings.
fn codes_of(alloc: Global, map: &CMap, strings: &[Vec<u8>]) -> Result<Vec<Codes>, AllocError> {
    let mut codes = Vec::new(alloc);
    for string in strings {
        add_codes(&mut codes, map, string)?;
    }
    Ok(codes)
}

/// Adds the codes of a string.
fn add_codes(codes: &mut Vec<Codes>, map: &CMap, string: &[u8]) -> Result<(), AllocError> {
    let mut rest = string;
    for _ in 0..string.len() {
        let Some(next) = map.next_code(rest) else {
            break;
        };
        if let Some(len) = CodeLength::of(next.byte_len) {
            let (start, end) = (next.code, next.code);
            let range = Range { start, end };
            codes.push(Codes { len, range })?;
        }
        rest = &rest[usize::from(next.byte_len)..];
    }
    Ok(())
}

/// The file in the fewest declarations. A file with too many rows of codes or too long texts stays as it is.
pub(crate) fn tidied<'d>(alloc: Global, file: File<'d>) -> Result<File<'d>, AllocError> {
    if is_large(&file) {
        return Ok(file);
    }
    ordered(tidy(alloc, &file)?)
}

/// Whether the ranges of a file have too many rows of codes, or its texts are too long.
fn is_large(file: &File<'_>) -> bool {
    rows_of_file(&file.lists) > MOST_ROWS || texts_of_file(&file.lists).units() > MOST_UNITS
}

/// The number of texts, and the number of units of the longest text.
#[derive(Clone, Copy)]
struct TextSizes {
    count: u64,
    longest: u64,
}

impl TextSizes {
    /// No texts.
    const NONE: TextSizes = TextSizes {
        count: 0,
        longest: 0,
    };

    /// The sizes with one more text.
    fn with(self, entry: &BfRange) -> TextSizes {
        TextSizes {
            count: self.count.saturating_add(1),
            longest: self.longest.max(entry.units.as_slice().len() as u64),
        }
    }

    /// The number of units of all texts, each as long as the longest text.
    fn units(self) -> u64 {
        self.count.saturating_mul(self.longest)
    }
}

fn texts_of_file(lists: &Lists) -> TextSizes {
    let mut sizes = TextSizes::NONE;
    for entry in &lists.bfs {
        sizes = sizes.with(entry);
    }
    sizes
}

fn texts_of_map(map: &CMap) -> TextSizes {
    let mut sizes = TextSizes::NONE;
    for layer in map.layers().as_slice() {
        sizes = with_texts(sizes, layer.texts());
    }
    sizes
}

fn with_texts(before: TextSizes, table: &Table<BfRange>) -> TextSizes {
    let mut looks = Looks::new();
    let mut sizes = before;
    for index in 0..table.decl_count() {
        sizes = sizes.with(table.decl(index, &mut looks));
    }
    sizes
}

/// The file with the CIDs of single codes before the CIDs of ranges.
fn ordered<'d>(mut file: File<'d>) -> Result<File<'d>, AllocError> {
    put_single_codes_first(&mut file.lists)?;
    Ok(file)
}

/// The file in the fewest declarations that all readers accept: each text has units, and no range of texts lies partly
/// in a codespace range. A file with too many rows of codes or too long texts isn't made tidy.
pub(crate) fn repaired<'d>(alloc: Global, file: File<'d>) -> Result<File<'d>, AllocError> {
    let file = without_empty_texts(alloc, file)?;
    if is_large(&file) {
        return Ok(file);
    }
    let File {
        metadata,
        lists,
        uses,
    } = tidied(alloc, file)?;
    let Lists {
        cids,
        notdefs,
        bfs,
        spaces,
    } = lists;
    let bfs = cut_texts(alloc, &bfs, &spaces)?;
    Ok(File {
        metadata,
        lists: Lists {
            cids,
            notdefs,
            bfs,
            spaces,
        },
        uses,
    })
}

/// The number of rows of 256 codes that the declarations of a file cover, counted separately for each declaration.
fn rows_of_file(lists: &Lists) -> u64 {
    let mut rows: u64 = rows_of(&lists.bfs);
    for list in [&lists.cids, &lists.notdefs] {
        rows = rows.saturating_add(rows_by_length(list));
    }
    rows
}

fn rows_by_length(lists: &ByLength<Vec<CidRange>>) -> u64 {
    let mut rows: u64 = 0;
    for len in CodeLength::ALL {
        rows = rows.saturating_add(rows_of(lists.get(*len)));
    }
    rows
}

fn rows_of<T: HasRange>(list: &[T]) -> u64 {
    let mut rows: u64 = 0;
    for entry in list {
        rows = rows.saturating_add(rows_in(entry.range()));
    }
    rows
}

/// The number of rows of 256 codes that the declarations of all layers cover.
fn rows_of_map(map: &CMap) -> u64 {
    let mut rows: u64 = 0;
    for layer in map.layers().as_slice() {
        rows = rows.saturating_add(rows_of_layer(layer));
    }
    rows
}

fn rows_of_layer(layer: &Layer) -> u64 {
    let mut rows = rows_of_table(layer.texts());
    for len in CodeLength::ALL {
        rows = rows.saturating_add(rows_of_table(layer.cids(*len)));
        rows = rows.saturating_add(rows_of_table(layer.notdefs(*len)));
    }
    rows
}

fn rows_of_table<T: HasRange>(table: &Table<T>) -> u64 {
    let mut looks = Looks::new();
    let mut rows: u64 = 0;
    for index in 0..table.decl_count() {
        rows = rows.saturating_add(rows_in(table.decl(index, &mut looks).range()));
    }
    rows
}

/// The number of rows of 256 codes in which a range has a code.
fn rows_in(range: &Range) -> u64 {
    match (range.end / 256).checked_sub(range.start / 256) {
        Some(further) => u64::from(further) + 1,
        None => 0,
    }
}

/// The line that states that declarations have too many rows of codes.
fn large_line(alloc: Global, path: &str) -> Result<String, AllocError> {
    let mut line = String::new(alloc);
    push_text(&mut line, path)?;
    line.push_str(": its ranges cover more than 1048576 rows of 256 codes")?;
    Ok(line)
}

/// The line that states that texts are too long.
fn long_line(alloc: Global, path: &str) -> Result<String, AllocError> {
    let mut line = String::new(alloc);
    push_text(&mut line, path)?;
    line.push_str(": the number of its texts, times the units of the longest, exceeds 16777216")?;
    Ok(line)
}

/// The line that states that no single file gives a code the CID and the text that the map gives the code.
fn contradiction_line(
    alloc: Global,
    path: &str,
    contradiction: Contradiction,
) -> Result<String, AllocError> {
    let mut line = String::new(alloc);
    push_text(&mut line, path)?;
    line.push_str(": no single file can give the code <")?;
    push_code(&mut line, contradiction.len.count(), contradiction.code)?;
    line.push_str("> both its CID and its text")?;
    Ok(line)
}
