//! The division of a list of declarations into sections.

ghost use Rattle.std.specs.Prelude.{◌≡◌, ◌↔◌, ◌+◌, ◌<◌, ◌≤◌, All, IsTrue, length, map, take};
ghost use Rattle.cmap_text_writer.specs.Fits.{IsLine, IsOfExtent, IsRow};
ghost use Rattle.cmap_values.specs.DeclarationsSeen.{bf_entry_seen};
ghost use Rattle.cmap_text.specs.TextSeen.{extent_seen};

use crate::text_lengths::TextLengths;
use crate::walk::Walk;
use cmap_text::Extent;
use cmap_values::code_length::CodeLength;
use cmap_values::declarations::{BfRange, CidRange};
use cmap_values::range::{HasRange, Range};

/// The most declarations of a section.
pub(crate) const MOST: usize = 100;

/// The fewest texts of consecutive codes that are shorter as an array.
const LEAST: usize = 3;

/// The number of declarations in the next section.
pub(crate) fn next_cid_section(len: CodeLength, entries: &[CidRange]) -> usize
    requires { 0 < length entries.now }
    ensures some { 0 < result }
    ensures within { result ≤ length entries.now }
    ensures few { result ≤ 100 }
{
    let here = &entries[..entries.len().min(MOST)];
    let mut walk = Walk::new(len);
    let mut left = here;
    while !left.is_empty() && !walk.is_over() {
        let (alike, later) = left.split_at(count_alike(left));
        if is_single(&left[0].range) {
            walk.pass_singles(alike.len());
        } else {
            walk.pass_ranges(alike.len());
        }
        left = later;
    }
    let (extent, count) = walk.end(entries.len());
    let (_, count) = section_of(here, extent, count);
    count
}

/// The next section of texts: what its entries are for, and the number of its texts.
pub(crate) fn next_text_section(lengths: TextLengths, entries: &[BfRange]) -> (Extent, usize)
    requires { 0 < length entries.now }
    ensures some { 0 < result.1 }
    ensures within { result.1 ≤ length entries.now }
    ensures few { result.1 ≤ 100 }
    ensures all { All (λ e. IsOfExtent (extent_seen result.0) e.range.start e.range.end) (take result.1 entries.now) }
{
    let here = &entries[..entries.len().min(MOST)];
    let mut walk = Walk::new(lengths.of(entries[0].range.start));
    let mut left = here;
    while !left.is_empty() && !walk.is_over() {
        let (line, later) = left.split_at(count_line(left));
        match line {
            [entry] if is_single(&entry.range) => walk.pass_singles(1),
            [_] => walk.pass_ranges(1),
            _ => walk.pass_array(line.len()),
        }
        left = later;
    }
    let (extent, count) = walk.end(entries.len());
    section_of(here, extent, count)
}

/// A section of at most `count` declarations and at least one: for single codes, the single codes at the
/// beginning of the list, if there are any.
fn section_of<T: HasRange>(entries: &[T], extent: Extent, count: usize) -> (Extent, usize)
    requires { 0 < length entries.now }
    ensures some { 0 < result.1 }
    ensures within { result.1 ≤ length entries.now }
    ensures all { All (λ e. IsOfExtent (extent_seen result.0) (T.span e).start (T.span e).end) (take result.1 entries.now) }
{
    let count = count.min(entries.len()).max(1);
    let singles = match extent {
        Extent::Single => count_singles(&entries[..count]),
        Extent::Range => 0,
    };
    if singles > 0 {
        (Extent::Single, singles)
    } else {
        (Extent::Range, count)
    }
}

/// The number of declarations at the beginning of a list that are for single codes, or for ranges, like
/// the first one.
fn count_alike(entries: &[CidRange]) -> usize
    requires { 0 < length entries.now }
    ensures some { 0 < result }
    ensures within { result ≤ length entries.now }
{
    let first = is_single(&entries[0].range);
    for i in 1..entries.len() {
        if is_single(&entries[i].range) != first {
            return i;
        }
    }
    entries.len()
}

/// Whether all declarations are for single codes.
pub(crate) fn are_single<T: HasRange>(entries: &[T]) -> bool
    ensures yes { IsTrue result → All (λ e. (T.span e).start ≡ (T.span e).end) entries.now }
    ensures no { All (λ e. (T.span e).start ≡ (T.span e).end) entries.now → IsTrue result }
{
    for entry in entries {
        if !is_single(entry.range()) {
            return false;
        }
    }
    true
}

/// The number of declarations of single codes at the beginning of a list.
fn count_singles<T: HasRange>(entries: &[T]) -> usize
    ensures within { result ≤ length entries.now }
    ensures all { All (λ e. (T.span e).start ≡ (T.span e).end) (take result entries.now) }
{
    for i in 0..entries.len() {
        if !is_single(entries[i].range()) {
            return i;
        }
    }
    entries.len()
}

#[tactic(auto, using(crate::proofs::ArraysTold::line_of_one, crate::proofs::ArraysTold::line_of_row))]
/// The number of texts in the next line: the texts of an array, or one.
pub(crate) fn count_line(entries: &[BfRange]) -> usize
    requires { 0 < length entries.now }
    ensures some { 0 < result }
    ensures within { result ≤ length entries.now }
    ensures line { IsLine (map bf_entry_seen (take result entries.now)) }
{
    let count = count_row(entries[0].range.start, entries);
    if count >= LEAST { count } else { 1 }
}

/// The number of texts at the beginning of a list for consecutive single codes from `start` on. All codes
/// are in one row of 256 codes.
fn count_row(start: u32, entries: &[BfRange]) -> usize
    ensures within { result ≤ length entries.now }
    ensures row { IsRow start (map bf_entry_seen (take result entries.now)) }
{
    let most = entries.len().min(256 - (start % 256) as usize);
    for i in 0..most {
        if !is_code(&entries[i].range, start + i as u32) {
            return i;
        }
    }
    most
}

/// Whether a range is this single code.
fn is_code(range: &Range, code: u32) -> bool
    ensures start { IsTrue result → range.now.start ≡ code }
    ensures end { IsTrue result → range.now.end ≡ code }
{
    range.start == code && range.end == code
}

/// Whether a declaration is for a single code.
fn is_single(range: &Range) -> bool
    ensures { IsTrue result ↔ (range.now.start ≡ range.now.end) }
{
    range.start == range.end
}
