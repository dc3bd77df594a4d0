//! The ranges of declarations, each with the index of its declaration.

ghost use Rattle.std.specs.Prelude.{◌≡◌, ◌<◌, IfOk, length, map};
ghost use Rattle.std.specs.List.{range_with_len};
ghost use Rattle.std.specs.List.Sorted.{IsNonDecreasingBy, IsPermutation};
ghost use Rattle.cmap_runs.specs.DeclaredRanges.{AreRanges, range_at};

use super::HasRange;
use super::held::Run;
use std::alloc::{AllocError, Global};

/// The ranges that aren't empty.
pub(super) fn ranges_of<T: HasRange>(
    alloc: Global,
    declarations: &[T],
) -> Result<Vec<Run>, AllocError>
    ensures { IfOk result
        (λ ranges. AreRanges (map T.span declarations.now) (length (map T.span declarations.now)) ranges.items) }
{
    let mut ranges = Vec::with_capacity(alloc, declarations.len())?;
    for (index, declaration) in declarations.iter().enumerate() {
        let range = declaration.range();
        if range.start <= range.end {
            ranges.push_reserved(Run::new(range.start, range.end, index));
        }
    }
    Ok(ranges)
}

/// The ranges of the declarations at the indices, in this order, without empty ranges.
pub(super) fn ranges_at<T: HasRange>(
    alloc: Global,
    declarations: &[T],
    indices: Vec<u32>,
) -> Result<Vec<Run>, AllocError>
    requires indices { IsPermutation (range_with_len 0 (length declarations.now)) indices.items }
    requires order { IsNonDecreasingBy
        (λ index. (range_at (map T.span declarations.now) index).low) indices.items }
    ensures ranges { IfOk result
        (λ ranges. AreRanges (map T.span declarations.now) (length (map T.span declarations.now)) ranges.items) }
    ensures order { IfOk result (λ ranges. IsNonDecreasingBy (λ range. range.low) ranges.items) }
{
    let mut ranges = Vec::with_capacity(alloc, indices.len())?;
    for index in &indices {
        let range = range_at(declarations, *index);
        if range.low <= range.high {
            ranges.push_reserved(range);
        }
    }
    Ok(ranges)
}

/// The range of the declaration at the index.
pub(super) fn range_at<T: HasRange>(declarations: &[T], index: u32) -> Run
    requires { index < length declarations.now }
    ensures { result ≡ range_at (map T.span declarations.now) index }
{
    let index = index as usize;
    let range = declarations[index].range();
    Run::new(range.start, range.end, index)
}

/// The first code of the range of the declaration at the index, or 1 if there is no such
/// declaration.
pub(super) fn start_at<T: HasRange>(declarations: &[T], index: u32) -> u32
    ensures { result ≡ (range_at (map T.span declarations.now) index).low }
{
    match declarations.get(index as usize) {
        Some(declaration) => declaration.range().start,
        None => 1,
    }
}
