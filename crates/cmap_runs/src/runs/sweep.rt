//! The runs of declarations, by one sweep over the codes.

ghost use Rattle.std.specs.Prelude.{◌≡◌, ℕ, ◌+◌, ◌-◌, ◌*◌, ◌<◌, ◌≤◌, ◌^◌, [], List, Option, IfOk, OnOk, length, map};
ghost use Rattle.std.specs.List.{range_with_len};
ghost use Rattle.std.specs.List.Sorted.{IsNonDecreasingBy, IsPermutation};
ghost use Rattle.cmap_runs.specs.DeclaredRanges.{AreRanges, range_at};
ghost use Rattle.cmap_runs.specs.HeldRuns.{AreHeld};
ghost use Rattle.cmap_runs.specs.Made.{AreFound};
ghost use Rattle.cmap_runs.specs.OpenRanges.{IsGreatest, IsSwept, StayOpen};
ghost use Rattle.cmap_runs.specs.Ranges.{AreRunsBelow, Span, runs_of};

use super::HasRange;
use super::block_maker::BlockMaker;
use super::held::{Run, RunList, Runs};
use super::indices::{Apart, are_apart, indices_in_order, merged_parts};
use super::open::OpenRanges;
use super::ranges::{ranges_at, ranges_of};
use std::alloc::{AllocError, Global};

/// How many codes there are.
const CODE_COUNT: u64 = 1 << 32;

/// The runs of declarations, and their blocks if blocks are made already.
#[derive(Drop)]
pub(super) struct Found {
    pub(super) runs: RunList,
    pub(super) blocks: Option<BlockMaker>,
}

/// The runs of the declarations.
pub(super) fn runs_of<T: HasRange>(alloc: Global, declarations: &[T]) -> Result<Found, AllocError>
    ensures { IfOk result
        (λ found. AreFound (map T.span declarations.now) found.runs found.blocks) }
{
    match u32::try_from(declarations.len()) {
        Ok(count) => runs_by_index(alloc, declarations, count),
        Err(_) => Ok(Found {
            runs: sorted_and_swept(alloc, ranges_of(alloc, declarations)?)?,
            blocks: None,
        }),
    }
}

/// The runs of the declarations. Only the indices of the declarations are put in order.
fn runs_by_index<T: HasRange>(
    alloc: Global,
    declarations: &[T],
    count: u32,
) -> Result<Found, AllocError>
    requires { count ≡ length declarations.now }
    ensures { IfOk result
        (λ found. AreFound (map T.span declarations.now) found.runs found.blocks) }
{
    match merged_parts(alloc, declarations, count)? {
        Some(
            Apart {
                indices,
                blocks,
                ..
            },
        ) => Ok(Found {
            runs: RunList::Ranges(indices),
            blocks: Some(blocks),
        }),
        None => Ok(Found {
            runs: runs_in_order(
                alloc,
                declarations,
                indices_in_order(alloc, declarations, count)?,
            )?,
            blocks: None,
        }),
    }
}

/// The runs of the declarations, whose indices come in the order of their first codes.
fn runs_in_order<T: HasRange>(
    alloc: Global,
    declarations: &[T],
    indices: Vec<u32>,
) -> Result<RunList, AllocError>
    requires indices { IsPermutation (range_with_len 0 (length declarations.now)) indices.items }
    requires order { IsNonDecreasingBy
        (λ index. (range_at (map T.span declarations.now) index).low) indices.items }
    ensures { IfOk result (AreHeld (map T.span declarations.now)) }
{
    if are_apart(declarations, indices.as_slice()) {
        return Ok(RunList::Ranges(indices));
    }
    let ranges = ranges_at(alloc, declarations, indices)?;
    sweep(alloc, ranges.as_slice())
}

/// The runs of the declarations that the ranges belong to.
fn sorted_and_swept(alloc: Global, ranges: Vec<Run>) -> Result<RunList, AllocError>
    ensures { IfOk result (λ runs. (spans : List Span)
        → AreRanges spans (length spans) ranges.items → AreHeld spans runs) }
{
    let mut ranges = ranges;
    ranges.sort_by_key(|range| range.low)?;
    sweep(alloc, ranges.as_slice())
}

/// The runs of the declarations that the ranges belong to. The ranges come in the order of their
/// first codes.
fn sweep(alloc: Global, ranges: &[Run]) -> Result<RunList, AllocError>
    requires { IsNonDecreasingBy (λ range. range.low) ranges.now }
    ensures { IfOk result (λ runs. (spans : List Span)
        → AreRanges spans (length spans) ranges.now → AreHeld spans runs) }
{
    let mut runs = Runs::with_capacity(alloc, ranges.len())?;
    add_all_runs(&mut runs, alloc, ranges)?;
    runs.shrink_to_fit();
    Ok(RunList::Swept(runs))
}

/// Adds the runs of all codes.
fn add_all_runs(runs: &mut Runs, alloc: Global, ranges: &[Run]) -> Result<(), AllocError>
    requires none { runs.old ≡ [] }
    requires order { IsNonDecreasingBy (λ range. range.low) ranges.now }
    ensures runs { OnOk result ((spans : List Span) → AreRanges spans (length spans) ranges.now
        → runs.new ≡ runs_of spans) }
    ensures few { OnOk result (length runs.new ≤ 2 * length ranges.now - 1) }
{
    let mut ends = OpenRanges::new(alloc);
    let from = open_ranges(runs, &mut ends, ranges)?;
    add_runs(runs, &mut ends, from, CODE_COUNT)
}

/// Opens all ranges, and adds the runs of the codes before the first code of the last range. The
/// result is that code; 0 if there are no ranges.
fn open_ranges(runs: &mut Runs, ends: &mut OpenRanges, ranges: &[Run]) -> Result<u64, AllocError>
    requires runs { runs.old ≡ [] }
    requires ends { ends.old ≡ [] }
    requires order { IsNonDecreasingBy (λ range. range.low) ranges.now }
    ensures { IfOk result
        (λ from. IsSwept ranges.now (length ranges.now) from ends.new runs.new) }
{
    let mut from = 0;
    for range in ranges {
        let next = u64::from(range.low);
        if from < next {
            add_runs(runs, ends, from, next)?;
        }
        ends.open(range)?;
        from = next;
    }
    Ok(from)
}

/// Adds the runs of the codes from `from` on and before `to`. The open range with the greatest index
/// decides a code, if the range doesn't end before the code. `ends` contains the open ranges; ranges
/// that have ended are closed on the way.
fn add_runs(runs: &mut Runs, ends: &mut OpenRanges, from: u64, to: u64) -> Result<(), AllocError>
    requires order { from ≤ to }
    requires codes { to ≤ 2 ^ 32 }
    ensures runs { OnOk result ((decides : ℕ → Option ℕ)
        → ((code : ℕ) → from ≤ code → code < to → IsGreatest ends.old code (decides code))
        → AreRunsBelow decides from runs.old → AreRunsBelow decides to runs.new) }
    ensures stay { OnOk result (StayOpen ends.old ends.new to) }
    ensures fewer { OnOk result (length ends.new ≤ length ends.old) }
    ensures few { OnOk result (length runs.new + (length ends.new - 1)
        ≤ length runs.old + length ends.old) }
{
    let mut from = from;
    while let Some((index, last)) = ends.close_before(to) {
        let last = u64::from(last);
        if last >= to {
            if from < to {
                runs.add(from as u32, (to - 1) as u32, index)?;
            }
            return Ok(());
        }
        if from <= last {
            runs.add(from as u32, last as u32, index)?;
            from = last + 1;
        }
    }
    Ok(())
}
