//! The indices of declarations, and whether their ranges lie apart.

ghost use Rattle.std.specs.Prelude.{◌≡◌, ◌+◌, ◌-◌, ◌*◌, ◌<◌, ◌≤◌, ◌^◌, true, List, [], ◌∷◌, All, IfOk, IfSome, OnOk, length, map};
ghost use Rattle.std.specs.List.{range_with_len};
ghost use Rattle.std.specs.List.Sorted.{IsNonDecreasingBy, IsPermutation};
ghost use Rattle.std.specs.Vec.{vec_capacity, vec_len};
ghost use Rattle.cmap_runs.specs.DeclaredRanges.{LieApart, range_at};
ghost use Rattle.cmap_runs.specs.Made.{AreAllMerged, IsMerged};
ghost use Rattle.cmap_runs.specs.Parts.{AreLeft, all_parts};
ghost use Rattle.cmap_runs.specs.Ranges.{Span};

use super::HasRange;
use super::block_maker::BlockMaker;
use super::blocks::{bit_of, most_blocks};
use super::ranges::{range_at, start_at};
use std::alloc::{AllocError, Global};

/// Indices of declarations, in an order in which their ranges lie apart, with the blocks of the ranges.
#[derive(Drop)]
pub(super) struct Apart {
    pub(super) indices: Vec<u32>,
    /// A code after all codes of the ranges.
    next: u64,
    pub(super) blocks: BlockMaker,
}

impl Apart {
    /// No indices, and no capacity for any.
    fn none(alloc: Global) -> Result<Apart, AllocError>
        ensures { IfOk result (AreAllMerged []) }
    {
        Ok(Apart {
            indices: Vec::new(alloc),
            next: 0,
            blocks: BlockMaker::with_room(alloc, 0)?,
        })
    }

    /// Ends the blocks whose codes come before `low`, where the next range begins.
    #[inline(always)]
    fn end_blocks(&mut self, low: u64)
        requires { (spans : List Span) × IsMerged spans self.old }
        ensures merged { (spans : List Span) → IsMerged spans self.old → IsMerged spans self.new }
        ensures ended { length self.new.blocks.list.items < self.new.blocks.most
            → low < 32 * length self.new.blocks.list.items + 32 }
        ensures indices { self.new.indices ≡ self.old.indices }
    {
        if self.blocks.end <= low {
            self.blocks.end_before(low, self.indices.len(), self.next);
            self.next = self.next.max(self.blocks.code());
        }
    }

    /// Adds the indices of a part, up to an index whose range begins at `limit` or later. The answer is
    /// the index after the last index that was added; `None` if not all ranges lie apart.
    #[inline(always)]
    fn add_part<T: HasRange>(&mut self, declarations: &[T], part: &Part, limit: u64) -> Option<u32>
        requires first { part.now.next ≤ part.now.end }
        requires end { part.now.end ≤ length declarations.now }
        requires room { vec_len self.old.indices + (part.now.end - part.now.next)
            ≤ vec_capacity self.old.indices }
        requires merged { IsMerged (map T.span declarations.now) self.old }
        ensures within { IfSome result (λ next. (part.now.next ≤ next) × (next ≤ part.now.end)) }
        ensures len { IfSome result
            (λ next. vec_len self.new.indices ≡ vec_len self.old.indices + (next - part.now.next)) }
        ensures capacity { vec_capacity self.old.indices ≤ vec_capacity self.new.indices }
        ensures merged { IfSome result (λ _. IsMerged (map T.span declarations.now) self.new) }
    {
        let mut index = part.next;
        while index < part.end {
            let low = u64::from(range_at(declarations, index).low);
            if limit <= low {
                break;
            }
            self.end_blocks(low);
            let bound = limit.min(self.blocks.end);
            let next = self.add_to_block(declarations, index, part.end, bound)?;
            if next == index {
                return None;
            }
            if bound == limit {
                return Some(next);
            }
            index = next;
        }
        Some(index)
    }

    /// Adds the indices from `first` on and before `end`, up to an index whose range begins at `limit` or
    /// later. The answer is the index after the last index that was added; `None` if not all ranges lie
    /// apart.
    fn add_to_block<T: HasRange>(
        &mut self,
        declarations: &[T],
        first: u32,
        end: u32,
        limit: u64,
    ) -> Option<u32>
        requires first { first ≤ end }
        requires end { end ≤ length declarations.now }
        requires room { vec_len self.old.indices + (end - first) ≤ vec_capacity self.old.indices }
        requires merged { IsMerged (map T.span declarations.now) self.old }
        requires limit { length self.old.blocks.list.items < self.old.blocks.most
            → limit ≤ 32 * length self.old.blocks.list.items + 32 }
        ensures within { IfSome result (λ next. (first ≤ next) × (next ≤ end)) }
        ensures len { IfSome result
            (λ next. vec_len self.new.indices ≡ vec_len self.old.indices + (next - first)) }
        ensures capacity { vec_capacity self.old.indices ≤ vec_capacity self.new.indices }
        ensures merged { IfSome result (λ _. IsMerged (map T.span declarations.now) self.new) }
    {
        let (mut index, mut next, mut starts) = (first, self.next, self.blocks.starts);
        while index < end {
            let range = range_at(declarations, index);
            let low = u64::from(range.low);
            if limit <= low {
                break;
            }
            if low < next || range.high < range.low {
                return None;
            }
            self.indices.push_reserved(index);
            starts |= bit_of(range.low);
            next = u64::from(range.high) + 1;
            index += 1;
        }
        self.next = next;
        self.blocks.starts = starts;
        Some(index)
    }
}

/// The greatest number of parts that are merged without a sort.
const MOST_PARTS: usize = 8;

/// How many declarations are passed over at once in search of the end of a part.
const LONG_STEP: u32 = 16;

/// The rest of a part of a list of declarations. The first codes of a part ascend.
#[derive(Clone, Copy)]
struct Part {
    /// The index of the next declaration.
    next: u32,
    /// The index after the last declaration.
    end: u32,
    /// The first code of the next declaration; a number above all codes if no declaration is left.
    start: u64,
}

/// The parts that are left of a list of declarations.
#[derive(Drop)]
struct Parts {
    /// The part with the least first code.
    first: Part,
    /// The other parts, in the order of their first codes.
    others: Vec<Part>,
}

impl Parts {
    /// Adds a part.
    fn add(&mut self, part: Part) -> Result<(), AllocError>
        ensures { OnOk result (IsPermutation (part ∷ all_parts self.old) (all_parts self.new)) }
    {
        self.others.insert(0, part)?;
        self.order();
        Ok(())
    }

    /// Replaces the first part by its rest, and puts the rest in its place in the order.
    #[inline(always)]
    fn go_on(&mut self, part: Part)
        ensures { IsPermutation (part ∷ self.old.others.items) (all_parts self.new) }
    {
        self.first = part;
        self.order();
    }

    /// Puts the first two parts in their places in the order. Only these two may be out of order.
    #[inline(always)]
    fn order(&mut self)
        ensures { IsPermutation (all_parts self.old) (all_parts self.new) }
    {
        let first = self.first;
        let Some(other) = self.others.first() else {
            return;
        };
        if other.start < first.start {
            self.first = *other;
            self.others[0] = first;
        }
        move_first(&mut self.others);
    }

    /// The least first code of the parts after the first part; a number above all codes if there are
    /// none.
    #[inline(always)]
    fn limit(&self) -> u64 {
        match self.others.first() {
            Some(other) => other.start,
            None => u64::MAX,
        }
    }
}

/// The indices of the declarations, in the order of their codes, with the blocks of their ranges. `None`
/// unless the declarations are a few ascending parts, such as single codes and then ranges, and all
/// ranges lie apart.
pub(super) fn merged_parts<T: HasRange>(
    alloc: Global,
    declarations: &[T],
    count: u32,
) -> Result<Option<Apart>, AllocError>
    requires { count ≡ length declarations.now }
    ensures { IfOk result (λ found. IfSome found (AreAllMerged (map T.span declarations.now))) }
{
    if count == 0 {
        return Ok(Some(Apart::none(alloc)?));
    }
    match merged_by_steps(alloc, declarations, count, LONG_STEP)? {
        Some(apart) => Ok(Some(apart)),
        None => merged_by_steps(alloc, declarations, count, 1),
    }
}

/// The answer of `merged_parts`, where the end of a part is seen only at each `step`th declaration. If
/// ends stay unseen, there may be no answer.
fn merged_by_steps<T: HasRange>(
    alloc: Global,
    declarations: &[T],
    count: u32,
    step: u32,
) -> Result<Option<Apart>, AllocError>
    requires count { count ≡ length declarations.now }
    requires some { 0 < count }
    requires step { 0 < step }
    ensures { IfOk result (λ found. IfSome found (AreAllMerged (map T.span declarations.now))) }
{
    match ascending_parts(alloc, declarations, count, step)? {
        Some(parts) => merged(alloc, declarations, count, parts),
        None => Ok(None),
    }
}

/// The indices of the declarations of parts, in the order of their codes; `None` if not all ranges lie
/// apart.
fn merged<T: HasRange>(
    alloc: Global,
    declarations: &[T],
    count: u32,
    parts: Parts,
) -> Result<Option<Apart>, AllocError>
    requires count { count ≡ length declarations.now }
    requires parts { AreLeft (all_parts parts) count }
    ensures { IfOk result (λ found. IfSome found (AreAllMerged (map T.span declarations.now))) }
{
    let mut parts = parts;
    let most = most_blocks(declarations.len(), parts.first.start);
    let blocks = BlockMaker::with_room(alloc, most)?;
    let indices = Vec::with_capacity(alloc, count as usize)?;
    let mut apart = Apart {
        indices,
        next: 0,
        blocks,
    };
    while parts.first.start != u64::MAX {
        let part = parts.first;
        let Some(next) = apart.add_part(declarations, &part, parts.limit()) else {
            return Ok(None);
        };
        if next == part.next {
            return Ok(None);
        }
        let start = start_before(declarations, next, part.end);
        parts.go_on(Part {
            next,
            end: part.end,
            start,
        });
    }
    if apart.indices.len() != declarations.len() {
        return Ok(None);
    }
    Ok(Some(apart))
}

/// The parts in which the first codes ascend, in the order of their first codes; `None` if there are too
/// many parts.
fn ascending_parts<T: HasRange>(
    alloc: Global,
    declarations: &[T],
    count: u32,
    step: u32,
) -> Result<Option<Parts>, AllocError>
    requires count { count ≡ length declarations.now }
    requires some { 0 < count }
    requires step { 0 < step }
    ensures { IfOk result (λ parts. IfSome parts (λ parts. AreLeft (all_parts parts) count)) }
{
    let mut next = part_end(declarations, 0, count, step);
    let mut parts = Parts {
        first: Part {
            next: 0,
            end: next,
            start: start_before(declarations, 0, next),
        },
        others: Vec::new(alloc),
    };
    while next < count {
        if parts.others.len() == MOST_PARTS - 1 {
            return Ok(None);
        }
        let end = part_end(declarations, next, count, step);
        let start = start_before(declarations, next, end);
        parts.add(Part { next, end, start })?;
        next = end;
    }
    Ok(Some(parts))
}

/// Moves the first part behind all parts with lesser first codes.
#[inline(always)]
fn move_first(parts: &mut Vec<Part>)
    ensures { IsPermutation parts.old.items parts.new.items }
{
    move_first_of(parts.as_mut_slice());
}

#[inline(always)]
fn move_first_of(parts: &mut [Part])
    ensures { IsPermutation parts.old parts.new }
{
    for at in 1..parts.len() {
        if parts[at - 1].start <= parts[at].start {
            return;
        }
        parts.swap(at - 1, at);
    }
}

/// The index after the part that begins at `first`, as far as its first codes are seen to ascend.
fn part_end<T: HasRange>(declarations: &[T], first: u32, count: u32, step: u32) -> u32
    requires step { 0 < step }
    requires first { first < count }
    requires count { count ≡ length declarations.now }
    ensures { (first < result) × (result ≤ count) }
{
    let mut end = end_by_steps(declarations, first + 1, count, step);
    while end < count && ascends(declarations, end - 1, end) {
        end += 1;
    }
    end
}

/// How far first codes are seen to ascend, if only each `step`th code is looked at.
fn end_by_steps<T: HasRange>(declarations: &[T], from: u32, count: u32, step: u32) -> u32
    requires step { 0 < step }
    requires from { (0 < from) × (from ≤ count) }
    requires count { count ≡ length declarations.now }
    ensures { (from ≤ result) × (result ≤ count) }
{
    let mut end = from;
    while step <= count - end && ascends(declarations, end - 1, end - 1 + step) {
        end += step;
    }
    end
}

/// Whether the range at `index` begins no later than the range at `later`.
fn ascends<T: HasRange>(declarations: &[T], index: u32, later: u32) -> bool
    requires index { index < length declarations.now }
    requires later { later < length declarations.now }
{
    range_at(declarations, index).low <= range_at(declarations, later).low
}

/// The first code of the range at `index`, if `index` is before `end`; otherwise a number above all
/// codes.
fn start_before<T: HasRange>(declarations: &[T], index: u32, end: u32) -> u64
    requires { end ≤ length declarations.now }
{
    if index < end {
        u64::from(range_at(declarations, index).low)
    } else {
        u64::MAX
    }
}

/// The indices of the declarations, in the order of the first codes of their ranges.
pub(super) fn indices_in_order<T: HasRange>(
    alloc: Global,
    declarations: &[T],
    count: u32,
) -> Result<Vec<u32>, AllocError>
    requires { count ≡ length declarations.now }
    ensures indices { IfOk result
        (λ indices. IsPermutation (range_with_len 0 (length declarations.now)) indices.items) }
    ensures order { IfOk result (λ indices. IsNonDecreasingBy
        (λ index. (range_at (map T.span declarations.now) index).low) indices.items) }
{
    let mut indices: Vec<u32> = (0..count).collect(alloc)?;
    indices.sort_by_key(|index| start_at(declarations, *index))?;
    Ok(indices)
}

/// Whether no range is empty, and each range ends before the next range begins.
pub(super) fn are_apart<T: HasRange>(declarations: &[T], indices: &[u32]) -> bool
    requires { All (λ index. index < length declarations.now) indices.now }
    ensures { result ≡ true
        → LieApart (map (range_at (map T.span declarations.now)) indices.now) }
{
    let mut from = 0;
    for index in indices {
        let range = range_at(declarations, *index);
        if u64::from(range.low) < from || range.high < range.low {
            return false;
        }
        from = u64::from(range.high) + 1;
    }
    true
}
