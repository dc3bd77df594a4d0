//! The open ranges of a sweep: ranges that have begun and aren't closed.

ghost use Rattle.std.specs.Prelude.{◌≡◌, ℕ, ◌+◌, ◌-◌, ◌<◌, ◌≤◌, true, false, [], All, OnOk, get_or, length};
ghost use Rattle.std.specs.BinaryHeap.{heap_items};
ghost use Rattle.cmap_runs.specs.OpenRanges.{Ascend, ClosesTop, HasGreatestOnTop, IsCovered, IsTop, Opens};

use super::held::Run;
use std::alloc::{AllocError, Global};
use std::collections::BinaryHeap;
use std::marker::Model;

/// The index of the declaration of each open range, with the last code of the range. A range whose index
/// is no less than all indices on the stack goes on top of the stack, without a search for its place.
/// Any other range goes into the heap.
#[derive(Drop)]
pub(super) struct OpenRanges {
    stack: Vec<(usize, u32)>,
    heap: BinaryHeap<(usize, u32)>,
}

// Contracts see all open ranges.
impl Model for OpenRanges {
    ghost use Rattle.std.specs.Prelude.{ℕ, List, ◌++◌};
    ghost use Rattle.std.specs.BinaryHeap.{heap_items};
    ghost use Rattle.cmap_runs.specs.OpenRanges.{Ascend, HasGreatestOnTop};

    ghost Value = { List (ℕ × ℕ) };

    ghost view = { λ ranges. ranges.stack.items ++ heap_items ranges.heap };

    ghost invariant = { λ ranges. Ascend ranges.stack.items
        × HasGreatestOnTop (heap_items ranges.heap) };
}

impl OpenRanges {
    pub(super) fn new(alloc: Global) -> OpenRanges
        ensures { result ≡ [] }
    {
        OpenRanges {
            stack: Vec::new(alloc),
            heap: BinaryHeap::new(alloc),
        }
    }

    /// Opens the range, unless an open range with a greater index that ends no earlier is seen. Then the
    /// range decides no code.
    pub(super) fn open(&mut self, range: &Run) -> Result<(), AllocError>
        ensures opens { OnOk result (Opens self.old self.new range.now) }
        ensures few { OnOk result (length self.new ≤ length self.old + 1) }
    {
        if self.is_seen_to_cover(range) {
            return Ok(());
        }
        if comes_last(self.stack.as_slice(), range.index) {
            self.stack.push((range.index, range.high))?;
        } else {
            self.heap.push((range.index, range.high))?;
        }
        Ok(())
    }

    /// Whether the last range on the stack or the first range of the heap covers the range.
    fn is_seen_to_cover(&self, range: &Run) -> bool
        ensures { result ≡ true → IsCovered self.now range.now }
    {
        if let Some(top) = self.stack.last() {
            if is_covered_by(range, top) {
                return true;
            }
        }
        match self.heap.peek() {
            Some(top) => is_covered_by(range, top),
            None => false,
        }
    }

    /// An open range with the greatest index. The range is closed if it ends before `to`. `None` if no
    /// range is open.
    pub(super) fn close_before(&mut self, to: u64) -> Option<(usize, u32)>
        ensures { ClosesTop self.old self.new to result }
    {
        if is_in_heap(self.stack.as_slice(), &self.heap) {
            return close_in_heap(&mut self.heap, to);
        }
        close_on_stack(&mut self.stack, to)
    }
}

/// Whether the other range, the index of a declaration with a last code, has a greater index and ends no
/// earlier.
fn is_covered_by(range: &Run, other: &(usize, u32)) -> bool
    ensures { result ≡ true → (range.now.index ≤ other.now.0) × (range.now.high ≤ other.now.1) }
{
    range.index < other.0 && range.high <= other.1
}

/// Whether no index on the stack is greater.
fn comes_last(stack: &[(usize, u32)], index: usize) -> bool
    ensures { result ≡ true → (d : ℕ × ℕ) → 0 < length stack.now
        → (get_or stack.now (length stack.now - 1) d).0 ≤ index }
{
    match stack.last() {
        Some((last, _)) => *last <= index,
        None => true,
    }
}

/// Whether the greatest index is in the heap.
fn is_in_heap(stack: &[(usize, u32)], heap: &BinaryHeap<(usize, u32)>) -> bool
    requires stack { Ascend stack.now }
    requires heap { HasGreatestOnTop (heap_items heap.now) }
    ensures heap { result ≡ true → (range : ℕ × ℕ) → IsTop (heap_items heap.now) range
        → All (λ other. other.0 ≤ range.0) stack.now }
    ensures stack { result ≡ false → (range : ℕ × ℕ) → IsTop stack.now range
        → All (λ other. other.0 ≤ range.0) (heap_items heap.now) }
    ensures some { result ≡ true → 0 < length (heap_items heap.now) }
    ensures none { result ≡ false → length stack.now ≡ 0 → length (heap_items heap.now) ≡ 0 }
{
    let Some((in_heap, _)) = heap.peek() else {
        return false;
    };
    match stack.last() {
        Some((on_stack, _)) => *on_stack < *in_heap,
        None => true,
    }
}

/// The range with the greatest index. The range leaves the heap if it ends before `to`.
fn close_in_heap(heap: &mut BinaryHeap<(usize, u32)>, to: u64) -> Option<(usize, u32)>
    requires { HasGreatestOnTop (heap_items heap.old) }
    ensures closes { ClosesTop (heap_items heap.old) (heap_items heap.new) to result }
    ensures heap { HasGreatestOnTop (heap_items heap.new) }
{
    let range = *heap.peek()?;
    if u64::from(range.1) < to {
        let _ = heap.pop();
    }
    Some(range)
}

/// The range with the greatest index. The range leaves the stack if it ends before `to`.
fn close_on_stack(stack: &mut Vec<(usize, u32)>, to: u64) -> Option<(usize, u32)>
    requires { Ascend stack.old.items }
    ensures closes { ClosesTop stack.old.items stack.new.items to result }
    ensures stack { Ascend stack.new.items }
{
    let range = *stack.last()?;
    if u64::from(range.1) < to {
        let _ = stack.pop();
    }
    Some(range)
}
