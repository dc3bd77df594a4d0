//! The making of blocks from runs, which come in the order of their codes.

ghost use Rattle.std.specs.Prelude.{◌+◌, ◌*◌, ◌<◌, ◌≤◌, vec_capacity, vec_len};

use super::blocks::{BLOCK_LEN, Block, NO_RUN, bit_of};
use std::alloc::{AllocError, Global};

/// The blocks of the runs so far, and the open block after them.
#[derive(Drop)]
pub(super) struct BlockMaker {
    pub(super) list: Vec<Block>,
    /// How many blocks may be made.
    most: usize,
    /// How many runs begin before the open block.
    pub(super) begun: usize,
    /// A bit for each code of the open block at which a run begins. The first code has the high bit.
    pub(super) starts: u32,
    /// The code after the last code of the open block. If no more blocks may be made, the first
    /// `end_before` sets it above all codes.
    pub(super) end: u64,
    ghost ends: { vec_len list < most → end ≤ 32 * vec_len list + 32 },
    ghost room: { (most ≤ 2048) × (vec_len list ≤ most) × (most ≤ vec_capacity list) × (begun ≤ 65536) },
}

impl BlockMaker {
    ghost use Rattle.std.specs.Prelude.{◌≡◌, ◌-◌, ◌%◌, ◌^◌, ℕ, [], true, false, List, IfOk, bit_or, length};
    ghost use Rattle.std.specs.List.{AllWithin};
    ghost use Rattle.cmap_runs.specs.Made.{AreMadeBy};
    ghost use Rattle.cmap_runs.specs.Order.{IsInOrder};
    ghost use Rattle.cmap_runs.specs.Ranges.{Run};

    /// A maker without blocks, with capacity for this many.
    pub(super) fn with_room(alloc: Global, most: usize) -> Result<BlockMaker, AllocError>
        requires { most ≤ 2048 }
        ensures made { IfOk result (λ maker. (runs : List Run) → AreMadeBy runs 0 maker) }
        ensures none { IfOk result (λ maker. maker.list.items ≡ []) }
    {
        Ok(BlockMaker {
            list: Vec::with_capacity(alloc, most)?,
            most,
            begun: 0,
            starts: 0,
            end: u64::from(BLOCK_LEN),
        })
    }

    /// Whether no more blocks may be made.
    #[inline(always)]
    pub(super) fn is_full(&self) -> bool
        ensures yes { result ≡ true → self.now.most ≤ length self.now.list.items }
        ensures no { result ≡ false → length self.now.list.items < self.now.most }
    {
        self.list.len() >= self.most
    }

    /// The first code of the open block.
    #[inline(always)]
    pub(super) fn code(&self) -> u64
        ensures { result ≡ 32 * length self.now.list.items }
    {
        u64::from(BLOCK_LEN) * self.list.len() as u64
    }

    /// The code after the last code of the open block; a number above all codes if no more blocks may be
    /// made.
    fn open_end(&self) -> u64
        ensures { length self.now.list.items < self.now.most
            → result ≡ 32 * length self.now.list.items + 32 }
    {
        if self.is_full() {
            u64::MAX
        } else {
            self.code() + u64::from(BLOCK_LEN)
        }
    }

    /// Ends the blocks whose codes come before `low`. The first `count` runs begin before `low`, and
    /// `next` is a code after all codes of these runs.
    pub(super) fn end_before(&mut self, low: u64, count: usize, next: u64)
        requires { length self.old.list.items < self.old.most
            → count ≤ 32 * length self.old.list.items + 32 }
        ensures made { (runs : List Run) → IsInOrder runs → count ≤ length runs
            → AllWithin (λ run. run.high < next) runs 0 count
            → AllWithin (λ run. low ≤ run.low) runs count (length runs)
            → AreMadeBy runs count self.old
            → AreMadeBy runs count self.new }
        ensures most { self.new.most ≡ self.old.most }
        ensures ended { length self.new.list.items < self.new.most
            → low < 32 * length self.new.list.items + 32 }
    {
        let end = self.most.min((low / u64::from(BLOCK_LEN)) as usize);
        while self.list.len() < end {
            let block = if next <= self.code() {
                Block {
                    begun: NO_RUN,
                    starts: 0,
                }
            } else {
                Block {
                    begun: self.begun as u32,
                    starts: self.starts,
                }
            };
            self.list.push_reserved(block);
            self.begun = count;
            self.starts = 0;
        }
        self.end = self.open_end();
    }

    /// Marks the start of a run in the open block.
    pub(super) fn add_start(&mut self, low: u32)
        ensures list { self.new.list ≡ self.old.list }
        ensures most { self.new.most ≡ self.old.most }
        ensures begun { self.new.begun ≡ self.old.begun }
        ensures end { self.new.end ≡ self.old.end }
        ensures starts { self.new.starts
            ≡ bit_or self.old.starts (1 * 2 ^ (31 - low % 32) % 2 ^ 32) }
    {
        self.starts |= bit_of(low);
    }
}
