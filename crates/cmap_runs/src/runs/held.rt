//! The contents of a table: runs, their blocks, and declarations. Each look at them from outside of this
//! module is counted.

ghost use Rattle.std.specs.Prelude.{◌≡◌, ℕ, ◌+◌, ◌-◌, ◌*◌, ◌/◌, ◌^◌, ◌<◌, ◌≤◌, true, [], All, Some, IfNone, IfOk, IfSome, MatchOption, OnOk, OnErr, if◌then◌else◌, get_or, is_some, length, map, slice_get};
ghost use Rattle.std.specs.List.{AllWithin};
ghost use Rattle.cmap_runs.specs.Blocks.{AreBlocks};
ghost use Rattle.cmap_runs.specs.HeldRuns.{EndsBefore, Reaches, indices_within, runs_held};
ghost use Rattle.cmap_runs.specs.Made.{AreMadeBy};
ghost use Rattle.cmap_runs.specs.Order.{IsInOrder};
ghost use Rattle.cmap_runs.specs.Ranges.{goes_on, joined, runs_of};
ghost use Rattle.cmap_runs.specs.SearchLooks.{FindsLast};

use super::HasRange;
use super::block_maker::BlockMaker;
use super::blocks::{BLOCK_LEN, Block, most_blocks};
use super::looks::Looks;
use super::ranges::range_at;
use std::alloc::{AllocError, Global};
use std::fmt;
use std::marker::Model;

/// The codes from `low` to `high`, which the declaration at `index` decides.
#[derive(Drop)]
pub(super) struct Run {
    pub(super) low: u32,
    pub(super) high: u32,
    pub(super) index: usize,
}

impl Model for Run {
    ghost use Rattle.cmap_runs.specs.Ranges as ranges;

    ghost Value = { ranges.Run };

    ghost view = { λ run. record { low = run.low; high = run.high; index = run.index } };
}

impl Run {
    pub(super) fn new(low: u32, high: u32, index: usize) -> Run
        ensures { result ≡ record { low = low; high = high; index = index } }
    {
        Run { low, high, index }
    }
}

#[derive(Drop)]
pub(super) struct Runs {
    list: Vec<Run>,
}

impl Model for Runs {
    ghost use Rattle.std.specs.Prelude.{List};
    ghost use Rattle.cmap_runs.specs.Ranges.{Run};

    ghost Value = { List Run };

    ghost view = { λ runs. runs.list.items };
}

impl Runs {
    /// A list without runs, with capacity for this many.
    pub(super) fn with_capacity(alloc: Global, capacity: usize) -> Result<Runs, AllocError>
        ensures { IfOk result (λ runs. runs ≡ []) }
    {
        Ok(Runs {
            list: Vec::with_capacity(alloc, capacity)?,
        })
    }

    /// Frees the capacity that isn't used.
    pub(super) fn shrink_to_fit(&mut self)
        ensures { self.new ≡ self.old }
    {
        self.list.shrink_to_fit();
    }

    /// Adds a run at the end. If the run begins just after the last run and has the same index, the two
    /// become one run.
    pub(super) fn add(&mut self, low: u32, high: u32, index: usize) -> Result<(), AllocError>
        ensures added { OnOk result
            (self.new ≡ joined self.old (record { low = low; high = high; index = index })) }
        ensures few { OnOk result (length self.new ≤ length self.old + 1) }
        ensures err { OnErr result (self.new ≡ self.old) }
    {
        if self.is_continued_by(low, index) {
            let end = self.list.len() - 1;
            self.list[end].high = high;
            return Ok(());
        }
        self.list.push(Run::new(low, high, index))?;
        Ok(())
    }

    /// Whether a run that begins at `low` with the index begins just after the last run and has the same
    /// index.
    fn is_continued_by(&self, low: u32, index: usize) -> bool
        ensures answer { (high : ℕ) → result ≡ goes_on (slice_get self.now (length self.now - 1))
            (record { low = low; high = high; index = index }) }
        ensures some { result ≡ true → 0 < length self.now }
    {
        match self.list.last() {
            Some(last) => last.index == index && u64::from(last.high) + 1 == u64::from(low),
            None => false,
        }
    }
}

/// The runs of declarations.
#[derive(Drop)]
pub(super) enum RunList {
    /// The indices of declarations whose ranges are the runs.
    Ranges(Vec<u32>),
    Swept(Runs),
}

/// The first blocks of codes.
#[derive(Drop)]
pub(super) struct Blocks {
    list: Vec<Block>,
    /// How many runs don't end before the first code after the blocks.
    pub(super) left: usize,
    /// The code after all codes of the runs.
    pub(super) end: u64,
}

impl Blocks {
    /// The block of the code; `None` if the code comes after all blocks.
    fn block(&self, code: u32) -> Option<&Block>
        ensures { MatchOption result
            (32 * length self.now.list.items ≤ code)
            (λ block. (code / 32 < length self.now.list.items)
            × (block.now ≡ get_or self.now.list.items (code / 32) block.now)) }
    {
        self.list.get((code / BLOCK_LEN) as usize)
    }
}

/// Declarations, each at its index, with their runs.
#[derive(Drop)]
pub(super) struct Held<T: HasRange> {
    declarations: Vec<T>,
    runs: RunList,
}

impl<T: HasRange> Model for Held<T> {
    ghost use Rattle.std.specs.Prelude.{length, map};
    ghost use Rattle.cmap_runs.specs.DeclaredRanges.{DecidedRuns};

    ghost Value = { DecidedRuns T };

    ghost use Rattle.cmap_runs.specs.HeldRuns.{indices_within, runs_held};

    ghost view = { λ held. record {
      declarations = held.declarations.items;
      runs = runs_held (map T.span held.declarations.items) held.runs;
    } };

    ghost invariant = { λ held. indices_within (length held.declarations.items) held.runs };
}

impl<T: HasRange + fmt::Debug> fmt::Debug for Held<T> {
    fn fmt<W: fmt::Write>(&self, f: &mut fmt::Formatter<W>) -> fmt::Result {
        fmt::Debug::fmt(&self.declarations, f)
    }
}

impl<T: HasRange> Held<T> {
    pub(super) fn new(declarations: Vec<T>, runs: RunList) -> Held<T>
        requires { indices_within (length declarations.items) runs }
        ensures declarations { result.declarations ≡ declarations.items }
        ensures runs { result.runs ≡ runs_held (map T.span declarations.items) runs }
    {
        Held { declarations, runs }
    }

    pub(super) fn run_count(&self) -> usize
        ensures { result ≡ length self.now.runs }
    {
        match &self.runs {
            RunList::Ranges(indices) => indices.len(),
            RunList::Swept(runs) => runs.list.len(),
        }
    }

    /// The run at `i`.
    pub(super) fn run(&self, i: usize, looks: &mut Looks) -> Run
        requires { i < length self.now.runs }
        ensures run { slice_get self.now.runs i ≡ Some result }
        ensures runs { looks.new.runs ≡ looks.old.runs + 1 }
        ensures declarations { looks.new.declarations ≡ looks.old.declarations }
    {
        looks.look_at_run();
        self.run_at(i)
    }

    fn run_at(&self, i: usize) -> Run
        requires { i < length self.now.runs }
        ensures { slice_get self.now.runs i ≡ Some result }
    {
        match &self.runs {
            RunList::Ranges(indices) => range_at(&self.declarations, indices[i]),
            RunList::Swept(runs) => {
                let run = &runs.list[i];
                Run::new(run.low, run.high, run.index)
            }
        }
    }

    /// The last declaration that contains `code`, by the block of the code; `None` if the code comes after
    /// all blocks. A look at a block and at the run that the block leads to counts as one look at a run.
    #[inline(always)]
    pub(super) fn find_in_block(
        &self,
        blocks: &Blocks,
        code: u32,
        looks: &mut Looks,
    ) -> Option<Option<&T>>
        requires runs { self.now.runs ≡ runs_of (map T.span self.now.declarations) }
        requires blocks { AreBlocks self.now.runs blocks.now }
        ensures after { IfNone result (32 * length blocks.now.list.items ≤ code) }
        ensures none { IfNone result (looks.new ≡ looks.old) }
        ensures some { IfSome result
            (FindsLast T.span self.now.declarations code looks.old looks.new) }
    {
        let block = blocks.block(code)?;
        looks.look_at_run();
        let begun = block.begun_by(code);
        if begun == 0 {
            return Some(None);
        }
        Some(self.reaching(begun - 1, code, looks))
    }

    /// The declaration of the run at `i`, unless the run ends before `code`. The caller counts the look at
    /// the run.
    #[inline(always)]
    fn reaching(&self, i: usize, code: u32, looks: &mut Looks) -> Option<&T>
        requires run { i < length self.now.runs }
        requires within { All (λ run. run.index < length self.now.declarations) self.now.runs }
        ensures none { IfNone result (EndsBefore self.now.runs i code) }
        ensures some { IfSome result (λ declaration. Reaches self.now i code declaration.now) }
        ensures runs { looks.new.runs ≡ looks.old.runs }
        ensures declarations { looks.new.declarations
            ≡ looks.old.declarations + (if is_some result then 1 else 0) }
    {
        let declaration = match &self.runs {
            RunList::Ranges(indices) => {
                let declaration = &self.declarations[indices[i] as usize];
                if declaration.range().end < code {
                    return None;
                }
                declaration
            }
            RunList::Swept(runs) => {
                let run = &runs.list[i];
                if run.high < code {
                    return None;
                }
                &self.declarations[run.index]
            }
        };
        looks.look_at_declaration();
        Some(declaration)
    }

    /// The blocks of the first codes, which are made from all runs. The call counts no look. It takes `&mut
    /// self`, so that a search, which has only `&self`, can't call it.
    pub(super) fn made(&mut self, alloc: Global) -> Result<BlockMaker, AllocError>
        requires { IsInOrder self.old.runs }
        ensures made { IfOk result (AreMadeBy self.old.runs (length self.old.runs)) }
        ensures same { self.new ≡ self.old }
    {
        let mut maker = BlockMaker::with_room(alloc, self.most_blocks())?;
        for index in 0..self.run_count() {
            let low = self.run_at(index).low;
            if maker.end <= u64::from(low) {
                maker.end_before(u64::from(low), index, self.end_of(index));
                if maker.is_full() {
                    break;
                }
            }
            maker.add_start(low);
        }
        Ok(maker)
    }

    /// The blocks that were made from all runs, up to the end of the last run; no blocks if there are no
    /// runs. The call counts no look, just as `made` counts none.
    pub(super) fn finished(&mut self, maker: BlockMaker) -> Blocks
        requires order { IsInOrder self.old.runs }
        requires made { AreMadeBy self.old.runs (length self.old.runs) maker }
        ensures blocks { AreBlocks self.old.runs result }
        ensures same { self.new ≡ self.old }
    {
        let mut maker = maker;
        let run_count = self.run_count();
        let end = self.end_of(run_count);
        maker.end_before(end + u64::from(BLOCK_LEN) - 1, run_count, end);
        let left = run_count - self.ended_before(maker.begun, maker.code());
        let mut list = maker.list;
        if run_count == 0 {
            list.clear();
        }
        Blocks { list, left, end }
    }

    /// The code after all codes of the first `count` runs.
    fn end_of(&self, count: usize) -> u64
        requires order { IsInOrder self.now.runs }
        requires within { count ≤ length self.now.runs }
        ensures after { AllWithin (λ run. run.high < result) self.now.runs 0 count }
        ensures fits { result ≤ 2 ^ 32 }
    {
        match count {
            0 => 0,
            _ => u64::from(self.run_at(count - 1).high) + 1,
        }
    }

    /// How many blocks may be made.
    fn most_blocks(&self) -> usize
        ensures { result ≤ 2048 }
    {
        match self.run_count() {
            0 => 0,
            count => most_blocks(count, u64::from(self.run_at(0).low)),
        }
    }

    /// How many of the first `begun` runs end before the code. All these runs begin before the code.
    fn ended_before(&self, begun: usize, code: u64) -> usize
        requires order { IsInOrder self.now.runs }
        requires within { begun ≤ length self.now.runs }
        requires begun { AllWithin (λ run. run.low < code) self.now.runs 0 begun }
        ensures within { result ≤ begun }
        ensures before { AllWithin (λ run. run.high < code) self.now.runs 0 result }
    {
        if begun > 0 && u64::from(self.run_at(begun - 1).high) >= code {
            begun - 1
        } else {
            begun
        }
    }

    pub(super) fn declaration_count(&self) -> usize
        ensures { result ≡ length self.now.declarations }
    {
        self.declarations.len()
    }

    /// The declaration at `index`.
    pub(super) fn declaration(&self, index: usize, looks: &mut Looks) -> &T
        requires { index < length self.now.declarations }
        ensures declaration { slice_get self.now.declarations index ≡ Some result.now }
        ensures runs { looks.new.runs ≡ looks.old.runs }
        ensures declarations { looks.new.declarations ≡ looks.old.declarations + 1 }
    {
        looks.look_at_declaration();
        &self.declarations[index]
    }
}
