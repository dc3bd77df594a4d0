//! Blocks of codes, and the runs that begin in each block.

ghost use Rattle.std.specs.Prelude.{◌≡◌, ◌*◌, ◌-◌, ◌%◌, ◌^◌, ◌≤◌};
ghost use Rattle.cmap_runs.specs.Blocks.{begun_by};

/// How many codes a block has.
pub(super) const BLOCK_LEN: u32 = 32;

/// The number of blocks of the codes of two bytes.
pub(super) const MOST_BLOCKS: usize = 2048;

/// A shorter list of runs has at most one block.
pub(super) const FEWEST_RUNS: usize = 512;

/// The value of `begun` in a block of which no run holds a code.
pub(super) const NO_RUN: u32 = 0x1_0000;

/// Where runs begin among the codes of a block.
#[derive(Clone, Copy)]
pub(super) struct Block {
    /// How many runs begin before the block, or `NO_RUN`.
    pub(super) begun: u32,
    /// A bit for each code at which a run begins. The first code has the high bit.
    pub(super) starts: u32,
}

impl Block {
    /// How many runs begin up to and including a code of the block, or 0 if no run holds a code of the
    /// block.
    #[inline(always)]
    pub(super) fn begun_by(&self, code: u32) -> usize
        ensures { result ≡ begun_by self.now (code % 32) }
    {
        if self.begun == NO_RUN {
            return 0;
        }
        let starts = self.starts >> (BLOCK_LEN - 1 - code % BLOCK_LEN);
        self.begun as usize + starts.count_ones() as usize
    }
}

/// The bit of a code in its block. The first code has the high bit.
#[inline(always)]
pub(super) fn bit_of(code: u32) -> u32
    ensures { result ≡ 1 * 2 ^ (31 - code % 32) % 2 ^ 32 }
{
    1 << (BLOCK_LEN - 1 - code % BLOCK_LEN)
}

/// How many blocks may be made of this many runs, where the first run begins at `first`. Few runs need
/// only the block of the first codes, where the notdef ranges of most files lie.
pub(super) fn most_blocks(run_count: usize, first: u64) -> usize
    ensures { result ≤ 2048 }
{
    match run_count {
        0 => 0,
        _ if first >= u64::from(BLOCK_LEN) * MOST_BLOCKS as u64 => 0,
        1..FEWEST_RUNS => 1,
        _ => MOST_BLOCKS,
    }
}
