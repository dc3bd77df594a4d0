//! Rows of bits for 64 blocks: in each row, the blocks that have a range in that row.

ghost use Rattle.std.specs.Prelude.{◌≡◌, ◌≢◌, ◌↔◌, ℕ, ◌<◌, ◌≤◌, ◌⊎◌, get_or, length, IfOk};
ghost use Rattle.cmap_codespaces.specs.SpaceBits.{AreGroups, HasGroup, HaveRows, IsSet, row_count};

use crate::block::{BLOCK_LEN, ROW_COUNT, no_rows};
use std::alloc::{AllocError, Global};

/// The rows of each group of 64 blocks.
pub(crate) fn groups_of(alloc: Global, blocks: &[Vec<u64>]) -> Result<Vec<Vec<u64>>, AllocError>
    requires { HaveRows blocks.now }
    ensures { IfOk result (λ groups. AreGroups blocks.now groups.items) }
{
    let count = blocks.len().div_ceil(BLOCK_LEN);
    let mut groups = Vec::with_capacity(alloc, count)?;
    for index in 0..count {
        groups.push(group_of(alloc, blocks, index * BLOCK_LEN)?)?;
    }
    Ok(groups)
}

/// The rows of the group of at most 64 blocks, from `first` on.
fn group_of(alloc: Global, blocks: &[Vec<u64>], first: usize) -> Result<Vec<u64>, AllocError>
    requires first { first ≤ length blocks.now }
    requires rows { HaveRows blocks.now }
    ensures { IfOk result (λ rows. HasGroup blocks.now first 64 rows.items) }
{
    let mut rows = no_rows(alloc)?;
    let count = (blocks.len() - first).min(BLOCK_LEN);
    for index in 0..count {
        mark_rows(&mut rows, &blocks[first + index], index as u32);
    }
    Ok(rows)
}

/// Sets a bit in each row in which a block has a range.
fn mark_rows(rows: &mut [u64], block: &[u64], bit: u32)
    requires rows { length rows.old ≡ row_count }
    requires block { length block.now ≡ row_count }
    requires bit { bit < 64 }
    ensures { (row i : ℕ) → row < row_count → IsSet rows.new i row
        ↔ (IsSet rows.old i row ⊎ ((i ≡ bit) × (get_or block.now row 0 ≢ 0))) }
{
    for row in 0..ROW_COUNT {
        if block[row] != 0 {
            rows[row] |= 1 << bit;
        }
    }
}
