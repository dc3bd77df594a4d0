//! Whether a codespace range matches a query, by the bits of blocks and of groups of blocks.

ghost use Rattle.std.specs.Prelude.{◌≡◌, ◌↔◌, ℕ, ◌+◌, ◌*◌, ◌<◌, ◌≤◌, IfSome, IsTrue, length};
ghost use Rattle.std.specs.Int.{bit_at};
ghost use Rattle.cmap_codespaces.specs.CodesWithin.{IsLeast};
ghost use Rattle.cmap_codespaces.specs.SpaceBits.{AreGroups, AreRows, HaveRows, IsFoundAmong, IsFoundAt, IsFoundWithin};

use crate::block::BLOCK_LEN;
use crate::query::Query;

/// Whether a range of some block matches the query. Each block is looked at.
pub(crate) fn any_of_blocks(blocks: &[Vec<u64>], query: &Query) -> bool
    requires rows { HaveRows blocks.now }
    requires query { AreRows query.now }
    ensures { IsTrue result ↔ IsFoundAmong blocks.now query.now }
{
    for rows in blocks {
        if query.finds(rows) {
            return true;
        }
    }
    false
}

/// The answer of `any_of_blocks`. Each top group is looked at. Groups and blocks are looked at only if they
/// may have a matching range.
#[inline(always)]
pub(crate) fn any_of_tops(
    blocks: &[Vec<u64>],
    groups: &[Vec<u64>],
    tops: &[Vec<u64>],
    query: &Query,
) -> bool
    requires groups { AreGroups blocks.now groups.now }
    requires tops { AreGroups groups.now tops.now }
    requires rows { HaveRows blocks.now }
    requires query { AreRows query.now }
    ensures { IsTrue result ↔ IsFoundAmong blocks.now query.now }
{
    for (index, rows) in tops.iter().enumerate() {
        if any_of_top(blocks, groups, index * BLOCK_LEN, query.among(rows), query) {
            return true;
        }
    }
    false
}

/// Whether a range matches the query in the blocks of the groups, from `first` on, whose bits are set.
#[inline(always)]
fn any_of_top(
    blocks: &[Vec<u64>],
    groups: &[Vec<u64>],
    first: usize,
    bits: u64,
    query: &Query,
) -> bool
    requires first { first < length groups.now }
    requires groups { AreGroups blocks.now groups.now }
    requires rows { HaveRows blocks.now }
    requires query { AreRows query.now }
    ensures found { IsTrue result → IsFoundAmong blocks.now query.now }
    ensures none { (bit : ℕ) → bit < 64 → bit_at bits bit ≡ 1
        → IsFoundWithin blocks.now query.now (64 * (first + bit)) 64 → IsTrue result }
{
    let mut next = 0;
    while let Some(bit) = next_bit(bits, next) {
        if finds_in_group(blocks, groups, first + bit as usize, query) {
            return true;
        }
        next = bit + 1;
    }
    false
}

/// Whether a range matches the query in the blocks of the group at this index, if there is such a group.
#[inline(always)]
fn finds_in_group(blocks: &[Vec<u64>], groups: &[Vec<u64>], index: usize, query: &Query) -> bool
    requires groups { AreGroups blocks.now groups.now }
    requires rows { HaveRows blocks.now }
    requires query { AreRows query.now }
    ensures { IsTrue result ↔ IsFoundWithin blocks.now query.now (64 * index) 64 }
{
    if index >= groups.len() {
        return false;
    }
    let bits = query.among(&groups[index]);
    any_of_group(blocks, index * BLOCK_LEN, bits, query)
}

/// Whether a range matches the query in the blocks, from `first` on, whose bits are set.
#[inline(always)]
fn any_of_group(blocks: &[Vec<u64>], first: usize, bits: u64, query: &Query) -> bool
    requires first { first < length blocks.now }
    requires rows { HaveRows blocks.now }
    requires query { AreRows query.now }
    ensures found { IsTrue result → IsFoundWithin blocks.now query.now first 64 }
    ensures none { (bit : ℕ) → bit < 64 → bit_at bits bit ≡ 1
        → IsFoundAt blocks.now query.now (first + bit) → IsTrue result }
{
    let mut next = 0;
    while let Some(bit) = next_bit(bits, next) {
        if finds_at(blocks, first + bit as usize, query) {
            return true;
        }
        next = bit + 1;
    }
    false
}

/// Whether a range matches the query in the block at this index, if there is such a block.
#[inline(always)]
fn finds_at(blocks: &[Vec<u64>], index: usize, query: &Query) -> bool
    requires rows { HaveRows blocks.now }
    requires query { AreRows query.now }
    ensures { IsTrue result ↔ IsFoundAt blocks.now query.now index }
{
    match blocks.get(index) {
        Some(rows) => query.finds(rows),
        None => false,
    }
}

/// The index of the first set bit, from `from` on.
#[inline(always)]
pub(crate) fn next_bit(bits: u64, from: u32) -> Option<u32>
    ensures within { IfSome result (λ bit. bit < 64) }
    ensures first { IsLeast (λ bit. (from ≤ bit) × (bit_at bits bit ≡ 1)) result }
{
    if from >= 64 {
        return None;
    }
    let left = bits >> from;
    if left == 0 {
        return None;
    }
    Some(from + left.trailing_zeros())
}
