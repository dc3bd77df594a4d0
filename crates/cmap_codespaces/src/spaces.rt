//! The codespace ranges of a layer, with blocks of bits by which they are found.

ghost use Rattle.std.specs.Prelude.{◌≡◌, ◌↔◌, ◌≤◌, Any, IfOk, IsTrue, length, map};
ghost use Rattle.cmap_values.specs.CodeLengths.{IsCodeLength};
ghost use Rattle.cmap_values.specs.DeclarationsSeen.{codespace_seen};
ghost use Rattle.cmap_codespaces.specs.CodesWithin.{HasFront, IsInsideRanges, IsLeast, some_count};
ghost use Rattle.cmap_codespaces.specs.SpaceBits.{AreBlocks, AreRows, InRows};

use crate::block::{BLOCK_LEN, rows_of};
use crate::front::{
    fewest_with_front, shortest_among_blocks, shortest_among_groups, shortest_in_block,
};
use crate::group::groups_of;
use crate::lengths::{lengths_of, lengths_with_front};
use crate::query::Query;
use crate::search::{any_of_blocks, any_of_tops, next_bit};
use cmap_values::declarations::Codespace;
use std::alloc::{AllocError, Global};
use std::fmt;
use std::marker::Model;

/// The least number of blocks for which there are groups. With fewer blocks, each block is looked at.
const FEWEST_BLOCKS: usize = 2;

/// The most bytes of a prefix whose row has exactly the lengths of the codes that begin with the prefix.
const EXACT_LEN: usize = 2;

/// Codespace ranges in the order of their file, with the rows of bits of each block of 64 ranges. If there are
/// many blocks, there are also the rows of each group of 64 blocks and of each top group of 64 groups, and, unless
/// ranges are wide, the lengths of the codes that begin with a byte, or with two bytes.
#[derive(Drop)]
pub struct Spaces {
    list: Vec<Codespace>,
    blocks: Vec<Vec<u64>>,
    groups: Vec<Vec<u64>>,
    tops: Vec<Vec<u64>>,
    lengths: Vec<u8>,
}

impl Model for Spaces {
    ghost use Rattle.std.specs.Prelude.{List};
    ghost use Rattle.cmap_values.specs.declared.declarations.Codespace.{Codespace};
    ghost use Rattle.cmap_codespaces.specs.SpaceBits.{AreFoundBy};

    ghost Value = { List Codespace };

    ghost view = { λ spaces. spaces.list.items };

    ghost invariant = { λ spaces.
        AreFoundBy spaces.list.items spaces.blocks.items spaces.groups.items spaces.tops.items spaces.lengths.items };
}

impl fmt::Debug for Spaces {
    fn fmt<W: fmt::Write>(&self, f: &mut fmt::Formatter<W>) -> fmt::Result {
        fmt::Debug::fmt(&self.list, f)
    }
}

impl Spaces {
    /// The ranges of a list.
    ///
    /// It fails only if memory runs out.
    pub fn build(alloc: Global, list: Vec<Codespace>) -> Result<Spaces, AllocError>
        ensures { IfOk result (λ spaces. spaces ≡ list.items) }
    {
        let blocks = blocks_of(alloc, &list)?;
        let groups = if blocks.len() < FEWEST_BLOCKS {
            Vec::new(alloc)
        } else {
            groups_of(alloc, &blocks)?
        };
        let tops = groups_of(alloc, &groups)?;
        let lengths = if groups.is_empty() {
            Vec::new(alloc)
        } else {
            lengths_of(alloc, &list)?
        };
        Ok(Spaces {
            list,
            blocks,
            groups,
            tops,
            lengths,
        })
    }

    /// The ranges, in the order of the file.
    pub fn as_slice(&self) -> &[Codespace]
        ensures { result.now ≡ self.now }
    {
        &self.list
    }

    /// The number of bytes in the shortest codes of the ranges that may begin with these bytes, at most four.
    pub fn fewest_with_front(&self, front: &[u8]) -> Option<u8>
        requires { length front.now ≤ 4 }
        ensures { IsLeast (λ n. IsCodeLength n
            × Any (HasFront n front.now) (map codespace_seen self.now)) result }
    {
        if let [only] = self.blocks.as_slice() {
            return fewest_with_front(only, front);
        }
        if self.lengths.is_empty() {
            return self.fewest_by_queries(front);
        }
        let lengths = lengths_with_front(&self.lengths, front);
        let bit = next_bit(lengths, front.len() as u32)?;
        if front.len() <= EXACT_LEN {
            return Some(bit as u8);
        }
        self.fewest_by_queries(front)
    }

    /// The answer of `fewest_with_front` for any number of blocks.
    #[inline(never)]
    fn fewest_by_queries(&self, front: &[u8]) -> Option<u8>
        requires { length front.now ≤ 4 }
        ensures { IsLeast (λ n. IsCodeLength n
            × Any (HasFront n front.now) (map codespace_seen self.now)) result }
    {
        for byte_len in front.len().max(1) as u8..5 {
            if self.any_of_all(&Query::of_front(byte_len, front)) {
                return Some(byte_len);
            }
        }
        None
    }

    /// Whether one of the ranges matches the query.
    #[inline(always)]
    pub fn any(&self, query: &Query) -> bool
        requires { AreRows query.now }
        ensures { IsTrue result ↔ Any (InRows query.now) (map codespace_seen self.now) }
    {
        match self.blocks.as_slice() {
            [only] => query.finds(only),
            _ => self.any_of_all(query),
        }
    }

    /// The answer of `any` for any number of blocks.
    #[inline(never)]
    fn any_of_all(&self, query: &Query) -> bool
        requires { AreRows query.now }
        ensures { IsTrue result ↔ Any (InRows query.now) (map codespace_seen self.now) }
    {
        if self.groups.is_empty() {
            any_of_blocks(&self.blocks, query)
        } else {
            any_of_tops(&self.blocks, &self.groups, &self.tops, query)
        }
    }

    /// The number of bytes in the shortest prefix of a text that is a code in one of the ranges.
    #[inline(always)]
    pub fn shortest(&self, text: &[u8]) -> Option<u8>
        ensures { IsLeast (IsInsideRanges text.now (map codespace_seen self.now)) result }
    {
        match self.blocks.as_slice() {
            [only] => shortest_in_block(only, text),
            _ => some_count(self.count_of_all(text)),
        }
    }

    /// The answer of `shortest` for any number of blocks, with 0 for `None`: an `Option` that a call returns is
    /// kept whole, and so are other `Option`s that may take its place.
    #[inline(never)]
    fn count_of_all(&self, text: &[u8]) -> u8
        ensures { IsLeast (IsInsideRanges text.now (map codespace_seen self.now)) (some_count result) }
    {
        self.shortest_of_all(text).unwrap_or(0)
    }

    /// The answer of `shortest` for any number of blocks.
    fn shortest_of_all(&self, text: &[u8]) -> Option<u8>
        ensures { IsLeast (IsInsideRanges text.now (map codespace_seen self.now)) result }
    {
        if self.groups.is_empty() {
            return shortest_among_blocks(&self.blocks, text);
        }
        if self.lengths.is_empty() {
            return shortest_among_groups(&self.blocks, &self.groups, &self.tops, 1, text);
        }
        let lengths = lengths_with_front(&self.lengths, text);
        let fewest = next_bit(lengths, 1)? as u8;
        if usize::from(fewest) > text.len() {
            return None;
        }
        if usize::from(fewest) <= EXACT_LEN {
            return Some(fewest);
        }
        shortest_among_groups(&self.blocks, &self.groups, &self.tops, fewest, text)
    }
}

/// A count, or `None` for 0.
#[inline(always)]
pub fn some_count(count: u8) -> Option<u8>
    ensures { result ≡ some_count count }
{
    if count == 0 { None } else { Some(count) }
}

/// The rows of each block of 64 ranges.
fn blocks_of(alloc: Global, spaces: &[Codespace]) -> Result<Vec<Vec<u64>>, AllocError>
    ensures { IfOk result (λ blocks. AreBlocks spaces.now blocks.items) }
{
    let count = spaces.len().div_ceil(BLOCK_LEN);
    let mut blocks = Vec::with_capacity(alloc, count)?;
    for index in 0..count {
        blocks.push(rows_of(alloc, spaces, index * BLOCK_LEN)?)?;
    }
    Ok(blocks)
}
