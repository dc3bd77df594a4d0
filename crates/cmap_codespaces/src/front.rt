//! The shortest prefix of a string that is a code in a codespace range.

ghost use Rattle.std.specs.Prelude.{◌≡◌, ℕ, ◌+◌, ◌*◌, ◌<◌, ◌≤◌, Some, length, slice_index, take};
ghost use Rattle.std.specs.Bool.{MatchBool};
ghost use Rattle.std.specs.Int.{bit_at};
ghost use Rattle.cmap_values.specs.CodeLengths.{IsCodeLength};
ghost use Rattle.cmap_codespaces.specs.CodesWithin.{IsLeast, lesser};
ghost use Rattle.cmap_codespaces.specs.SpaceBits.{AreGroups, HaveRows, IsFound, IsFoundAmong, IsInside, IsInsideWithin, IsSet, MayBegin, query_of, row_count, row_of_value};

use crate::block::{row_of_length, row_of_value};
use crate::query::Query;
use crate::search::any_of_tops;

/// The number of bytes in the shortest prefix of a text that is a code in a range of some block.
pub(crate) fn shortest_among_blocks(blocks: &[Vec<u64>], text: &[u8]) -> Option<u8>
    requires { HaveRows blocks.now }
    ensures { IsLeast (IsInsideWithin text.now blocks.now 0 (length blocks.now)) result }
{
    let mut shortest = None;
    for rows in blocks {
        shortest = lesser(shortest, shortest_in_block(rows, text));
    }
    shortest
}

/// The answer of `shortest_among_blocks`, if no range with codes of fewer than `fewest` bytes matches the
/// text. Only blocks that may have a matching range are searched.
#[inline(never)]
pub(crate) fn shortest_among_groups(
    blocks: &[Vec<u64>],
    groups: &[Vec<u64>],
    tops: &[Vec<u64>],
    fewest: u8,
    text: &[u8],
) -> Option<u8>
    requires groups { AreGroups blocks.now groups.now }
    requires tops { AreGroups groups.now tops.now }
    requires rows { HaveRows blocks.now }
    requires fewest { 1 ≤ fewest }
    requires shorter { (n : ℕ) → 1 ≤ n → n < fewest
        → IsFoundAmong blocks.now (query_of n (take n text.now)) → ⊥ }
    ensures { IsLeast (IsInsideWithin text.now blocks.now 0 (length blocks.now)) result }
{
    for byte_len in fewest..text.len().min(4) as u8 + 1 {
        let query = Query::of_front(byte_len, &text[..usize::from(byte_len)]);
        if any_of_tops(blocks, groups, tops, &query) {
            return Some(byte_len);
        }
    }
    None
}

/// The answer of `shortest_among_blocks` for one block. Most codes have one or two bytes: outside of the
/// loop, the steps for each of these lengths need no test of the length.
#[inline(always)]
pub(crate) fn shortest_in_block(rows: &[u64], text: &[u8]) -> Option<u8>
    requires { length rows.now ≡ row_count }
    ensures { IsLeast (IsInside text.now rows.now) result }
{
    let most = text.len().min(4) as u8;
    let mut found = u64::MAX;
    if most == 0 {
        return None;
    }
    if ends_at(rows, text, 0, &mut found) {
        return Some(1);
    }
    if most == 1 {
        return None;
    }
    if ends_at(rows, text, 1, &mut found) {
        return Some(2);
    }
    for place in 2..most {
        if ends_at(rows, text, place, &mut found) {
            return Some(place + 1);
        }
    }
    None
}

/// Whether a range of a block contains a code that ends with the byte at a place. Before the call, `found`
/// has a bit for each range that may begin with the bytes before that byte; after the call, for each range
/// that may begin with that byte too.
#[inline(always)]
fn ends_at(rows: &[u64], text: &[u8], place: u8, found: &mut u64) -> bool
    requires size { length rows.now ≡ row_count }
    requires place { (place < 4) × (place < length text.now) }
    requires before { MayBegin rows.now text.now place found.old }
    ensures { MatchBool result
        (IsLeast (IsInside text.now rows.now) (Some (place + 1)))
        (MayBegin rows.now text.now (place + 1) found.new) }
{
    let byte = text[usize::from(place)];
    *found &= rows[row_of_value(place, u32::from(byte))];
    *found & rows[row_of_length(place + 1)] != 0
}

/// The number of bytes in the shortest codes of the ranges of a block that may begin with these bytes.
pub(crate) fn fewest_with_front(rows: &[u64], front: &[u8]) -> Option<u8>
    requires rows { length rows.now ≡ row_count }
    requires few { length front.now ≤ 4 }
    ensures { IsLeast (λ n. IsCodeLength n × IsFound rows.now (query_of n front.now)) result }
{
    let found = with_front(rows, front);
    for byte_len in 1..5 {
        if found & rows[row_of_length(byte_len)] != 0 {
            return Some(byte_len);
        }
    }
    None
}

/// A bit for each range of a block that may begin with these bytes.
fn with_front(rows: &[u64], front: &[u8]) -> u64
    requires rows { length rows.now ≡ row_count }
    requires few { length front.now ≤ 4 }
    ensures set { (i : ℕ) → bit_at result i ≡ 1 → (k : ℕ) → k < length front.now
        → IsSet rows.now i (row_of_value k (slice_index front.now k)) }
    ensures all { (i : ℕ) → i < 64 → ((k : ℕ) → k < length front.now
        → IsSet rows.now i (row_of_value k (slice_index front.now k))) → bit_at result i ≡ 1 }
{
    let mut found = u64::MAX;
    for place in 0..front.len() as u8 {
        found &= rows[row_of_value(place, u32::from(front[usize::from(place)]))];
    }
    found
}

/// The lesser of two numbers, or the other number if one is `None`.
pub fn lesser(one: Option<u8>, other: Option<u8>) -> Option<u8>
    ensures { result ≡ lesser one other }
{
    match (one, other) {
        (Some(one), Some(other)) => Some(one.min(other)),
        (Some(one), None) => Some(one),
        (None, other) => other,
    }
}
