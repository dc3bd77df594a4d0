//! Rows of bits for 64 codespace ranges: the ranges with codes of each length, and the ranges with each
//! value at each place of their codes.

ghost use Rattle.std.specs.Prelude.{◌≡◌, ◌↔◌, ℕ, ◌+◌, ◌*◌, ◌<◌, ◌≤◌, ◌⊎◌, length, replicate, IfOk};
ghost use Rattle.cmap_values.specs.DeclarationsSeen.{codespace_seen};
ghost use Rattle.cmap_codespaces.specs.CodesWithin.{byte_at};
ghost use Rattle.cmap_codespaces.specs.SpaceBits.{HaveBits, InRow, IsSet, row_count, row_of_length, row_of_value};

use cmap_values::declarations::Codespace;
use std::alloc::{AllocError, Global};

/// The number of ranges for which a block has bits.
pub(crate) const BLOCK_LEN: usize = 64;

/// The number of rows for values in a block: one for each value of each of four bytes.
const VALUE_ROW_COUNT: usize = 4 * 256;

/// The number of rows in a block: the rows for values, and then one for each length.
pub(crate) const ROW_COUNT: usize = VALUE_ROW_COUNT + 4;

/// The row of the ranges that have a value at a place of their codes; the first byte is at place 0.
pub(crate) fn row_of_value(place: u8, value: u32) -> usize
    ensures { result ≡ row_of_value place value }
{
    256 * usize::from(place) + value as usize
}

/// The row of the ranges whose codes have this many bytes.
pub(crate) fn row_of_length(byte_len: u8) -> usize
    ensures { result ≡ row_of_length byte_len }
{
    VALUE_ROW_COUNT - 1 + usize::from(byte_len)
}

/// The number of rows that are cleared at once.
const CLEARED_AT_ONCE: usize = 128;

/// The rows of a block or a group with no range. A long stretch of memory may be cleared byte by byte, so
/// the rows are cleared in short stretches.
pub(crate) fn no_rows(alloc: Global) -> Result<Vec<u64>, AllocError>
    ensures { IfOk result (λ rows. rows.items ≡ replicate row_count 0) }
{
    let mut rows = Vec::with_capacity(alloc, ROW_COUNT)?;
    while rows.len() < ROW_COUNT {
        let len = (rows.len() + CLEARED_AT_ONCE).min(ROW_COUNT);
        rows.resize(len, 0)?;
    }
    Ok(rows)
}

/// The rows of at most 64 ranges, from `first` on.
pub(crate) fn rows_of(
    alloc: Global,
    spaces: &[Codespace],
    first: usize,
) -> Result<Vec<u64>, AllocError>
    requires { first ≤ length spaces.now }
    ensures { IfOk result (λ rows. HaveBits spaces.now first 64 rows.items) }
{
    let mut rows = no_rows(alloc)?;
    let count = (spaces.len() - first).min(BLOCK_LEN);
    for index in 0..count {
        add(&mut rows, &spaces[first + index], index as u32);
    }
    Ok(rows)
}

/// Sets the bit of a range in each row that contains the range.
fn add(rows: &mut [u64], space: &Codespace, bit: u32)
    requires size { length rows.old ≡ row_count }
    requires bit { bit < 64 }
    ensures { (row i : ℕ) → row < row_count → IsSet rows.new i row
        ↔ (IsSet rows.old i row ⊎ ((i ≡ bit) × InRow row (codespace_seen space.now))) }
{
    let len = space.len.count();
    let of_length = row_of_length(len);
    set_rows(rows, of_length, of_length, bit);
    for place in 0..len {
        let after = len - 1 - place;
        let low = row_of_value(place, byte_at(space.low, after));
        let high = row_of_value(place, byte_at(space.high, after));
        set_rows(rows, low, high, bit);
    }
}

/// Sets a bit in the rows from `low` to `high`, both included.
fn set_rows(rows: &mut [u64], low: usize, high: usize, bit: u32)
    requires within { high < length rows.old }
    requires bit { bit < 64 }
    ensures { (row i : ℕ) → row < length rows.old → IsSet rows.new i row
        ↔ (IsSet rows.old i row ⊎ ((i ≡ bit) × (low ≤ row) × (row ≤ high))) }
{
    for row in low..high + 1 {
        rows[row] |= 1 << bit;
    }
}

/// The byte of a number at `after` bytes before its last byte.
pub(crate) fn byte_at(number: u32, after: u8) -> u32
    requires { after < 4 }
    ensures { result ≡ byte_at number after }
{
    (number >> (8 * after)) & 0xFF
}
