//! The lengths of the codes that begin with a byte, or with two bytes.

ghost use Rattle.std.specs.Prelude.{◌≡◌, ◌↔◌, ℕ, ◌+◌, ◌-◌, ◌*◌, ◌/◌, ◌%◌, ◌<◌, ◌≤◌, ◌⊎◌, get_or, length, replicate, IfOk};
ghost use Rattle.cmap_values.specs.CodeLengths.{length_of};
ghost use Rattle.cmap_values.specs.DeclarationsSeen.{codespace_seen};
ghost use Rattle.cmap_codespaces.specs.SpaceBits.{BeginsInRow, HaveLengths, IsSet, MayBeAt, front_row_count, row_of_front};

use crate::block::byte_at;
use cmap_values::declarations::Codespace;
use std::alloc::{AllocError, Global};

/// The row of the first pair of bytes. A row for no byte, and one row for each first byte, come before it.
const FIRST_PAIR: usize = 1 + 256;

/// The number of rows: the rows before `FIRST_PAIR`, and one row for each pair of bytes.
const FRONT_ROW_COUNT: usize = FIRST_PAIR + 256 * 256;

/// The number of rows that are cleared at once.
const CLEARED_AT_ONCE: usize = 1024;

/// The most rows that a range may be in, on average.
const MOST_ROWS: u64 = 1024;

/// The row of the first two bytes, or of all bytes if there are fewer.
#[inline(always)]
fn row_of_front(front: &[u8]) -> usize
    ensures { result ≡ row_of_front front.now }
{
    if front.is_empty() {
        0
    } else if front.len() < 2 {
        1 + usize::from(front[0])
    } else {
        FIRST_PAIR + 256 * usize::from(front[0]) + usize::from(front[1])
    }
}

/// The bits in the row of these bytes, one for each length of codes.
#[inline(always)]
pub(crate) fn lengths_with_front(rows: &[u8], front: &[u8]) -> u64
    ensures { result ≡ get_or rows.now (row_of_front front.now) 0 }
{
    match rows.get(row_of_front(front)) {
        Some(lengths) => u64::from(*lengths),
        None => 0,
    }
}

/// The rows for the first bytes of codes: each row has a bit for each length of the codes that begin with
/// its bytes. There are no rows if ranges are so wide that it would take long to make the rows.
pub(crate) fn lengths_of(alloc: Global, spaces: &[Codespace]) -> Result<Vec<u8>, AllocError>
    ensures { IfOk result (λ rows. 0 < length rows.items
        → HaveLengths spaces.now (length spaces.now) rows.items) }
{
    if are_wide(spaces) {
        return Ok(Vec::new(alloc));
    }
    rows_of(alloc, spaces)
}

/// Whether the ranges are in too many rows on average.
fn are_wide(spaces: &[Codespace]) -> bool {
    let mut rows: u64 = 0;
    for space in spaces {
        rows = rows.saturating_add(row_count(space));
    }
    rows / MOST_ROWS > spaces.len() as u64
}

/// The number of rows for two bytes that a range is in.
fn row_count(space: &Codespace) -> u64 {
    values_at(space, 0)
        .count()
        .saturating_mul(values_at(space, 1).count())
}

fn rows_of(alloc: Global, spaces: &[Codespace]) -> Result<Vec<u8>, AllocError>
    ensures { IfOk result (λ rows. HaveLengths spaces.now (length spaces.now) rows.items) }
{
    let mut rows = no_lengths(alloc)?;
    for index in 0..spaces.len() {
        add_length(&mut rows, &spaces[index]);
    }
    Ok(rows)
}

/// The rows of no range. The rows are cleared in short stretches, as the rows of blocks are.
fn no_lengths(alloc: Global) -> Result<Vec<u8>, AllocError>
    ensures { IfOk result (λ rows. rows.items ≡ replicate front_row_count 0) }
{
    let mut rows = Vec::with_capacity(alloc, FRONT_ROW_COUNT)?;
    while rows.len() < FRONT_ROW_COUNT {
        let len = (rows.len() + CLEARED_AT_ONCE).min(FRONT_ROW_COUNT);
        rows.resize(len, 0)?;
    }
    Ok(rows)
}

/// Sets the bit of a range's length in each row with whose bytes a code of the range may begin.
fn add_length(rows: &mut [u8], space: &Codespace)
    requires { length rows.old ≡ front_row_count }
    ensures { (row i : ℕ) → row < front_row_count → IsSet rows.new i row
        ↔ (IsSet rows.old i row
        ⊎ ((i ≡ length_of space.now.len) × BeginsInRow row (codespace_seen space.now))) }
{
    let len = space.len.count();
    let first = values_at(space, 0);
    let second = values_at(space, 1);
    set_lengths(rows, 0, 0, len);
    set_lengths(rows, 1 + first.low, 1 + first.high, len);
    for byte in first.low..first.high + 1 {
        let start = FIRST_PAIR + 256 * byte;
        set_lengths(rows, start + second.low, start + second.high, len);
    }
}

/// Bytes from a low one to a high one.
#[derive(Clone, Copy)]
struct Values {
    low: usize,
    high: usize,
}

impl Values {
    /// The number of bytes.
    fn count(self) -> u64 {
        (self.high as u64)
            .saturating_sub(self.low as u64)
            .saturating_add(1)
    }
}

/// The bytes that codes of a range may have at a place; all bytes if the codes are too short to have that
/// place.
fn values_at(space: &Codespace, place: u8) -> Values
    ensures within { result.high < 256 }
    ensures low { result.low < 256 }
    ensures values { (value : ℕ) → value < 256
        → MayBeAt (codespace_seen space.now) place value ↔ ((result.low ≤ value) × (value ≤ result.high)) }
{
    let len = space.len.count();
    if place >= len {
        return Values { low: 0, high: 255 };
    }
    let after = len - 1 - place;
    Values {
        low: byte_at(space.low, after) as usize,
        high: byte_at(space.high, after) as usize,
    }
}

/// Sets the bit of a length in the rows from `low` to `high`, both included.
fn set_lengths(rows: &mut [u8], low: usize, high: usize, len: u8)
    requires within { high < length rows.old }
    requires len { len < 8 }
    ensures { (row i : ℕ) → row < length rows.old → IsSet rows.new i row
        ↔ (IsSet rows.old i row ⊎ ((i ≡ len) × (low ≤ row) × (row ≤ high))) }
{
    for row in low..high + 1 {
        rows[row] |= 1 << len;
    }
}
