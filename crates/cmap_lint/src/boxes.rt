//! Boxes of codes: each byte of a code lies between two bytes, as in a codespace range. ISO
//! 32000-1, 9.7.6.2.

use crate::ranges::code_count;
use cmap_runs::runs::Range;
use cmap_values::declarations::Codespace;
use std::alloc::{AllocError, Global};
use std::ops::RangeInclusive;

/// The most boxes into which the codes of codespace ranges are divided.
const MOST_BOXES: usize = 256;

/// Codes of four bytes, each byte between its own two bounds. Shorter codes have leading bytes 0.
#[derive(Clone, Copy)]
pub(crate) struct CodeBox {
    low: [u8; 4],
    high: [u8; 4],
}

impl CodeBox {
    /// The codes of a codespace range.
    fn of(space: &Codespace) -> CodeBox {
        CodeBox {
            low: space.low.to_be_bytes(),
            high: space.high.to_be_bytes(),
        }
    }

    /// Whether the box has a code.
    fn has_codes(&self) -> bool {
        for index in 0..4 {
            if self.low[index] > self.high[index] {
                return false;
            }
        }
        true
    }

    /// Whether the two boxes have a code in common.
    fn meets(&self, other: &CodeBox) -> bool {
        for index in 0..4 {
            if self.low[index] > other.high[index] || other.low[index] > self.high[index] {
                return false;
            }
        }
        true
    }

    /// The number of codes of the box up to and including this code.
    fn count_to(&self, code: u32) -> u64 {
        let digits = code.to_be_bytes();
        let mut below: u64 = 0;
        let mut is_within = true;
        for index in 0..4 {
            let (low, high) = (u64::from(self.low[index]), u64::from(self.high[index]));
            let digit = u64::from(digits[index]);
            let width = high.saturating_sub(low).saturating_add(1);
            below = below.saturating_mul(width);
            if is_within {
                below = below.saturating_add(digit.saturating_sub(low).min(width));
            }
            is_within = is_within && low <= digit && digit <= high;
        }
        below.saturating_add(u64::from(is_within))
    }

    /// The number of codes of the box in a range.
    fn count_in(&self, range: Range) -> u64 {
        let before = match range.start.checked_sub(1) {
            Some(code) => self.count_to(code),
            None => 0,
        };
        self.count_to(range.end).saturating_sub(before)
    }

    /// Adds the codes of the box that lie outside the other box, as boxes.
    fn push_outside(&self, other: &CodeBox, pieces: &mut Vec<CodeBox>) -> Result<(), AllocError> {
        if !self.meets(other) {
            pieces.push(*self)?;
            return Ok(());
        }
        let mut left = *self;
        for index in 0..4 {
            if left.low[index] < other.low[index] {
                let mut piece = left;
                piece.high[index] = other.low[index].saturating_sub(1);
                pieces.push(piece)?;
                left.low[index] = other.low[index];
            }
            if left.high[index] > other.high[index] {
                let mut piece = left;
                piece.low[index] = other.high[index].saturating_add(1);
                pieces.push(piece)?;
                left.high[index] = other.high[index];
            }
        }
        Ok(())
    }

    /// The values of the next to last byte of the codes.
    pub(crate) fn rows(&self) -> RangeInclusive<u8> {
        self.low[2]..=self.high[2]
    }

    /// The codes of a row of the box. The codes have at most two bytes.
    pub(crate) fn row(&self, row: u8) -> Range {
        Range {
            start: u32::from_be_bytes([0, 0, row, self.low[3]]),
            end: u32::from_be_bytes([0, 0, row, self.high[3]]),
        }
    }
}

/// The codes of codespace ranges as disjoint boxes; `None` where more than 256 boxes are needed.
pub(crate) fn boxes_apart(
    alloc: Global,
    spaces: &[Codespace],
) -> Result<Option<Vec<CodeBox>>, AllocError> {
    if spaces.len() > MOST_BOXES {
        return Ok(None);
    }
    let mut apart = Vec::new(alloc);
    for space in spaces {
        let Some(mut pieces) = outside_all(alloc, CodeBox::of(space), &apart)? else {
            return Ok(None);
        };
        apart.append(&mut pieces)?;
    }
    Ok(Some(apart))
}

/// The codes of a box that lie in none of the others, as boxes; `None` where the boxes are too
/// many.
fn outside_all(
    alloc: Global,
    whole: CodeBox,
    others: &[CodeBox],
) -> Result<Option<Vec<CodeBox>>, AllocError> {
    let mut pieces = Vec::new(alloc);
    if whole.has_codes() {
        pieces.push(whole)?;
    }
    for other in others {
        pieces = outside_one(alloc, &pieces, other)?;
        if pieces.len().saturating_add(others.len()) > MOST_BOXES {
            return Ok(None);
        }
    }
    Ok(Some(pieces))
}

/// The codes of the pieces that lie outside the other box, as boxes.
fn outside_one(
    alloc: Global,
    pieces: &[CodeBox],
    other: &CodeBox,
) -> Result<Vec<CodeBox>, AllocError> {
    let mut outside = Vec::new(alloc);
    for piece in pieces {
        piece.push_outside(other, &mut outside)?;
    }
    Ok(outside)
}

/// The number of codes of a range that lie in none of the boxes. The boxes are disjoint.
pub(crate) fn count_outside(boxes: &[CodeBox], range: Range) -> u64 {
    let mut inside: u64 = 0;
    for codes in boxes {
        inside = inside.saturating_add(codes.count_in(range));
    }
    code_count(range).saturating_sub(inside)
}

/// The first code of a range that lies in none of the boxes, if there is such a code.
pub(crate) fn first_outside(boxes: &[CodeBox], range: Range) -> u32 {
    let Range { start, end } = range;
    let (mut low, mut high) = (start, end);
    for _ in 0..32 {
        let middle = low.saturating_add(high.saturating_sub(low) / 2);
        if count_outside(boxes, Range { start, end: middle }) > 0 {
            high = middle;
        } else {
            low = middle.saturating_add(1).min(high);
        }
    }
    low
}
