//! Queries for codespace ranges with codes of one length that begin with given bytes, by rows of bits.

ghost use Rattle.std.specs.Prelude.{◌≡◌, ◌↔◌, ℕ, ◌≤◌, length, IsTrue};
ghost use Rattle.std.specs.Int.{bit_at};
ghost use Rattle.cmap_values.specs.CodeLengths.{IsCodeLength, length_of};
ghost use Rattle.cmap_values.specs.Files.{Codespace};
ghost use Rattle.cmap_codespaces.specs.CodesWithin.{HasFront, IsWithin};
ghost use Rattle.cmap_codespaces.specs.SpaceBits.{AreRows, AreSet, InRows, IsFound, front_row, query_of, row_count};

use crate::block::{row_of_length, row_of_value};
use cmap_values::code_length::CodeLength;

/// The rows that must contain the ranges: the row of their length, and the row of each byte. If fewer
/// than four bytes are given, the row of the length takes the place of each missing byte.
#[derive(Clone, Copy)]
pub struct Query {
    length: usize,
    first: usize,
    second: usize,
    third: usize,
    fourth: usize,
}

impl Query {
    /// The ranges with codes of `byte_len` bytes, from 1 to 4, that may begin with the bytes of `front`,
    /// at most four.
    #[inline(always)]
    pub fn of_front(byte_len: u8, front: &[u8]) -> Query
        requires length { IsCodeLength byte_len }
        requires few { length front.now ≤ 4 }
        ensures rows { AreRows result }
        ensures is { result ≡ query_of byte_len front.now }
        ensures ranges { (space : Codespace)
            → InRows result space ↔ HasFront byte_len front.now space }
    {
        let length = row_of_length(byte_len);
        Query {
            length,
            first: row_at(front, length, 0),
            second: row_at(front, length, 1),
            third: row_at(front, length, 2),
            fourth: row_at(front, length, 3),
        }
    }

    /// The ranges that contain `code`, a code of this length.
    #[inline(always)]
    pub fn of_code(code: u32, len: CodeLength) -> Query
        ensures rows { AreRows result }
        ensures ranges { (space : Codespace)
            → InRows result space ↔ IsWithin space code (length_of len) }
    {
        let [first, second, third, fourth] = code.to_be_bytes();
        match len {
            CodeLength::One => Query::of_front(1, &[fourth]),
            CodeLength::Two => Query::of_front(2, &[third, fourth]),
            CodeLength::Three => Query::of_front(3, &[second, third, fourth]),
            CodeLength::Four => Query::of_front(4, &[first, second, third, fourth]),
        }
    }

    /// Whether a range of a block is in all rows of the query.
    #[inline(always)]
    pub(crate) fn finds(&self, rows: &[u64]) -> bool
        requires size { length rows.now ≡ row_count }
        requires rows { AreRows self.now }
        ensures { IsTrue result ↔ IsFound rows.now self.now }
    {
        self.among(rows) != 0
    }

    /// The bits that are set in all rows of the query.
    #[inline(always)]
    pub(crate) fn among(&self, rows: &[u64]) -> u64
        requires size { length rows.now ≡ row_count }
        requires rows { AreRows self.now }
        ensures { (i : ℕ) → (bit_at result i ≡ 1) ↔ AreSet rows.now self.now i }
    {
        rows[self.length]
            & rows[self.first]
            & rows[self.second]
            & rows[self.third]
            & rows[self.fourth]
    }
}

/// The row of the byte at a place, or `otherwise` if there are fewer bytes.
#[inline(always)]
fn row_at(front: &[u8], otherwise: usize, place: u8) -> usize
    ensures { result ≡ front_row front.now otherwise place }
{
    match front.get(usize::from(place)) {
        Some(value) => row_of_value(place, u32::from(*value)),
        None => otherwise,
    }
}
