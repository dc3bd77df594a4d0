//! The pieces of a text, one after another.

ghost use Rattle.std.specs.Prelude.{◌≡◌, ℕ, List, IfOk, MatchOption, length, flat_map};
ghost use Rattle.std.specs.Char.{encode_utf8};
ghost use Rattle.cmap_encode.specs.ChoicesSeen.{choice_seen};
ghost use Rattle.cmap_encode.specs.Encodings.{ArePiecesBy, IsPieceOf};
ghost use Rattle.cmap_encode.specs.Pieces.{Choices, IsEncodable};
ghost use Rattle.cmap_encode.specs.Ways.{AreInside, AreWays};

use crate::choices::{Choice, Grade};
use crate::prefixes::utf8_len;
use crate::ways::Way;
use std::alloc::{AllocError, Global};

/// A piece of a text, and the code that stands for it in the string.
#[derive(Clone, Copy, Debug, PartialEq, Eq)]
pub struct Piece {
    /// The number of bytes of the piece in UTF-8.
    pub text_len: usize,
    /// The number of bytes of the code, 1 to 4; 0 if no code stands for a variation selector.
    pub code_len: u8,
    /// How well the code stands for the piece.
    pub grade: Grade,
}

/// The pieces to which the ways of a text lead; `None` if the text doesn't fall into pieces.
pub(crate) fn pieces_of(
    alloc: Global,
    text: &[char],
    ways: &[Option<Way>],
) -> Result<Option<Vec<Piece>>, AllocError>
    requires inside { AreInside ways.now }
    requires count { length ways.now ≡ length text.now }
    ensures { IfOk result (λ found. (codes : Choices) → AreWays codes text.now ways.now
        → MatchOption found (IsEncodable codes text.now → ⊥) (λ pieces. ArePiecesBy codes text.now pieces.items)) }
{
    let mut pieces = Vec::new(alloc);
    let mut left = ways.len();
    while left > 0 {
        let Some(way) = ways[left - 1] else {
            return Ok(None);
        };
        let first = text.len() - left;
        let len = utf8_len(alloc, &text[first..first + way.taken])?;
        pieces.push(piece_of(len, way.choice))?;
        left -= way.taken;
    }
    Ok(Some(pieces))
}

/// The piece with this length in UTF-8 and with this choice.
fn piece_of(text_len: usize, choice: Choice) -> Piece
    ensures { IsPieceOf text_len (choice_seen choice) result }
{
    let code_len = match choice.code {
        Some(code) => code.len.count(),
        None => 0,
    };
    Piece {
        text_len,
        code_len,
        grade: choice.grade,
    }
}
