//! The pieces of a text in order: tokens and malformed pieces.

ghost use Rattle.std.specs.Prelude.{◌≡◌, ◌+◌, ◌<◌, ◌≤◌, length, drop, IfOk};
ghost use Rattle.std.specs.List.{All};
ghost use Rattle.cmap_tokens.specs.Pieces.{IsUnclosed, malformed_at, piece_at};
ghost use Rattle.cmap_tokens.specs.TokenSeen.{piece_token_seen};

use super::gaps::gap_len;
use super::malformed_pieces::{ends_blank_line, fault_len, malformed_kind, malformed_piece_len};
use super::pieces::first_piece;
use super::unclosed::Unclosed;
use super::{Malformed, Token};
use std::alloc::{AllocError, Global};
use std::marker::Model;

/// A piece of a text.
#[derive(Clone, Copy)]
pub struct Piece<'a> {
    /// The token of the piece, or the fault of a malformed piece.
    pub token: Result<Token<'a>, MalformedPiece>,
    /// The offset of the byte after the piece.
    pub end: usize,
    /// Whether only blanks stand before the piece in its line.
    pub begins_line: bool,
}

/// The fault of a malformed piece, which is no token.
#[derive(Clone, Copy, Debug, PartialEq, Eq)]
pub struct MalformedPiece {
    pub kind: Malformed,
    /// The offset of the fault: for an unclosed string the start of the string, for a wrong digit the
    /// digit, for a `)` the `)` itself, and for a `>` the byte after the `>`.
    pub offset: usize,
}

/// Reads the pieces of a text in order. White space and comments stand between the pieces. The time for
/// all pieces is proportional to the length of the text.
#[derive(Drop)]
pub struct PieceReader<'a> {
    alloc: Global,
    source: &'a [u8],
    offset: usize,
    unclosed: Unclosed,
}

// Contracts see the pieces that are left.
impl<'a> Model for PieceReader<'a> {
    ghost use Rattle.std.specs.Prelude.{◌≤◌, List, length};
    ghost use Rattle.std.specs.List.{All};
    ghost use Rattle.cmap_tokens.specs.Pieces.{IsUnclosed, Piece, pieces_left};

    ghost Value = { List Piece };

    ghost view = { λ reader. pieces_left (record { source = reader.source.now; passed = reader.offset }) };

    ghost invariant = { λ reader. record {
      within : reader.offset ≤ length reader.source.now;
      unclosed : All (λ one. IsUnclosed reader.source.now one.offset) reader.unclosed.open.items;
    } };
}

impl<'a> PieceReader<'a> {
    ghost use Rattle.std.specs.Prelude.{◌≡◌, ◌∷◌, [], IfOk, MatchOption, OnErr};
    ghost use Rattle.cmap_tokens.specs.Pieces.{pieces_left};
    ghost use Rattle.cmap_tokens.specs.TokensLeft.{start_of};
    ghost use Rattle.cmap_tokens.specs.TokenSeen.{piece_seen};

    /// A reader before the first byte of a text.
    pub fn new(alloc: Global, source: &'a [u8]) -> Self
        ensures { result ≡ pieces_left (start_of source.now) }
    {
        PieceReader {
            alloc,
            source,
            offset: 0,
            unclosed: Unclosed::none(alloc),
        }
    }

    /// The next piece; `None` if only white space and comments are left.
    ///
    /// It fails only if memory runs out, and then leaves the reader in place.
    pub fn next_piece(&mut self) -> Result<Option<Piece<'a>>, AllocError>
        ensures piece { IfOk result (λ found. MatchOption found ((self.old ≡ []) × (self.new ≡ []))
            (λ piece. self.old ≡ piece_seen piece ∷ self.new)) }
        ensures stays { OnErr result (self.new ≡ self.old) }
    {
        let start = self.offset + gap_len(&self.source[self.offset..]);
        if start >= self.source.len() {
            return Ok(None);
        }
        let (token, len) = piece_at(self.alloc, self.source, start, &mut self.unclosed)?;
        self.offset = start + len;
        Ok(Some(Piece {
            token,
            end: self.offset,
            begins_line: ends_blank_line(&self.source[..start]),
        }))
    }
}

/// The piece that begins at an offset of a text, and how many bytes it has.
fn piece_at<'a>(
    alloc: Global,
    text: &'a [u8],
    start: usize,
    unclosed: &mut Unclosed,
) -> Result<(Result<Token<'a>, MalformedPiece>, usize), AllocError>
    requires within { start < length text.now }
    requires known { All (λ one. IsUnclosed text.now one.offset) unclosed.old.open.items }
    ensures piece { IfOk result (λ found. (piece_token_seen found.0, found.1) ≡ piece_at start (drop start text.now)) }
    ensures within { IfOk result (λ found. start + found.1 ≤ length text.now) }
    ensures known { All (λ one. IsUnclosed text.now one.offset) unclosed.new.open.items }
{
    if unclosed.has(start) {
        return Ok(malformed_piece(text, start));
    }
    if let Some((token, len)) = first_piece(&text[start..]) {
        return Ok((Ok(token), len));
    }
    learn(alloc, text, start, unclosed)?;
    Ok(malformed_piece(text, start))
}

/// Finds all unclosed `(` of a text from the offset `start` on, if a `(` stands there. No token begins at
/// `start`.
fn learn(
    alloc: Global,
    text: &[u8],
    start: usize,
    unclosed: &mut Unclosed,
) -> Result<(), AllocError>
    requires within { start ≤ length text.now }
    requires known { All (λ one. IsUnclosed text.now one.offset) unclosed.old.open.items }
    ensures { All (λ one. IsUnclosed text.now one.offset) unclosed.new.open.items }
{
    if let Malformed::UnclosedText = malformed_kind(&text[start..]) {
        *unclosed = Unclosed::from(alloc, text, start)?;
    }
    Ok(())
}

/// The malformed piece that begins at an offset of a text, and its length in bytes.
fn malformed_piece<'a>(text: &[u8], start: usize) -> (Result<Token<'a>, MalformedPiece>, usize)
    requires { start ≤ length text.now }
    ensures piece { (piece_token_seen result.0, result.1) ≡ malformed_at start (drop start text.now) }
    ensures within { start + result.1 ≤ length text.now }
{
    let rest = &text[start..];
    let piece = MalformedPiece {
        kind: malformed_kind(rest),
        offset: start + fault_len(rest),
    };
    (Err(piece), malformed_piece_len(rest))
}
