//! The classes of single pieces in a section, and the faults of pieces.

ghost use Rattle.std.specs.Prelude.{◌≡◌};
ghost use Rattle.cmap_tokens.specs.TokenSeen.{malformed_seen, piece_seen, wrong_seen};
ghost use Rattle.cmap_text.specs.Salvage as salvage;
ghost use Rattle.cmap_text.specs.SalvageSeen.{class_seen};

use super::known_words::class_of_name;
use crate::tokens::malformed_reason;
use cmap_tokens::token::{Malformed, MalformedPiece, Piece, Token};
use cmap_values::fault::{Reason, Stop};

/// The class of a piece in a section.
#[derive(Clone, Copy, PartialEq, Eq)]
pub(super) enum Class {
    /// An executable name that ends a section.
    Word,
    /// A piece that takes no place of an entry.
    Alone,
    OpenBracket,
    CloseBracket,
    /// A piece that may be a part of an entry.
    Part,
}

pub(super) fn class_of(piece: &Piece<'_>) -> Class
    ensures { class_seen result ≡ salvage.class_of (piece_seen piece.now) }
{
    match &piece.token {
        Ok(Token::Name(name)) if !name.is_literal() => class_of_name(name.as_bytes()),
        Ok(_) => Class::Part,
        Err(malformed) => class_of_malformed(malformed.kind),
    }
}

/// The class of a malformed piece in a section.
fn class_of_malformed(kind: Malformed) -> Class
    ensures { class_seen result ≡ salvage.class_of_malformed (malformed_seen kind) }
{
    match kind {
        Malformed::UnclosedText | Malformed::Stray => Class::Alone,
        Malformed::UnclosedHexadecimal | Malformed::WrongDigit => Class::Part,
    }
}

/// Whether a piece is a string, of any value.
pub(super) fn is_string(piece: &Piece<'_>) -> bool
    ensures { result ≡ salvage.is_string_piece (piece_seen piece.now) }
{
    matches!(piece.token, Ok(Token::String(_)))
}

/// Whether a piece is an executable name.
pub(super) fn is_name(piece: &Piece<'_>) -> bool
    ensures { result ≡ salvage.is_name_piece (piece_seen piece.now) }
{
    match &piece.token {
        Ok(Token::Name(name)) => !name.is_literal(),
        _ => false,
    }
}

/// Whether a piece is an executable name that isn't known.
pub(super) fn is_stray(piece: &Piece<'_>) -> bool
    ensures { result ≡ salvage.is_stray (piece_seen piece.now) }
{
    is_name(piece) && class_of(piece) == Class::Part
}

/// The fault of a malformed piece.
pub(super) fn own_fault(malformed: MalformedPiece) -> Stop
    ensures { result ≡ salvage.own_fault (wrong_seen malformed) }
{
    Stop {
        offset: malformed.offset,
        reason: malformed_reason(malformed.kind),
    }
}

/// The fault of a piece: the own fault of a malformed piece, or for a token a fault at its end with
/// this reason.
pub(super) fn fault_of(piece: &Piece<'_>, reason: Reason) -> Stop
    ensures { result ≡ salvage.fault_of reason (piece_seen piece.now) }
{
    match piece.token {
        Ok(_) => Stop {
            offset: piece.end,
            reason,
        },
        Err(malformed) => own_fault(malformed),
    }
}

/// The offset of the fault of a piece; for a token this is its end.
pub(super) fn fault_offset(piece: &Piece<'_>) -> usize
    ensures { result ≡ salvage.fault_offset (piece_seen piece.now) }
{
    match piece.token {
        Ok(_) => piece.end,
        Err(malformed) => malformed.offset,
    }
}
