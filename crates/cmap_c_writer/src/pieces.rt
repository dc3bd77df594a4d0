//! The pieces of texts, for C.

ghost use Rattle.std.specs.Prelude.{◌≡◌, MatchOption};
ghost use Rattle.cmap_handles.specs.Statuses.{number};
ghost use Rattle.cmap_handles.specs.declared.status.Status.TheVariants.{Absent};
ghost use Rattle.cmap_values.specs.Outcomes.{Outcome};
ghost use Rattle.cmap_encode.specs.EncoderSeen.{IsEncoderOf};
ghost use Rattle.cmap_encode.specs.Maps.{Maps};
ghost use Rattle.cmap_c_writer.specs.Encoded.{ArePiecesOfText, IsRefusedAt};
ghost use Rattle.cmap_c_writer.specs.PiecesSeen.{EndsAsPieces, PutsPieces, grade_number, piece_seen};

use crate::encode::{failed, utf8};
use crate::handle::EncoderHandle;
use cmap_encode::{Encoder, Grade, Piece, Unencodable};
use cmap_handles::room::{Items, put_items};
use cmap_handles::status::Status;
use cmap_values::fault::Fault;
use std::alloc::Global;

/// A piece of a text, and the code that stands for it in the string. Each field may have any value, since C may pass a
/// buffer that was never written.
#[repr(C)]
#[derive(Clone, Copy)]
pub struct EncodedPiece {
    /// The number of bytes of the piece in UTF-8.
    pub(crate) text_len: usize,
    /// The number of bytes of the code, 1 to 4; 0 if no code stands for a variation selector.
    pub(crate) code_len: u32,
    /// The number of the grade in the header.
    pub(crate) grade: u32,
}

/// Pieces that were made.
#[derive(Drop)]
struct Pieces {
    made: Vec<Piece>,
}

impl Items for Pieces {
    type Item = EncodedPiece;

    ghost use Rattle.std.specs.Prelude.{map};
    ghost use Rattle.cmap_c_writer.specs.PiecesSeen.{piece_seen};

    ghost items = { λ pieces. map piece_seen pieces.made.items };

    fn count(&self) -> usize {
        self.made.len()
    }

    fn item(&self, index: usize) -> EncodedPiece {
        encoded(self.made[index])
    }
}

/// Writes the pieces of a text in UTF-8. `hayro_cmap_encode` gives the codes of the pieces one after another.
#[unsafe(no_mangle)]
pub extern "C" fn hayro_cmap_encode_pieces(
    encoder: &mut EncoderHandle,
    alloc: Global,
    text: &[u8],
    pieces: &mut [EncodedPiece],
    needed: &mut usize,
    offset: &mut usize,
) -> u32
    ensures same { encoder.new.slot.encoder ≡ encoder.old.slot.encoder }
    ensures pieces { MatchOption encoder.old.slot.encoder
        ((result ≡ number Absent) × (pieces.new ≡ pieces.old) × (needed.new ≡ needed.old)
        × (offset.new ≡ offset.old))
        (λ given. (maps : Maps) → IsEncoderOf maps given → PutsPieces maps text.now
        pieces.old pieces.new needed.old needed.new offset.old offset.new result) }
{
    let Some(encoder) = encoder.encoder() else {
        return Status::Absent.number();
    };
    put_pieces(pieces_of(alloc, encoder, text), pieces, needed, offset)
}

/// The pieces of a text in UTF-8. A text without an encoding is refused.
fn pieces_of(
    alloc: Global,
    encoder: &Encoder,
    text: &[u8],
) -> Result<Vec<Piece>, Fault<Unencodable>>
    ensures { (maps : Maps) → IsEncoderOf maps encoder.now → Outcome
        (λ pieces. ArePiecesOfText maps text.now pieces.items)
        (λ refused. IsRefusedAt maps text.now refused.offset) result }
{
    encoder.pieces(alloc, utf8(text)?)
}

/// Writes the pieces to the start of the buffer `room`, if all pieces fit, and the number of pieces to `needed`; or
/// writes to `offset` where the text is refused.
fn put_pieces(
    made: Result<Vec<Piece>, Fault<Unencodable>>,
    room: &mut [EncodedPiece],
    needed: &mut usize,
    offset: &mut usize,
) -> u32
    ensures { EndsAsPieces made room.old room.new needed.old needed.new offset.old offset.new result }
{
    match made {
        Ok(made) => put_items(&Pieces { made }, room, needed),
        Err(fault) => failed(fault, offset),
    }
}

/// A piece, as C has it.
fn encoded(piece: Piece) -> EncodedPiece
    ensures { result ≡ piece_seen piece }
{
    EncodedPiece {
        text_len: piece.text_len,
        code_len: u32::from(piece.code_len),
        grade: number_of(piece.grade),
    }
}

/// The number of a grade in the header.
fn number_of(grade: Grade) -> u32
    ensures { result ≡ grade_number grade }
{
    match grade {
        Grade::Stated => 0,
        Grade::Canonical => 1,
        Grade::Collection => 2,
        Grade::Alike => 3,
        Grade::National => 4,
    }
}
