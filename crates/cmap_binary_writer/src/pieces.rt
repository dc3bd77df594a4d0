//! Pieces that state their own length.

ghost use Rattle.std.specs.Prelude.{◌≡◌, ◌+◌, ◌<◌, ◌≤◌, ◌^◌, ◌∷◌, [], IfErr, IfOk, length};
ghost use Rattle.cmap_binary.specs.Bundles.{PrefixTables};
ghost use Rattle.cmap_binary.specs.BinaryFiles.{Content, IsSegment, SegmentAt};
ghost use Rattle.cmap_binary_writer.specs.Failures.{IsTooLongIf};
ghost use Rattle.cmap_binary_writer.specs.Written.{Appends, IsFramed, IsSized, Writes};

use crate::bytes::push_number;
use crate::obstacle::Obstacle;
use cmap_values::fault::Fault;

/// The number of bytes of the length of a piece.
const SIZE: usize = 4;

/// Writes the length of a piece in four bytes, and the piece.
pub fn push_sized(out: &mut Vec<u8>, piece: &[u8]) -> Result<(), Fault<Obstacle>>
    ensures written { IfOk result (λ _. Appends out.old.items out.new.items (IsSized piece.now)) }
    ensures err { IfErr result (IsTooLongIf (2 ^ 32 ≤ length piece.now)) }
    ensures len { IfOk result (λ _. length out.new.items ≡ length out.old.items + 4 + length piece.now) }
{
    if piece.len() > u32::MAX as usize {
        return Err(Fault::Refused(Obstacle::TooLong));
    }
    push_number(out, piece.len() as u32, 4)?;
    out.extend_from_slice(piece)?;
    Ok(())
}

/// Writes a piece: the prefix `front`, the length of the whole piece in four bytes, and the
/// payload.
pub fn push_framed(out: &mut Vec<u8>, front: &[u8], payload: &[u8]) -> Result<(), Fault<Obstacle>>
    requires { length front.now < 2 ^ 32 }
    ensures written { IfOk result (λ _. Appends out.old.items out.new.items (IsFramed front.now payload.now)) }
    ensures err { IfErr result (IsTooLongIf (2 ^ 32 ≤ length front.now + 4 + length payload.now)) }
{
    if payload.len() > u32::MAX as usize - SIZE
        || payload.len() + SIZE > u32::MAX as usize - front.len()
    {
        return Err(Fault::Refused(Obstacle::TooLong));
    }
    out.extend_from_slice(front)?;
    push_number(out, (front.len() + SIZE + payload.len()) as u32, 4)?;
    out.extend_from_slice(payload)?;
    Ok(())
}

/// Writes a segment of this type.
pub(crate) fn push_segment(
    out: &mut Vec<u8>,
    number: u8,
    payload: &[u8],
) -> Result<(), Fault<Obstacle>>
    ensures written { IfOk result (λ _. Appends out.old.items out.new.items (λ bytes.
        (tables : PrefixTables) (content : Content) → IsSegment tables number payload.now content
        → Writes (SegmentAt tables) content bytes)) }
    ensures framed { IfOk result (λ _. Appends out.old.items out.new.items (IsFramed (number ∷ []) payload.now)) }
    ensures len { IfOk result (λ _. length out.new.items ≡ length out.old.items + 5 + length payload.now) }
    ensures err { IfErr result (IsTooLongIf (2 ^ 32 ≤ 5 + length payload.now)) }
{
    push_framed(out, &[number], payload)
}
