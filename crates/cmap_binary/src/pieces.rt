//! Numbers, codes, and pieces that declare their own length, at the start of a text. Each call
//! moves the text past the item that it finds.

ghost use Rattle.std.specs.Prelude.{◌<◌, ◌^◌};
ghost use Rattle.cmap_binary.specs.Fronts.{ByteAt, CodeAt, FieldAt, FramedAt, SizedAt, TerminatedAt};
ghost use Rattle.cmap_values.specs.CodeLengths.{IsCodeLength};
ghost use Rattle.cmap_values.specs.Outcomes.{Finds};

use crate::bits::Reader;
use cmap_values::code_length::CodeLength;

/// The number of bytes in the length of a piece.
const SIZE: u8 = 4;

/// The byte that the text begins with.
pub fn take_byte(text: &mut &[u8]) -> Option<u8>
    ensures { Finds (ByteAt text.old.now) (λ byte. (byte, text.new.now)) result }
{
    text.split_off_first().copied()
}

/// The number of two bytes that the text begins with.
pub fn take_u16(text: &mut &[u8]) -> Option<u16>
    ensures { Finds (FieldAt 2 text.old.now) (λ number. (number, text.new.now)) result }
{
    let number = Reader::new(text).read_u16()?;
    *text = &text[2..];
    Some(number)
}

/// The number of `width` bytes, one to four, that the text begins with.
pub fn take_field(text: &mut &[u8], width: u8) -> Option<u32>
    requires { IsCodeLength width }
    ensures { Finds (FieldAt width text.old.now) (λ number. (number, text.new.now)) result }
{
    let number = Reader::new(text).read_n_bytes(width)?;
    *text = &text[usize::from(width)..];
    Some(number)
}

/// The code of this width that the text begins with. Codes have one to four bytes.
pub fn take_code(text: &mut &[u8], width: u8) -> Option<u32>
    ensures { Finds (CodeAt width text.old.now) (λ code. (code, text.new.now)) result }
{
    CodeLength::of(width)?;
    take_field(text, width)
}

/// The piece that the text begins with, after the length of the piece in four bytes.
pub fn take_sized<'b>(text: &mut &'b [u8]) -> Option<&'b [u8]>
    ensures { Finds (SizedAt text.old.now) (λ piece. (piece.now, text.new.now)) result }
{
    let size = take_field(text, SIZE)?;
    text.split_off(..size as usize)
}

/// The piece that the text begins with. The piece declares its whole length in four bytes, after
/// its first `before` bytes.
pub fn take_framed<'b>(text: &mut &'b [u8], before: usize) -> Option<&'b [u8]>
    requires { before < 2 ^ 32 }
    ensures { Finds (FramedAt before text.old.now) (λ piece. (piece.now, text.new.now)) result }
{
    let mut head = text.get(before..)?;
    let size = take_field(&mut head, SIZE)? as usize;
    if size < before + usize::from(SIZE) {
        return None;
    }
    text.split_off(..size)
}

/// The bytes up to the first zero byte, which is taken too.
pub fn take_terminated<'b>(text: &mut &'b [u8]) -> Option<&'b [u8]>
    ensures { Finds (TerminatedAt text.old.now) (λ piece. (piece.now, text.new.now)) result }
{
    let end = text.iter().position(|byte| *byte == 0)?;
    let piece = &text[..end];
    *text = &text[end + 1..];
    Some(piece)
}
