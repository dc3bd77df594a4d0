//! The strings of texts, for C.

ghost use Rattle.std.specs.Prelude.{◌≡◌, MatchOption};
ghost use Rattle.std.specs.Str.{IsUtf8, IsValidUpTo};
ghost use Rattle.cmap_handles.specs.Statuses.{number};
ghost use Rattle.cmap_handles.specs.declared.status.Status.TheVariants.{Absent};
ghost use Rattle.cmap_values.specs.Outcomes.{Outcome};
ghost use Rattle.cmap_encode.specs.EncoderSeen.{IsEncoderOf};
ghost use Rattle.cmap_encode.specs.Maps.{Maps};
ghost use Rattle.cmap_c_writer.specs.Encoded.{EndsAs, EndsFailed, IsLossyStringOf, IsRefusedAt, IsStringOf, PutsLossyString, PutsString, TakesLossy};

use crate::handle::EncoderHandle;
use cmap_encode::{Encoder, Unencodable};
use cmap_handles::room::put;
use cmap_handles::status::Status;
use cmap_values::fault::Fault;
use std::alloc::Global;
use std::str;

/// Writes the encoding of a text in UTF-8 to the buffer `room`, and its length in bytes to `needed`. The offset where
/// a text is refused goes to `offset`.
#[unsafe(no_mangle)]
pub extern "C" fn hayro_cmap_encode(
    encoder: &mut EncoderHandle,
    alloc: Global,
    text: &[u8],
    room: &mut [u8],
    needed: &mut usize,
    offset: &mut usize,
) -> u32
    ensures same { encoder.new.slot.encoder ≡ encoder.old.slot.encoder }
    ensures string { MatchOption encoder.old.slot.encoder
        ((result ≡ number Absent) × (room.new ≡ room.old) × (needed.new ≡ needed.old) × (offset.new ≡ offset.old))
        (λ given. (maps : Maps) → IsEncoderOf maps given → PutsString maps text.now
        room.old room.new needed.old needed.new offset.old offset.new result) }
{
    let Some(encoder) = encoder.encoder() else {
        return Status::Absent.number();
    };
    put_string(string_of(alloc, encoder, text), room, needed, offset)
}

/// Writes the encoding of a text in UTF-8, with the bytes `missing` in place of each character that has no encoding.
/// `missing` consists of whole codes of the font, or is empty.
#[unsafe(no_mangle)]
pub extern "C" fn hayro_cmap_encode_lossy(
    encoder: &mut EncoderHandle,
    alloc: Global,
    text: &[u8],
    missing: &[u8],
    room: &mut [u8],
    needed: &mut usize,
) -> u32
    ensures same { encoder.new.slot.encoder ≡ encoder.old.slot.encoder }
    ensures string { MatchOption encoder.old.slot.encoder
        ((result ≡ number Absent) × (room.new ≡ room.old) × (needed.new ≡ needed.old))
        (λ given. (maps : Maps) → IsEncoderOf maps given → PutsLossyString maps missing.now text.now
        room.old room.new needed.old needed.new result) }
{
    let Some(encoder) = encoder.encoder() else {
        return Status::Absent.number();
    };
    put_string(
        lossy_string_of(alloc, encoder, text, missing),
        room,
        needed,
        &mut 0,
    )
}

/// The encoding of a text in UTF-8. A text without an encoding is refused.
fn string_of(alloc: Global, encoder: &Encoder, text: &[u8]) -> Result<Vec<u8>, Fault<Unencodable>>
    ensures { (maps : Maps) → IsEncoderOf maps encoder.now → Outcome
        (λ string. IsStringOf maps text.now string.items)
        (λ refused. IsRefusedAt maps text.now refused.offset) result }
{
    encoder.encode(alloc, utf8(text)?)
}

/// The encoding of a text in UTF-8, with the codes `missing` in place of each character that has no encoding. Bytes in
/// `missing` that aren't whole codes are refused too.
fn lossy_string_of(
    alloc: Global,
    encoder: &Encoder,
    text: &[u8],
    missing: &[u8],
) -> Result<Vec<u8>, Fault<Unencodable>>
    ensures { (maps : Maps) → IsEncoderOf maps encoder.now → Outcome
        (λ string. IsLossyStringOf maps missing.now text.now string.items)
        (λ _. TakesLossy maps missing.now text.now → ⊥) result }
{
    if !encoder.are_codes(missing) {
        return Err(Fault::Refused(Unencodable { offset: 0 }));
    }
    Ok(encoder.encode_lossy(alloc, utf8(text)?, missing)?)
}

/// The text, if it is UTF-8; else the text is refused where it stops being UTF-8.
pub(crate) fn utf8(text: &[u8]) -> Result<&str, Fault<Unencodable>>
    ensures { Outcome (λ found. (found.now ≡ text.now) × IsUtf8 text.now)
        (λ refused. (IsUtf8 text.now → ⊥) × IsValidUpTo text.now refused.offset) result }
{
    match str::from_utf8(text) {
        Ok(text) => Ok(text),
        Err(fault) => Err(Fault::Refused(Unencodable {
            offset: fault.valid_up_to(),
        })),
    }
}

/// Writes the string to the start of the buffer `room`, if the string fits, and its length in bytes to `needed`; or
/// writes to `offset` where the text is refused.
pub(crate) fn put_string(
    string: Result<Vec<u8>, Fault<Unencodable>>,
    room: &mut [u8],
    needed: &mut usize,
    offset: &mut usize,
) -> u32
    ensures { EndsAs string room.old room.new needed.old needed.new offset.old offset.new result }
{
    match string {
        Ok(string) => put(&string, room, needed),
        Err(fault) => failed(fault, offset),
    }
}

/// The status of a failure. The offset where a text is refused is written to `offset`.
pub(crate) fn failed(fault: Fault<Unencodable>, offset: &mut usize) -> u32
    ensures { EndsFailed fault offset.old offset.new result }
{
    match fault {
        Fault::Refused(refused) => {
            *offset = refused.offset;
            Status::Refused.number()
        }
        Fault::Memory => Status::NoMemory.number(),
    }
}
