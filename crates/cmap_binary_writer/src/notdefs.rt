//! Segments of notdef declarations.

ghost use Rattle.std.specs.Prelude.{◌≡◌, ◌+◌, ◌<◌, ◌^◌, ◌++◌, All, flat_map, length};
ghost use Rattle.cmap_values.specs.CodeLengths.{length_of};
ghost use Rattle.cmap_values.specs.DeclarationsSeen.{cid_entry_seen, entries_seen};
ghost use Rattle.cmap_values.specs.Outcomes.{Outcome};
ghost use Rattle.cmap_binary_writer.specs.Fields.{CodeFits, NotdefFits, notdef_bytes, notdefs_bytes, notdefs_payload};
ghost use Rattle.cmap_binary_writer.specs.Obstacles.{IsCodeObstacle, IsNotdefObstacle, IsNotdefsObstacle};
ghost use Rattle.cmap_binary_writer.specs.Written.{bytes_of};

use crate::bytes::push_number;
use crate::decided::LARGEST_CID;
use crate::obstacle::Obstacle;
use crate::pieces::push_segment;
use cmap_values::code_length::CodeLength;
use cmap_values::declarations::CidRange;
use cmap_values::fault::Fault;
use std::alloc::Global;

/// The type of a segment of notdef declarations.
const NOTDEFS: u8 = 10;

/// The most entries of a segment.
const MOST: usize = 65535;

/// Writes segments for these notdef declarations for codes of one length, in order.
pub(crate) fn push_notdefs(
    alloc: Global,
    len: CodeLength,
    entries: &[CidRange],
    out: &mut Vec<u8>,
) -> Result<(), Fault<Obstacle>>
    ensures { Outcome (λ _. All (NotdefFits (length_of len)) (entries_seen entries.now)
        × (out.new.items ≡ out.old.items ++ notdefs_bytes (length_of len) (entries_seen entries.now)))
        (IsNotdefsObstacle (length_of len) (entries_seen entries.now)) result }
{
    let mut left = entries;
    while !left.is_empty() {
        let (here, later) = left.split_at(left.len().min(MOST));
        let payload = notdef_payload(alloc, len, here)?;
        push_segment(out, NOTDEFS, &payload)?;
        left = later;
    }
    Ok(())
}

/// The payload of a segment of these notdef declarations.
fn notdef_payload(
    alloc: Global,
    len: CodeLength,
    entries: &[CidRange],
) -> Result<Vec<u8>, Fault<Obstacle>>
    requires { length entries.now < 2 ^ 16 }
    ensures { Outcome (λ payload. All (NotdefFits (length_of len)) (entries_seen entries.now)
        × (payload.items ≡ notdefs_payload (length_of len) (entries_seen entries.now)))
        (IsNotdefsObstacle (length_of len) (entries_seen entries.now)) result }
{
    let mut payload = Vec::new(alloc);
    payload.push(len.count())?;
    push_number(&mut payload, entries.len() as u32, 2)?;
    push_entries(&mut payload, len, entries)?;
    Ok(payload)
}

/// Writes notdef declarations, one after another.
fn push_entries(
    out: &mut Vec<u8>,
    len: CodeLength,
    entries: &[CidRange],
) -> Result<(), Fault<Obstacle>>
    ensures { Outcome (λ _. All (NotdefFits (length_of len)) (entries_seen entries.now)
        × (out.new.items ≡ out.old.items ++ flat_map (notdef_bytes (length_of len)) (entries_seen entries.now)))
        (IsNotdefsObstacle (length_of len) (entries_seen entries.now)) result }
{
    for entry in entries {
        push_notdef(out, len, entry)?;
    }
    Ok(())
}

/// Writes a notdef declaration: the first code, the last code, and a CID of two bytes.
fn push_notdef(out: &mut Vec<u8>, len: CodeLength, entry: &CidRange) -> Result<(), Fault<Obstacle>>
    ensures { Outcome (λ _. NotdefFits (length_of len) (cid_entry_seen entry.now)
        × (out.new.items ≡ out.old.items ++ notdef_bytes (length_of len) (cid_entry_seen entry.now)))
        (IsNotdefObstacle (length_of len) (cid_entry_seen entry.now)) result }
{
    if entry.cid > LARGEST_CID {
        return Err(Fault::Refused(Obstacle::LargeCid(entry.range)));
    }
    push_code(out, len, entry.range.start)?;
    push_code(out, len, entry.range.end)?;
    push_number(out, entry.cid, 2)?;
    Ok(())
}

/// Writes a code of this length.
pub(crate) fn push_code(
    out: &mut Vec<u8>,
    len: CodeLength,
    code: u32,
) -> Result<(), Fault<Obstacle>>
    ensures { Outcome (λ _. CodeFits (length_of len) code × (out.new.items ≡ out.old.items ++ bytes_of (length_of len) code))
        (IsCodeObstacle (length_of len) code) result }
{
    if code > largest_code(len) {
        return Err(Fault::Refused(Obstacle::LargeCode(code)));
    }
    push_number(out, code, len.count())?;
    Ok(())
}

/// The largest code of this length.
fn largest_code(len: CodeLength) -> u32
    ensures { result + 1 ≡ 256 ^ length_of len }
{
    match len {
        CodeLength::One => 0xFF,
        CodeLength::Two => 0xFFFF,
        CodeLength::Three => 0xFF_FFFF,
        CodeLength::Four => 0xFFFF_FFFF,
    }
}
