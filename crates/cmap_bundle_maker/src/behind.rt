//! A text in a bundle, behind a comment that contains the length.

ghost use Rattle.std.specs.Prelude.{◌≡◌, ◌+◌, ◌^◌, ◌∷◌, ◌++◌, ◌≤◌, ◌<◌, ℕ, All, IfErr, IfOk, List, false, length, true};
ghost use Rattle.std.specs.Int.{from_be_bytes, w32};
ghost use Rattle.cmap_tokens.specs.Gaps.{ends_comment};
ghost use Rattle.cmap_binary_writer.specs.Failures.{IsTooLongIf};
ghost use Rattle.cmap_bundle_maker.specs.Slots.{IsTextBehind};
ghost use Rattle.cmap_binary_writer.specs.Written.{Appends, bytes_of};

use cmap_binary_writer::Obstacle;
use cmap_binary_writer::pieces::push_framed;
use cmap_values::fault::Fault;
use std::alloc::Global;

/// The first six bytes of a text. They begin a comment, which ends at the line end after the
/// length.
const TEXT_HEAD: &[u8] = b"% text";

/// The number of bytes before a text: the six bytes of `TEXT_HEAD`, four bytes of the length, and a
/// line end.
const BEFORE: u64 = 11;

/// Writes a text behind a comment that contains the length.
pub(crate) fn push_text(
    alloc: Global,
    text: &[u8],
    out: &mut Vec<u8>,
) -> Result<(), Fault<Obstacle>>
    ensures written { IfOk result (λ _. Appends out.old.items out.new.items (IsTextBehind text.now)) }
    ensures short { IfOk result (λ _. 11 + length text.now < 2 ^ 32) }
    ensures err { IfErr result (IsTooLongIf (2 ^ 32 ≤ 11 + length text.now)) }
{
    let payload = text_payload(alloc, text)?;
    push_framed(out, TEXT_HEAD, &payload)?;
    Ok(())
}

/// A line end, the text, and enough spaces that no byte of the length ends a comment.
fn text_payload(alloc: Global, text: &[u8]) -> Result<Vec<u8>, Fault<Obstacle>>
    ensures written { IfOk result (λ payload. (spaces : List ℕ) × (payload.items ≡ 10 ∷ (text.now ++ spaces))
        × All (λ b. b ≡ 32) spaces × All (λ b. ends_comment b ≡ false) (bytes_of 4 (10 + length payload.items))) }
    ensures len { IfOk result (λ payload. 10 + length payload.items < 2 ^ 32) }
    ensures err { IfErr result (IsTooLongIf (2 ^ 32 ≤ 11 + length text.now)) }
{
    let Ok(least) = u32::try_from(BEFORE + text.len() as u64) else {
        return Err(Fault::Refused(Obstacle::TooLong));
    };
    let spaces = vec![in alloc; b' '; (without_line_end(least) - least) as usize]?;
    let mut payload = Vec::new(alloc);
    payload.push(b'\n')?;
    payload.extend_from_slice(text)?;
    payload.extend_from_slice(&spaces)?;
    Ok(payload)
}

/// The least number, from `number` on, whose bytes don't end a comment.
fn without_line_end(number: u32) -> u32
    ensures more { number ≤ result }
    ensures ends { All (λ b. ends_comment b ≡ false) (bytes_of 4 result) }
{
    u32::from_be_bytes(raised(number.to_be_bytes()))
}

/// The bytes of the least number, from the number of `bytes` on, whose bytes don't end a comment.
fn raised(bytes: [u8; 4]) -> [u8; 4]
    ensures more { from_be_bytes w32 bytes ≤ from_be_bytes w32 result }
    ensures ends { All (λ b. ends_comment b ≡ false) result }
    ensures small { All (λ b. b < 2 ^ 8) result }
{
    let [first, second, third, fourth] = bytes;
    if is_line_end(first) {
        [after_line_end(first), 0, 0, 0]
    } else if is_line_end(second) {
        [first, after_line_end(second), 0, 0]
    } else if is_line_end(third) {
        [first, second, after_line_end(third), 0]
    } else {
        [first, second, third, after_line_end(fourth)]
    }
}

/// The least byte from `byte` on that doesn't end a comment.
fn after_line_end(byte: u8) -> u8
    ensures more { byte ≤ result }
    ensures above { ends_comment byte ≡ true → byte < result }
    ensures ends { ends_comment result ≡ false }
{
    match byte {
        0x0A => 0x0B,
        0x0C | 0x0D => 0x0E,
        _ => byte,
    }
}

/// Whether a byte ends a comment.
fn is_line_end(byte: u8) -> bool
    ensures { result ≡ ends_comment byte }
{
    byte == 0x0A || byte == 0x0C || byte == 0x0D
}
