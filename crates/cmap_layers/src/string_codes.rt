//! The code that a string begins with, by the codespace ranges of all layers.
//! ISO 32000-1, 9.7.6.2 and 9.7.6.3.

ghost use Rattle.std.specs.Prelude.{◌≡◌, ◌≤◌, [], length, IfSome, MatchOption};
ghost use Rattle.cmap_values.specs.CodeLengths.{IsCodeLength};
ghost use Rattle.cmap_values.specs.Only.{HoldsOfNone, IsOnly};
ghost use Rattle.cmap_layers.specs.LayersSeen.{layers_seen};
ghost use Rattle.cmap_layers.specs.SpaceBits.{IsShortestMatch};
ghost use Rattle.cmap_layers.specs.StringCodes.{BeginsInside, IsNextCode, IsShortestInside, Wants, front, ranges_of};

use crate::codespaces::{any_has_front, shortest};
use crate::layer::Layer;
use crate::layers::Layers;

/// The code that a string begins with. ISO 32000-1, 9.7.6.2.
#[derive(Clone, Copy, Debug, PartialEq, Eq)]
pub struct StringCode {
    /// The big-endian number in the bytes of the code.
    pub code: u32,
    /// The number of bytes in the code, 1 to 4.
    pub byte_len: u8,
    /// Whether the code lies in a codespace range.
    pub in_codespace: bool,
    /// Whether the string ends before the code does: no prefix of the string lies in a codespace range,
    /// and the range that decides how many bytes are taken has longer codes than the string has bytes.
    pub cut_short: bool,
}

impl Layers {
    /// The code that a string begins with, and the number of its bytes; `None` if the string is empty.
    ///
    /// The code is the shortest prefix of the string that lies in a codespace range of some layer. If
    /// there is no such prefix, the range decides that matches the longest prefix: each byte of the
    /// prefix lies between the bytes of the range. Of several such ranges, a range with the shortest
    /// codes decides. The code takes as many bytes as the codes of this range have, or all bytes if the
    /// string has fewer. If no layer has a range, the code takes one byte. ISO 32000-1, 9.7.6.2 and
    /// 9.7.6.3.
    #[inline(always)]
    pub fn next_code(&self, text: &[u8]) -> Option<StringCode>
        ensures code { MatchOption result (text.now ≡ []) (IsOnly (IsNextCode self.now text.now)) }
        ensures length { IfSome result
            (λ found. IsCodeLength found.byte_len × (found.byte_len ≤ length text.now)) }
    {
        let layers = self.as_slice();
        let inside = shortest_inside(layers, text);
        let (byte_len, code, wanted) = match inside {
            Some((byte_len, code)) => (byte_len, code, byte_len),
            None => {
                let wanted = bytes_wanted(layers, text);
                let byte_len = text.len().min(usize::from(wanted)) as u8;
                let code = code_of_prefix(text, byte_len)?;
                (byte_len, code, wanted)
            }
        };
        Some(StringCode {
            code,
            byte_len,
            in_codespace: inside.is_some(),
            cut_short: byte_len < wanted,
        })
    }
}

/// The shortest prefix of a string that is a code in a codespace range: the number of its bytes, and the
/// code.
#[inline(always)]
fn shortest_inside(layers: &[Layer], text: &[u8]) -> Option<(u8, u32)>
    ensures { MatchOption result
        (HoldsOfNone (BeginsInside (layers_seen layers.now) text.now))
        (λ found. IsShortestInside (layers_seen layers.now) text.now found.0
        × (found.1 ≡ front text.now found.0)) }
{
    let byte_len = shortest(layers, text)?;
    let code = code_of_prefix(text, byte_len)?;
    Some((byte_len, code))
}

/// The big-endian number in the first `byte_len` bytes of a string; `None` unless `byte_len` is one to
/// four and the string has that many bytes.
#[inline(always)]
fn code_of_prefix(text: &[u8], byte_len: u8) -> Option<u32>
    ensures { MatchOption result (IsCodeLength byte_len → byte_len ≤ length text.now → ⊥)
        (λ code. IsCodeLength byte_len × (byte_len ≤ length text.now)
        × (code ≡ front text.now byte_len)) }
{
    // If a caller has found the length, the compiler leaves out these tests.
    match (byte_len, text) {
        (1, [a, ..]) => Some(u32::from(*a)),
        (2, [a, b, ..]) => Some(u32::from_be_bytes([0, 0, *a, *b])),
        (3, [a, b, c, ..]) => Some(u32::from_be_bytes([0, *a, *b, *c])),
        (4, [a, b, c, d, ..]) => Some(u32::from_be_bytes([*a, *b, *c, *d])),
        _ => None,
    }
}

/// The number of bytes that a string needs for its code, if no prefix of the string is a code in a
/// codespace range.
#[cold]
#[inline(never)]
fn bytes_wanted(layers: &[Layer], text: &[u8]) -> u8
    requires { HoldsOfNone (BeginsInside (layers_seen layers.now) text.now) }
    ensures wanted { Wants (ranges_of (layers_seen layers.now)) text.now result }
    ensures length { IsCodeLength result }
{
    let most = text.len().min(3);
    for fewer in 0..most + 1 {
        if let Some(byte_len) = shortest_with_front(layers, &text[..most - fewer]) {
            return byte_len;
        }
    }
    1
}

/// The number of bytes in the shortest codes of the ranges that match all these bytes; `None` if no
/// range does.
fn shortest_with_front(layers: &[Layer], front: &[u8]) -> Option<u8>
    requires { length front.now ≤ 4 }
    ensures { IsShortestMatch (ranges_of (layers_seen layers.now)) front.now result }
{
    if let [only] = layers {
        return only.spaces.fewest_with_front(front);
    }
    for byte_len in front.len().max(1) as u8..5 {
        if any_has_front(layers, byte_len, front) {
            return Some(byte_len);
        }
    }
    None
}
