//! Consecutive codes that lie outside of all codespace ranges.

ghost use Rattle.std.specs.Prelude.{◌≡◌, ◌↔◌, ◌/◌, ◌^◌, ◌<◌, ◌≤◌, ℕ, Any, IsTrue, map};
ghost use Rattle.cmap_codespaces.specs.CodesWithin.{byte_at};
ghost use Rattle.cmap_values.specs.CodeLengths.{length_of};
ghost use Rattle.cmap_values.specs.DeclarationsSeen.{codespace_seen};
ghost use Rattle.cmap_encode.specs.Outside.{BeginsSo, IsInside, MayBegin};

use crate::code::Code;
use cmap_layers::layers::Layers;
use cmap_values::declarations::Codespace;

/// The last code up to which no code of this length after this code lies in a codespace range, as far as the first
/// bytes of the codes show it.
pub(crate) fn outside_until(encoding: &Layers, code: Code) -> u32
    ensures within { code.number ≤ result }
    ensures outside { (number : ℕ) → code.number < number → number ≤ result
        → IsInside encoding.now (length_of code.len) number → ⊥ }
{
    let mut last = code.number;
    for after in 1..code.len.count() {
        last = outside_with_prefix(encoding, code, after, last);
    }
    last
}

/// The last code up to which the codes after this code are known to lie outside, by the bytes before the last `after`
/// bytes. Codes up to `last` are known to lie outside already.
fn outside_with_prefix(encoding: &Layers, code: Code, after: u8, last: u32) -> u32
    requires after { (1 ≤ after) × (after ≤ 3) }
    requires within { code.number ≤ last }
    requires outside { (number : ℕ) → code.number < number → number ≤ last
        → IsInside encoding.now (length_of code.len) number → ⊥ }
    ensures within { code.number ≤ result }
    ensures outside { (number : ℕ) → code.number < number → number ≤ result
        → IsInside encoding.now (length_of code.len) number → ⊥ }
{
    if may_begin(encoding, code, after) {
        return last;
    }
    last_with_prefix(code.number, after)
}

/// The last number with the same bytes before the last `after` bytes.
pub(crate) fn last_with_prefix(number: u32, after: u8) -> u32
    requires { after ≤ 3 }
    ensures within { number ≤ result }
    ensures same { (other : ℕ) → number ≤ other → other ≤ result
        → other / 256 ^ after ≡ number / 256 ^ after }
{
    match after {
        0 => number,
        1 => number - number % 0x100 + 0xFF,
        2 => number - number % 0x1_0000 + 0xFFFF,
        _ => number - number % 0x100_0000 + 0xFF_FFFF,
    }
}

/// Whether a codespace range has codes of this length with the same bytes before the last `after` bytes.
pub(crate) fn may_begin(encoding: &Layers, code: Code, after: u8) -> bool
    requires { after ≤ 3 }
    ensures { IsTrue result ↔ MayBegin encoding.now (length_of code.len) code.number after }
{
    encoding
        .as_slice()
        .iter()
        .any(|layer| any_begins(layer.codespaces(), code, after))
}

/// Whether one of these codespace ranges has such codes.
fn any_begins(spaces: &[Codespace], code: Code, after: u8) -> bool
    requires { after ≤ 3 }
    ensures { IsTrue result
        ↔ Any (BeginsSo (length_of code.len) code.number after) (map codespace_seen spaces.now) }
{
    spaces.iter().any(|space| begins_so(space, code, after))
}

/// Whether this codespace range has such codes.
pub(crate) fn begins_so(space: &Codespace, code: Code, after: u8) -> bool
    requires { after ≤ 3 }
    ensures { IsTrue result
        ↔ BeginsSo (length_of code.len) code.number after (codespace_seen space.now) }
{
    if space.len.count() != code.len.count() {
        return false;
    }
    for place in after..code.len.count() {
        if !is_between(code.number, space.low, space.high, place) {
            return false;
        }
    }
    true
}

/// Whether the byte of a number at a place, counted from its last byte, lies between the bytes of two other numbers at
/// this place.
fn is_between(number: u32, low: u32, high: u32, place: u8) -> bool
    requires { place < 4 }
    ensures { IsTrue result
        ↔ ((byte_at low place ≤ byte_at number place) × (byte_at number place ≤ byte_at high place)) }
{
    let byte = byte_of(number, place);
    byte_of(low, place) <= byte && byte <= byte_of(high, place)
}

/// The byte of a number at a place, counted from its last byte.
pub(crate) fn byte_of(number: u32, place: u8) -> u32
    requires { place < 4 }
    ensures { result ≡ byte_at number place }
{
    (number >> (8 * place)) & 0xFF
}
