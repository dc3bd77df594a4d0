//! Consecutive codes that are whole, or that aren't whole.

ghost use Rattle.std.specs.Prelude.{◌≡◌, ◌-◌, ◌*◌, ◌/◌, ◌^◌, ◌<◌, ◌≤◌, ℕ, Any, IsTrue, false, map, true};
ghost use Rattle.cmap_codespaces.specs.CodesWithin.{IsWithin, byte_at};
ghost use Rattle.cmap_values.specs.CodeLengths.{length_of};
ghost use Rattle.cmap_values.specs.DeclarationsSeen.{codespace_seen};
ghost use Rattle.cmap_encode.specs.Outside.{IsInside};
ghost use Rattle.cmap_encode.specs.WholeSeen.{AreWhole, HasPrefixInside, IsFull, IsWholeNumber};

use crate::code::Code;
use crate::outside::{begins_so, byte_of, last_with_prefix, may_begin, outside_until};
use cmap_layers::layers::Layers;
use cmap_values::code_length::CodeLength;
use cmap_values::declarations::Codespace;

/// Consecutive codes that are all whole, or all not whole. A whole code lies in a codespace range, and none of its
/// prefixes does.
#[derive(Clone, Copy)]
pub(crate) struct WholeStretch {
    /// Whether the codes are whole.
    pub(crate) are_whole: bool,
    /// The last of the codes.
    pub(crate) last: u32,
}

/// Whether a code is whole, with codes after it for which the same holds.
pub(crate) fn whole_stretch(encoding: &Layers, code: Code) -> WholeStretch
    requires { code.number < 256 ^ length_of code.len }
    ensures within { code.number ≤ result.last }
    ensures fits { IsTrue result.are_whole → result.last < 256 ^ length_of code.len }
    ensures whole { AreWhole encoding.now (length_of code.len) code.number result }
{
    let Some(len) = code.shortest_prefix(encoding) else {
        return WholeStretch {
            are_whole: false,
            last: outside_until(encoding, code),
        };
    };
    if len.count() < code.len.count() {
        return WholeStretch {
            are_whole: false,
            last: shadowed_until(encoding, code, len),
        };
    }
    WholeStretch {
        are_whole: true,
        last: whole_until(encoding, code),
    }
}

/// The last code up to which each prefix of this length lies in a codespace range, or is the prefix of this code.
fn shadowed_until(encoding: &Layers, code: Code, len: CodeLength) -> u32
    requires fits { code.number < 256 ^ length_of code.len }
    requires shorter { length_of len < length_of code.len }
    ensures within { code.number ≤ result }
    ensures prefixes { (number : ℕ) → code.number ≤ number → number ≤ result
        → HasPrefixInside encoding.now (length_of len) (length_of code.len - length_of len)
        code.number number }
{
    let after = code.len.count() - len.count();
    let number = without_last(code.number, after);
    let last = inside_until(encoding, Code { number, len }, 1);
    last_with_prefix(code.number.max(with_zeros(last, after)), after)
}

/// The number without its last bytes.
fn without_last(number: u32, count: u8) -> u32
    requires { count ≤ 3 }
    ensures { result ≡ number / 256 ^ count }
{
    match count {
        0 => number,
        1 => number / 0x100,
        2 => number / 0x1_0000,
        _ => number / 0x100_0000,
    }
}

/// The number with zeros for further last bytes.
fn with_zeros(number: u32, count: u8) -> u32
    requires few { count ≤ 3 }
    requires fits { number * 256 ^ count < 2 ^ 32 }
    ensures { result ≡ number * 256 ^ count }
{
    match count {
        0 => number,
        1 => number * 0x100,
        2 => number * 0x1_0000,
        _ => number * 0x100_0000,
    }
}

/// The last code up to which all codes after this whole code are known to be whole.
fn whole_until(encoding: &Layers, code: Code) -> u32
    requires fits { code.number < 256 ^ length_of code.len }
    requires whole { IsWholeNumber encoding.now (length_of code.len) code.number }
    ensures within { code.number ≤ result }
    ensures fits { result < 256 ^ length_of code.len }
    ensures whole { (number : ℕ) → code.number ≤ number → number ≤ result
        → IsWholeNumber encoding.now (length_of code.len) number }
{
    let mut last = code.number;
    for after in 1..code.len.count() + 1 {
        last = last.max(whole_with_prefix(encoding, code, after));
    }
    last
}

/// The last code up to which all codes after this whole code are known to be whole, among the codes with the same
/// bytes before the last `after` bytes.
fn whole_with_prefix(encoding: &Layers, code: Code, after: u8) -> u32
    requires after { (1 ≤ after) × (after ≤ length_of code.len) }
    requires fits { code.number < 256 ^ length_of code.len }
    requires whole { IsWholeNumber encoding.now (length_of code.len) code.number }
    ensures within { code.number ≤ result }
    ensures fits { result < 256 ^ length_of code.len }
    ensures whole { (number : ℕ) → code.number ≤ number → number ≤ result
        → IsWholeNumber encoding.now (length_of code.len) number }
{
    if prefix_may_be_inside(encoding, code, after) {
        return code.number;
    }
    inside_until(encoding, code, after)
}

/// Whether a codespace range may have prefixes of the codes with the same bytes before the last `after` bytes, for
/// prefixes that include some of the last bytes.
fn prefix_may_be_inside(encoding: &Layers, code: Code, after: u8) -> bool
    requires { (1 ≤ after) × (after ≤ length_of code.len) }
    ensures { result ≡ false → (number left : ℕ) → number / 256 ^ after ≡ code.number / 256 ^ after
        → 1 ≤ left → left < after
        → IsInside encoding.now (length_of code.len - left) (number / 256 ^ left) → ⊥ }
{
    for left in 1..after {
        if may_begin_without(encoding, code, left, after) {
            return true;
        }
    }
    false
}

/// Whether a codespace range may have prefixes without the last `left` bytes of the codes with the same bytes before
/// the last `after` bytes.
fn may_begin_without(encoding: &Layers, code: Code, left: u8, after: u8) -> bool
    requires { (1 ≤ left) × (left < after) × (after ≤ length_of code.len) }
    ensures { result ≡ false → (number : ℕ) → number / 256 ^ after ≡ code.number / 256 ^ after
        → IsInside encoding.now (length_of code.len - left) (number / 256 ^ left) → ⊥ }
{
    let Some(len) = CodeLength::of(code.len.count() - left) else {
        return true;
    };
    let number = without_last(code.number, left);
    may_begin(encoding, Code { number, len }, after - left)
}

/// The last code up to which all codes after this code lie in a codespace range, among the codes with the same bytes
/// before the last `after` bytes.
fn inside_until(encoding: &Layers, code: Code, after: u8) -> u32
    requires { (1 ≤ after) × (after ≤ length_of code.len) }
    ensures within { code.number ≤ result }
    ensures same { (number : ℕ) → code.number ≤ number → number ≤ result
        → number / 256 ^ after ≡ code.number / 256 ^ after }
    ensures inside { (number : ℕ) → code.number < number → number ≤ result
        → IsInside encoding.now (length_of code.len) number }
{
    for layer in encoding.as_slice() {
        let last = last_in(layer.codespaces(), code, after);
        if code.number < last {
            return last;
        }
    }
    code.number
}

/// The last code up to which all codes after this code lie in one of these codespace ranges: in the first range that
/// contains the code and any last bytes.
fn last_in(spaces: &[Codespace], code: Code, after: u8) -> u32
    requires { (1 ≤ after) × (after ≤ length_of code.len) }
    ensures within { code.number ≤ result }
    ensures same { (number : ℕ) → code.number ≤ number → number ≤ result
        → number / 256 ^ after ≡ code.number / 256 ^ after }
    ensures inside { (number : ℕ) → code.number < number → number ≤ result
        → Any (λ space. IsWithin space number (length_of code.len)) (map codespace_seen spaces.now) }
{
    for space in spaces {
        if begins_so(space, code, 0) && is_full(space, after - 1) {
            return last_within(space, code, after);
        }
    }
    code.number
}

/// Whether each of the last `count` bytes of a codespace range goes from 00 to FF.
fn is_full(space: &Codespace, count: u8) -> bool
    requires { count ≤ 3 }
    ensures { result ≡ true → IsFull (codespace_seen space.now) count }
{
    for place in 0..count {
        if byte_of(space.low, place) != 0 || byte_of(space.high, place) != 0xFF {
            return false;
        }
    }
    true
}

/// The last code in a codespace range, among the codes with the same bytes before the last `after` bytes. The range
/// contains this code, and any of the last `after` bytes except the first.
fn last_within(space: &Codespace, code: Code, after: u8) -> u32
    requires after { (1 ≤ after) × (after ≤ length_of code.len) }
    requires full { IsFull (codespace_seen space.now) (after - 1) }
    requires within { IsWithin (codespace_seen space.now) code.number (length_of code.len) }
    ensures within { code.number ≤ result }
    ensures same { (number : ℕ) → code.number ≤ number → number ≤ result
        → number / 256 ^ after ≡ code.number / 256 ^ after }
    ensures inside { (number : ℕ) → code.number ≤ number → number ≤ result
        → IsWithin (codespace_seen space.now) number (length_of code.len) }
{
    last_with_byte(code.number, after, byte_of(space.high, after - 1))
}

/// The last number with the same bytes before the last `after` bytes, followed by this byte.
fn last_with_byte(number: u32, after: u8, byte: u32) -> u32
    requires after { (1 ≤ after) × (after ≤ 4) }
    requires byte { (byte_at number (after - 1) ≤ byte) × (byte < 256) }
    ensures within { number ≤ result }
    ensures same { (other : ℕ) → number ≤ other → other ≤ result
        → other / 256 ^ after ≡ number / 256 ^ after }
    ensures between { (other : ℕ) → number ≤ other → other ≤ result
        → (byte_at number (after - 1) ≤ byte_at other (after - 1)) × (byte_at other (after - 1) ≤ byte) }
{
    match after {
        1 => number - number % 0x100 + byte,
        2 => number - number % 0x1_0000 + byte * 0x100 + 0xFF,
        3 => number - number % 0x100_0000 + byte * 0x1_0000 + 0xFFFF,
        _ => byte * 0x100_0000 + 0xFF_FFFF,
    }
}
