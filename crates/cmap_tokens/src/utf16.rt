//! Texts in UTF-16, as The Unicode Standard, 3.9, D91 defines it.

ghost use Rattle.std.specs.Prelude.{◌≡◌, ◌+◌, ◌&&◌, ℕ, List, [], ◌∷◌, ◌++◌, ◌<◌, ◌≤◌, true, get_or, length, drop, Some, None, IfOk, OnErr, IfSome, IsSomeAnd, option_and_then, option_map, is_some, if◌then◌else◌};
ghost use Rattle.std.specs.Char.{IsScalar};
ghost use Rattle.std.specs.Char.Utf16.{is_high_surrogate, is_low_surrogate, surrogate_pair_char};
ghost use Rattle.std.specs.Str.{chars};
ghost use Rattle.std.specs.String.{string_bytes};
ghost use Rattle.cmap_tokens.specs.Texts as texts;
ghost use Rattle.cmap_tokens.specs.Texts.{characters, units_of, text_at, text_of_characters, only_character};
ghost use Rattle.cmap_tokens.specs.TextSeen.{text_seen};

use std::alloc::{AllocError, Global};

/// The text of a code, from a bf destination of a CMap (ISO 32000, ToUnicode CMaps).
#[derive(Debug, Drop, PartialEq, Eq)]
pub enum BfString {
    /// A text of one character.
    Char(char),
    /// A text of more than one character.
    String(String),
}

impl BfString {
    ghost use Rattle.std.specs.Prelude.{◌≡◌, ℕ, List, IfOk, OnErr};
    ghost use Rattle.cmap_tokens.specs.Texts.{more};
    ghost use Rattle.cmap_tokens.specs.TextSeen.{text_seen};

    /// A copy of the text.
    ///
    /// The call fails only if memory runs out; only a `String` allocates memory.
    pub fn clone(&self, alloc: Global) -> Result<BfString, AllocError>
        ensures same { IfOk result (λ copy. text_seen copy ≡ text_seen self.now) }
        ensures err { OnErr result
            ((characters : List ℕ) × (text_seen self.now ≡ more characters)) }
    {
        match self {
            BfString::Char(c) => Ok(BfString::Char(*c)),
            BfString::String(text) => Ok(BfString::String(String::from_str(alloc, text.as_str())?)),
        }
    }
}

/// The 16-bit units of a destination, whose bytes are big-endian. If the number of bytes is odd, the
/// first byte is a unit by itself.
///
/// It fails only if memory runs out.
pub fn units(alloc: Global, bytes: &[u8]) -> Result<Vec<u16>, AllocError>
    ensures { IfOk result (λ v. v.items ≡ units_of bytes.now) }
{
    let (first, mut pairs) = bytes.split_at(bytes.len() % 2);
    let mut units = Vec::with_capacity(alloc, first.len() + pairs.len() / 2)?;
    if let [byte] = first {
        units.push_reserved(u16::from(*byte));
    }
    while let [high, low, rest @ ..] = pairs {
        units.push_reserved(u16::from_be_bytes([*high, *low]));
        pairs = rest;
    }
    Ok(units)
}

/// The text of the code at `offset` from the first code of a declaration. `units` are the 16-bit
/// units of the text of the first code, and the offset is added to the last unit. `None` if there is
/// no unit, if the sum exceeds 16 bits, or if a surrogate stands alone.
///
/// It fails only if memory runs out, and only for a text of more than one character.
pub fn text(alloc: Global, units: &[u16], offset: u32) -> Result<Option<BfString>, AllocError>
    ensures value { IfOk result
        (λ t. option_map text_seen t ≡ option_map text_of_characters (text_at units.now offset)) }
    ensures err { OnErr result (IsSomeAnd (text_at units.now offset) (λ cs. 1 < length cs)) }
{
    let Some((front, last)) = shifted(units, offset) else {
        return Ok(None);
    };
    if let Some(c) = only_char(front, last) {
        return Ok(Some(BfString::Char(c)));
    }
    match string(alloc, front, last) {
        Ok(Some(string)) => Ok(Some(BfString::String(string))),
        Ok(None) => Ok(None),
        // If a surrogate stands alone, the answer is `None` even if memory ran out.
        Err(AllocError) if is_well_formed(front, last) => Err(AllocError),
        Err(AllocError) => Ok(None),
    }
}

/// The character of the text that `text` gives, if this text has just one character. The call
/// allocates no memory.
pub fn one_char(units: &[u16], offset: u32) -> Option<char>
    ensures { result ≡ only_character (text_at units.now offset) }
{
    let (front, last) = shifted(units, offset)?;
    only_char(front, last)
}

/// The units before the last one, and the last one with the offset added.
fn shifted(units: &[u16], offset: u32) -> Option<(&[u16], u16)>
    ensures { texts.shifted units.now offset ≡ option_map (λ x. x.0.now ++ x.1 ∷ []) result }
{
    let [front @ .., last] = units else {
        return None;
    };
    let last = u16::try_from(u64::from(*last) + u64::from(offset)).ok()?;
    Some((front, last))
}

/// The character of the units of `front` and `last`, if the units spell just one character.
fn only_char(front: &[u16], last: u16) -> Option<char>
    ensures { result ≡ only_character (characters (front.now ++ last ∷ [])) }
{
    let (first, after) = char_at(front, last, 0)?;
    (after > front.len()).then_some(first)
}

/// The character that begins at an index of the units of `front` and `last`, and the index after it.
fn char_at(front: &[u16], last: u16, index: usize) -> Option<(char, usize)>
    requires { index ≤ length front.now }
    ensures value { characters (drop index (front.now ++ last ∷ [])) ≡ option_and_then (λ x.
        option_map (λ cs. x.0 ∷ cs) (characters (drop x.1 (front.now ++ last ∷ [])))) result }
    ensures after { IfSome result (λ x. (index < x.1) × (x.1 ≤ 1 + length front.now)) }
    ensures scalar { IfSome result (λ x. IsScalar x.0) }
{
    let first = unit_at(front, last, index);
    if let Some(c) = pair(first, unit_at(front, last, index + 1)) {
        return Some((c, index + 2));
    }
    Some((char::from_u32(u32::from(first))?, index + 1))
}

/// The unit at an index, and 0 past the end.
fn unit_at(front: &[u16], last: u16, index: usize) -> u16
    ensures { result ≡ get_or (front.now ++ last ∷ []) index 0 }
{
    if index < front.len() {
        front[index]
    } else if index == front.len() {
        last
    } else {
        0
    }
}

/// The character of a surrogate pair.
fn pair(high: u16, low: u16) -> Option<char>
    ensures value { result ≡ (if is_high_surrogate high && is_low_surrogate low
        then Some (surrogate_pair_char high low) else None) }
    ensures scalar { IfSome result IsScalar }
{
    if (0xD800..0xDC00).contains(&high) && (0xDC00..0xE000).contains(&low) {
        char::from_u32(0x1_0000 + u32::from(high - 0xD800) * 0x400 + u32::from(low - 0xDC00))
    } else {
        None
    }
}

/// Whether no surrogate stands alone.
#[tactic(auto, using(crate::proofs::TextsOfUnits::characters_end))]
fn is_well_formed(front: &[u16], last: u16) -> bool
    ensures { result ≡ is_some (characters (front.now ++ last ∷ [])) }
{
    let mut index = 0;
    while index <= front.len() {
        let Some((_, after)) = char_at(front, last, index) else {
            return false;
        };
        index = after;
    }
    true
}

/// All the characters of the units of `front` and `last`; `None` if a surrogate stands alone.
fn string(alloc: Global, front: &[u16], last: u16) -> Result<Option<String>, AllocError>
    ensures { IfOk result (λ string. option_map (λ string. chars (string_bytes string)) string
        ≡ characters (front.now ++ last ∷ [])) }
{
    // A unit takes at most three bytes in UTF-8.
    let mut text = String::with_capacity(alloc, 3 * (front.len() + 1))?;
    let mut index = 0;
    while index <= front.len() {
        let Some((c, after)) = char_at(front, last, index) else {
            return Ok(None);
        };
        text.push(c)?;
        index = after;
    }
    Ok(Some(text))
}
