//! Whether a code lies in a codespace range: byte by byte, and not as a number.
//! ISO 32000-1, 9.7.6.2.

ghost use Rattle.std.specs.Prelude.{◌↔◌, ◌<◌, ◌≤◌, ◌^◌, Any, IsTrue, length};
ghost use Rattle.cmap_values.specs.CodeLengths.{IsCodeLength, length_of};
ghost use Rattle.cmap_codespaces.specs.CodesWithin.{HasFront, IsLeast, some_count};
ghost use Rattle.cmap_codespaces.specs.SpaceBits.{AreRows, InRows};
ghost use Rattle.cmap_layers.specs.LayersSeen.{layers_seen};
ghost use Rattle.cmap_layers.specs.Lookups.{InCodespace};
ghost use Rattle.cmap_layers.specs.StringCodes.{BeginsInside};

use crate::layer::Layer;
use crate::layers::Layers;
use cmap_codespaces::{Query, lesser, some_count};
use cmap_values::code_length::CodeLength;

impl Layers {
    /// Whether a codespace range of some layer contains a code of `byte_len` bytes. No range does
    /// if the code doesn't fit in `byte_len` bytes, or if `byte_len` isn't 1 to 4.
    #[inline(always)]
    pub fn in_codespace(&self, code: u32, byte_len: u8) -> bool
        ensures { IsTrue result ↔ InCodespace self.now code byte_len }
    {
        let Some(len) = CodeLength::of(byte_len) else {
            return false;
        };
        fits_in(code, len) && any(self.as_slice(), &Query::of_code(code, len))
    }
}

/// Whether a codespace range of some layer has codes of `byte_len` bytes that may begin with the
/// bytes of `front`.
pub(crate) fn any_has_front(layers: &[Layer], byte_len: u8, front: &[u8]) -> bool
    requires length { IsCodeLength byte_len }
    requires few { length front.now ≤ 4 }
    ensures { IsTrue result
        ↔ Any (λ layer. Any (HasFront byte_len front.now) layer.lists.spaces)
        (layers_seen layers.now) }
{
    any(layers, &Query::of_front(byte_len, front))
}

/// The number of bytes in the shortest prefix of a text that is a code in a codespace range.
#[inline(always)]
pub(crate) fn shortest(layers: &[Layer], text: &[u8]) -> Option<u8>
    ensures { IsLeast (BeginsInside (layers_seen layers.now) text.now) result }
{
    match layers {
        [only] => only.spaces.shortest(text),
        _ => some_count(count_of_all(layers, text)),
    }
}

/// The answer of `shortest` for any number of layers, with 0 for `None`, as `some_count` reads it.
#[inline(never)]
fn count_of_all(layers: &[Layer], text: &[u8]) -> u8
    ensures { IsLeast (BeginsInside (layers_seen layers.now) text.now) (some_count result) }
{
    shortest_of_all(layers, text).unwrap_or(0)
}

/// The answer of `shortest` for any number of layers.
fn shortest_of_all(layers: &[Layer], text: &[u8]) -> Option<u8>
    ensures { IsLeast (BeginsInside (layers_seen layers.now) text.now) result }
{
    let mut shortest = None;
    for layer in layers {
        shortest = lesser(shortest, layer.spaces.shortest(text));
    }
    shortest
}

/// Whether a codespace range of some layer matches the query.
#[inline(always)]
fn any(layers: &[Layer], query: &Query) -> bool
    requires { AreRows query.now }
    ensures { IsTrue result
        ↔ Any (λ layer. Any (InRows query.now) layer.lists.spaces) (layers_seen layers.now) }
{
    match layers {
        [only] => only.spaces.any(query),
        _ => any_of_all(layers, query),
    }
}

/// The answer of `any` for any number of layers.
#[inline(never)]
fn any_of_all(layers: &[Layer], query: &Query) -> bool
    requires { AreRows query.now }
    ensures { IsTrue result
        ↔ Any (λ layer. Any (InRows query.now) layer.lists.spaces) (layers_seen layers.now) }
{
    layers.iter().any(|layer| layer.spaces.any(query))
}

/// Whether a code fits in this many bytes.
fn fits_in(code: u32, len: CodeLength) -> bool
    ensures { IsTrue result ↔ code < 256 ^ length_of len }
{
    u64::from(code) >> (8 * len.count()) == 0
}
