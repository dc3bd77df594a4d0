//! Strings of whole codes.

ghost use Rattle.std.specs.Prelude.{◌≡◌, ◌↔◌, IfOk, IsTrue, map};
ghost use Rattle.cmap_layers.specs.LayersSeen.{layer_seen, layers_seen};
ghost use Rattle.cmap_encode.specs.StringsOfCodes.{AreCodes, only_spaces};

use cmap_layers::layer::Layer;
use cmap_layers::layers::Layers;
use cmap_layers::lists::put_last;
use cmap_values::declarations::Lists;
use cmap_values::metadata::Metadata;
use std::alloc::{AllocError, Global};

/// Layers with the codespace ranges of these layers, and with nothing else.
pub(crate) fn codespaces_of(alloc: Global, encoding: &Layers) -> Result<Layers, AllocError>
    ensures { IfOk result (λ layers. layers ≡ map only_spaces encoding.now) }
{
    let mut list = Vec::new(alloc);
    for layer in encoding.as_slice() {
        put_last(codespaces_in(alloc, layer), &mut list)?;
    }
    Ok(Layers::of(list))
}

/// A layer with the codespace ranges of this layer, and with nothing else.
fn codespaces_in(alloc: Global, layer: &Layer) -> Result<Layer, AllocError>
    ensures { IfOk result (λ made. layer_seen made ≡ only_spaces (layer_seen layer.now)) }
{
    let mut lists = Lists::new(alloc);
    lists.spaces = Vec::from_slice(alloc, layer.codespaces())?;
    let metadata = Metadata {
        character_collection: None,
        name: None,
        writing_mode: None,
    };
    Layer::build(alloc, metadata, lists)
}

/// Whether a string is one code in a codespace range after another.
pub(crate) fn are_codes(codespaces: &Layers, string: &[u8]) -> bool
    ensures { IsTrue result ↔ AreCodes codespaces.now string.now }
{
    let mut rest = string;
    while let Some(code) = codespaces.next_code(rest) {
        if !code.in_codespace {
            return false;
        }
        rest = &rest[usize::from(code.byte_len)..];
    }
    true
}
