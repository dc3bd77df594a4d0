//! The encoding of simple fonts.

ghost use Rattle.std.specs.Prelude.{◌≡◌, [], ◌∷◌, IfOk};
ghost use Rattle.cmap_values.specs.DeclarationsSeen.{lists_seen};
ghost use Rattle.cmap_layers.specs.LayersSeen.{layers_seen};
ghost use Rattle.cmap_unicode.specs.SimpleFonts.{one_byte_layer};

use cmap_layers::layer::Layer;
use cmap_layers::layers::Layers;
use cmap_layers::lists::put_first;
use cmap_values::code_length::CodeLength;
use cmap_values::declarations::{Codespace, Lists};
use cmap_values::memory::after;
use cmap_values::metadata::Metadata;
use std::alloc::{AllocError, Global};

/// The encoding of a simple font, which has no CMap: each byte of a string is a code, without a CID. Texts
/// come from the font's ToUnicode CMap alone. ISO 32000-1, 9.6.1.
///
/// It fails only if memory runs out.
pub fn simple_encoding(alloc: Global) -> Result<Layers, AllocError>
    ensures { IfOk result (λ layers. layers ≡ one_byte_layer ∷ []) }
{
    let layers = one_byte_layers(alloc)?;
    Ok(Layers::of(layers))
}

/// The one layer of the encoding.
fn one_byte_layers(alloc: Global) -> Result<Vec<Layer>, AllocError>
    ensures { IfOk result (λ layers. layers_seen layers.items ≡ one_byte_layer ∷ []) }
{
    let lists = one_byte_lists(alloc)?;
    let metadata = Metadata {
        character_collection: None,
        name: None,
        writing_mode: None,
    };
    put_first(Layer::build(alloc, metadata, lists), Vec::new(alloc))
}

/// The declaration of the codes of one byte.
fn one_byte_lists(alloc: Global) -> Result<Lists, AllocError>
    ensures { IfOk result (λ lists. lists_seen lists ≡ one_byte_layer.lists) }
{
    let mut lists = Lists::new(alloc);
    let added = lists.add_codespace(Codespace {
        len: CodeLength::One,
        low: 0,
        high: 0xFF,
    });
    after(lists, added)
}
