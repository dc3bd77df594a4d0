//! Reading one file, and its layer over the layers of its base.

ghost use Rattle.std.specs.Prelude.{◌≡◌, ◌∷◌, IfErr, IfOk};
ghost use Rattle.cmap_binary.specs.BundleSeen.{tables_given};
ghost use Rattle.cmap_values.specs.DeclarationsSeen.{lists_seen};
ghost use Rattle.cmap_values.specs.FilesSeen.{file_seen};
ghost use Rattle.cmap_values.specs.Outcomes.{ReadsFile, RefusesWith};
ghost use Rattle.cmap_layers.specs.LayersSeen.{layers_seen, metadata_seen};
ghost use Rattle.cmap_load.specs.Layers.{Means};
ghost use Rattle.cmap_load.specs.Refusals.{IsDecidedAsText, IsFirstFault};

use cmap_binary::{Bundle, is_marked_binary, read_binary};
use cmap_layers::layer::Layer;
use cmap_layers::lists::put_first;
use cmap_text::read_text;
use cmap_values::declarations::Lists;
use cmap_values::fault::{Fault, Stop};
use cmap_values::file::File;
use cmap_values::metadata::Metadata;
use std::alloc::{AllocError, Global};

/// The greatest number of files in a chain, the top file counted.
pub(crate) const MOST_FILES: u8 = 16;

/// A layer with this metadata and these lists, over the layers of its base.
pub(crate) fn layer_over(
    alloc: Global,
    metadata: Metadata,
    lists: Lists,
    base: Vec<Layer>,
) -> Result<Vec<Layer>, AllocError>
    ensures { IfOk result
        (λ layers. layers_seen layers.items
        ≡ record { metadata = metadata_seen metadata; lists = lists_seen lists }
        ∷ layers_seen base.items) }
{
    put_first(Layer::build(alloc, metadata, lists), base)
}

/// The contents of one file. With a bundle, bytes that are marked as a binary file are read as a
/// binary file; all other bytes are read as a text.
pub fn read_file<'d>(
    alloc: Global,
    bytes: &'d [u8],
    bundle: Option<&Bundle<'_>>,
) -> Result<File<'d>, Fault<Stop>>
    ensures reads { ReadsFile (Means (tables_given bundle.entry)) file_seen bytes.now result }
    ensures decided { IfErr result (RefusesWith (IsDecidedAsText (tables_given bundle.entry) bytes.now)) }
    ensures place { IfErr result (RefusesWith (IsFirstFault (tables_given bundle.entry) bytes.now)) }
{
    match bundle {
        Some(bundle) if is_marked_binary(bytes) => read_binary(alloc, bundle, bytes),
        _ => read_text(alloc, bytes),
    }
}
