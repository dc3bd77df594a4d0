//! The layers of files in a chain, in which a file may stand more than once.

ghost use Rattle.std.specs.Prelude.{◌≡◌, ℕ, IfOk, MatchOption, OnOk, Contains, Some, map, slice_get};
ghost use Rattle.cmap_layers.specs.Layers.{layer_of};
ghost use Rattle.cmap_values.specs.ListsAppended.{no_file};
ghost use Rattle.cmap_layers.specs.LayersSeen.{layer_seen, layers_seen};
ghost use Rattle.cmap_load.specs.Kept.{layer_in};

use crate::table::{Contents, no_contents, take_contents};
use cmap_layers::layer::Layer;
use cmap_layers::lists::put_first;
use std::alloc::{AllocError, Global};

/// The layers of the files at these indices; `None` is an empty layer. The lists of each file are
/// moved into its last layer, and copied for layers before it.
pub(crate) fn layers_along(
    alloc: Global,
    path: &[Option<usize>],
    contents: &mut Vec<Contents>,
) -> Result<Vec<Layer>, AllocError>
    ensures layers { IfOk result (λ layers. layers_seen layers.items
        ≡ map (layer_in contents.old.items) path.now) }
    ensures others { OnOk result ((at : ℕ) → (Contains path.now (Some at) → ⊥)
        → slice_get contents.new.items at ≡ slice_get contents.old.items at) }
{
    let Some((first, below)) = path.split_first() else {
        return Ok(Vec::new(alloc));
    };
    let layers = layers_along(alloc, below, contents)?;
    let Some(i) = place_of(*first, below) else {
        let layer = take_layer(alloc, *first, contents);
        return put_first(layer, layers);
    };
    let layer = layers[i].clone(alloc);
    put_first(layer, layers)
}

/// The place of an index in a list of indices.
fn place_of(read: Option<usize>, path: &[Option<usize>]) -> Option<usize>
    ensures { MatchOption result (Contains path.now read → ⊥)
        (λ i. slice_get path.now i ≡ Some read) }
{
    for (i, other) in path.iter().enumerate() {
        if *other == read {
            return Some(i);
        }
    }
    None
}

/// The layer of the file at an index, whose lists are moved into the layer; an empty layer without
/// an index.
fn take_layer(
    alloc: Global,
    read: Option<usize>,
    contents: &mut Vec<Contents>,
) -> Result<Layer, AllocError>
    ensures layer { IfOk result (λ layer. layer_seen layer ≡ layer_in contents.old.items read) }
    ensures others { (at : ℕ) → (read ≡ Some at → ⊥)
        → slice_get contents.new.items at ≡ slice_get contents.old.items at }
{
    let Some(at) = read else {
        return empty_layer(alloc);
    };
    if contents.len() <= at {
        return empty_layer(alloc);
    }
    let taken = take_contents(alloc, contents, at);
    let Contents { metadata, lists } = taken;
    Layer::build(alloc, metadata, lists)
}

/// A layer without metadata and declarations.
fn empty_layer(alloc: Global) -> Result<Layer, AllocError>
    ensures { IfOk result (λ layer. layer_seen layer ≡ layer_of no_file) }
{
    let Contents { metadata, lists } = no_contents(alloc);
    Layer::build(alloc, metadata, lists)
}
