//! The layers of a map, the top one first.

ghost use Rattle.std.specs.Prelude.{◌≡◌, ◌<◌, ◌≤◌, IfOk, Some, length};
ghost use Rattle.cmap_layers.specs.Layers.{most_layers, top_metadata};
ghost use Rattle.cmap_layers.specs.LayersSeen.{layers_seen, metadata_seen};

use crate::layer::Layer;
use crate::lists::put_last;
use cmap_values::metadata::Metadata;
use std::alloc::{AllocError, Global};
use std::marker::Model;

/// The layers of a map, at least one and at most 16: first the layer of the file itself, then the
/// layers of the file that it is based on, and so on.
///
/// The first layer that declares something for a code decides what the code stands for.
#[derive(Debug)]
pub struct Layers {
    list: Vec<Layer>,
}

// A crate that drops the layers calls this `drop`, and proves nothing about their parts.
impl Drop for Layers {
    fn drop(self) {
        let Layers { list: _ } = self;
    }
}

// Contracts see the list of layers.
impl Model for Layers {
    ghost use Rattle.std.specs.Prelude.{List, ◌<◌, ◌≤◌, length};
    ghost use Rattle.cmap_layers.specs.Layers.{Layer, most_layers};

    ghost Value = { List Layer };

    ghost use Rattle.cmap_layers.specs.LayersSeen.{layers_seen};

    ghost view = { λ layers. layers_seen layers.list.items };

    ghost invariant = { λ layers. (0 < length layers.list.items)
        × (length layers.list.items ≤ most_layers) };
}

impl Layers {
    /// These layers, the top one first: at least one, and at most 16.
    pub fn of(list: Vec<Layer>) -> Layers
        requires { (0 < length list.items) × (length list.items ≤ most_layers) }
        ensures { result ≡ layers_seen list.items }
    {
        Layers { list }
    }

    /// The layers, the top one first.
    #[inline(always)]
    pub fn as_slice(&self) -> &[Layer]
        ensures layers { layers_seen result.now ≡ self.now }
        ensures few { (0 < length result.now) × (length result.now ≤ most_layers) }
    {
        self.list.as_slice()
    }

    /// The metadata that the file of the top layer states about itself.
    pub fn metadata(&self) -> &Metadata
        ensures top { top_metadata self.now ≡ Some (metadata_seen result.now) }
        ensures few { length self.now ≤ most_layers }
    {
        self.as_slice()[0].metadata()
    }

    /// A copy of the layers.
    pub fn clone(&self, alloc: Global) -> Result<Layers, AllocError>
        ensures { IfOk result (λ copy. copy ≡ self.now) }
    {
        let list = copied(alloc, self.as_slice())?;
        Ok(Layers { list })
    }
}

/// Copies of layers.
fn copied(alloc: Global, layers: &[Layer]) -> Result<Vec<Layer>, AllocError>
    ensures { IfOk result (λ copies. layers_seen copies.items ≡ layers_seen layers.now) }
{
    let mut copies = Vec::new(alloc);
    for layer in layers {
        put_last(layer.clone(alloc), &mut copies)?;
    }
    Ok(copies)
}
