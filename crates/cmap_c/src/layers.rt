//! The layers of a map and their codespace ranges, for C.

ghost use Rattle.std.specs.Prelude.{◌≡◌, ◌≤◌, MatchOption, length, option_map};
ghost use Rattle.std.specs.Option.{option_copied};
ghost use Rattle.cmap_layers.specs.LayersSeen.{layer_seen};
ghost use Rattle.cmap_handles.specs.Handles.{layer_in, ranges_seen};
ghost use Rattle.cmap_handles.specs.Rooms.{IsPut};
ghost use Rattle.cmap_handles.specs.Statuses.{number};
ghost use Rattle.cmap_handles.specs.declared.status.Status.TheVariants.{Absent};

use cmap_handles::handle::MapHandle;
use cmap_handles::ranges::CodespaceRange;
use cmap_handles::room::put_items;
use cmap_handles::status::Status;
use cmap_layers::layer::Layer;
use cmap_layers::layers::Layers;
use std::alloc::Global;

/// The number of layers of the map.
#[unsafe(no_mangle)]
pub extern "C" fn hayro_cmap_layers(map: &mut MapHandle, alloc: Global) -> usize
    ensures same { map.new.slot.map ≡ map.old.slot.map }
    ensures count { MatchOption map.old.slot.map (result ≡ 0)
        (λ layers. (result ≡ length layers) × (1 ≤ result) × (result ≤ 16)) }
{
    match map.layers() {
        Some(layers) => layers.as_slice().len(),
        None => 0,
    }
}

/// The codespace ranges of a layer, in the order of its file. ISO 32000-1, 9.7.6.2.
#[unsafe(no_mangle)]
pub extern "C" fn hayro_cmap_codespaces(
    map: &mut MapHandle,
    alloc: Global,
    layer: usize,
    ranges: &mut [CodespaceRange],
    needed: &mut usize,
) -> u32
    ensures same { map.new.slot.map ≡ map.old.slot.map }
    ensures ranges { MatchOption (layer_in map.old.slot.map layer)
        ((result ≡ number Absent) × (ranges.new ≡ ranges.old) × (needed.new ≡ needed.old))
        (λ given. IsPut (ranges_seen given.lists.spaces) ranges.old ranges.new needed.new result) }
{
    match layer_at(map.layers(), layer) {
        Some(given) => put_items(&given.codespaces(), ranges, needed),
        None => Status::Absent.number(),
    }
}

/// The layer at an index of a map, if there is one.
pub(crate) fn layer_at(map: Option<&Layers>, layer: usize) -> Option<&Layer>
    ensures { option_map layer_seen (option_copied result)
        ≡ layer_in (option_copied map.entry) layer }
{
    let layers = map?.as_slice();
    if layer < layers.len() {
        Some(&layers[layer])
    } else {
        None
    }
}
