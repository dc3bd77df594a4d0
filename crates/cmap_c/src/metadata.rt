//! The metadata of the file of a map, and of the file of each of its layers, for C.

ghost use Rattle.std.specs.Prelude.{◌≡◌, MatchOption, option_map, true, false};
ghost use Rattle.std.specs.Option.{option_copied};
ghost use Rattle.cmap_values.specs.Names.{ordering_of, registry_of};
ghost use Rattle.cmap_layers.specs.LayersSeen.{collection_seen, mode_seen};
ghost use Rattle.cmap_handles.specs.Handles.{handle_collection, handle_name, handle_mode, layer_collection, layer_mode, layer_name, mode_number};
ghost use Rattle.cmap_handles.specs.Rooms.{IsPut};
ghost use Rattle.cmap_handles.specs.Statuses.{number};
ghost use Rattle.cmap_handles.specs.declared.status.Status.TheVariants.{Absent};

use crate::layers::layer_at;
use cmap_handles::handle::MapHandle;
use cmap_handles::room::{put, put_found};
use cmap_handles::status::Status;
use cmap_layers::layers::Layers;
use cmap_values::character_collection::CharacterCollection;
use cmap_values::writing_mode::WritingMode;
use std::alloc::Global;

/// The name that the file states.
#[tactic(auto, using(crate::proofs::TopLayer::top_layer))]
#[unsafe(no_mangle)]
pub extern "C" fn hayro_cmap_name(
    map: &mut MapHandle,
    alloc: Global,
    room: &mut [u8],
    needed: &mut usize,
) -> u32
    ensures same { map.new.slot.map ≡ map.old.slot.map }
    ensures name { MatchOption (handle_name map.old.slot.map)
        ((result ≡ number Absent) × (room.new ≡ room.old) × (needed.new ≡ needed.old))
        (λ name. IsPut name room.old room.new needed.new result) }
{
    hayro_cmap_layer_name(map, alloc, 0, room, needed)
}

/// The name that the file of this layer states.
#[unsafe(no_mangle)]
pub extern "C" fn hayro_cmap_layer_name(
    map: &mut MapHandle,
    alloc: Global,
    layer: usize,
    room: &mut [u8],
    needed: &mut usize,
) -> u32
    ensures same { map.new.slot.map ≡ map.old.slot.map }
    ensures name { MatchOption (layer_name map.old.slot.map layer)
        ((result ≡ number Absent) × (room.new ≡ room.old) × (needed.new ≡ needed.old))
        (λ name. IsPut name room.old room.new needed.new result) }
{
    put_found(name_at(map.layers(), layer), room, needed)
}

/// The registry of the character collection that the file states.
#[tactic(auto, using(crate::proofs::TopLayer::top_layer))]
#[unsafe(no_mangle)]
pub extern "C" fn hayro_cmap_registry(
    map: &mut MapHandle,
    alloc: Global,
    room: &mut [u8],
    needed: &mut usize,
) -> u32
    ensures same { map.new.slot.map ≡ map.old.slot.map }
    ensures registry { MatchOption (handle_collection map.old.slot.map)
        ((result ≡ number Absent) × (room.new ≡ room.old) × (needed.new ≡ needed.old))
        (λ given. IsPut (registry_of given.family) room.old room.new needed.new result) }
{
    hayro_cmap_layer_registry(map, alloc, 0, room, needed)
}

/// The registry of the character collection that the file of this layer states.
#[unsafe(no_mangle)]
pub extern "C" fn hayro_cmap_layer_registry(
    map: &mut MapHandle,
    alloc: Global,
    layer: usize,
    room: &mut [u8],
    needed: &mut usize,
) -> u32
    ensures same { map.new.slot.map ≡ map.old.slot.map }
    ensures registry { MatchOption (layer_collection map.old.slot.map layer)
        ((result ≡ number Absent) × (room.new ≡ room.old) × (needed.new ≡ needed.old))
        (λ given. IsPut (registry_of given.family) room.old room.new needed.new result) }
{
    match collection_at(map.layers(), layer) {
        Some(given) => put(given.family.registry(), room, needed),
        None => Status::Absent.number(),
    }
}

/// The ordering of the character collection that the file states.
#[tactic(auto, using(crate::proofs::TopLayer::top_layer))]
#[unsafe(no_mangle)]
pub extern "C" fn hayro_cmap_ordering(
    map: &mut MapHandle,
    alloc: Global,
    room: &mut [u8],
    needed: &mut usize,
) -> u32
    ensures same { map.new.slot.map ≡ map.old.slot.map }
    ensures ordering { MatchOption (handle_collection map.old.slot.map)
        ((result ≡ number Absent) × (room.new ≡ room.old) × (needed.new ≡ needed.old))
        (λ given. IsPut (ordering_of given.family) room.old room.new needed.new result) }
{
    hayro_cmap_layer_ordering(map, alloc, 0, room, needed)
}

/// The ordering of the character collection that the file of this layer states.
#[unsafe(no_mangle)]
pub extern "C" fn hayro_cmap_layer_ordering(
    map: &mut MapHandle,
    alloc: Global,
    layer: usize,
    room: &mut [u8],
    needed: &mut usize,
) -> u32
    ensures same { map.new.slot.map ≡ map.old.slot.map }
    ensures ordering { MatchOption (layer_collection map.old.slot.map layer)
        ((result ≡ number Absent) × (room.new ≡ room.old) × (needed.new ≡ needed.old))
        (λ given. IsPut (ordering_of given.family) room.old room.new needed.new result) }
{
    match collection_at(map.layers(), layer) {
        Some(given) => put(given.family.ordering(), room, needed),
        None => Status::Absent.number(),
    }
}

/// The supplement of the character collection that the file states. The result is whether the file
/// states a collection.
#[tactic(auto, using(crate::proofs::TopLayer::top_layer))]
#[unsafe(no_mangle)]
pub extern "C" fn hayro_cmap_supplement(
    map: &mut MapHandle,
    alloc: Global,
    supplement: &mut i32,
) -> bool
    ensures same { map.new.slot.map ≡ map.old.slot.map }
    ensures supplement { MatchOption (handle_collection map.old.slot.map)
        ((result ≡ false) × (supplement.new ≡ supplement.old))
        (λ given. (result ≡ true) × (supplement.new ≡ given.supplement)) }
{
    hayro_cmap_layer_supplement(map, alloc, 0, supplement)
}

/// The supplement of the character collection that the file of this layer states. The result is
/// whether the file states a collection.
#[unsafe(no_mangle)]
pub extern "C" fn hayro_cmap_layer_supplement(
    map: &mut MapHandle,
    alloc: Global,
    layer: usize,
    supplement: &mut i32,
) -> bool
    ensures same { map.new.slot.map ≡ map.old.slot.map }
    ensures supplement { MatchOption (layer_collection map.old.slot.map layer)
        ((result ≡ false) × (supplement.new ≡ supplement.old))
        (λ given. (result ≡ true) × (supplement.new ≡ given.supplement)) }
{
    match collection_at(map.layers(), layer) {
        Some(given) => {
            *supplement = given.supplement;
            true
        }
        None => false,
    }
}

/// The writing mode that the file states: 0 for horizontal, 1 for vertical, 2 where the file states
/// none.
#[tactic(auto, using(crate::proofs::TopLayer::top_layer))]
#[unsafe(no_mangle)]
pub extern "C" fn hayro_cmap_writing_mode(map: &mut MapHandle, alloc: Global) -> u32
    ensures same { map.new.slot.map ≡ map.old.slot.map }
    ensures mode { result ≡ mode_number (handle_mode map.old.slot.map) }
{
    hayro_cmap_layer_writing_mode(map, alloc, 0)
}

/// The writing mode that the file of this layer states, as a number.
#[unsafe(no_mangle)]
pub extern "C" fn hayro_cmap_layer_writing_mode(
    map: &mut MapHandle,
    alloc: Global,
    layer: usize,
) -> u32
    ensures same { map.new.slot.map ≡ map.old.slot.map }
    ensures mode { result ≡ mode_number (layer_mode map.old.slot.map layer) }
{
    let mode = mode_at(map.layers(), layer);
    match mode {
        Some(WritingMode::Horizontal) => 0,
        Some(WritingMode::Vertical) => 1,
        None => 2,
    }
}

/// The name that the file of a layer states.
fn name_at(map: Option<&Layers>, layer: usize) -> Option<&[u8]>
    ensures { option_copied result ≡ layer_name (option_copied map.entry) layer }
{
    match layer_at(map, layer) {
        Some(layer) => layer.metadata().name.as_deref(),
        None => None,
    }
}

/// The character collection that the file of a layer states.
fn collection_at(map: Option<&Layers>, layer: usize) -> Option<&CharacterCollection>
    ensures { option_map collection_seen (option_copied result)
        ≡ layer_collection (option_copied map.entry) layer }
{
    match layer_at(map, layer) {
        Some(layer) => layer.metadata().character_collection.as_ref(),
        None => None,
    }
}

/// The writing mode that the file of a layer states.
fn mode_at(map: Option<&Layers>, layer: usize) -> Option<WritingMode>
    ensures { option_map mode_seen result ≡ layer_mode (option_copied map.entry) layer }
{
    match layer_at(map, layer) {
        Some(layer) => layer.metadata().writing_mode,
        None => None,
    }
}
