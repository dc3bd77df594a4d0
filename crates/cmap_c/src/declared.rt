//! The declarations in the file of a layer, for C.

ghost use Rattle.std.specs.Prelude.{◌≡◌, MatchOption, option_map};
ghost use Rattle.std.specs.Option.{option_copied};
ghost use Rattle.cmap_layers.specs.LayersSeen.{layer_seen};
ghost use Rattle.cmap_handles.specs.Ranges.{cids_declared, notdefs_declared, text_in, texts_declared};
ghost use Rattle.cmap_handles.specs.Handles.{layer_in};
ghost use Rattle.cmap_handles.specs.Rooms.{IsPut};
ghost use Rattle.cmap_handles.specs.Statuses.{number};
ghost use Rattle.cmap_handles.specs.declared.status.Status.TheVariants.{Absent};

use crate::layers::layer_at;
use cmap_handles::handle::MapHandle;
use cmap_handles::ranges::{DeclaredCids, DeclaredTexts};
use cmap_handles::room::{put, put_found, put_items};
use cmap_handles::status::Status;
use cmap_layers::layer::Layer;
use cmap_layers::layers::Layers;
use cmap_runs::runs::Looks;
use cmap_values::code_length::CodeLength;
use std::alloc::Global;

/// The declarations of CIDs of a layer, for codes of `byte_len` bytes, in the order of its file.
#[unsafe(no_mangle)]
pub extern "C" fn hayro_cmap_cid_ranges(
    map: &mut MapHandle,
    alloc: Global,
    layer: usize,
    byte_len: u8,
    ranges: &mut [DeclaredCids],
    needed: &mut usize,
) -> u32
    ensures same { map.new.slot.map ≡ map.old.slot.map }
    ensures ranges { MatchOption (layer_in map.old.slot.map layer)
        ((result ≡ number Absent) × (ranges.new ≡ ranges.old) × (needed.new ≡ needed.old))
        (λ given. IsPut (cids_declared given byte_len) ranges.old ranges.new needed.new result) }
{
    put_cids(layer_at(map.layers(), layer), byte_len, ranges, needed)
}

/// The declarations of notdefs of a layer, for codes of `byte_len` bytes, in the order of its file.
#[unsafe(no_mangle)]
pub extern "C" fn hayro_cmap_notdef_ranges(
    map: &mut MapHandle,
    alloc: Global,
    layer: usize,
    byte_len: u8,
    ranges: &mut [DeclaredCids],
    needed: &mut usize,
) -> u32
    ensures same { map.new.slot.map ≡ map.old.slot.map }
    ensures ranges { MatchOption (layer_in map.old.slot.map layer)
        ((result ≡ number Absent) × (ranges.new ≡ ranges.old) × (needed.new ≡ needed.old))
        (λ given. IsPut (notdefs_declared given byte_len) ranges.old ranges.new needed.new result) }
{
    put_notdefs(layer_at(map.layers(), layer), byte_len, ranges, needed)
}

/// The declarations of texts of a layer, in the order of its file.
#[unsafe(no_mangle)]
pub extern "C" fn hayro_cmap_text_ranges(
    map: &mut MapHandle,
    alloc: Global,
    layer: usize,
    ranges: &mut [DeclaredTexts],
    needed: &mut usize,
) -> u32
    ensures same { map.new.slot.map ≡ map.old.slot.map }
    ensures ranges { MatchOption (layer_in map.old.slot.map layer)
        ((result ≡ number Absent) × (ranges.new ≡ ranges.old) × (needed.new ≡ needed.old))
        (λ given. IsPut (texts_declared given) ranges.old ranges.new needed.new result) }
{
    put_texts(layer_at(map.layers(), layer), ranges, needed)
}

/// The units of the declaration of texts at an index in a layer. They are the units of the text of
/// its first code.
#[unsafe(no_mangle)]
pub extern "C" fn hayro_cmap_text_units(
    map: &mut MapHandle,
    alloc: Global,
    layer: usize,
    index: usize,
    units: &mut [u16],
    needed: &mut usize,
) -> u32
    ensures same { map.new.slot.map ≡ map.old.slot.map }
    ensures units { MatchOption (text_in map.old.slot.map layer index)
        ((result ≡ number Absent) × (units.new ≡ units.old) × (needed.new ≡ needed.old))
        (λ declared. IsPut declared.units units.old units.new needed.new result) }
{
    put_found(units_at(map.layers(), layer, index), units, needed)
}

/// Writes the declarations of CIDs of a layer, if the layer exists.
fn put_cids(
    layer: Option<&Layer>,
    byte_len: u8,
    ranges: &mut [DeclaredCids],
    needed: &mut usize,
) -> u32
    ensures { MatchOption (option_map layer_seen (option_copied layer.entry))
        ((result ≡ number Absent) × (ranges.new ≡ ranges.old) × (needed.new ≡ needed.old))
        (λ given. IsPut (cids_declared given byte_len) ranges.old ranges.new needed.new result) }
{
    let Some(layer) = layer else {
        return Status::Absent.number();
    };
    match CodeLength::of(byte_len) {
        Some(len) => put_items(layer.cids(len), ranges, needed),
        None => put(&[], ranges, needed),
    }
}

/// Writes the declarations of notdefs of a layer, if the layer exists.
fn put_notdefs(
    layer: Option<&Layer>,
    byte_len: u8,
    ranges: &mut [DeclaredCids],
    needed: &mut usize,
) -> u32
    ensures { MatchOption (option_map layer_seen (option_copied layer.entry))
        ((result ≡ number Absent) × (ranges.new ≡ ranges.old) × (needed.new ≡ needed.old))
        (λ given. IsPut (notdefs_declared given byte_len) ranges.old ranges.new needed.new result) }
{
    let Some(layer) = layer else {
        return Status::Absent.number();
    };
    match CodeLength::of(byte_len) {
        Some(len) => put_items(layer.notdefs(len), ranges, needed),
        None => put(&[], ranges, needed),
    }
}

/// Writes the declarations of texts of a layer, if the layer exists.
fn put_texts(layer: Option<&Layer>, ranges: &mut [DeclaredTexts], needed: &mut usize) -> u32
    ensures { MatchOption (option_map layer_seen (option_copied layer.entry))
        ((result ≡ number Absent) × (ranges.new ≡ ranges.old) × (needed.new ≡ needed.old))
        (λ given. IsPut (texts_declared given) ranges.old ranges.new needed.new result) }
{
    match layer {
        Some(layer) => put_items(layer.texts(), ranges, needed),
        None => Status::Absent.number(),
    }
}

/// The units of the declaration of texts at an index in a layer.
fn units_at(map: Option<&Layers>, layer: usize, index: usize) -> Option<&[u16]>
    ensures { option_copied result ≡ option_map (λ declared. declared.units)
        (text_in (option_copied map.entry) layer index) }
{
    let Some(layer) = layer_at(map, layer) else {
        return None;
    };
    let texts = layer.texts();
    if index < texts.decl_count() {
        Some(texts.decl(index, &mut Looks::new()).units.as_slice())
    } else {
        None
    }
}
