//! The codes of a CID, for C.

ghost use Rattle.std.specs.Prelude.{◌≡◌, IfOk, MatchOption};
ghost use Rattle.cmap_layers.specs.CodeStretches.{AreCodesOfCid};
ghost use Rattle.cmap_handles.specs.Ranges.{ArePutCodes};
ghost use Rattle.cmap_handles.specs.Statuses.{number};
ghost use Rattle.cmap_handles.specs.declared.status.Status.TheVariants.{Absent, NoMemory};

use cmap_handles::handle::MapHandle;
use cmap_handles::ranges::CodeRange;
use cmap_handles::room::put_items;
use cmap_handles::status::Status;
use cmap_layers::layers::Layers;
use cmap_values::code_length::CodeLength;
use cmap_values::range::Range;
use std::alloc::{AllocError, Global};

/// The codes of `byte_len` bytes that have a CID in the whole map, as ranges in order.
#[unsafe(no_mangle)]
pub extern "C" fn hayro_cmap_codes_of_cid(
    map: &mut MapHandle,
    alloc: Global,
    cid: u32,
    byte_len: u8,
    ranges: &mut [CodeRange],
    needed: &mut usize,
) -> u32
    ensures same { map.new.slot.map ≡ map.old.slot.map }
    ensures codes { (result ≡ number NoMemory → ⊥) → MatchOption map.old.slot.map
        ((result ≡ number Absent) × (ranges.new ≡ ranges.old) × (needed.new ≡ needed.old))
        (λ layers. ArePutCodes layers byte_len cid ranges.old ranges.new needed.new result) }
    ensures unwritten { result ≡ number NoMemory
        → (ranges.new ≡ ranges.old) × (needed.new ≡ needed.old) }
{
    let Some(layers) = map.layers() else {
        return Status::Absent.number();
    };
    match codes_of(alloc, layers, cid, byte_len) {
        Ok(codes) => put_items(&codes, ranges, needed),
        Err(_) => Status::NoMemory.number(),
    }
}

/// The codes of `byte_len` bytes that have a CID; no codes where no code has that many bytes.
fn codes_of(
    alloc: Global,
    layers: &Layers,
    cid: u32,
    byte_len: u8,
) -> Result<Vec<Range>, AllocError>
    ensures { IfOk result
        (λ ranges. AreCodesOfCid layers.now byte_len cid ranges.items) }
{
    match CodeLength::of(byte_len) {
        Some(len) => layers.codes_of_cid(alloc, cid, len),
        None => Ok(Vec::new(alloc)),
    }
}
