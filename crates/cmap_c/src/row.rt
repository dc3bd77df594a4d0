//! The CIDs of consecutive codes, for C.

ghost use Rattle.std.specs.Prelude.{◌≡◌, MatchOption, true, false};
ghost use Rattle.cmap_layers.specs.Rows.{AreCidsOf};

use cmap_handles::handle::MapHandle;
use std::alloc::Global;

/// The CIDs of the codes of `byte_len` bytes from `first` on, one after another, as many as the
/// buffer can hold. `absent` stands for a code without a CID. The result is whether there is a map.
#[unsafe(no_mangle)]
pub extern "C" fn hayro_cmap_cids(
    map: &mut MapHandle,
    alloc: Global,
    first: u32,
    byte_len: u8,
    absent: u32,
    cids: &mut [u32],
) -> bool
    ensures same { map.new.slot.map ≡ map.old.slot.map }
    ensures cids { MatchOption map.old.slot.map
        ((result ≡ false) × (cids.new ≡ cids.old))
        (λ layers. (result ≡ true) × AreCidsOf layers byte_len absent first cids.new) }
{
    let Some(layers) = map.layers() else {
        return false;
    };
    layers.fill_cids(first, byte_len, absent, cids);
    true
}
