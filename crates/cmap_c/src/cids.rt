//! The CIDs of codes, for C.

ghost use Rattle.std.specs.Prelude.{◌≡◌, MatchOption, true, false};
ghost use Rattle.cmap_handles.specs.Handles.{InHandle, handle_cid};

use cmap_handles::handle::MapHandle;
use cmap_runs::runs::Looks;
use std::alloc::Global;

/// The CID of a code of `byte_len` bytes, big-endian. The result is whether the code has a CID,
/// which is then written.
#[unsafe(no_mangle)]
pub extern "C" fn hayro_cmap_cid(
    map: &mut MapHandle,
    alloc: Global,
    code: u32,
    byte_len: u8,
    cid: &mut u32,
) -> bool
    ensures same { map.new.slot.map ≡ map.old.slot.map }
    ensures value { MatchOption (handle_cid map.old.slot.map code byte_len)
        ((result ≡ false) × (cid.new ≡ cid.old))
        (λ c. (result ≡ true) × (cid.new ≡ c)) }
{
    match map.layers() {
        Some(layers) => put_cid(layers.cid(code, byte_len, &mut Looks::new()), cid),
        None => false,
    }
}

/// The CID of a code, as from `hayro_cmap_cid`, if the code lies in a codespace range of some
/// layer; otherwise no CID.
#[unsafe(no_mangle)]
pub extern "C" fn hayro_cmap_cid_strict(
    map: &mut MapHandle,
    alloc: Global,
    code: u32,
    byte_len: u8,
    cid: &mut u32,
) -> bool
    ensures same { map.new.slot.map ≡ map.old.slot.map }
    ensures within { InHandle map.old.slot.map code byte_len
        → MatchOption (handle_cid map.old.slot.map code byte_len)
        ((result ≡ false) × (cid.new ≡ cid.old))
        (λ c. (result ≡ true) × (cid.new ≡ c)) }
    ensures outside { (InHandle map.old.slot.map code byte_len → ⊥)
        → (result ≡ false) × (cid.new ≡ cid.old) }
{
    match map.layers() {
        Some(layers) => put_cid(layers.strict_cid(code, byte_len, &mut Looks::new()), cid),
        None => false,
    }
}

/// Writes a CID, if there is one. The result is whether there is one.
fn put_cid(answer: Option<u32>, cid: &mut u32) -> bool
    ensures { MatchOption answer
        ((result ≡ false) × (cid.new ≡ cid.old))
        (λ c. (result ≡ true) × (cid.new ≡ c)) }
{
    match answer {
        Some(found) => {
            *cid = found;
            true
        }
        None => false,
    }
}
