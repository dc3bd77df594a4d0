//! Maps that several handles share, for C.

ghost use Rattle.std.specs.Prelude.{◌≡◌, ◌⊎◌, None};
ghost use Rattle.cmap_handles.specs.Statuses.{number};
ghost use Rattle.cmap_handles.specs.declared.status.Status.TheVariants.{Done, NoMemory};

use cmap_handles::handle::MapHandle;
use cmap_handles::status::Status;
use std::alloc::Global;

/// Gives the handle `other` the same map, or none without a map. A map that `other` had is freed.
#[unsafe(no_mangle)]
pub extern "C" fn hayro_cmap_share(map: &mut MapHandle, alloc: Global, other: &mut MapHandle) -> u32
    ensures same { map.new.slot.map ≡ map.old.slot.map }
    ensures shared { ((result ≡ number Done) × (other.new.slot.map ≡ map.old.slot.map))
        ⊎ ((result ≡ number NoMemory) × (other.new.slot.map ≡ None)) }
{
    other.clear(alloc);
    match map.shared() {
        Some(shared) => other.keep(shared.share(alloc)),
        None => Status::Done.number(),
    }
}

/// Frees the map, if there is one.
#[unsafe(no_mangle)]
pub extern "C" fn hayro_cmap_free(map: &mut MapHandle, alloc: Global)
    ensures { map.new.slot.map ≡ None }
{
    map.clear(alloc);
}
