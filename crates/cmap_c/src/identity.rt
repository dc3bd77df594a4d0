//! The predefined identity maps, for C.

ghost use Rattle.std.specs.Prelude.{◌≡◌, ◌⊎◌, None, Some, [], ◌∷◌, codes, true, false};
ghost use Rattle.cmap_values.specs.Files as files;
ghost use Rattle.cmap_load.specs.Identity.{identity_layer};
ghost use Rattle.cmap_handles.specs.Statuses.{number};
ghost use Rattle.cmap_handles.specs.declared.status.Status.TheVariants.{Done, NoMemory};

use cmap_handles::handle::MapHandle;
use cmap_handles::shared::Shared;
use cmap_handles::status::Status;
use cmap_load::{identity_h, identity_v};
use std::alloc::Global;

/// Makes the predefined CMap Identity-H, or Identity-V if `vertical` is set. The map that the handle held is freed.
#[unsafe(no_mangle)]
pub extern "C" fn hayro_cmap_identity(map: &mut MapHandle, alloc: Global, vertical: bool) -> u32
    ensures horizontal { result ≡ number Done → vertical ≡ false → map.new.slot.map
        ≡ Some (identity_layer (codes "Identity-H") files.horizontal ∷ []) }
    ensures vertical { result ≡ number Done → vertical ≡ true → map.new.slot.map
        ≡ Some (identity_layer (codes "Identity-V") files.vertical ∷ []) }
    ensures failed { (result ≡ number Done)
        ⊎ ((result ≡ number NoMemory) × (map.new.slot.map ≡ None)) }
{
    map.clear(alloc);
    let made = if vertical {
        identity_v(alloc)
    } else {
        identity_h(alloc)
    };
    match made {
        Ok(layers) => map.keep(Shared::new(alloc, layers)),
        Err(_) => Status::NoMemory.number(),
    }
}
