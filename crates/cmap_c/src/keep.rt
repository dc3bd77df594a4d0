//! Maps that were read, as handles keep them.

ghost use Rattle.std.specs.Prelude.{◌≡◌, None};
ghost use Rattle.cmap_c.specs.Endings.{IsKept};

use cmap_handles::handle::MapHandle;
use cmap_handles::shared::Shared;
use cmap_handles::status::Status;
use cmap_layers::layers::Layers;
use std::alloc::Global;

/// Gives an empty handle the map that was read, if there is one. The result is the number of the
/// status.
pub(crate) fn keep_read(handle: &mut MapHandle, alloc: Global, read: Result<Layers, Status>) -> u32
    requires { handle.old.slot.map ≡ None }
    ensures { IsKept read result handle.new.slot.map }
{
    match read {
        Ok(map) => handle.keep(Shared::new(alloc, map)),
        Err(status) => status.number(),
    }
}
