//! The results of loaders, for C.

ghost use Rattle.std.specs.Prelude.{◌≡◌, ◌≢◌, ◌≤◌, ◌⊎◌, IfSome, IsSome, IsSomeAnd, None};
ghost use Rattle.cmap_load.specs.Loads.{wanted_of};
ghost use Rattle.cmap_load.specs.NameCopies.{texts_of};
ghost use Rattle.cmap_c.specs.Faults.{IsExplained};
ghost use Rattle.cmap_c.specs.Loaders.{AreAsked, GivesAsked, IfRefusing, IsFinished, LeadsToFaultBy, WantsNone, name_wanted};
ghost use Rattle.cmap_handles.specs.Statuses.{number};
ghost use Rattle.cmap_handles.specs.declared.status.Status.TheVariants.{Absent, Done, NoMemory, OverBudget, Refused};

use crate::explain::tell;
use crate::fault::{FaultNumbers, Told};
use crate::file_loader::FileLoader;
use crate::keep::keep_read;
use crate::loader_handle::LoaderHandle;
use cmap_handles::handle::MapHandle;
use cmap_handles::status::Status;
use cmap_layers::layers::Layers;
use cmap_values::fault::Fault;
use std::alloc::{AllocError, Global};

/// The map of the file that was loaded, or the reason why there is no map, as `hayro_cmap_explain` writes it. The map
/// that the handle `map` held is freed.
///
/// The loader is freed, except after a refusal: a call with a longer buffer can then follow. There is no answer without
/// a loader, nor while a file is wanted; the loader then stays too.
#[unsafe(no_mangle)]
pub extern "C" fn hayro_cmap_finish(
    map: &mut MapHandle,
    alloc: Global,
    loader: &mut LoaderHandle,
    fault: &mut FaultNumbers,
    room: &mut [u8],
    needed: &mut usize,
) -> u32
    ensures absent { result ≡ number Absent
        → AreAsked loader.old.slot.loader loader.new.slot.loader
        × IfSome loader.new.slot.loader (λ held. IsSome (name_wanted held)) }
    ensures all { result ≢ number Absent → IsSomeAnd loader.old.slot.loader
        (IfRefusing (λ held. wanted_of texts_of held ≡ None)) }
    ensures loads { result ≡ number Done → IsSomeAnd loader.old.slot.loader
        (λ held. IsSomeAnd map.new.slot.map (GivesAsked held)) }
    ensures explains { ((result ≡ number Refused) ⊎ (result ≡ number OverBudget))
        → (loader.new.slot.loader ≡ loader.old.slot.loader) × IsSomeAnd loader.old.slot.loader
        (λ held. IsExplained (LeadsToFaultBy held)
        fault.new room.old room.new needed.new result) }
    ensures unwritten { ((result ≡ number Refused) ⊎ (result ≡ number OverBudget) → ⊥)
        → (fault.new ≡ fault.old) × (room.new ≡ room.old) × (needed.new ≡ needed.old) }
    ensures emptied { ((result ≡ number Done) ⊎ (result ≡ number NoMemory))
        → loader.new.slot.loader ≡ None }
    ensures failed { (result ≡ number Done)
        ⊎ (((result ≤ number OverBudget) ⊎ (result ≡ number Absent)) × (map.new.slot.map ≡ None)) }
{
    map.clear(alloc);
    match loader.take_ready(alloc) {
        Ok(Some(held)) => {
            let read = finished(loader, alloc, held);
            keep_read(map, alloc, tell(read, fault, room, needed))
        }
        Ok(None) => Status::Absent.number(),
        Err(_) => Status::NoMemory.number(),
    }
}

/// The map of a loader that wants no further file, or the reason why there is no map. If a file is refused, the loader
/// goes back into its handle.
fn finished(
    loader: &mut LoaderHandle,
    alloc: Global,
    held: Box<FileLoader>,
) -> Result<Layers, Fault<Told>>
    requires empty { loader.old.slot.loader ≡ None }
    requires all { WantsNone held.value }
    ensures { IsFinished held.value loader.new.slot.loader result }
{
    match held.told(alloc) {
        None => match Box::into_inner(held).finish() {
            Ok(layers) => Ok(layers),
            Err(AllocError) => Err(Fault::Memory),
        },
        Some(Fault::Refused(told)) => {
            loader.put(held);
            Err(Fault::Refused(told))
        }
        Some(Fault::Memory) => Err(Fault::Memory),
    }
}

/// Frees the loader, if there is one.
#[unsafe(no_mangle)]
pub extern "C" fn hayro_cmap_loader_free(loader: &mut LoaderHandle, alloc: Global)
    ensures { loader.new.slot.loader ≡ None }
{
    loader.clear(alloc);
}
