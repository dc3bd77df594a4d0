//! The faults that loaders past faults found, for C.

ghost use Rattle.std.specs.Prelude.{◌≡◌, ◌≢◌, ◌⊎◌, IfSome, IsSomeAnd, true};
ghost use Rattle.cmap_c.specs.Loaders.{AreAsked, HasFaults, HasNoFaults, reads_past};
ghost use Rattle.cmap_c.specs.Salvaged.{AreWritten};
ghost use Rattle.cmap_handles.specs.Statuses.{number};
ghost use Rattle.cmap_handles.specs.declared.status.Status.TheVariants.{Absent, Done, NoMemory};

use crate::fault::FaultNumbers;
use crate::loader_handle::LoaderHandle;
use cmap_handles::status::Status;
use std::alloc::Global;

/// The faults of the files that a loader past faults read, written as `hayro_cmap_salvage` writes them. The loader
/// stays, so that a call with longer buffers can follow.
///
/// There is no answer without such a loader, nor while a file is wanted.
#[unsafe(no_mangle)]
pub extern "C" fn hayro_cmap_found_faults(
    loader: &mut LoaderHandle,
    alloc: Global,
    faults: &mut [FaultNumbers],
    found: &mut usize,
    room: &mut [u8],
    needed: &mut usize,
) -> u32
    ensures same { AreAsked loader.old.slot.loader loader.new.slot.loader }
    ensures says { result ≡ number Done → IsSomeAnd loader.new.slot.loader (λ held. HasFaults held
        (λ all. AreWritten all faults.old faults.new found.new room.old room.new needed.new)) }
    ensures absent { result ≡ number Absent → IfSome loader.new.slot.loader HasNoFaults }
    ensures past { result ≢ number Absent
        → IsSomeAnd loader.old.slot.loader (λ held. reads_past held ≡ true) }
    ensures unwritten { result ≢ number Done → (faults.new ≡ faults.old)
        × (found.new ≡ found.old) × (room.new ≡ room.old) × (needed.new ≡ needed.old) }
    ensures failed { (result ≡ number Done) ⊎ (result ≡ number NoMemory)
        ⊎ (result ≡ number Absent) }
{
    let Some(mut held) = loader.take(alloc) else {
        return Status::Absent.number();
    };
    let shown = held.faults(alloc);
    loader.put(held);
    match shown {
        Ok(Some(shown)) => {
            shown.put(faults, found, room, needed);
            Status::Done.number()
        }
        Ok(None) => Status::Absent.number(),
        Err(_) => Status::NoMemory.number(),
    }
}
