//! Loaders of files over files that the caller looks up one after another, for C.

ghost use Rattle.std.specs.Prelude.{◌≡◌, ◌≢◌, ◌⊎◌, IfSome, IsSomeAnd, MatchOption, None, false, true};
ghost use Rattle.cmap_load.specs.Loads.{wanted_of};
ghost use Rattle.cmap_load.specs.NameCopies.{texts_of};
ghost use Rattle.cmap_c.specs.Loaders.{AreAsked, Begins, HasBoth, IfRefusing, IsAsked, IsNew, IsStill, IsSupplied, WantsNone, reads_past, wanted_in, name_wanted};
ghost use Rattle.cmap_c.specs.NamedFiles.{budget_of};
ghost use Rattle.cmap_handles.specs.Rooms.{IsPut};
ghost use Rattle.cmap_handles.specs.Statuses.{number};
ghost use Rattle.cmap_handles.specs.declared.status.Status.TheVariants.{Absent, Done, NoMemory};

use crate::file_loader::FileLoader;
use crate::loader_handle::LoaderHandle;
use crate::parse::limit;
use cmap_handles::bundle::BundleHandle;
use cmap_handles::room::put;
use cmap_handles::status::Status;
use std::alloc::Global;

/// Begins to load the file `data`. The caller then supplies the files that it uses. Binary files are read by the tables
/// of the bundle, which is the same at each call. The files that are opened have at most `budget` bytes together; a
/// `budget` of 2^64 - 1 stands for no budget. The loader that the handle held is freed.
///
/// A malformed file is no error here: `hayro_cmap_finish` reports it. The loader keeps no bytes of the file.
#[unsafe(no_mangle)]
pub extern "C" fn hayro_cmap_load(
    loader: &mut LoaderHandle,
    alloc: Global,
    data: &[u8],
    bundle: &mut BundleHandle,
    budget: u64,
) -> u32
    ensures same { bundle.new.slot.bundle ≡ bundle.old.slot.bundle }
    ensures kind { result ≡ number Done
        → IsSomeAnd loader.new.slot.loader (λ held. reads_past held ≡ false) }
    ensures begins { result ≡ number Done → IsSomeAnd loader.new.slot.loader
        (Begins bundle.old.slot.bundle «data».now (budget_of budget)) }
    ensures failed { (result ≡ number Done)
        ⊎ ((result ≡ number NoMemory) × (loader.new.slot.loader ≡ None)) }
{
    loader.clear(alloc);
    loader.keep(FileLoader::refusing(alloc, limit(budget), data, bundle.bundle()))
}

/// Begins to load the file `data` as `hayro_cmap_load` does, past the faults of this file and of the files that it uses.
#[unsafe(no_mangle)]
pub extern "C" fn hayro_cmap_load_past_faults(
    loader: &mut LoaderHandle,
    alloc: Global,
    data: &[u8],
    bundle: &mut BundleHandle,
    budget: u64,
) -> u32
    ensures same { bundle.new.slot.bundle ≡ bundle.old.slot.bundle }
    ensures kind { result ≡ number Done
        → IsSomeAnd loader.new.slot.loader (λ held. reads_past held ≡ true) }
    ensures begins { result ≡ number Done → IsSomeAnd loader.new.slot.loader
        (Begins bundle.old.slot.bundle «data».now (budget_of budget)) }
    ensures failed { (result ≡ number Done)
        ⊎ ((result ≡ number NoMemory) × (loader.new.slot.loader ≡ None)) }
{
    loader.clear(alloc);
    loader.keep(FileLoader::past_faults(alloc, limit(budget), data, bundle.bundle()))
}

/// Writes the name of the wanted file to the buffer `room`, and its number of bytes to `needed`. There is no answer if
/// no file is wanted.
///
/// A loader past faults may have to find out first which file it wants. If memory runs out meanwhile, the call may be
/// repeated.
#[unsafe(no_mangle)]
pub extern "C" fn hayro_cmap_wanted(
    loader: &mut LoaderHandle,
    alloc: Global,
    room: &mut [u8],
    needed: &mut usize,
) -> u32
    ensures same { AreAsked loader.old.slot.loader loader.new.slot.loader }
    ensures name { result ≢ number NoMemory → MatchOption (wanted_in loader.new.slot.loader)
        ((result ≡ number Absent) × IfSome loader.new.slot.loader WantsNone
        × (room.new ≡ room.old) × (needed.new ≡ needed.old))
        (λ name. IsPut name room.old room.new needed.new result) }
    ensures memory { result ≡ number NoMemory
        → IsSomeAnd loader.old.slot.loader (λ held. reads_past held ≡ true)
        × (room.new ≡ room.old) × (needed.new ≡ needed.old) }
    ensures new { IfSome loader.old.slot.loader
        (IfRefusing (λ held. IfSome (wanted_of texts_of held) (IsNew held))) }
{
    let Some(mut held) = loader.take(alloc) else {
        return Status::Absent.number();
    };
    let status = put_wanted(&mut held, room, needed);
    loader.put(held);
    status
}

/// Writes the name of the wanted file to a buffer, if a file is wanted. The result is the number of the status.
fn put_wanted(loader: &mut FileLoader, room: &mut [u8], needed: &mut usize) -> u32
    ensures same { IsAsked loader.old loader.new }
    ensures name { result ≢ number NoMemory → MatchOption (name_wanted loader.new)
        ((result ≡ number Absent) × WantsNone loader.new
        × (room.new ≡ room.old) × (needed.new ≡ needed.old))
        (λ name. IsPut name room.old room.new needed.new result) }
    ensures memory { result ≡ number NoMemory → (reads_past loader.old ≡ true)
        × (room.new ≡ room.old) × (needed.new ≡ needed.old) }
    ensures new { IfRefusing (λ held. IfSome (wanted_of texts_of held) (IsNew held)) loader.old }
{
    match loader.wants() {
        Ok(true) => put(loader.name(), room, needed),
        Ok(false) => Status::Absent.number(),
        Err(_) => Status::NoMemory.number(),
    }
}

/// Supplies the wanted file. If `found` is 1, it is `file`. If `found` is 0, the caller has no file of the wanted name:
/// it is then the bundle's file of the name, or else Identity-H or Identity-V. Otherwise no file has the name. The
/// loader keeps no bytes of the file.
///
/// If memory runs out, the same file is wanted again. There is no answer if no file is wanted.
#[unsafe(no_mangle)]
pub extern "C" fn hayro_cmap_supply(
    loader: &mut LoaderHandle,
    alloc: Global,
    bundle: &mut BundleHandle,
    found: u32,
    file: &[u8],
) -> u32
    ensures same { bundle.new.slot.bundle ≡ bundle.old.slot.bundle }
    ensures supplies { result ≡ number Done
        → HasBoth (IsSupplied bundle.old.slot.bundle found file.now)
        loader.old.slot.loader loader.new.slot.loader }
    ensures absent { result ≡ number Absent
        → AreAsked loader.old.slot.loader loader.new.slot.loader
        × IfSome loader.new.slot.loader WantsNone }
    ensures memory { result ≡ number NoMemory
        → HasBoth IsStill loader.old.slot.loader loader.new.slot.loader }
    ensures failed { (result ≡ number Done) ⊎ (result ≡ number NoMemory)
        ⊎ (result ≡ number Absent) }
{
    let Some(mut held) = loader.take(alloc) else {
        return Status::Absent.number();
    };
    let status = held.supply(found, file, bundle.bundle());
    loader.put(held);
    status.number()
}
