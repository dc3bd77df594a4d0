//! Bundles that C opens once for many files.

ghost use Rattle.std.specs.Prelude.{◌≡◌, ◌⊎◌, None, IsSomeAnd, MatchOption};
ghost use Rattle.cmap_binary.specs.Bundles.{IsBundle};
ghost use Rattle.cmap_values.specs.Only.{IsOnly, HoldsOfNone};
ghost use Rattle.cmap_load.specs.Answers.{embedded};
ghost use Rattle.cmap_handles.specs.Rooms.{IsPut};
ghost use Rattle.cmap_handles.specs.Statuses.{number};
ghost use Rattle.cmap_handles.specs.declared.status.Status.TheVariants.{Absent, Done, NoMemory, NotABundle};

use cmap_binary::OwnedBundle;
use cmap_handles::bundle::BundleHandle;
use cmap_handles::room::put_found;
use cmap_handles::shared::Shared;
use cmap_handles::status::Status;
use cmap_load::named_files::BundleFiles;
use std::alloc::Global;

/// Opens the bundle with these bytes. The bundle that the handle held is freed.
#[unsafe(no_mangle)]
pub extern "C" fn hayro_cmap_bundle_open(
    bundle: &mut BundleHandle,
    alloc: Global,
    bytes: &[u8],
) -> u32
    ensures opened { result ≡ number Done
        → IsSomeAnd bundle.new.slot.bundle (IsOnly (IsBundle bytes.now)) }
    ensures not_a_bundle { result ≡ number NotABundle → HoldsOfNone (IsBundle bytes.now) }
    ensures failed { (result ≡ number Done)
        ⊎ (((result ≡ number NoMemory) ⊎ (result ≡ number NotABundle))
        × (bundle.new.slot.bundle ≡ None)) }
{
    bundle.clear(alloc);
    match OwnedBundle::parse(alloc, bytes) {
        Ok(Some(parsed)) => bundle.keep(Shared::new(alloc, parsed)),
        Ok(None) => Status::NotABundle.number(),
        Err(_) => Status::NoMemory.number(),
    }
}

/// Lets the handle `other` share the bundle of a handle. `other` is emptied if there is no bundle. The bundle that
/// `other` held is freed.
#[unsafe(no_mangle)]
pub extern "C" fn hayro_cmap_bundle_share(
    bundle: &mut BundleHandle,
    alloc: Global,
    other: &mut BundleHandle,
) -> u32
    ensures same { bundle.new.slot.bundle ≡ bundle.old.slot.bundle }
    ensures shared { ((result ≡ number Done) × (other.new.slot.bundle ≡ bundle.old.slot.bundle))
        ⊎ ((result ≡ number NoMemory) × (other.new.slot.bundle ≡ None)) }
{
    other.clear(alloc);
    match bundle.shared() {
        Some(shared) => other.keep(shared.share(alloc)),
        None => Status::Done.number(),
    }
}

/// Writes the bytes of the bundle's file of this name to the buffer `room`, and their number to `needed`.
#[unsafe(no_mangle)]
pub extern "C" fn hayro_cmap_bundle_file(
    bundle: &mut BundleHandle,
    alloc: Global,
    name: &[u8],
    room: &mut [u8],
    needed: &mut usize,
) -> u32
    ensures same { bundle.new.slot.bundle ≡ bundle.old.slot.bundle }
    ensures file { MatchOption (embedded bundle.old.slot.bundle name.now)
        ((result ≡ number Absent) × (room.new ≡ room.old) × (needed.new ≡ needed.old))
        (λ bytes. IsPut bytes room.old room.new needed.new result) }
{
    match bundle.bundle() {
        Some(bundle) => put_found(bundle.file_of(name), room, needed),
        None => Status::Absent.number(),
    }
}

/// Frees the bundle, if there is one.
#[unsafe(no_mangle)]
pub extern "C" fn hayro_cmap_bundle_free(bundle: &mut BundleHandle, alloc: Global)
    ensures { bundle.new.slot.bundle ≡ None }
{
    bundle.clear(alloc);
}
