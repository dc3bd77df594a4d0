//! The files that a file uses, for C.

ghost use Rattle.std.specs.Prelude.{◌≡◌, ◌⊎◌, ℕ, List, length};
ghost use Rattle.cmap_values.specs.NamesSeen.{names_seen};
ghost use Rattle.cmap_values.specs.Only.{IsOnly, HoldsOfNone};
ghost use Rattle.cmap_c.specs.NamedFiles.{AreUsesOver};
ghost use Rattle.cmap_handles.specs.Rooms.{AreBothPut};
ghost use Rattle.cmap_handles.specs.Statuses.{number};
ghost use Rattle.cmap_handles.specs.declared.status.Status.TheVariants.{Refused, NoMemory, Done, NoRoom};

use crate::parse::tables_of;
use cmap_handles::bundle::BundleHandle;
use cmap_handles::names::joined;
use cmap_handles::room::{fill, put};
use cmap_handles::status::Status;
use cmap_load::uses;
use std::alloc::Global;

/// Writes the names of the files that the file `data` uses, in the order of the uses: the lengths of the names, and
/// their bytes one after another. A binary file is read by the tables of the bundle.
#[unsafe(no_mangle)]
pub extern "C" fn hayro_cmap_uses(
    alloc: Global,
    data: &[u8],
    bundle: &mut BundleHandle,
    name_lens: &mut [usize],
    names: &mut usize,
    room: &mut [u8],
    needed: &mut usize,
) -> u32
    ensures same { bundle.new.slot.bundle ≡ bundle.old.slot.bundle }
    ensures uses { ((result ≡ number Done) ⊎ (result ≡ number NoRoom)) → (used : List (List ℕ))
        × IsOnly (AreUsesOver bundle.old.slot.bundle «data».now) used
        × AreBothPut used name_lens.old name_lens.new names.new room.old room.new needed.new result }
    ensures refuses { result ≡ number Refused
        → HoldsOfNone (AreUsesOver bundle.old.slot.bundle «data».now) }
    ensures unwritten { ((result ≡ number Refused) ⊎ (result ≡ number NoMemory))
        → (name_lens.new ≡ name_lens.old) × (names.new ≡ names.old) × (room.new ≡ room.old)
        × (needed.new ≡ needed.old) }
    ensures ends { ((result ≡ number Done) ⊎ (result ≡ number NoRoom))
        ⊎ ((result ≡ number Refused) ⊎ (result ≡ number NoMemory)) }
{
    match uses(alloc, data, tables_of(bundle.bundle())) {
        Ok(Some(used)) => put_names(alloc, &used, name_lens, names, room, needed),
        Ok(None) => Status::Refused.number(),
        Err(_) => Status::NoMemory.number(),
    }
}

/// Writes the lengths of the names and their bytes, if both fit, and the numbers of names and of bytes.
fn put_names(
    alloc: Global,
    used: &[&[u8]],
    name_lens: &mut [usize],
    names: &mut usize,
    room: &mut [u8],
    needed: &mut usize,
) -> u32
    ensures { ((result ≡ number NoMemory) × (name_lens.new ≡ name_lens.old)
        × (names.new ≡ names.old) × (room.new ≡ room.old) × (needed.new ≡ needed.old))
        ⊎ AreBothPut (names_seen used.now)
        name_lens.old name_lens.new names.new room.old room.new needed.new result }
{
    let Ok(bytes) = joined(alloc, used) else {
        return Status::NoMemory.number();
    };
    *names = used.len();
    *needed = bytes.len();
    if used.len() > name_lens.len() || bytes.len() > room.len() {
        return Status::NoRoom.number();
    }
    fill(&used, name_lens);
    put(&bytes, room, needed)
}
