//! The version of the library, for C.

ghost use Rattle.std.specs.Prelude.{codes};
ghost use Rattle.cmap_handles.specs.Rooms.{IsPut};

use cmap_handles::room::put;

/// The version of the library, in ASCII.
#[unsafe(no_mangle)]
pub extern "C" fn hayro_cmap_version(room: &mut [u8], needed: &mut usize) -> u32
    ensures { IsPut (codes "1.0.0") room.old room.new needed.new result }
{
    put(b"1.0.0", room, needed)
}
