//! Why a file gives no map, in English, for C.

ghost use Rattle.std.specs.Prelude.{◌≡◌, ◌⊎◌, ℕ, List};
ghost use Rattle.cmap_values.specs.Only.{IsOnly, HoldsOfNone};
ghost use Rattle.cmap_load.specs.declared.refusal.Cause.{Cause};
ghost use Rattle.cmap_c.specs.Faults.{HasNumbers};
ghost use Rattle.cmap_handles.specs.Rooms.{IsPut};
ghost use Rattle.cmap_handles.specs.Statuses.{number};
ghost use Rattle.cmap_handles.specs.declared.status.Status.TheVariants.{Done, NoMemory, Absent, NoRoom};

use crate::fault::FaultNumbers;
use cmap_handles::room::put;
use cmap_handles::status::Status;
use std::alloc::Global;

/// Writes what is wrong, in English: the text of the cause that has these numbers.
#[unsafe(no_mangle)]
pub extern "C" fn hayro_cmap_message(
    fault: &FaultNumbers,
    alloc: Global,
    room: &mut [u8],
    needed: &mut usize,
) -> u32
    ensures message { ((result ≡ number Done) ⊎ (result ≡ number NoRoom)) → (cause : Cause)
        × IsOnly (HasNumbers fault.now) cause × (text : List ℕ)
        × IsPut text room.old room.new needed.new result }
    ensures absent { result ≡ number Absent → HoldsOfNone (HasNumbers fault.now) }
    ensures unwritten { ((result ≡ number Absent) ⊎ (result ≡ number NoMemory))
        → (room.new ≡ room.old) × (needed.new ≡ needed.old) }
    ensures ends { ((result ≡ number Done) ⊎ (result ≡ number NoRoom))
        ⊎ ((result ≡ number Absent) ⊎ (result ≡ number NoMemory)) }
{
    let Some(cause) = fault.cause() else {
        return Status::Absent.number();
    };
    match cause.to_string(alloc) {
        Ok(text) => put(text.as_bytes(), room, needed),
        Err(_) => Status::NoMemory.number(),
    }
}
