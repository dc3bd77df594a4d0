//! The texts of codes, in UTF-8, for C.

ghost use Rattle.std.specs.Prelude.{◌≡◌, ◌<◌, IsSomeAnd, MatchOption, encode_utf8_all, length};
ghost use Rattle.cmap_handles.specs.Handles.{handle_text, utf8_of};
ghost use Rattle.cmap_handles.specs.Rooms.{IsPut};
ghost use Rattle.cmap_handles.specs.Statuses.{number};
ghost use Rattle.cmap_handles.specs.declared.status.Status.TheVariants.{Absent, NoMemory};

use cmap_handles::handle::MapHandle;
use cmap_handles::room::put;
use cmap_handles::status::Status;
use cmap_runs::runs::Looks;
use cmap_tokens::utf16::BfString;
use std::alloc::Global;

/// The text of a code in UTF-8.
#[unsafe(no_mangle)]
pub extern "C" fn hayro_cmap_text(
    map: &mut MapHandle,
    alloc: Global,
    code: u32,
    room: &mut [u8],
    needed: &mut usize,
) -> u32
    ensures same { map.new.slot.map ≡ map.old.slot.map }
    ensures text { (result ≡ number NoMemory → ⊥)
        → MatchOption (handle_text map.old.slot.map code)
        ((result ≡ number Absent) × (room.new ≡ room.old) × (needed.new ≡ needed.old))
        (λ text. IsPut (encode_utf8_all text) room.old room.new needed.new result) }
    ensures err { result ≡ number NoMemory
        → IsSomeAnd (handle_text map.old.slot.map code) (λ text. 1 < length text) }
    ensures unwritten { result ≡ number NoMemory
        → (room.new ≡ room.old) × (needed.new ≡ needed.old) }
{
    let Some(layers) = map.layers() else {
        return Status::Absent.number();
    };
    match layers.text(alloc, code, &mut Looks::new()) {
        Ok(Some(text)) => put_text(&text, room, needed),
        Ok(None) => Status::Absent.number(),
        Err(_) => Status::NoMemory.number(),
    }
}

/// Writes a text in UTF-8.
#[tactic(auto, using(crate::proofs::TextsOfBytes::encode_one))]
fn put_text(text: &BfString, room: &mut [u8], needed: &mut usize) -> u32
    ensures { IsPut (utf8_of text.now) room.old room.new needed.new result }
{
    match text {
        BfString::Char(c) => put(c.encode_utf8(&mut [0; 4]).as_bytes(), room, needed),
        BfString::String(text) => put(text.as_bytes(), room, needed),
    }
}
