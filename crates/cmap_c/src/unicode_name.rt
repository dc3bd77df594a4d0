//! The names of maps from Unicode, for C.

ghost use Rattle.std.specs.Prelude.{◌≡◌, MatchOption};
ghost use Rattle.cmap_unicode.specs.FromUnicode.{name_for};
ghost use Rattle.cmap_handles.specs.Rooms.{IsPut};
ghost use Rattle.cmap_handles.specs.Statuses.{number};
ghost use Rattle.cmap_handles.specs.declared.status.Status.TheVariants.{Absent};
ghost use Rattle.cmap_c.specs.Modes.{mode_for};

use cmap_handles::room::put_found;
use cmap_unicode::unicode_name;
use cmap_values::writing_mode::WritingMode;

/// The name of the map from Unicode, in UTF-16, to the CIDs of a character collection, such as
/// `UniJIS-UTF16-H` for `Adobe-Japan1`, for the writing mode with this number.
#[unsafe(no_mangle)]
pub extern "C" fn hayro_cmap_unicode_name(
    collection: &[u8],
    mode: u32,
    room: &mut [u8],
    needed: &mut usize,
) -> u32
    ensures { MatchOption (name_for collection.now (mode_for mode))
        ((result ≡ number Absent) × (room.new ≡ room.old) × (needed.new ≡ needed.old))
        (λ name. IsPut name room.old room.new needed.new result) }
{
    put_found(unicode_name(collection, mode_of(mode)), room, needed)
}

/// The writing mode with a number: vertical for its number, otherwise horizontal.
fn mode_of(number: u32) -> WritingMode
    ensures { result ≡ mode_for number }
{
    match number {
        1 => WritingMode::Vertical,
        _ => WritingMode::Horizontal,
    }
}
