//! The codes of a string, for C.

ghost use Rattle.std.specs.Prelude.{◌≡◌, MatchOption};
ghost use Rattle.cmap_handles.specs.Statuses.{number};
ghost use Rattle.cmap_c.specs.Strings.{IsDecoded, code_seen};
ghost use Rattle.cmap_handles.specs.declared.status.Status.TheVariants.{Absent};

use cmap_handles::handle::MapHandle;
use cmap_handles::status::Status;
use cmap_layers::layers::Layers;
use cmap_layers::string_codes::StringCode;
use cmap_runs::runs::Looks;
use std::alloc::Global;

/// A code of a string, with its CID. The struct has no padding, and each of its fields may have any
/// value, since C may hand in an uninitialized buffer.
#[repr(C)]
#[derive(Clone, Copy)]
pub struct Code {
    /// The number that the bytes of the code form, with the first byte as the high byte.
    pub(crate) code: u32,
    /// The CID of the code, or 0 where it has none.
    pub(crate) cid: u32,
    /// The number of bytes of the code, 1 to 4.
    pub(crate) byte_len: u8,
    /// 1 where the code lies in a codespace range, otherwise 0.
    pub(crate) in_codespace: u8,
    /// 1 where the code has a CID, otherwise 0.
    pub(crate) has_cid: u8,
    /// 1 where the string ends before the code does, otherwise 0.
    pub(crate) cut_short: u8,
}

/// Cuts a string into codes, each with its CID, as many as the buffer can hold. `made` is the number
/// of codes, and `taken` the number of their bytes.
#[unsafe(no_mangle)]
pub extern "C" fn hayro_cmap_decode(
    map: &mut MapHandle,
    alloc: Global,
    text: &[u8],
    codes: &mut [Code],
    made: &mut usize,
    taken: &mut usize,
) -> u32
    ensures same { map.new.slot.map ≡ map.old.slot.map }
    ensures codes { MatchOption map.old.slot.map
        ((result ≡ number Absent) × (codes.new ≡ codes.old) × (made.new ≡ 0) × (taken.new ≡ 0))
        (λ layers. IsDecoded layers text.now codes.old codes.new made.new taken.new result) }
{
    let Some(layers) = map.layers() else {
        *made = 0;
        *taken = 0;
        return Status::Absent.number();
    };
    decode(layers, text, codes, made, taken)
}

/// Cuts a string into codes, as many as the buffer can hold.
fn decode(
    layers: &Layers,
    text: &[u8],
    codes: &mut [Code],
    made: &mut usize,
    taken: &mut usize,
) -> u32
    ensures { IsDecoded layers.now text.now codes.old codes.new made.new taken.new result }
{
    let mut left = text;
    let mut count = 0;
    while count < codes.len() {
        let Some(next) = layers.next_code(left) else {
            break;
        };
        codes[count] = with_cid(layers, next);
        left = &left[usize::from(next.byte_len)..];
        count += 1;
    }
    *made = count;
    *taken = text.len() - left.len();
    if left.is_empty() {
        Status::Done.number()
    } else {
        Status::NoRoom.number()
    }
}

/// A code with its CID.
fn with_cid(layers: &Layers, found: StringCode) -> Code
    ensures { result ≡ code_seen layers.now found }
{
    let cid = layers.cid(found.code, found.byte_len, &mut Looks::new());
    Code {
        code: found.code,
        cid: cid.unwrap_or(0),
        byte_len: found.byte_len,
        in_codespace: u8::from(found.in_codespace),
        has_cid: u8::from(cid.is_some()),
        cut_short: u8::from(found.cut_short),
    }
}
