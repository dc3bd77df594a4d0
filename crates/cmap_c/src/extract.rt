//! The codes of a string with their CIDs and their texts, for C.

ghost use Rattle.std.specs.Prelude.{◌≡◌, ◌-◌, ◌<◌, ◌≤◌, None, MatchOption, MatchResult, length};
ghost use Rattle.std.specs.Bool.{MatchBool};
ghost use Rattle.std.specs.Option.{option_copied};
ghost use Rattle.cmap_unicode.specs.Characters.{font_of};
ghost use Rattle.cmap_c.specs.Extracted.{IsExtracted, bytes_of, character_seen, font_given};
ghost use Rattle.cmap_c.specs.ExtractedParts.{IsMade, IsPutAt, IsStop};
ghost use Rattle.cmap_handles.specs.Statuses.{number};
ghost use Rattle.cmap_handles.specs.declared.status.Status.TheVariants.{Absent};

use crate::decode::Code;
use cmap_handles::handle::MapHandle;
use cmap_handles::status::Status;
use cmap_layers::layers::Layers;
use cmap_tokens::utf16::BfString;
use cmap_unicode::{Character, Extractor};
use std::alloc::Global;

/// A code of a string with its CID, and with the place of its text in a buffer for texts. The struct
/// has no padding, and each of its fields may have any value, since C may hand in an uninitialized
/// buffer.
#[repr(C)]
#[derive(Clone, Copy)]
pub struct ExtractedCharacter {
    /// The code, and the CID that the font's CMap declares for it.
    pub(crate) code: Code,
    /// 1 where the code has a text, otherwise 0.
    pub(crate) has_text: u32,
    /// The offset of the text in the buffer for texts.
    pub(crate) text_start: usize,
    /// The number of bytes of the text in UTF-8.
    pub(crate) text_len: usize,
}

/// The progress through a string.
#[repr(C)]
#[derive(Clone, Copy)]
pub struct Extracted {
    /// The number of codes that were made.
    pub(crate) made: usize,
    /// The number of bytes of the string in these codes.
    pub(crate) taken: usize,
    /// The number of bytes of their texts in UTF-8.
    pub(crate) used: usize,
}

/// Cuts a string into codes, each with its CID and its text, as many as the buffers can hold.
#[unsafe(no_mangle)]
pub extern "C" fn hayro_cmap_extract(
    encoding: &mut MapHandle,
    to_unicode: &mut MapHandle,
    collection: &mut MapHandle,
    alloc: Global,
    string: &[u8],
    characters: &mut [ExtractedCharacter],
    text: &mut [u8],
    extracted: &mut Extracted,
) -> u32
    ensures encoding { encoding.new.slot.map ≡ encoding.old.slot.map }
    ensures to_unicode { to_unicode.new.slot.map ≡ to_unicode.old.slot.map }
    ensures collection { collection.new.slot.map ≡ collection.old.slot.map }
    ensures characters { MatchOption encoding.old.slot.map
        ((result ≡ number Absent) × (characters.new ≡ characters.old) × (text.new ≡ text.old)
        × (extracted.new ≡ record { made = 0; taken = 0; used = 0 }))
        (λ layers. IsExtracted
        (font_given layers to_unicode.old.slot.map collection.old.slot.map)
        string.now characters.old characters.new text.old text.new extracted.new result) }
{
    *extracted = Extracted::none();
    let Some(layers) = encoding.layers() else {
        return Status::Absent.number();
    };
    let font = font(layers, to_unicode.layers(), collection.layers());
    extract(alloc, &font, string, characters, text, extracted)
}

/// The font with these maps.
fn font<'m>(
    encoding: &'m Layers,
    to_unicode: Option<&'m Layers>,
    collection: Option<&'m Layers>,
) -> Extractor<'m>
    ensures { font_of result
        ≡ font_given encoding.now (option_copied to_unicode.entry) (option_copied collection.entry) }
{
    Extractor {
        encoding,
        to_unicode,
        collection,
    }
}

impl Extracted {
    /// No progress.
    fn none() -> Extracted
        ensures { result ≡ record { made = 0; taken = 0; used = 0 } }
    {
        Extracted {
            made: 0,
            taken: 0,
            used: 0,
        }
    }
}

/// Cuts a string into codes, as many as the buffers can hold. Nothing has been extracted before the
/// call.
fn extract(
    alloc: Global,
    font: &Extractor<'_>,
    string: &[u8],
    characters: &mut [ExtractedCharacter],
    text: &mut [u8],
    extracted: &mut Extracted,
) -> u32
    requires { extracted.old ≡ record { made = 0; taken = 0; used = 0 } }
    ensures { IsExtracted (font_of font.now) string.now characters.old characters.new text.old text.new
        extracted.new result }
{
    while extracted.made < characters.len() {
        match next_code(
            alloc,
            font,
            &string[extracted.taken..],
            extracted.used,
            text,
        ) {
            Ok(next) => {
                characters[extracted.made] = next;
                extracted.made += 1;
                extracted.taken += usize::from(next.code.byte_len);
                extracted.used += next.text_len;
            }
            Err(end) => return end.number(),
        }
    }
    if extracted.taken == string.len() {
        Status::Done.number()
    } else {
        Status::NoRoom.number()
    }
}

/// The next code of a string, with its text at an offset of the buffer for texts.
fn next_code(
    alloc: Global,
    font: &Extractor<'_>,
    string: &[u8],
    start: usize,
    text: &mut [u8],
) -> Result<ExtractedCharacter, Status>
    requires { start ≤ length text.old }
    ensures { MatchResult result
        (IsMade (font_of font.now) string.now start text.old text.new)
        (λ end. (text.new ≡ text.old)
        × IsStop (font_of font.now) string.now (length text.old - start) end) }
{
    match font.next(alloc, string) {
        Ok(Some(found)) => {
            let mut buffer = [0; 4];
            let bytes = utf8_of(&found.text, &mut buffer);
            if put_at(bytes, start, text) {
                Ok(code_of(&found, start, bytes.len()))
            } else {
                Err(Status::NoRoom)
            }
        }
        Ok(None) => Err(Status::Done),
        Err(_) => Err(Status::NoMemory),
    }
}

/// The text in UTF-8; no bytes without a text. The buffer is for a text of one character.
#[tactic(auto, using(crate::proofs::TextsOfBytes::encode_one))]
fn utf8_of<'t>(text: &'t Option<BfString>, buffer: &'t mut [u8; 4]) -> &'t [u8]
    ensures { result.now ≡ bytes_of text.now }
{
    match text {
        Some(BfString::Char(c)) => c.encode_utf8(buffer).as_bytes(),
        Some(BfString::String(text)) => text.as_bytes(),
        None => &[],
    }
}

/// Writes bytes at an offset of the buffer, if they fit there. The result is whether they fit.
fn put_at(bytes: &[u8], start: usize, room: &mut [u8]) -> bool
    requires { start ≤ length room.old }
    ensures { MatchBool result (IsPutAt bytes.now start room.old room.new)
        ((room.new ≡ room.old) × (length room.old - start < length bytes.now)) }
{
    if bytes.len() > room.len() - start {
        return false;
    }
    room[start..start + bytes.len()].copy_from_slice(bytes);
    true
}

/// A code with its text, which has this number of bytes and begins at this offset.
fn code_of(found: &Character, start: usize, text_len: usize) -> ExtractedCharacter
    requires { text_len ≡ length (bytes_of found.now.text) }
    ensures { result ≡ character_seen start found.now }
{
    ExtractedCharacter {
        code: Code {
            code: found.code.code,
            cid: found.cid.unwrap_or(0),
            byte_len: found.code.byte_len,
            in_codespace: u8::from(found.code.in_codespace),
            has_cid: u8::from(found.cid.is_some()),
            cut_short: u8::from(found.code.cut_short),
        },
        has_text: u32::from(found.text.is_some()),
        text_start: start,
        text_len,
    }
}
