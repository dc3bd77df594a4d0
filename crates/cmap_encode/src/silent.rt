//! Consecutive codes that have no text by themselves, and consecutive glyphs.

ghost use Rattle.std.specs.Prelude.{◌≡◌, ◌↔◌, ◌^◌, ◌<◌, ℕ, IfOk, None, Some, true};
ghost use Rattle.cmap_values.specs.CodeLengths.{length_of};
ghost use Rattle.cmap_encode.specs.GlyphsSeen.{AreSilent};
ghost use Rattle.cmap_encode.specs.Maps.{maps_seen};

use crate::code::Code;
use crate::glyphs::{Glyphs, glyph_stretch};
use crate::maps::Maps;
use crate::whole::whole_stretch;
use cmap_tokens::utf16::BfString;
use cmap_unicode::texts_in_row;
use cmap_values::names::Cid;
use std::alloc::{AllocError, Global};

/// Consecutive codes that are all silent, or all not silent. A silent code is whole, has no text in the ToUnicode
/// CMap, and has a glyph.
#[derive(Clone, Copy)]
pub(crate) struct SilentStretch {
    /// The glyph of the first code, if the codes are silent. Their glyphs are consecutive.
    pub(crate) cid: Option<Cid>,
    /// The last of the codes.
    pub(crate) last: u32,
}

/// Whether a code is silent, with codes after it for which the same holds.
pub(crate) fn silent_stretch(
    alloc: Global,
    maps: &Maps<'_>,
    code: Code,
) -> Result<SilentStretch, AllocError>
    requires { code.number < 256 ^ length_of code.len }
    ensures { IfOk result (AreSilent (maps_seen maps.now) code) }
{
    let row = texts_in_row(alloc, maps.font.to_unicode, code.number)?;
    let stretch = glyph_stretch(maps.lower, maps.font.encoding.as_slice(), code);
    let whole = whole_stretch(maps.font.encoding, code);
    Ok(SilentStretch {
        cid: silent_cid(&row.text, whole.are_whole, stretch.glyphs),
        last: row.last.min(stretch.last).min(whole.last),
    })
}

/// The glyph of a code that has no text and is whole.
fn silent_cid(text: &Option<BfString>, is_whole: bool, glyphs: Glyphs) -> Option<Cid>
    ensures { (cid : ℕ) → (result ≡ Some cid)
        ↔ ((text.now ≡ None) × (is_whole ≡ true) × (glyphs ≡ Glyphs.CountOn cid)) }
{
    match glyphs {
        Glyphs::CountOn(cid) if is_whole && text.is_none() => Some(cid),
        _ => None,
    }
}
