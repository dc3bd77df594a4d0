//! The codes of glyphs.

ghost use Rattle.std.specs.Prelude.{◌≡◌, All, IfOk};
ghost use Rattle.cmap_encode.specs.GlyphCodesSeen.{AreGlyphCodes, codes_by_place};
ghost use Rattle.cmap_encode.specs.KeyCodesSeen.{IsCodeRun};

use crate::key_codes::{CodeRun, KeyCodes};
use std::alloc::{AllocError, Global};

/// The codes of glyphs. Several codes may have the same glyph.
#[derive(Drop)]
pub(crate) struct GlyphCodes {
    /// The first code of each glyph.
    pub(crate) firsts: KeyCodes,
    /// The last code of each glyph.
    pub(crate) lasts: KeyCodes,
}

impl GlyphCodes {
    /// The codes that the runs give to glyphs.
    pub(crate) fn build(alloc: Global, runs: Vec<CodeRun>) -> Result<GlyphCodes, AllocError>
        requires { All IsCodeRun runs.items }
        ensures { IfOk result (AreGlyphCodes runs.items) }
    {
        let lasts = KeyCodes::last(alloc, Vec::from_slice(alloc, &runs)?)?;
        let firsts = KeyCodes::first(alloc, runs)?;
        Ok(GlyphCodes { firsts, lasts })
    }

    /// The last code of each glyph if `last` is set, else the first code.
    pub(crate) fn by_place(&self, last: bool) -> &KeyCodes
        ensures { result.now ≡ codes_by_place self.now last }
    {
        if last { &self.lasts } else { &self.firsts }
    }
}
