//! The whole codes of a font in runs: by their texts, or by their glyphs.

ghost use Rattle.std.specs.Prelude.{◌≡◌, ◌+◌, ◌-◌, ◌<◌, ◌≤◌, ◌^◌, IfOk, OnOk, length};
ghost use Rattle.std.specs.Option.{option_copied};
ghost use Rattle.cmap_tokens.specs.TextSeen.{text_seen};
ghost use Rattle.cmap_unicode.specs.Characters.{characters_of};
ghost use Rattle.cmap_values.specs.CodeLengths.{length_of};
ghost use Rattle.cmap_encode.specs.GatheredSeen.{AreGathered, AreShown, HasNoTexts, HasTexts, HaveGlyphs};
ghost use Rattle.cmap_encode.specs.GlyphsSeen.{Fit};
ghost use Rattle.cmap_encode.specs.Maps.{maps_seen};

use crate::code::Code;
use crate::glyphs::{Glyphs, glyph_stretch};
use crate::key_codes::CodeRun;
use crate::maps::Maps;
use crate::rank::{Rank, Ranked};
use crate::runs_by_prefix::RunsByPrefix;
use crate::whole::whole_stretch;
use cmap_tokens::utf16::BfString;
use cmap_unicode::texts_in_row;
use cmap_values::code_length::CodeLength;
use std::alloc::{AllocError, Global};

/// The whole codes of a font that may stand for a text, in runs.
#[derive(Drop)]
pub(crate) struct Gathered {
    /// The codes by the texts that the ToUnicode CMap has for them.
    pub(crate) texts: RunsByPrefix,
    /// The codes by their glyphs, where the ToUnicode CMap has no text.
    pub(crate) cids: Vec<CodeRun>,
}

impl Gathered {
    /// All such codes of a font.
    pub(crate) fn build(alloc: Global, maps: &Maps<'_>) -> Result<Gathered, AllocError>
        ensures { IfOk result (AreGathered (maps_seen maps.now) 5 0) }
    {
        let mut gathered = Gathered {
            texts: RunsByPrefix::new(alloc)?,
            cids: Vec::new(alloc),
        };
        gathered.add_codes(alloc, maps, CodeLength::One)?;
        gathered.add_codes(alloc, maps, CodeLength::Two)?;
        gathered.add_codes(alloc, maps, CodeLength::Three)?;
        gathered.add_codes(alloc, maps, CodeLength::Four)?;
        Ok(gathered)
    }

    /// Adds the codes of a length.
    fn add_codes(
        &mut self,
        alloc: Global,
        maps: &Maps<'_>,
        len: CodeLength,
    ) -> Result<(), AllocError>
        requires { AreGathered (maps_seen maps.now) (length_of len) 0 self.old }
        ensures { OnOk result (AreGathered (maps_seen maps.now) (length_of len + 1) 0 self.new) }
    {
        let last = u64::from(len.last_code());
        let mut next: u64 = 0;
        while next <= last {
            let number = next as u32;
            next = self.add_from(alloc, maps, Code { number, len })?;
        }
        Ok(())
    }

    /// Adds a code and the codes after it whose texts or glyphs are consecutive, or passes over codes that aren't
    /// whole, that have neither a text nor a glyph, or that a notdef stands for. The result is the number of the code
    /// to continue with.
    fn add_from(&mut self, alloc: Global, maps: &Maps<'_>, code: Code) -> Result<u64, AllocError>
        requires before { AreGathered (maps_seen maps.now) (length_of code.len) code.number self.old }
        requires fits { code.number < 256 ^ length_of code.len }
        ensures more { IfOk result (λ next. code.number < next) }
        ensures are { IfOk result
            (λ next. AreGathered (maps_seen maps.now) (length_of code.len) next self.new) }
    {
        let row = texts_in_row(alloc, maps.font.to_unicode, code.number)?;
        let stretch = glyph_stretch(maps.lower, maps.font.encoding.as_slice(), code);
        let last = row.last.min(stretch.last);
        let Some(text) = &row.text else {
            return self.add_silent(alloc, maps, code, stretch.glyphs, last);
        };
        if let Glyphs::Missing = stretch.glyphs {
            return Ok(u64::from(stretch.last) + 1);
        }
        self.add_stated(alloc, maps, code, text, last)
    }

    /// Adds codes up to `last`, whose texts are consecutive from this text on, or passes over codes that aren't whole.
    /// The result is the number of the code to continue with.
    fn add_stated(
        &mut self,
        alloc: Global,
        maps: &Maps<'_>,
        code: Code,
        text: &BfString,
        last: u32,
    ) -> Result<u64, AllocError>
        requires before { AreGathered (maps_seen maps.now) (length_of code.len) code.number self.old }
        requires fits { code.number < 256 ^ length_of code.len }
        requires within { code.number ≤ last }
        requires some { 0 < length (characters_of (text_seen text.now)) }
        requires texts { HasTexts (option_copied maps.now.font.to_unicode) code.number last
            (text_seen text.now) }
        requires shown { AreShown (maps_seen maps.now) (length_of code.len) code.number last }
        ensures more { IfOk result (λ next. code.number < next) }
        ensures are { IfOk result
            (λ next. AreGathered (maps_seen maps.now) (length_of code.len) next self.new) }
    {
        let whole = whole_stretch(maps.font.encoding, code);
        if !whole.are_whole {
            return Ok(u64::from(whole.last) + 1);
        }
        let first = Ranked {
            code,
            rank: Rank::Stated,
        };
        let more = last.min(whole.last) - code.number;
        let further = self.texts.add_texts(alloc, text, first, more)?;
        Ok(u64::from(code.number) + u64::from(further) + 1)
    }

    /// Adds codes up to `last`, which have no texts by themselves and have these glyphs, or passes over codes without
    /// a glyph or that aren't whole. The result is the number of the code to continue with.
    fn add_silent(
        &mut self,
        alloc: Global,
        maps: &Maps<'_>,
        code: Code,
        glyphs: Glyphs,
        last: u32,
    ) -> Result<u64, AllocError>
        requires before { AreGathered (maps_seen maps.now) (length_of code.len) code.number self.old }
        requires fits { code.number < 256 ^ length_of code.len }
        requires within { code.number ≤ last }
        requires none { HasNoTexts (option_copied maps.now.font.to_unicode) code.number last }
        requires glyphs { HaveGlyphs (maps_seen maps.now) (length_of code.len) code.number last glyphs }
        requires fit { Fit glyphs (last - code.number) }
        ensures more { IfOk result (λ next. code.number < next) }
        ensures are { IfOk result
            (λ next. AreGathered (maps_seen maps.now) (length_of code.len) next self.new) }
    {
        let Glyphs::CountOn(cid) = glyphs else {
            return Ok(u64::from(last) + 1);
        };
        let whole = whole_stretch(maps.font.encoding, code);
        if !whole.are_whole {
            return Ok(u64::from(whole.last) + 1);
        }
        let first = Ranked {
            code,
            rank: Rank::Collection,
        };
        let last = last.min(whole.last);
        self.cids
            .push(CodeRun::from_key(cid, first, last - code.number))?;
        Ok(u64::from(last) + 1)
    }
}
