//! The codes of characters, by the glyphs that a map from Unicode gives the characters.

ghost use Rattle.std.specs.Prelude.{◌≡◌, ◌↔◌, ◌+◌, ◌<◌, ◌≤◌, ℕ, IfOk, IsTrue, OnOk, Some, option_and_then, option_map};
ghost use Rattle.cmap_tokens.specs.TextSeen.{text_seen};
ghost use Rattle.cmap_encode.specs.GatheredSeen.{AddsAllGlyphs, AddsGlyphs, IsOwnFormOf};
ghost use Rattle.cmap_encode.specs.GlyphsSeen.{AreOfCharacters, AreReadSo, glyph_after};
ghost use Rattle.cmap_encode.specs.Maps.{glyph_of_character, maps_seen, unicode_seen};
ghost use Rattle.cmap_encode.specs.RunsSeen.{AreRunsByPrefix};
ghost use Rattle.cmap_encode.specs.StandsFor.{HasGlyph, is_other, only_one};

use crate::code::Code;
use crate::forms::LAST_CHARACTER;
use crate::glyph_codes::GlyphCodes;
use crate::glyphs::{Glyphs, glyph_stretch};
use crate::maps::{Maps, Unicode};
use crate::rank::{Rank, Ranked};
use crate::runs_by_prefix::RunsByPrefix;
use crate::silent::silent_stretch;
use cmap_tokens::utf16::BfString;
use cmap_unicode::texts_in_row;
use cmap_values::names::Cid;
use std::alloc::{AllocError, Global};

/// Consecutive characters, with consecutive codes in the form of a map from Unicode and consecutive glyphs.
#[derive(Clone, Copy)]
pub(crate) struct GlyphRow {
    /// The code of the first character.
    pub(crate) code: Option<Code>,
    /// The glyph of the first character.
    pub(crate) cid: Option<Cid>,
    /// Whether the collection's map reads the glyph of each character as another character.
    pub(crate) reads_other: bool,
    /// The number of characters after the first.
    pub(crate) more: u32,
}

/// Adds the codes of characters by the map from Unicode, if there is one. Each character gets the first code of its
/// glyph, or the last code if the collection's map reads the glyph as another character. A character also gets its
/// code in the form of the map, if that code has the same glyph in the font.
pub(crate) fn add_characters(
    alloc: Global,
    texts: &mut RunsByPrefix,
    maps: &Maps<'_>,
    glyphs: &GlyphCodes,
) -> Result<(), AllocError>
    requires { AreRunsByPrefix texts.old }
    ensures are { OnOk result (AreRunsByPrefix texts.new) }
    ensures adds { OnOk result (AddsAllGlyphs (maps_seen maps.now) glyphs.now texts.old texts.new) }
{
    let Some(unicode) = &maps.unicode else {
        return Ok(());
    };
    let mut next = 0;
    while next <= LAST_CHARACTER {
        next = add_row(alloc, texts, maps, unicode, glyphs, next)?;
    }
    Ok(())
}

/// Adds the codes of characters from `first` on with consecutive codes and glyphs. The result is the character to
/// continue with.
fn add_row(
    alloc: Global,
    texts: &mut RunsByPrefix,
    maps: &Maps<'_>,
    unicode: &Unicode<'_>,
    glyphs: &GlyphCodes,
    first: u32,
) -> Result<u32, AllocError>
    requires are { AreRunsByPrefix texts.old }
    requires first { first ≤ LAST_CHARACTER }
    ensures more { IfOk result (λ next. (first < next) × (next ≤ LAST_CHARACTER + 1)) }
    ensures are { OnOk result (AreRunsByPrefix texts.new) }
    ensures adds { IfOk result (λ next. AddsGlyphs (maps_seen maps.now) (unicode_seen unicode.now)
        glyphs.now first next texts.old texts.new) }
{
    let row = read_back(alloc, maps, unicode, first, glyph_row(unicode, first))?;
    let Some(code) = row.code else {
        return Ok(first + row.more + 1);
    };
    let Some(cid) = row.cid else {
        return Ok(first + row.more + 1);
    };
    let own = glyphs.by_place(row.reads_other).stretch(cid);
    let silent = silent_stretch(alloc, maps, code)?;
    let more = row.more.min(own.last - cid).min(silent.last - code.number);
    texts.add_characters(alloc, first, canonical(own.first), more)?;
    texts.add_characters(alloc, first, own_form(code, silent.cid, cid), more)?;
    Ok(first + more + 1)
}

/// The code with the rank of codes that are chosen by their glyph.
fn canonical(own: Option<Ranked>) -> Option<Ranked>
    ensures { result ≡ option_map (λ ranked. record { code = ranked.code; rank = Rank.Canonical }) own }
{
    Some(Ranked {
        code: own?.code,
        rank: Rank::Canonical,
    })
}

/// The code of a character in the form of the map from Unicode, if the code is silent and has the glyph of the
/// character.
fn own_form(code: Code, silent: Option<Cid>, cid: Cid) -> Option<Ranked>
    ensures { IsOwnFormOf code silent cid result }
{
    if silent != Some(cid) {
        return None;
    }
    Some(Ranked {
        code,
        rank: Rank::OwnForm,
    })
}

/// The codes and the glyphs of characters from `first` on.
fn glyph_row(unicode: &Unicode<'_>, first: u32) -> GlyphRow
    requires { first ≤ LAST_CHARACTER }
    ensures { let from = unicode_seen unicode.now in
        AreOfCharacters from.form (λ c cid. glyph_of_character from c ≡ Some cid) first result }
{
    let row = unicode.form.row(first);
    let Some(code) = row.code else {
        return GlyphRow {
            code: None,
            cid: None,
            reads_other: false,
            more: row.last - first,
        };
    };
    let stretch = glyph_stretch(unicode.lower, unicode.all, code);
    GlyphRow {
        code: row.code,
        cid: glyph_of(stretch.glyphs),
        reads_other: false,
        more: (row.last - first).min(stretch.last - code.number),
    }
}

/// The first of the glyphs, if there are glyphs.
fn glyph_of(glyphs: Glyphs) -> Option<Cid>
    ensures { (k : ℕ) → option_map (λ cid. cid + k) result ≡ glyph_after glyphs k }
{
    match glyphs {
        Glyphs::CountOn(cid) => Some(cid),
        Glyphs::Undeclared | Glyphs::Missing => None,
    }
}

/// The characters of a row, as far as the collection's map reads all their glyphs as the characters themselves, as
/// other characters, or as neither. If only codes that read back count, characters that don't read back have no
/// glyphs.
fn read_back(
    alloc: Global,
    maps: &Maps<'_>,
    unicode: &Unicode<'_>,
    first: u32,
    row: GlyphRow,
) -> Result<GlyphRow, AllocError>
    requires { let from = unicode_seen unicode.now in
        AreOfCharacters from.form (λ c cid. glyph_of_character from c ≡ Some cid) first row }
    ensures of { let from = unicode_seen unicode.now in IfOk result
        (AreOfCharacters from.form (HasGlyph (maps_seen maps.now) from) first) }
    ensures others { IfOk result (AreReadSo (maps_seen maps.now) first) }
{
    let Some(cid) = row.cid else {
        return Ok(row);
    };
    let texts = texts_in_row(alloc, maps.font.collection, cid)?;
    let read = only_character(&texts.text);
    Ok(GlyphRow {
        code: row.code,
        cid: if counts(maps.exact, read, first) {
            row.cid
        } else {
            None
        },
        reads_other: is_other(first, read),
        more: row.more.min(texts.last - cid),
    })
}

/// Whether the glyph of a character counts if the collection's map reads the glyph as `read`. With `exact`, the map
/// has to read the glyph as the character.
fn counts(exact: bool, read: Option<u32>, character: u32) -> bool
    ensures { IsTrue result ↔ (IsTrue exact → read ≡ Some character) }
{
    !exact || read == Some(character)
}

/// Whether a glyph is read as a character other than this one.
fn is_other(character: u32, read: Option<u32>) -> bool
    ensures { result ≡ is_other character read }
{
    match read {
        Some(other) => other != character,
        None => false,
    }
}

/// The character of a text that is just one character.
fn only_character(text: &Option<BfString>) -> Option<u32>
    ensures { result ≡ option_and_then only_one (option_map text_seen text.now) }
{
    match text {
        Some(BfString::Char(only)) => Some(u32::from(*only)),
        _ => None,
    }
}
