//! The codes of a string, each with its CID and its text.

ghost use Rattle.std.specs.Prelude.{◌≡◌, ◌≤◌, ℕ, List, [], ◌++◌, Some, IfOk, IfSome, MatchOption, OnErr, OnOk, encode_utf8_all, length, option_map};
ghost use Rattle.std.specs.Option.{option_copied};
ghost use Rattle.std.specs.String.{string_bytes};
ghost use Rattle.cmap_tokens.specs.Texts.{more};
ghost use Rattle.cmap_tokens.specs.TextSeen.{text_seen};
ghost use Rattle.cmap_values.specs.CodeLengths.{IsCodeLength};
ghost use Rattle.cmap_unicode.specs.Characters.{AreCharactersOf, BeginsWithLongText, IsCharacterOf, IsNextCharacter, IsTextOfString, characters_of, font_of, shown};
ghost use Rattle.cmap_unicode.specs.TextsOfCodes.{HasLongText, text_in, text_of};

use crate::cids::declared_cid;
use cmap_layers::layers::Layers;
use cmap_layers::string_codes::StringCode;
use cmap_runs::runs::Looks;
use cmap_tokens::utf16::BfString;
use cmap_values::names::Cid;
use std::alloc::{AllocError, Global};

/// The CMaps of a font, by which its strings are read. ISO 32000-1, 9.7.5 and 9.10.2.
#[derive(Clone, Copy)]
pub struct Extractor<'m> {
    /// The font's CMap: it cuts strings into codes, and gives codes their CIDs.
    pub encoding: &'m Layers,
    /// The font's ToUnicode CMap, if it has one: it gives codes their texts.
    pub to_unicode: Option<&'m Layers>,
    /// The map of the font's character collection, if there is one, such as `Adobe-Japan1-UCS2`. The
    /// codes of this map are CIDs, and the map gives them texts. `ucs2_name` gives the name of the map.
    pub collection: Option<&'m Layers>,
}

/// A code of a string, with its CID and its text.
#[derive(Debug, Drop)]
pub struct Character {
    /// The code.
    pub code: StringCode,
    /// The CID that the font's CMap declares for the code.
    pub cid: Option<Cid>,
    /// The text of the code.
    pub text: Option<BfString>,
}

impl Extractor<'_> {
    /// The code that a string begins with, with its CID and its text; `None` if the string is empty.
    ///
    /// `next_code` of the font's CMap gives the code, and `character_of` the CID and the text.
    pub fn next(&self, alloc: Global, string: &[u8]) -> Result<Option<Character>, AllocError>
        ensures character { IfOk result
            (λ found. MatchOption found (string.now ≡ [])
            (IsNextCharacter (font_of self.now) string.now)) }
        ensures length { IfOk result (λ found. IfSome found (λ character.
            IsCodeLength character.code.byte_len × (character.code.byte_len ≤ length string.now))) }
        ensures err { OnErr result (BeginsWithLongText (font_of self.now) string.now) }
    {
        match self.encoding.next_code(string) {
            Some(code) => Ok(Some(self.character_of(alloc, code)?)),
            None => Ok(None),
        }
    }

    /// All codes of a string, one after another, each as `next` gives it.
    ///
    /// It fails only if memory runs out.
    pub fn characters(&self, alloc: Global, string: &[u8]) -> Result<Vec<Character>, AllocError>
        ensures { IfOk result
            (λ found. AreCharactersOf (font_of self.now) string.now found.items) }
    {
        let mut characters = Vec::new(alloc);
        let mut left = string;
        while let Some(character) = self.next(alloc, left)? {
            left = &left[usize::from(character.code.byte_len)..];
            characters.push(character)?;
        }
        Ok(characters)
    }

    /// The text of a whole string: the texts of its codes, as `next` gives them, one after another, and
    /// `missing` for each code that has none.
    ///
    /// It fails only if memory runs out.
    pub fn text(&self, alloc: Global, string: &[u8], missing: &str) -> Result<String, AllocError>
        ensures { IfOk result (λ text.
            IsTextOfString (font_of self.now) string.now missing.now (string_bytes text)) }
    {
        let characters = self.characters(alloc, string)?;
        let mut text = String::new(alloc);
        for character in &characters {
            push_text(&mut text, character, missing)?;
        }
        Ok(text)
    }

    /// A code with its CID and its text.
    ///
    /// The font's CMap declares the CID, as `declared_cid` gives it. The text comes from the ToUnicode
    /// CMap, if it has a text for the code, or else from the collection's map, by the CID. A code in no
    /// codespace range is looked up too.
    ///
    /// It fails only if memory runs out, and only for a text of more than one character.
    pub fn character_of(&self, alloc: Global, code: StringCode) -> Result<Character, AllocError>
        ensures character { IfOk result (IsCharacterOf (font_of self.now) code) }
        ensures err { OnErr result (HasLongText (font_of self.now) code.code code.byte_len) }
    {
        let cid = declared_cid(self.encoding, code.code, code.byte_len);
        let text = self.text_of(alloc, code.code, cid)?;
        Ok(Character { code, cid, text })
    }

    /// The text of a code with this CID.
    fn text_of(
        &self,
        alloc: Global,
        code: u32,
        cid: Option<Cid>,
    ) -> Result<Option<BfString>, AllocError>
        ensures value { IfOk result
            (λ text. option_map text_seen text ≡ text_of (font_of self.now) code cid) }
        ensures err { OnErr result ((characters : List ℕ)
            × (text_of (font_of self.now) code cid ≡ Some (more characters))) }
    {
        if let Some(text) = text_in(alloc, self.to_unicode, code)? {
            return Ok(Some(text));
        }
        match cid {
            Some(cid) => text_in(alloc, self.collection, cid),
            None => Ok(None),
        }
    }
}

/// Adds the text of a code, or `missing` if the code has no text.
fn push_text(text: &mut String, character: &Character, missing: &str) -> Result<(), AllocError>
    ensures { OnOk result (string_bytes text.new
        ≡ string_bytes text.old ++ shown missing.now character.now) }
{
    match &character.text {
        Some(more) => push_characters(text, more),
        None => text.push_str(missing),
    }
}

/// Adds the characters of a text.
fn push_characters(text: &mut String, more: &BfString) -> Result<(), AllocError>
    ensures { OnOk result (string_bytes text.new
        ≡ string_bytes text.old ++ encode_utf8_all (characters_of (text_seen more.now))) }
{
    match more {
        BfString::Char(only) => text.push(*only),
        BfString::String(more) => text.push_str(more.as_str()),
    }
}

/// The text of a code in a map, if there is one.
fn text_in(alloc: Global, map: Option<&Layers>, code: u32) -> Result<Option<BfString>, AllocError>
    ensures value { IfOk result
        (λ text. option_map text_seen text ≡ text_in (option_copied map.entry) code) }
    ensures err { OnErr result ((characters : List ℕ)
        × (text_in (option_copied map.entry) code ≡ Some (more characters))) }
{
    match map {
        Some(map) => map.text(alloc, code, &mut Looks::new()),
        None => Ok(None),
    }
}
