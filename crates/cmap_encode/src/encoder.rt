//! Strings that show a text.

ghost use Rattle.std.specs.Prelude.{◌≡◌, ◌↔◌, ◌≤◌, None, IfOk, IsTrue, MatchOption, false, length};
ghost use Rattle.std.specs.Option.{option_copied};
ghost use Rattle.std.specs.Str.{chars};
ghost use Rattle.cmap_unicode.specs.Characters.{font_of};
ghost use Rattle.cmap_values.specs.Outcomes.{Outcome, RefusesWith};
ghost use Rattle.cmap_encode.specs.ChoicesSeen.{choices_of};
ghost use Rattle.cmap_encode.specs.EncoderSeen.{IsEncoderFor, IsEncoderOf};
ghost use Rattle.cmap_encode.specs.Encodings.{ArePiecesBy, ArePiecesOf, IsEncodingBy, IsEncodingOf, IsLossyEncodingBy, IsLossyEncodingOf, IsStuckAt, IsStuckBy};
ghost use Rattle.cmap_encode.specs.Maps as maps;
ghost use Rattle.cmap_encode.specs.Pieces.{IsEncodable};
ghost use Rattle.cmap_encode.specs.StringsOfCodes.{AreCodes};
ghost use Rattle.cmap_encode.specs.Prefixes.{IsLongestAdded};

use crate::choices::Choices;
use crate::codespaces::{are_codes, codespaces_of};
use crate::index::Index;
use crate::maps::Maps;
use crate::pieces::{Piece, pieces_of};
use crate::prefixes::{longest_prefix, stuck_at};
use crate::ways::{all_ways, string_of};
use cmap_layers::layers::Layers;
use cmap_unicode::Extractor;
use cmap_values::fault::Fault;
use std::alloc::{AllocError, Global};

/// Finds the strings of a font for texts. An encoder keeps no reference to the font.
#[derive(Drop)]
pub struct Encoder {
    choices: Choices,
    /// The codespace ranges of the font.
    codespaces: Layers,
}

/// A text that the codes of a font don't show.
#[derive(Clone, Copy, Debug, PartialEq, Eq)]
pub struct Unencodable {
    /// The offset in bytes where the longest prefix of the text that can be encoded ends.
    pub offset: usize,
}

impl Encoder {
    /// The encoder of a font. The encoder keeps one code for each text that a code of the font has.
    ///
    /// It fails only if memory runs out.
    pub fn build(alloc: Global, font: &Extractor<'_>) -> Result<Encoder, AllocError>
        ensures { IfOk result (IsEncoderFor (font_of font.now) None false) }
    {
        Encoder::build_with(alloc, font, None, false)
    }

    /// The encoder of a font, with the map from Unicode of its character collection, such as `UniJIS-UTF16-H`, which
    /// chooses the glyphs of characters. An `exact` encoder chooses only codes that are read as the piece for which
    /// they stand.
    ///
    /// It fails only if memory runs out.
    pub fn build_with(
        alloc: Global,
        font: &Extractor<'_>,
        unicode: Option<&Layers>,
        exact: bool,
    ) -> Result<Encoder, AllocError>
        ensures { IfOk result
            (IsEncoderFor (font_of font.now) (option_copied unicode.entry) exact) }
    {
        let index = Index::build(alloc, &Maps::of(font, unicode, exact))?;
        let choices = Choices { index, exact };
        let codespaces = codespaces_of(alloc, font.encoding)?;
        Ok(Encoder {
            choices,
            codespaces,
        })
    }

    /// The string of a text: the codes that stand for its pieces, one after another. The first piece is the first
    /// letter of the text, a character with the marks after it, if a code stands for the letter and the rest of the
    /// text can be encoded. Else the first piece has fewer characters than the letter, as many as possible, or else
    /// more characters, as many as possible. A text is refused only if no such pieces can be encoded.
    pub fn encode(&self, alloc: Global, text: &str) -> Result<Vec<u8>, Fault<Unencodable>>
        ensures { (maps : maps.Maps) → IsEncoderOf maps self.now → Outcome
            (λ string. IsEncodingOf maps (chars text.now) string.items)
            (λ refused. IsStuckAt maps (chars text.now) refused.offset) result }
    {
        self.encoded(alloc, text)
    }

    /// The pieces of a text, each with its grade. `encode` gives the codes of the pieces one after another, and
    /// refuses the same texts.
    pub fn pieces(&self, alloc: Global, text: &str) -> Result<Vec<Piece>, Fault<Unencodable>>
        ensures { (maps : maps.Maps) → IsEncoderOf maps self.now → Outcome
            (λ pieces. ArePiecesOf maps (chars text.now) pieces.items)
            (λ refused. IsStuckAt maps (chars text.now) refused.offset) result }
    {
        self.parted(alloc, text)
    }

    /// Whether a string consists of whole codes of the font, one after another, or is empty. Other bytes in a string
    /// may change how the bytes after them are read.
    pub fn are_codes(&self, string: &[u8]) -> bool
        ensures { (maps : maps.Maps) → IsEncoderOf maps self.now
            → IsTrue result ↔ AreCodes maps.font.encoding string.now }
    {
        are_codes(&self.codespaces, string)
    }

    /// The string of a text as far as the text can be encoded. The longest prefix that can be encoded is encoded as by
    /// `encode`, `missing` stands for the character after the prefix, and the rest of the text is encoded likewise.
    ///
    /// It fails only if memory runs out.
    pub fn encode_lossy(
        &self,
        alloc: Global,
        text: &str,
        missing: &[u8],
    ) -> Result<Vec<u8>, AllocError>
        ensures { (maps : maps.Maps) → IsEncoderOf maps self.now → IfOk result
            (λ string. IsLossyEncodingOf maps missing.now (chars text.now) string.items) }
    {
        self.encoded_lossy(alloc, text, missing)
    }

    /// The string of a text, by the choices for its pieces.
    fn encoded(&self, alloc: Global, text: &str) -> Result<Vec<u8>, Fault<Unencodable>>
        ensures { Outcome
            (λ string. IsEncodingBy (choices_of self.now.choices) (chars text.now) string.items)
            (λ refused. IsStuckBy (choices_of self.now.choices) (chars text.now) refused.offset) result }
    {
        let characters = characters_of(alloc, text)?;
        match self.encoding_of(alloc, &characters)? {
            Some(string) => Ok(string),
            None => Err(self.refusal(alloc, &characters)),
        }
    }

    /// The pieces of a text, by the choices for them.
    fn parted(&self, alloc: Global, text: &str) -> Result<Vec<Piece>, Fault<Unencodable>>
        ensures { Outcome
            (λ pieces. ArePiecesBy (choices_of self.now.choices) (chars text.now) pieces.items)
            (λ refused. IsStuckBy (choices_of self.now.choices) (chars text.now) refused.offset) result }
    {
        let characters = characters_of(alloc, text)?;
        let ways = all_ways(alloc, &self.choices, &characters)?;
        match pieces_of(alloc, &characters, &ways)? {
            Some(pieces) => Ok(pieces),
            None => Err(self.refusal(alloc, &characters)),
        }
    }

    /// The string of a text as far as the text falls into pieces, with `missing` for other characters.
    fn encoded_lossy(
        &self,
        alloc: Global,
        text: &str,
        missing: &[u8],
    ) -> Result<Vec<u8>, AllocError>
        ensures { IfOk result (λ string. IsLossyEncodingBy (choices_of self.now.choices) missing.now
            (chars text.now) string.items) }
    {
        let characters = characters_of(alloc, text)?;
        let mut string = Vec::new(alloc);
        let mut left = self.push_longest(alloc, &characters, &mut string)?;
        while let Some((_, after)) = left.split_first() {
            string.extend_from_slice(missing)?;
            left = self.push_longest(alloc, after, &mut string)?;
        }
        Ok(string)
    }

    /// Adds the encoding of the longest prefix of a text that falls into pieces. The result is the rest of the text.
    fn push_longest<'t>(
        &self,
        alloc: Global,
        text: &'t [char],
        string: &mut Vec<u8>,
    ) -> Result<&'t [char], AllocError>
        ensures fewer { IfOk result (λ left. length left.now ≤ length text.now) }
        ensures longest { IfOk result (λ left. IsLongestAdded (choices_of self.now.choices) text.now
            left.now string.old.items string.new.items) }
    {
        let count = longest_prefix(alloc, &self.choices, text)?;
        if let Some(prefix) = self.encoding_of(alloc, &text[..count])? {
            string.extend_from_slice(&prefix)?;
        }
        Ok(&text[count..])
    }

    /// The string of a text; `None` if the text doesn't fall into pieces.
    fn encoding_of(&self, alloc: Global, text: &[char]) -> Result<Option<Vec<u8>>, AllocError>
        ensures { IfOk result
            (λ found. MatchOption found (IsEncodable (choices_of self.now.choices) text.now → ⊥)
            (λ string. IsEncodingBy (choices_of self.now.choices) text.now string.items)) }
    {
        let ways = all_ways(alloc, &self.choices, text)?;
        string_of(alloc, &ways)
    }

    /// The refusal of a text that doesn't fall into pieces.
    fn refusal(&self, alloc: Global, text: &[char]) -> Fault<Unencodable>
        ensures { (IsEncodable (choices_of self.now.choices) text.now → ⊥)
            → RefusesWith (λ refused. IsStuckBy (choices_of self.now.choices) text.now refused.offset) result }
    {
        match stuck_at(alloc, &self.choices, text) {
            Ok(offset) => Fault::Refused(Unencodable { offset }),
            Err(AllocError) => Fault::Memory,
        }
    }
}

/// The characters of a text.
fn characters_of(alloc: Global, text: &str) -> Result<Vec<char>, AllocError>
    ensures { IfOk result (λ characters. characters.items ≡ chars text.now) }
{
    text.chars().collect(alloc)
}
