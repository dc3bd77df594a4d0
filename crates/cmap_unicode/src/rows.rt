//! Codes in a row, whose texts are the same or count on.

ghost use Rattle.std.specs.Prelude.{◌≡◌, ◌⊎◌, ◌+◌, ◌-◌, ◌<◌, ◌≤◌, ◌^◌, IfOk, true};
ghost use Rattle.std.specs.Option.{option_copied};
ghost use Rattle.cmap_values.specs.CodeLengths.{length_of};
ghost use Rattle.cmap_unicode.specs.Characters.{font_of};
ghost use Rattle.cmap_unicode.specs.TextsOfCodes.{text_in};
ghost use Rattle.cmap_unicode.specs.TextRows.{AreTexts, CountedEnd, IsLongestRow, IsLongestTextRow, IsTextRow, MapEnds, TextsCountOn, texts_of_cids};

use crate::cids::declared_stretch;
use crate::extractor::Extractor;
use cmap_layers::layers::Layers;
use cmap_layers::stretches::{CidStretch, Cids, further_texts};
use cmap_runs::runs::Looks;
use cmap_tokens::utf16::BfString;
use cmap_values::code_length::CodeLength;
use std::alloc::{AllocError, Global};

/// Codes in a row, all with texts, or all without.
#[derive(Debug, Drop)]
pub struct TextRow {
    /// The text of the first code.
    pub text: Option<BfString>,
    /// Whether the last character of the text counts on from code to code; if not, all codes have the same
    /// text.
    pub counts_on: bool,
    /// The last of the codes.
    pub last: u32,
}

impl Extractor<'_> {
    /// The texts of codes of this length from `first` on, as `character_of` gives them. A caller who goes on
    /// with the code after the last one gets the texts of all codes.
    ///
    /// It fails only if memory runs out.
    pub fn text_row(
        &self,
        alloc: Global,
        first: u32,
        len: CodeLength,
    ) -> Result<TextRow, AllocError>
        ensures texts { IfOk result (IsTextRow (font_of self.now) (length_of len) first) }
        ensures longest { IfOk result
            (λ row. IsLongestTextRow (font_of self.now) (length_of len) first row.last) }
    {
        let by_code = texts_in_row(alloc, self.to_unicode, first)?;
        if by_code.text.is_some() {
            return Ok(by_code);
        }
        let cids = declared_stretch(self.encoding, first, len);
        let mut by_cid = row_of_cids(alloc, self.collection, cids, first)?;
        by_cid.last = by_cid.last.min(by_code.last);
        Ok(by_cid)
    }
}

/// The texts that a map gives to codes from `first` on, by the codes' numbers alone. The texts count on from
/// code to code. The codes are character codes for a ToUnicode CMap, and CIDs for the map of a character
/// collection. An absent map gives no texts.
///
/// It fails only if memory runs out.
pub fn texts_in_row(alloc: Global, map: Option<&Layers>, first: u32) -> Result<TextRow, AllocError>
    ensures texts { IfOk result (AreTexts (text_in (option_copied map.entry)) first) }
    ensures counts { IfOk result (λ row. row.counts_on ≡ true) }
    ensures longest { IfOk result
        (λ row. IsLongestRow (option_copied map.entry) first row.last) }
{
    let Some(map) = map else {
        return Ok(TextRow {
            text: None,
            counts_on: true,
            last: u32::MAX,
        });
    };
    let text = map.text(alloc, first, &mut Looks::new())?;
    Ok(TextRow {
        text,
        counts_on: true,
        last: last_in_row(map, first),
    })
}

/// The texts of codes from `first` on, by their CIDs, in a collection's map.
fn row_of_cids(
    alloc: Global,
    collection: Option<&Layers>,
    stretch: CidStretch,
    first: u32,
) -> Result<TextRow, AllocError>
    requires { first ≤ stretch.last }
    ensures within { IfOk result (λ row. row.last ≤ stretch.last) }
    ensures texts { IfOk result (AreTexts
        (texts_of_cids (option_copied collection.entry) stretch.cids first) first) }
    ensures ends { IfOk result (λ row. (row.last ≡ stretch.last)
        ⊎ CountedEnd (option_copied collection.entry) stretch.cids (row.last - first)) }
{
    match stretch.cids {
        Cids::Absent => Ok(TextRow {
            text: None,
            counts_on: false,
            last: stretch.last,
        }),
        Cids::Same(cid) => {
            let text = texts_in_row(alloc, collection, cid)?.text;
            Ok(TextRow {
                text,
                counts_on: false,
                last: stretch.last,
            })
        }
        Cids::CountOn(cid) => {
            let mut row = texts_in_row(alloc, collection, cid)?;
            row.last = first + (stretch.last - first).min(row.last - cid);
            Ok(row)
        }
    }
}

/// The last code up to which the texts of a map count on from the text of `first`.
fn last_in_row(map: &Layers, first: u32) -> u32
    ensures within { first ≤ result }
    ensures texts { TextsCountOn map.now first result }
    ensures longest { result + 1 < 2 ^ 32 → MapEnds first result map.now }
{
    let stretch = map.text_stretch(first);
    match stretch.declaration {
        Some(declaration) => {
            let offset = first - declaration.range.start;
            let more = further_texts(declaration.units.as_slice(), offset);
            first + (stretch.last - first).min(more)
        }
        None => stretch.last,
    }
}
