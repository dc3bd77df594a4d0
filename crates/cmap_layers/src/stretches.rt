//! The CIDs and the texts of codes in a row over all layers, by stretches of codes for which the same
//! declarations decide. The codes of a CID are found by these stretches.

ghost use Rattle.std.specs.Prelude.{◌≡◌, ◌⊎◌, ◌+◌, ◌-◌, ◌^◌, ◌<◌, ◌≤◌, ℕ, IfOk, IfSome, IsSomeAnd, Option, Some, map, option_map, unwrap_or};
ghost use Rattle.std.specs.Option.{option_copied};
ghost use Rattle.cmap_runs.specs.Stretches.{IsLongest, IsStretch};
ghost use Rattle.cmap_tokens.specs.Texts.{only_character, text_at};
ghost use Rattle.cmap_values.specs.CodeLengths.{length_of};
ghost use Rattle.cmap_values.specs.Files.{CidEntry, of_length};
ghost use Rattle.cmap_values.specs.DeclarationsSeen.{bf_entry_seen, cid_entry_seen};
ghost use Rattle.cmap_layers.specs.CodeStretches.{AreCodesAmong, AreCodesOfCid, AreDeclaredBy, Decides, DeclarationsEnd, EndsCids, EndsRow, Fits, IsCidStretch, IsLayerLongest, IsRowEnd, IsTextStretch, counted_on};
ghost use Rattle.cmap_values.specs.UnitsSeen.{units_seen};
ghost use Rattle.cmap_layers.specs.FirstDecided.{AreDecided, Decision, EndsInLayer, EndsInLayers, cid_decision, first_of};
ghost use Rattle.cmap_layers.specs.LayersDecide.{layer_cid};
ghost use Rattle.cmap_layers.specs.LayersSeen.{layer_seen, layers_seen};
ghost use Rattle.cmap_layers.specs.Lookups.{bf_at, bf_span, last_cid};
ghost use Rattle.cmap_layers.specs.RowsWritten.{character_said};
ghost use Rattle.cmap_layers.specs.declared.stretches.Cids.TheVariants.{Absent, Same};

use crate::code_ranges::add_range;
use crate::layer::Layer;
use crate::layers::Layers;
use crate::text_codes::CODE_COUNT;
use cmap_runs::runs::{Looks, Stretch, Table};
use cmap_tokens::utf16::one_char;
use cmap_values::code_length::CodeLength;
use cmap_values::declarations::{BfRange, CidRange};
use cmap_values::names::Cid;
use cmap_values::range::{HasRange, Range};
use std::alloc::{AllocError, Global};

/// The CIDs that codes in a row have.
#[derive(Clone, Copy, Debug, PartialEq, Eq)]
pub enum Cids {
    /// No code has a CID.
    Absent,
    /// All codes have this CID.
    Same(Cid),
    /// The first code has this CID, and each further code has the next CID.
    CountOn(Cid),
}

/// Codes in a row, with their CIDs.
#[derive(Clone, Copy, Debug)]
pub struct CidStretch {
    /// The CIDs of the codes.
    pub cids: Cids,
    /// The last of the codes.
    pub last: u32,
}

/// Codes in a row, with the declaration that decides their texts, the same for all of them.
#[derive(Clone, Copy, Debug)]
pub struct TextStretch<'l> {
    /// The declaration; without one no code has a text.
    pub declaration: Option<&'l BfRange>,
    /// The last of the codes.
    pub last: u32,
}

/// Codes in a row, and the decision of a layer by itself, or of layers, for each of them, if there is one.
#[derive(Clone, Copy, Debug)]
pub struct LayerStretch {
    /// The CIDs of the codes, if the layer decides.
    pub cids: Option<Cids>,
    /// The last of the codes.
    pub last: u32,
}

impl LayerStretch {
    /// The codes with their CIDs. Without a decision, no code has a CID.
    pub fn decided(self) -> CidStretch
        ensures { result ≡ record { cids = unwrap_or self.cids Absent; last = self.last } }
    {
        CidStretch {
            cids: self.cids.unwrap_or(Cids::Absent),
            last: self.last,
        }
    }
}

/// How a layer by itself decides for codes in a row.
pub trait Deciding {
    /// The decision for a code.
    ghost Answer: { Type 0 };

    ghost decision: { Decision Answer };

    /// The decision of a layer for codes from `first` on.
    fn stretch(layer: &Layer, first: u32, len: CodeLength) -> LayerStretch
        ensures decided { AreDecided decision
            (λ code. decision.decided (layer_seen layer.now) code (length_of len)) first result }
        ensures longest { EndsInLayer decision
            (layer_seen layer.now) (length_of len) first result };
}

/// The decisions of `Layers::cid`.
pub(crate) struct Answers;

impl Deciding for Answers {
    ghost Answer = { Option ℕ };

    ghost decision = { cid_decision };

    fn stretch(layer: &Layer, first: u32, len: CodeLength) -> LayerStretch {
        stretch_in(layer, first, len)
    }
}

/// The decision for codes from `first` on of the first layer that decides. The stretch ends before a code for
/// which another declaration decides, in a layer that is searched for `first`, or with the last CID.
pub fn first_stretch<D: Deciding>(layers: &[Layer], first: u32, len: CodeLength) -> LayerStretch
    ensures decided { AreDecided D.decision (λ code. first_of
        (λ layer. D.decision.decided layer code (length_of len)) (layers_seen layers.now))
        first result }
    ensures longest { EndsInLayers D.decision
        (layers_seen layers.now) (length_of len) first result }
{
    let mut last = u32::MAX;
    for layer in layers {
        let stretch = D::stretch(layer, first, len);
        last = last.min(stretch.last);
        if stretch.cids.is_some() {
            return LayerStretch { last, ..stretch };
        }
    }
    LayerStretch { cids: None, last }
}

impl Layers {
    /// The CIDs of codes of this length from `first` on, as `cid` gives them. The stretch ends before a
    /// code for which another declaration decides, in a list that is searched for `first`; with the last
    /// CID; or within a text that gives CIDs, since the characters of a text count on only within rows. A
    /// caller who goes on with the code after the last one gets the CIDs of all codes.
    pub fn cid_stretch(&self, first: u32, len: CodeLength) -> CidStretch
        ensures within { first ≤ result.last }
        ensures cids { IsCidStretch self.now (length_of len) first result }
    {
        first_stretch::<Answers>(self.as_slice(), first, len).decided()
    }

    /// The declaration, if there is one, that decides the texts of the codes from `first` on, as `text`
    /// gives them. The stretch ends before a code for which another declaration decides, in a layer that is
    /// searched for `first`.
    pub fn text_stretch(&self, first: u32) -> TextStretch<'_>
        ensures within { first ≤ result.last }
        ensures start { IfSome result.declaration
            (λ declaration. declaration.now.range.start ≤ first) }
        ensures texts { IsTextStretch self.now first result.last
            (option_map bf_entry_seen (option_copied result.declaration)) }
    {
        let layers = self.as_slice();
        let mut last = u32::MAX;
        for layer in layers {
            let stretch = layer.texts().stretch(first);
            last = last.min(stretch.last);
            if let Some(declaration) = stretch.declaration {
                return TextStretch {
                    declaration: Some(declaration),
                    last,
                };
            }
        }
        TextStretch {
            declaration: None,
            last,
        }
    }

    /// The codes that have the CID, as `cid` gives it for codes of this length: ranges in order, each as
    /// long as possible. A file may declare codes that are larger than this length allows; such codes are
    /// included.
    ///
    /// It fails only if memory runs out.
    pub fn codes_of_cid(
        &self,
        alloc: Global,
        cid: Cid,
        len: CodeLength,
    ) -> Result<Vec<Range>, AllocError>
        ensures { IfOk result (λ ranges. AreCodesOfCid self.now (length_of len) cid ranges.items) }
    {
        let mut ranges = Vec::new(alloc);
        let mut next = 0;
        while next < CODE_COUNT {
            let first = next as u32;
            let stretch = self.cid_stretch(first, len);
            if let Some(range) = codes_among(stretch.cids, cid, first, stretch.last) {
                add_range(&mut ranges, range)?;
            }
            next = u64::from(stretch.last) + 1;
        }
        Ok(ranges)
    }
}

/// The decision of a layer for codes from `first` on.
fn stretch_in(layer: &Layer, first: u32, len: CodeLength) -> LayerStretch
    ensures within { first ≤ result.last }
    ensures cids { Decides (λ code. layer_cid (layer_seen layer.now) code (length_of len))
        first result.last result.cids }
    ensures longest { IsLayerLongest (layer_seen layer.now)
        (length_of len) first result.last result.cids }
{
    let declared = declared_stretch_in(layer, first, len);
    if declared.cids.is_some() {
        return declared;
    }
    let characters = characters_in(layer.texts(), first);
    LayerStretch {
        cids: characters.cids,
        last: declared.last.min(characters.last),
    }
}

/// The CIDs that a layer declares for codes from `first` on, without the texts. The stretch ends before a code
/// for which another declaration decides, or with the last CID.
pub fn declared_stretch_in(layer: &Layer, first: u32, len: CodeLength) -> LayerStretch
    ensures within { first ≤ result.last }
    ensures cids { (code : ℕ) → first ≤ code → code ≤ result.last
        → AreDeclaredBy result.cids (code - first) code
        (last_cid (of_length (layer_seen layer.now).lists.cids (length_of len)) code)
        (last_cid (of_length (layer_seen layer.now).lists.notdefs (length_of len)) code) }
    ensures fit { IfSome result.cids (λ cids. Fits cids (result.last - first)) }
    ensures longest { result.last + 1 < 2 ^ 32
        → DeclarationsEnd (length_of len) first result.last (layer_seen layer.now)
        ⊎ IsSomeAnd result.cids (λ these. EndsCids these (result.last - first)) }
{
    let cids = layer.cids(len).stretch(first);
    if let Some(declaration) = cids.declaration {
        return declared_cids(declaration, first, cids.last);
    }
    let notdefs = layer.notdefs(len).stretch(first);
    LayerStretch {
        cids: same_cid(notdefs.declaration),
        last: cids.last.min(notdefs.last),
    }
}

/// The CID that the declaration of a notdef, if there is one, gives to all its codes.
fn same_cid(declaration: Option<&CidRange>) -> Option<Cids>
    ensures { result ≡ option_map (λ e. Same e.cid) (option_copied declaration.entry) }
{
    Some(Cids::Same(declaration?.cid))
}

/// The CIDs that a declaration gives to codes from `first` to `last`, which it contains. The stretch ends
/// with the last CID of 32 bits; codes past that CID have none.
fn declared_cids(declaration: &CidRange, first: u32, last: u32) -> LayerStretch
    requires start { declaration.now.range.start ≤ first }
    requires last { first ≤ last }
    ensures within { (first ≤ result.last) × (result.last ≤ last) }
    ensures cids { (code : ℕ) (notdef : Option CidEntry) → first ≤ code → code ≤ result.last
        → AreDeclaredBy result.cids (code - first) code
        (Some (cid_entry_seen declaration.now)) notdef }
    ensures fit { IfSome result.cids (λ cids. Fits cids (result.last - first)) }
    ensures ends { (result.last ≡ last)
        ⊎ IsSomeAnd result.cids (λ these. EndsCids these (result.last - first)) }
{
    match declaration.cid.checked_add(first - declaration.range.start) {
        Some(cid) => LayerStretch {
            cids: Some(Cids::CountOn(cid)),
            last: first + (last - first).min(u32::MAX - cid),
        },
        None => LayerStretch {
            cids: Some(Cids::Absent),
            last,
        },
    }
}

/// The characters of codes from `first` on whose texts are just one character.
fn characters_in(texts: &Table<BfRange>, first: u32) -> LayerStretch
    ensures within { first ≤ result.last }
    ensures cids { Decides (λ code. option_map Some
        (character_said (map bf_entry_seen texts.now) code))
        first result.last result.cids }
    ensures ends { IsLongest (map bf_span (map bf_entry_seen texts.now)) first result.last
        ⊎ EndsRow (map bf_entry_seen texts.now) result.last }
{
    let stretch = texts.stretch(first);
    match stretch.declaration {
        Some(declaration) => declared_characters(declaration, first, stretch.last),
        None => LayerStretch {
            cids: None,
            last: stretch.last,
        },
    }
}

/// The characters that a declaration gives to codes from `first` to `last`, which it contains. The stretch
/// goes on while the characters count on, or while no text is just one character.
fn declared_characters(declaration: &BfRange, first: u32, last: u32) -> LayerStretch
    requires start { declaration.now.range.start ≤ first }
    requires last { first ≤ last }
    ensures within { (first ≤ result.last) × (result.last ≤ last) }
    ensures cids { Decides (λ code. option_map Some
        (only_character (bf_at (bf_entry_seen declaration.now) code)))
        first result.last result.cids }
    ensures ends { (result.last ≡ last)
        ⊎ IsRowEnd (units_seen declaration.now.units) (result.last - declaration.now.range.start) }
{
    let units = declaration.units.as_slice();
    let offset = first - declaration.range.start;
    let cids = match one_char(units, offset) {
        Some(character) => Some(Cids::CountOn(u32::from(character))),
        None => None,
    };
    let more = further_texts(units, offset);
    LayerStretch {
        cids,
        last: first + (last - first).min(more),
    }
}

/// The number of further offsets whose texts count on from the text at this offset, or, if this offset gives
/// no text, the number of further offsets that give none either. Surrogates lie in rows of 1,024 units.
pub fn further_texts(units: &[u16], offset: u32) -> u32
    ensures count { (k : ℕ) → k ≤ result → text_at units.now (offset + k)
        ≡ option_map (λ cs. counted_on cs k) (text_at units.now offset) }
    ensures ends { (result ≡ 2 ^ 32 - 1) ⊎ IsRowEnd units.now (offset + result) }
{
    let Some(last) = units.last() else {
        return u32::MAX;
    };
    let unit = u64::from(*last) + u64::from(offset);
    if unit < 0x1_0000 {
        0x3FF - (unit % 0x400) as u32
    } else {
        u32::MAX
    }
}

/// The codes from `first` to `last` that have the CID `cid`, if the codes from `first` on have the CIDs
/// `cids`.
fn codes_among(cids: Cids, cid: Cid, first: u32, last: u32) -> Option<Range>
    requires { first ≤ last }
    ensures { AreCodesAmong cids cid first last result }
{
    match cids {
        Cids::Absent => None,
        Cids::Same(same) => (same == cid).then_some(Range {
            start: first,
            end: last,
        }),
        Cids::CountOn(begin) => {
            let offset = cid.checked_sub(begin)?;
            let code = first.checked_add(offset)?;
            (code <= last).then_some(Range {
                start: code,
                end: code,
            })
        }
    }
}
