//! The CID and the text of a code: the first layer that decides gives them, from the top layer on.

ghost use Rattle.std.specs.Prelude.{◌≡◌, ◌*◌, ◌<◌, ◌≤◌, [], ◌∷◌, length, map, option_and_then, option_map, is_some, IfOk, IfSome, IsSomeAnd, OnErr};
ghost use Rattle.std.specs.Option.{option_copied};
ghost use Rattle.cmap_runs.specs.SearchLooks.{LooksAtMost};
ghost use Rattle.cmap_tokens.specs.Texts.{only_character, text_at, text_of_characters};
ghost use Rattle.cmap_tokens.specs.TextSeen.{text_seen};
ghost use Rattle.cmap_values.specs.CodeLengths.{length_of};
ghost use Rattle.cmap_values.specs.DeclarationsSeen.{bf_entry_seen, cid_entry_seen};
ghost use Rattle.cmap_values.specs.Files.{of_length};
ghost use Rattle.cmap_values.specs.UnitsSeen.{units_seen};
ghost use Rattle.cmap_layers.specs.LayersSeen.{by_length_seen, layer_seen, layers_seen};
ghost use Rattle.cmap_layers.specs.Lookups.{bf_at, bf_span, cid_at, cid_span, last_bf, last_cid};
ghost use Rattle.cmap_layers.specs.LayersDecide.{character_at, deciding_bf, layer_cid};
ghost use Rattle.cmap_layers.specs.Searches.{FindsCid, FindsOtherCid, FindsText, IsStrictCid, bf_looks, cid_looks, layer_looks, search_looks};

use crate::layer::Layer;
use crate::layers::Layers;
use cmap_runs::runs::{Looks, Table};
use cmap_tokens::utf16::{BfString, one_char, text};
use cmap_values::code_length::CodeLength;
use cmap_values::declarations::{BfRange, ByLength, CidRange};
use cmap_values::names::Cid;
use cmap_values::units::Units;
use std::alloc::{AllocError, Global};

impl Layers {
    /// The CID of a code of `byte_len` bytes, big-endian. The runs and declarations that are looked at
    /// are counted in `looks`.
    ///
    /// The result is `None` if no layer decides, if `byte_len` isn't 1 to 4, and if the declared CID
    /// doesn't fit in 32 bits. Codespace ranges aren't looked at. Adobe Technical Note 5014.
    #[inline(always)]
    pub fn cid(&self, code: u32, byte_len: u8, looks: &mut Looks) -> Option<Cid>
        ensures { FindsCid self.now code byte_len looks.old looks.new result }
    {
        let layers = self.as_slice();
        // Most maps have one layer, which is asked without a loop. The answer of a call is taken apart;
        // otherwise all answers would be put together and tested once more.
        let [only] = layers else {
            let cid = cid_in_turn(layers, code, byte_len, looks)?;
            return Some(cid);
        };
        // Most codes have two bytes. They need no jump by their length.
        if byte_len != 2 {
            let cid = cid_of_length(only, code, byte_len, looks)?;
            return Some(cid);
        }
        cid_in(only, code, CodeLength::Two, looks)
    }

    /// The answer of `cid` if the code lies in a codespace range of some layer, or else `None`.
    ///
    /// A code lies in a range of its own length if each byte of the code lies between the bytes of the
    /// range's two ends at the same place. A code that doesn't fit in its length lies in no range. ISO
    /// 32000-1, 9.7.6.2.
    pub fn strict_cid(&self, code: u32, byte_len: u8, looks: &mut Looks) -> Option<Cid>
        ensures value { IsStrictCid self.now code byte_len result }

        // The runs and declarations that are looked at have the same limits as for `cid`.
        ensures looks { LooksAtMost looks.old looks.new (cid_looks self.now byte_len)
            (3 * length self.now) (is_some result) }
    {
        let cid = self.cid(code, byte_len, looks)?;
        if self.in_codespace(code, byte_len) {
            Some(cid)
        } else {
            None
        }
    }

    /// The Unicode text of a code: one or more characters. The runs and declarations that are looked at
    /// are counted in `looks`.
    ///
    /// The result is `None` if no declaration contains the code, and if the deciding declaration gives
    /// no text: a layer's declaration decides even then. It fails only if memory runs out, and only for
    /// a text of more than one character. ISO 32000-1, 9.10.3.
    #[inline(always)]
    pub fn text(
        &self,
        alloc: Global,
        code: u32,
        looks: &mut Looks,
    ) -> Result<Option<BfString>, AllocError>
        ensures { FindsText self.now code looks.old looks.new result }
    {
        let Some(found) = find_bf(self.as_slice(), code, looks) else {
            return Ok(None);
        };
        text_of(alloc, found, code - found.range.start)
    }
}

/// The CID of a code of this length in a map of one layer.
#[inline(always)]
fn cid_in(layer: &Layer, code: u32, len: CodeLength, looks: &mut Looks) -> Option<Cid>
    ensures { FindsCid (layer_seen layer.now ∷ []) code (length_of len) looks.old looks.new result }
{
    decided_by(layer, code, len, looks)?
}

/// The CID of a code of `byte_len` bytes in a map of one layer.
#[inline(never)]
fn cid_of_length(layer: &Layer, code: u32, byte_len: u8, looks: &mut Looks) -> Option<Cid>
    ensures { FindsCid (layer_seen layer.now ∷ []) code byte_len looks.old looks.new result }
{
    cid_in(layer, code, CodeLength::of(byte_len)?, looks)
}

/// The CID of a code of `byte_len` bytes, by asking each layer in turn.
#[inline(never)]
fn cid_in_turn(layers: &[Layer], code: u32, byte_len: u8, looks: &mut Looks) -> Option<Cid>
    ensures { FindsCid (layers_seen layers.now) code byte_len looks.old looks.new result }
{
    let len = CodeLength::of(byte_len)?;
    for layer in layers {
        if let Some(decided) = decided_by(layer, code, len, looks) {
            return decided;
        }
    }
    None
}

/// The text of the code at this offset from the start of the declaration. Nearly every text is one
/// unit.
#[inline(always)]
fn text_of(alloc: Global, found: &BfRange, offset: u32) -> Result<Option<BfString>, AllocError>
    ensures value { IfOk result (λ text. option_map text_seen text
        ≡ option_map text_of_characters (text_at (units_seen found.now.units) offset)) }
    ensures err { OnErr result (IsSomeAnd (text_at (units_seen found.now.units) offset)
        (λ characters. 1 < length characters)) }
{
    if let Units::One(units) = &found.units {
        if let Some(character) = one_char(units, offset) {
            return Ok(Some(BfString::Char(character)));
        }
    }
    longer_text(alloc, &found.units, offset)
}

/// The text of the code at this offset from the start of a declaration with these units, by a call,
/// so that a text of one unit needs neither a jump by their number nor memory for a result.
#[cold]
#[inline(never)]
fn longer_text(alloc: Global, units: &Units, offset: u32) -> Result<Option<BfString>, AllocError>
    ensures value { IfOk result (λ text. option_map text_seen text
        ≡ option_map text_of_characters (text_at (units_seen units.now) offset)) }
    ensures err { OnErr result (IsSomeAnd (text_at (units_seen units.now) offset)
        (λ characters. 1 < length characters)) }
{
    text(alloc, units.as_slice(), offset)
}

/// The declaration that decides the text of a code.
#[inline(always)]
fn find_bf<'l>(layers: &'l [Layer], code: u32, looks: &mut Looks) -> Option<&'l BfRange>
    ensures found { option_map bf_entry_seen (option_copied result)
        ≡ deciding_bf (layers_seen layers.now) code }
    ensures start { IfSome result (λ found. found.now.range.start ≤ code) }
    ensures looks { LooksAtMost looks.old looks.new (bf_looks (layers_seen layers.now))
        (length (layers_seen layers.now)) (is_some result) }
{
    match layers {
        // Most maps have one layer, which is asked without a loop.
        [only] => last_bf(only.others.bfs(), code, looks),
        _ => find_bf_in_turn(layers, code, looks),
    }
}

/// The answer of `find_bf`, by asking each layer in turn.
#[cold]
#[inline(never)]
fn find_bf_in_turn<'l>(layers: &'l [Layer], code: u32, looks: &mut Looks) -> Option<&'l BfRange>
    ensures found { option_map bf_entry_seen (option_copied result)
        ≡ deciding_bf (layers_seen layers.now) code }
    ensures start { IfSome result (λ found. found.now.range.start ≤ code) }
    ensures looks { LooksAtMost looks.old looks.new (bf_looks (layers_seen layers.now))
        (length (layers_seen layers.now)) (is_some result) }
{
    for layer in layers {
        if let Some(found) = last_bf(layer.others.bfs(), code, looks) {
            return Some(found);
        }
    }
    None
}

/// The last declaration of a text that contains the code.
#[inline(always)]
fn last_bf<'t>(table: &'t Table<BfRange>, code: u32, looks: &mut Looks) -> Option<&'t BfRange>
    ensures found { option_map bf_entry_seen (option_copied result)
        ≡ last_bf (map bf_entry_seen table.now) code }
    ensures start { IfSome result (λ found. found.now.range.start ≤ code) }
    ensures looks { LooksAtMost looks.old looks.new
        (search_looks (map bf_span (map bf_entry_seen table.now))) 1 (is_some result) }
{
    table.find(code, looks)
}

/// The decision of a layer for a code, if there is one: the CID of the code, or that the code has no
/// CID.
#[inline(always)]
fn decided_by(layer: &Layer, code: u32, len: CodeLength, looks: &mut Looks) -> Option<Option<Cid>>
    ensures value { result ≡ layer_cid (layer_seen layer.now) code (length_of len) }
    ensures looks { LooksAtMost looks.old looks.new
        (layer_looks (layer_seen layer.now) (length_of len)) 3 (is_some result) }
{
    let cids = table_of(&layer.cids, len);
    if let Some(found) = find_cid(cids, code, looks) {
        return Some(counted_cid(found, code));
    }
    if layer.others.end_before(code) {
        return None;
    }
    let notdefs = table_of(layer.others.notdefs(), len);
    let cid = other_cid(notdefs, layer.others.bfs(), code, looks)?;
    Some(Some(cid))
}

/// The CID of a code that a declaration contains; `None` if the CID doesn't fit in 32 bits.
#[inline(always)]
fn counted_cid(declaration: &CidRange, code: u32) -> Option<Cid>
    requires { declaration.now.range.start ≤ code }
    ensures { result ≡ cid_at (cid_entry_seen declaration.now) code }
{
    let (first, offset) = (declaration.cid, code - declaration.range.start);
    u32::try_from(u64::from(first) + u64::from(offset)).ok()
}

/// The CID of a code without a CID declaration: the CID of a notdef, or else the character of the
/// code's text. This function is called rather than inlined, so that the search of the CIDs has all
/// registers.
#[inline(never)]
fn other_cid(
    notdefs: &Table<CidRange>,
    bfs: &Table<BfRange>,
    code: u32,
    looks: &mut Looks,
) -> Option<Cid>
    ensures { FindsOtherCid (map cid_entry_seen notdefs.now) (map bf_entry_seen bfs.now) code
        looks.old looks.new result }
{
    match find_cid(notdefs, code, looks) {
        Some(found) => Some(found.cid),
        None => character_of(bfs, code, looks),
    }
}

/// The text of a code, if it is one character.
#[inline(always)]
fn character_of(table: &Table<BfRange>, code: u32, looks: &mut Looks) -> Option<Cid>
    ensures value { result ≡ character_at (map bf_entry_seen table.now) code }
    ensures looks { LooksAtMost looks.old looks.new
        (search_looks (map bf_span (map bf_entry_seen table.now))) 1 (is_some result) }
{
    let found = last_bf(table, code, looks)?;
    let character = one_char(found.units.as_slice(), code - found.range.start)?;
    Some(u32::from(character))
}

/// The table of the codes of this length.
fn table_of(tables: &ByLength<Table<CidRange>>, len: CodeLength) -> &Table<CidRange>
    ensures { map cid_entry_seen result.now
        ≡ of_length (by_length_seen tables.now) (length_of len) }
{
    tables.get(len)
}

/// The last declaration of a CID that contains the code.
#[inline(always)]
fn find_cid<'t>(cids: &'t Table<CidRange>, code: u32, looks: &mut Looks) -> Option<&'t CidRange>
    ensures found { option_map cid_entry_seen (option_copied result)
        ≡ last_cid (map cid_entry_seen cids.now) code }
    ensures start { IfSome result (λ found. found.now.range.start ≤ code) }
    ensures looks { LooksAtMost looks.old looks.new
        (search_looks (map cid_span (map cid_entry_seen cids.now))) 1 (is_some result) }
{
    cids.find(code, looks)
}
