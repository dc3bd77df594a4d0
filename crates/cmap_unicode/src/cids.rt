//! The CIDs that a map declares, without the texts.

ghost use Rattle.std.specs.Prelude.{◌≡◌, ◌≤◌, Option, option_map, IfSome};
ghost use Rattle.std.specs.Option.{option_copied};
ghost use Rattle.cmap_values.specs.CodeLengths.{length_of};
ghost use Rattle.cmap_values.specs.DeclarationsSeen.{cid_entry_seen, entries_seen};
ghost use Rattle.cmap_layers.specs.LayersSeen.{layer_seen, layers_seen};
ghost use Rattle.cmap_layers.specs.Lookups.{last_cid};
ghost use Rattle.cmap_unicode.specs.Cids.{declared_cid};
ghost use Rattle.cmap_unicode.specs.LayersTried.{declared_in};
ghost use Rattle.cmap_unicode.specs.Given.{AreDeclaredCids, Given, declared_decision};

use cmap_layers::layer::Layer;
use cmap_layers::layers::Layers;
use cmap_layers::stretches::{
    CidStretch, Deciding, LayerStretch, declared_stretch_in, first_stretch,
};
use cmap_runs::runs::{Looks, Table};
use cmap_values::code_length::CodeLength;
use cmap_values::declarations::CidRange;
use cmap_values::names::Cid;

/// The CID that a map declares for `code`, a code of `byte_len` bytes, big-endian: the answer of
/// `Layers::cid` if the map had no texts. A character of a text is no CID.
///
/// The result is `None` if no declaration of a CID or of a notdef contains the code, if `byte_len` isn't 1
/// to 4, and if the declared CID doesn't fit in 32 bits. Codespace ranges aren't looked at.
pub fn declared_cid(map: &Layers, code: u32, byte_len: u8) -> Option<Cid>
    ensures { result ≡ declared_cid map.now code byte_len }
{
    let len = CodeLength::of(byte_len)?;
    let layers = map.as_slice();
    for layer in layers {
        if let Some(declared) = declared_in(layer, code, len) {
            return declared;
        }
    }
    None
}

/// The decision of a layer for a code, if the layer declares anything for it: the CID of the code, or that
/// the code has no CID.
fn declared_in(layer: &Layer, code: u32, len: CodeLength) -> Option<Option<Cid>>
    ensures { result ≡ declared_in (layer_seen layer.now) code (length_of len) }
{
    if let Some(found) = find_cid(layer.cids(len), code) {
        return Some(found.cid.checked_add(code - found.range.start));
    }
    let found = find_cid(layer.notdefs(len), code)?;
    Some(Some(found.cid))
}

/// The last declaration that contains the code.
fn find_cid(cids: &Table<CidRange>, code: u32) -> Option<&CidRange>
    ensures found { option_map cid_entry_seen (option_copied result)
        ≡ last_cid (entries_seen cids.now) code }
    ensures start { IfSome result (λ found. found.now.range.start ≤ code) }
{
    cids.find(code, &mut Looks::new())
}

/// The CIDs that a map declares for codes of this length from `first` on, as `declared_cid` gives them. The
/// stretch ends before a code for which another declaration decides, or with the last CID. A caller who
/// goes on with the code after the last one gets the CIDs of all codes.
pub fn declared_stretch(map: &Layers, first: u32, len: CodeLength) -> CidStretch
    ensures { AreDeclaredCids map.now (length_of len) first result }
{
    stretch_of_layers(map.as_slice(), first, len)
}

/// The answer of `declared_stretch` for layers in a row, the top one first: all layers of a map, or some of
/// them.
pub fn stretch_of_layers(layers: &[Layer], first: u32, len: CodeLength) -> CidStretch
    ensures { AreDeclaredCids (layers_seen layers.now) (length_of len) first result }
{
    first_stretch::<Declared>(layers, first, len).decided()
}

/// The decisions of `declared_cid`.
struct Declared;

impl Deciding for Declared {
    ghost Answer = { Option Given };

    ghost decision = { declared_decision };

    fn stretch(layer: &Layer, first: u32, len: CodeLength) -> LayerStretch {
        declared_stretch_in(layer, first, len)
    }
}
