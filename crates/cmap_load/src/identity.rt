//! The predefined CMaps Identity-H and Identity-V. ISO 32000-1, 9.7.5.2.

ghost use Rattle.std.specs.Prelude.{◌≡◌, [], ◌∷◌, IfOk, MatchOption, OnOk, codes};
ghost use Rattle.cmap_values.specs.DeclarationsSeen.{lists_seen};
ghost use Rattle.cmap_values.specs.Files as files;
ghost use Rattle.cmap_values.specs.ListsAppended.{no_lists};
ghost use Rattle.cmap_layers.specs.LayersSeen.{layers_seen, mode_seen};
ghost use Rattle.std.specs.Option.{option_copied};
ghost use Rattle.cmap_load.specs.Identity as identity;
ghost use Rattle.cmap_load.specs.Identity.{identity_layer};
ghost use Rattle.cmap_load.specs.Opened.{IsIdentity, IsNoIdentity};

use crate::chain::layer_over;
use cmap_layers::layer::Layer;
use cmap_layers::layers::Layers;
use cmap_values::character_collection::{CharacterCollection, CidFamily};
use cmap_values::code_length::CodeLength;
use cmap_values::declarations::{CidRange, Codespace, Lists};
use cmap_values::memory::{after, both};
use cmap_values::metadata::Metadata;
use cmap_values::range::Range;
use cmap_values::writing_mode::WritingMode;
use std::alloc::{AllocError, Global};

/// The names of the predefined identities.
const HORIZONTAL: &[u8] = b"Identity-H";

const VERTICAL: &[u8] = b"Identity-V";

/// Texts with the declarations of the predefined identities.
const HORIZONTAL_TEXT: &[u8] =
    b"/Registry (Adobe) /Ordering (Identity) /Supplement 0 /CMapName /Identity-H /WMode 0 begincodespacerange <0000> <FFFF> endcodespacerange begincidrange <0000> <FFFF> 0 endcidrange";

const VERTICAL_TEXT: &[u8] =
    b"/Registry (Adobe) /Ordering (Identity) /Supplement 0 /CMapName /Identity-V /WMode 1 begincodespacerange <0000> <FFFF> endcodespacerange begincidrange <0000> <FFFF> 0 endcidrange";

/// A text with the declarations of the predefined CMap of this name; `None` unless the name is
/// Identity-H or Identity-V.
pub fn identity_text(name: &[u8]) -> Option<&'static [u8]>
    ensures { option_copied result ≡ identity.identity_text name.now }
{
    if name == HORIZONTAL {
        Some(HORIZONTAL_TEXT)
    } else if name == VERTICAL {
        Some(VERTICAL_TEXT)
    } else {
        None
    }
}

/// The one layer of the predefined CMap Identity-H: codes of two bytes are CIDs.
pub fn identity_h(alloc: Global) -> Result<Layers, AllocError>
    ensures { IfOk result
        (λ layers. layers ≡ identity_layer (codes "Identity-H") files.horizontal ∷ []) }
{
    identity(alloc, HORIZONTAL, WritingMode::Horizontal)
}

/// The one layer of the predefined CMap Identity-V: codes of two bytes are CIDs, of vertical text.
pub fn identity_v(alloc: Global) -> Result<Layers, AllocError>
    ensures { IfOk result
        (λ layers. layers ≡ identity_layer (codes "Identity-V") files.vertical ∷ []) }
{
    identity(alloc, VERTICAL, WritingMode::Vertical)
}

/// The predefined identity of this name; `None` unless the name is Identity-H or Identity-V.
pub fn identity_named(alloc: Global, name: &[u8]) -> Result<Option<Layers>, AllocError>
    ensures { IfOk result
        (λ found. MatchOption found (IsNoIdentity name.now) (IsIdentity name.now)) }
{
    let mode = if name == HORIZONTAL {
        WritingMode::Horizontal
    } else if name == VERTICAL {
        WritingMode::Vertical
    } else {
        return Ok(None);
    };
    Ok(Some(identity(alloc, name, mode)?))
}

/// The one layer of an identity with this name and this writing mode.
fn identity(alloc: Global, name: &[u8], mode: WritingMode) -> Result<Layers, AllocError>
    ensures { IfOk result
        (λ layers. layers ≡ identity_layer name.now (mode_seen mode) ∷ []) }
{
    let layers = identity_list(alloc, name, mode)?;
    Ok(Layers::of(layers))
}

/// The one layer of an identity with this name and this writing mode, as a list.
fn identity_list(alloc: Global, name: &[u8], mode: WritingMode) -> Result<Vec<Layer>, AllocError>
    ensures { IfOk result (λ layers. layers_seen layers.items
        ≡ identity_layer name.now (mode_seen mode) ∷ []) }
{
    let (name, lists) = both(Vec::from_slice(alloc, name), two_byte_lists(alloc))?;
    let metadata = Metadata {
        character_collection: Some(CharacterCollection {
            family: CidFamily::AdobeIdentity,
            supplement: 0,
        }),
        name: Some(name),
        writing_mode: Some(mode),
    };
    layer_over(alloc, metadata, lists, Vec::new(alloc))
}

/// The declarations of an identity: a codespace range of two bytes, whose codes are CIDs.
fn two_byte_lists(alloc: Global) -> Result<Lists, AllocError>
    ensures { IfOk result (λ lists. lists_seen lists ≡ (identity_layer [] files.horizontal).lists) }
{
    let mut lists = Lists::new(alloc);
    let added = add_two_bytes(&mut lists);
    after(lists, added)
}

/// Adds the declarations of an identity.
fn add_two_bytes(lists: &mut Lists) -> Result<(), AllocError>
    requires { lists_seen lists.old ≡ no_lists }
    ensures { OnOk result
        (lists_seen lists.new ≡ (identity_layer [] files.horizontal).lists) }
{
    let (start, end) = (0, 0xFFFF);
    let len = CodeLength::Two;
    let range = Range { start, end };
    lists.add_cid(len, CidRange { range, cid: 0 })?;
    lists.add_codespace(Codespace {
        len,
        low: start,
        high: end,
    })
}
