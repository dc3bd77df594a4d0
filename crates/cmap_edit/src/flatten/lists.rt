//! The declarations of one file for the chosen codes.

ghost use Rattle.std.specs.Prelude.{◌≡◌, IfOk, map};
ghost use Rattle.cmap_values.specs.CodeLengths.{length_of};
ghost use Rattle.cmap_values.specs.DeclarationsSeen.{codespace_seen, lists_seen};
ghost use Rattle.cmap_layers.specs.StringCodes.{ranges_of};
ghost use Rattle.cmap_edit.specs.Parts.{AreEachOnce, AreLists};

use crate::flatten::cids::declared_of;
use crate::flatten::codes::Codes;
use crate::flatten::texts::texts_of;
use cmap_layers::layers::Layers;
use cmap_values::code_length::CodeLength;
use cmap_values::declarations::{ByLength, Codespace, Lists};
use std::alloc::{AllocError, Global};

/// The declarations of one file: the declarations of all layers for the chosen codes as one, and
/// all codespace ranges.
pub(crate) fn lists_of(alloc: Global, layers: &Layers, codes: &[Codes]) -> Result<Lists, AllocError>
    ensures { IfOk result (λ lists. AreLists layers.now codes.now (lists_seen lists)) }
{
    let one = declared_of(alloc, layers, codes, CodeLength::One)?;
    let two = declared_of(alloc, layers, codes, CodeLength::Two)?;
    let three = declared_of(alloc, layers, codes, CodeLength::Three)?;
    let four = declared_of(alloc, layers, codes, CodeLength::Four)?;
    let bfs = texts_of(alloc, layers, codes)?;
    let spaces = spaces_of(alloc, layers)?;
    let cids = ByLength {
        one: one.cids,
        two: two.cids,
        three: three.cids,
        four: four.cids,
    };
    let notdefs = ByLength {
        one: one.notdefs,
        two: two.notdefs,
        three: three.notdefs,
        four: four.notdefs,
    };
    Ok(Lists {
        cids,
        notdefs,
        bfs,
        spaces,
    })
}

/// The codespace ranges of all layers, each once, in ascending order of their number of bytes.
fn spaces_of(alloc: Global, layers: &Layers) -> Result<Vec<Codespace>, AllocError>
    ensures { IfOk result (λ spaces.
        AreEachOnce (ranges_of layers.now) (map codespace_seen spaces.items)) }
{
    let mut spaces = all_spaces(alloc, layers)?;
    spaces.sort_unstable_by_key(|space| order_of(space));
    spaces.dedup_by_key(|space| order_of(space));
    Ok(spaces)
}

/// The key by which codespace ranges are sorted.
fn order_of(space: &Codespace) -> (u8, u32, u32)
    ensures { result ≡ (length_of space.now.len, space.now.low, space.now.high) }
{
    (space.len.count(), space.low, space.high)
}

/// The codespace ranges of all layers.
fn all_spaces(alloc: Global, layers: &Layers) -> Result<Vec<Codespace>, AllocError>
    ensures { IfOk result (λ spaces. map codespace_seen spaces.items ≡ ranges_of layers.now) }
{
    let mut spaces = Vec::new(alloc);
    let layers = layers.as_slice();
    for layer in layers {
        spaces.extend_from_slice(layer.codespaces())?;
    }
    Ok(spaces)
}
