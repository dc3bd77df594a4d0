//! One file with the answers of a map.

ghost use Rattle.std.specs.Prelude.{IfErr, IfOk};
ghost use Rattle.cmap_values.specs.Only.{HoldsOfNone};
ghost use Rattle.cmap_values.specs.FilesSeen.{file_seen};
ghost use Rattle.cmap_values.specs.Outcomes.{Outcome, RefusesWith};
ghost use Rattle.cmap_edit.specs.Parts.{IsFileOf};
ghost use Rattle.cmap_edit.specs.Subsets.{Contradicts, IsContradiction, IsFlat, IsSubset};

use crate::flatten::answers::{Contradiction, find_contradiction};
use crate::flatten::codes::{Codes, all_codes};
use crate::flatten::lists::lists_of;
use cmap_layers::layers::Layers;
use cmap_values::fault::Fault;
use cmap_values::file::File;
use std::alloc::{AllocError, Global};

/// One file with the answers of a map: the CID and the text of each code, and the way in which strings are
/// cut into codes. The metadata is the metadata of the top layer. Adobe Technical Note 5014.
///
/// The lists of declarations are tidy: they ascend, each declaration has codes of one row of 256, and no
/// two declarations could be one. So one declaration of many codes may become many declarations, up to
/// 2^24.
///
/// The map is refused with a code that has a contradiction, and only where no file has all answers: one
/// file gives the character of a text as a CID only where the file declares no CID. Otherwise the function
/// fails only if memory runs out.
pub fn flatten<'d>(alloc: Global, layers: &Layers) -> Result<File<'d>, Fault<Contradiction>>
    ensures file { Outcome
        (λ file. IsFlat layers.now (file_seen file)) (Contradicts layers.now) result }
    ensures none { IfErr result (RefusesWith (λ at. HoldsOfNone (IsFlat layers.now))) }
{
    subset(alloc, layers, &all_codes())
}

/// One file with the answers of a map for the chosen codes, and with no others: a CID for each chosen code,
/// by its length and its number, and a text for each number of a chosen code. Strings are cut into codes as
/// the map cuts them, since all codespace ranges stay.
///
/// The ranges come in any order, and may overlap. The file has the form that `flatten` gives. The map is
/// refused with a chosen code that has a contradiction. Otherwise the function fails only if memory runs
/// out.
pub fn subset<'d>(
    alloc: Global,
    layers: &Layers,
    codes: &[Codes],
) -> Result<File<'d>, Fault<Contradiction>>
    ensures file { Outcome (λ file. IsSubset layers.now codes.now (file_seen file))
        (IsContradiction layers.now codes.now) result }
    ensures none { IfErr result (RefusesWith (λ at. HoldsOfNone (IsSubset layers.now codes.now))) }
{
    if let Some(contradiction) = find_contradiction(alloc, layers, codes)? {
        return Err(Fault::Refused(contradiction));
    }
    let file = file_of(alloc, layers, codes)?;
    Ok(file)
}

/// The file with the declarations for the chosen codes.
fn file_of<'d>(alloc: Global, layers: &Layers, codes: &[Codes]) -> Result<File<'d>, AllocError>
    ensures { IfOk result (λ file. IsFileOf layers.now codes.now (file_seen file)) }
{
    let metadata = layers.metadata().clone(alloc)?;
    let lists = lists_of(alloc, layers, codes)?;
    Ok(File {
        metadata,
        lists,
        uses: Vec::new(alloc),
    })
}
