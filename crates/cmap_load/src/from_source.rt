//! A loader that is supplied from a `Source`.

ghost use Rattle.std.specs.Prelude.{◌≡◌, ℕ, IfOk, List, None, OnOk, Option, map};
ghost use Rattle.cmap_load.specs.Answers.{IsByName};
ghost use Rattle.cmap_load.specs.Results.{OpensLayers, ReadsLayers};
ghost use Rattle.cmap_load.specs.Loads.{IsLoading, Loads, wanted_of};
ghost use Rattle.cmap_load.specs.NameLists.{AreNumbered, texts_of};
ghost use Rattle.cmap_load.specs.Numbers.{AreWithin, text_at};
ghost use Rattle.cmap_binary.specs.BundleSeen.{tables_given};
ghost use Rattle.cmap_values.specs.NamesSeen.{names_seen};

use crate::identity::identity_named;
use crate::loader::Loader;
use crate::names::NameSlices;
use crate::refusal::{Cause, Refusal};
use crate::source::Source;
use cmap_binary::Bundle;
use cmap_layers::layers::Layers;
use cmap_values::fault::Fault;
use std::alloc::{AllocError, Global};

/// The layers of the CMap file `data`: its own layer first, then the layer of the file that it is
/// based on, and so on. A refusal contains the names that lead to the file at fault, and the cause.
/// The files that are opened have at most `budget` bytes together; `None` is no budget.
pub fn read_layers<'a, S: Source>(
    alloc: Global,
    budget: Option<u64>,
    data: &'a [u8],
    bundle: Option<&Bundle<'_>>,
    source: &'a S,
) -> Result<Layers, Fault<Refusal<'a>>>
    // A caller whose `Source` defines its answer to each name meets both premises.
    requires can_ask { S.can_ask source.now }
    requires by_name { IsByName (S.answers source.now) }
    ensures { ReadsLayers (tables_given bundle.entry) (S.answers source.now) «data».now budget result }
{
    let mut load = Loader::<NameSlices<'a>>::new(alloc, budget, data, bundle)?;
    supply_all(&mut load, bundle, source)?;
    match load.finish() {
        Ok(layers) => Ok(layers),
        Err(Fault::Refused(refused)) => {
            let names = refused.names.as_slice();
            let refusal = refusal_of(alloc, &refused.list, names, refused.cause)?;
            Err(Fault::Refused(refusal))
        }
        Err(Fault::Memory) => Err(Fault::Memory),
    }
}

/// The layers of the file that `source` answers to this name. The file is read as by `read_layers`,
/// so the first layer has the metadata of the file. If no file has the name, Identity-H and
/// Identity-V are built without a file, and any other name has no layers: `None`.
/// ISO 32000-1, 9.7.5.2.
pub fn open_layers<'a, S: Source>(
    alloc: Global,
    budget: Option<u64>,
    name: &[u8],
    bundle: Option<&Bundle<'_>>,
    source: &'a S,
) -> Result<Option<Layers>, Fault<Refusal<'a>>>
    requires can_ask { S.can_ask source.now }
    requires by_name { IsByName (S.answers source.now) }
    ensures { OpensLayers (tables_given bundle.entry) (S.answers source.now) name.now budget result }
{
    match source.file(name) {
        Some(data) => {
            match read_layers(alloc, budget, data, bundle, source) {
                Ok(layers) => Ok(Some(layers)),
                // In place of `?`, which is dearer to prove.
                Err(fault) => Err(fault),
            }
        }
        None => match identity_named(alloc, name) {
            Ok(identity) => Ok(identity),
            Err(AllocError) => Err(Fault::Memory),
        },
    }
}

/// Supplies a loader with each file that it wants.
fn supply_all<'a, S: Source>(
    load: &mut Loader<NameSlices<'a>>,
    bundle: Option<&Bundle<'_>>,
    source: &'a S,
) -> Result<(), AllocError>
    requires can_ask { S.can_ask source.now }
    requires loading { IsLoading texts_of AreNumbered load.old }
    ensures loading { OnOk result (IsLoading texts_of AreNumbered load.new) }
    ensures all { OnOk result (wanted_of texts_of load.new ≡ None) }
    ensures loads { OnOk result ((budget : Option ℕ) (bytes : List ℕ)
        → Loads texts_of (tables_given bundle.entry) budget (S.answers source.now) bytes load.old
        → Loads texts_of (tables_given bundle.entry) budget (S.answers source.now) bytes load.new) }
{
    while let Some(name) = load.wanted() {
        let bytes = source.file(name);
        load.supply(bytes, bundle)?;
    }
    Ok(())
}

/// A refusal with the names themselves.
pub(crate) fn refusal_of<'a>(
    alloc: Global,
    list: &NameSlices<'a>,
    numbers: &[usize],
    cause: Cause,
) -> Result<Refusal<'a>, AllocError>
    requires { AreWithin (texts_of list.now) numbers.now }
    ensures names { IfOk result (λ refusal. names_seen refusal.names.items
        ≡ map (text_at (texts_of list.now)) numbers.now) }
    ensures cause { IfOk result (λ refusal. refusal.cause ≡ cause) }
{
    let mut names = Vec::new(alloc);
    for number in numbers {
        names.push(list.texts[*number])?;
    }
    Ok(Refusal { names, cause })
}
