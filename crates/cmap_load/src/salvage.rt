//! Files over the files that they use, read past their faults.

ghost use Rattle.std.specs.Prelude.{◌≡◌, ℕ, IfOk, List, OnOk, Option, map, true};
ghost use Rattle.cmap_binary.specs.BundleSeen.{tables_given};
ghost use Rattle.cmap_load.specs.Answers.{IsByName};
ghost use Rattle.cmap_load.specs.Results.{SalvagesLayers};
ghost use Rattle.cmap_load.specs.NameLists.{AreNumbered, texts_of};
ghost use Rattle.cmap_load.specs.SalvageLoads.{IsSalvaging, Salvages, is_settled};
ghost use Rattle.cmap_load.specs.SalvageSeen.{AreNamed, fault_named, faults_seen};

mod asker;
mod kept;
mod loader;
mod path;
mod reading;
mod walk;

use crate::faults::FoundFault;
use crate::from_source::refusal_of;
use crate::names::NameSlices;
use crate::refusal::Refusal;
use crate::salvage::loader::found_faults;
use crate::source::Source;
use cmap_binary::Bundle;
use cmap_layers::layers::Layers;
pub use loader::SalvageLoader;
use std::alloc::{AllocError, Global};

/// The layers of a file over the files that it uses, read past their faults, and these faults.
#[derive(Drop)]
pub struct SalvagedLayers<'a> {
    /// The layers, the layer of the file first.
    pub layers: Layers,
    /// The faults, in the order in which the files are first read. The faults of each file are
    /// listed once, in the order of their offsets, before the faults of the files that the file
    /// uses.
    pub faults: Vec<Refusal<'a>>,
}

/// The layers of the CMap file `data` over the files that it uses, read past their faults, and
/// these faults. If `read_layers` accepts the file, the layers are the same, and there is no fault.
/// If `read_layers` refuses the file, the first fault is the cause of the refusal, or in a text in
/// rows a fault before the cause.
///
/// A file is read past its faults, once, and its faults are listed once, however often the file is
/// used. A use without a file is a fault too, and so is a use that makes the chain too long; such a
/// use gives no layers. After a chain that is too long, no further file is opened, and the uses that
/// follow are passed over. A file that would exceed the budget isn't read, and gives an empty
/// layer.
///
/// It fails only if memory runs out.
pub fn salvaged_layers<'a, S: Source>(
    alloc: Global,
    budget: Option<u64>,
    data: &'a [u8],
    bundle: Option<&Bundle<'_>>,
    source: &'a S,
) -> Result<SalvagedLayers<'a>, AllocError>
    requires can_ask { S.can_ask source.now }
    requires by_name { IsByName (S.answers source.now) }
    ensures { IfOk result (λ found. SalvagesLayers (tables_given bundle.entry) (S.answers source.now) «data».now
        budget found.layers found.faults.items) }
{
    let mut load = SalvageLoader::<NameSlices<'a>>::new(alloc, budget, data, bundle)?;
    supply_all(&mut load, bundle, source)?;
    let faults = refusals(alloc, &load.files.load.list, found_faults(&load.progress))?;
    let layers = load.finish()?;
    Ok(SalvagedLayers { layers, faults })
}

/// Supplies a loader with each file that it wants.
fn supply_all<'a, S: Source>(
    load: &mut SalvageLoader<NameSlices<'a>>,
    bundle: Option<&Bundle<'_>>,
    source: &'a S,
) -> Result<(), AllocError>
    requires can_ask { S.can_ask source.now }
    requires loading { IsSalvaging texts_of AreNumbered load.old }
    ensures loading { OnOk result (IsSalvaging texts_of AreNumbered load.new) }
    ensures all { OnOk result (is_settled load.new ≡ true) }
    ensures loads { OnOk result ((budget : Option ℕ) (bytes : List ℕ)
        → Salvages texts_of (tables_given bundle.entry) budget (S.answers source.now) bytes load.old
        → Salvages texts_of (tables_given bundle.entry) budget (S.answers source.now) bytes load.new) }
{
    while load.wants()? {
        let bytes = source.file(load.name());
        load.supply(bytes, bundle)?;
    }
    Ok(())
}

/// These faults with the names themselves.
fn refusals<'a>(
    alloc: Global,
    list: &NameSlices<'a>,
    faults: &[FoundFault],
) -> Result<Vec<Refusal<'a>>, AllocError>
    requires { AreNamed (texts_of list.now) faults.now }
    ensures { IfOk result (λ refusals. faults_seen refusals.items
        ≡ map (fault_named (texts_of list.now)) faults.now) }
{
    let mut refusals = Vec::with_capacity(alloc, faults.len())?;
    for fault in faults {
        refusals.push(refusal_of(alloc, list, &fault.names, fault.cause)?)?;
    }
    Ok(refusals)
}
