//! Maps of files, for C.

ghost use Rattle.std.specs.Prelude.{◌≡◌, ◌≢◌, ◌⊎◌, ◌≤◌, [], None, Some, IsSomeAnd, option_map};
ghost use Rattle.std.specs.Option.{option_copied};
ghost use Rattle.cmap_binary.specs.BundleSeen.{tables_given};
ghost use Rattle.cmap_binary.specs.Bundles.{IsBundle};
ghost use Rattle.cmap_values.specs.Only.{HoldsOfNone};
ghost use Rattle.cmap_c.specs.Endings.{Ends, EndsBy, EndsOver};
ghost use Rattle.cmap_c.specs.NamedFiles.{ExceedsBudgetOver, FitsBudgetOver, HasNoMapOver, IsMapOver, OfGiven, answers, budget_of, bundle_in};
ghost use Rattle.cmap_handles.specs.Statuses.{number};
ghost use Rattle.cmap_handles.specs.declared.status.Status.TheVariants.{Done, Refused, OverBudget, NotABundle};

use crate::fault::ending_of;
use crate::files::BaseFile;
use crate::keep::keep_read;
use cmap_binary::{Bundle, OwnedBundle};
use cmap_handles::bundle::BundleHandle;
use cmap_handles::handle::MapHandle;
use cmap_handles::status::Status;
use cmap_layers::layers::Layers;
use cmap_load::named_files::{BundleFiles, NamedFiles};
use cmap_load::read_layers;
use std::alloc::Global;

/// The map of the file `data`, over files by their names: the first of `files` with the name, else the bundle's file
/// with the name. Without bytes there is no bundle, and a `budget` of 2^64 - 1 stands for no budget. The map that the
/// handle held is freed.
#[unsafe(no_mangle)]
pub extern "C" fn hayro_cmap_parse<'a>(
    map: &mut MapHandle,
    alloc: Global,
    data: &[u8],
    bundle: &'a [u8],
    files: &[BaseFile<'a>],
    budget: u64,
) -> u32
    ensures accepts { result ≡ number Done → IsSomeAnd map.new.slot.map
        (λ layers. OfGiven bundle.now (λ given. IsMapOver given files.now «data».now layers)) }
    ensures refuses { result ≡ number Refused
        → OfGiven bundle.now (λ given. HasNoMapOver given files.now «data».now) }
    ensures over { result ≡ number OverBudget → OfGiven bundle.now
        (λ given. ExceedsBudgetOver given files.now «data».now (budget_of budget)) }
    ensures within { ((result ≡ number Done) ⊎ (result ≡ number Refused)) → OfGiven bundle.now
        (λ given. FitsBudgetOver given files.now «data».now (budget_of budget)) }
    ensures not_a_bundle { result ≡ number NotABundle
        → (bundle.now ≢ []) × HoldsOfNone (IsBundle bundle.now) }
    ensures failed { (result ≡ number Done)
        ⊎ ((result ≤ number NotABundle) × (map.new.slot.map ≡ None)) }
{
    map.clear(alloc);
    keep_read(map, alloc, parse(alloc, limit(budget), data, bundle, files))
}

/// The map of the file `data`, as `hayro_cmap_parse` gives it, over a bundle that is open already, or over no bundle
/// if the handle `bundle` is empty.
#[unsafe(no_mangle)]
pub extern "C" fn hayro_cmap_parse_over(
    map: &mut MapHandle,
    alloc: Global,
    data: &[u8],
    bundle: &mut BundleHandle,
    files: &[BaseFile<'_>],
    budget: u64,
) -> u32
    ensures same { bundle.new.slot.bundle ≡ bundle.old.slot.bundle }
    ensures accepts { result ≡ number Done → IsSomeAnd map.new.slot.map
        (IsMapOver bundle.old.slot.bundle files.now «data».now) }
    ensures refuses { result ≡ number Refused
        → HasNoMapOver bundle.old.slot.bundle files.now «data».now }
    ensures over { result ≡ number OverBudget
        → ExceedsBudgetOver bundle.old.slot.bundle files.now «data».now (budget_of budget) }
    ensures within { ((result ≡ number Done) ⊎ (result ≡ number Refused))
        → FitsBudgetOver bundle.old.slot.bundle files.now «data».now (budget_of budget) }
    ensures failed { (result ≡ number Done)
        ⊎ ((result ≤ number OverBudget) × (map.new.slot.map ≡ None)) }
{
    map.clear(alloc);
    let parsed = parse_owned(alloc, limit(budget), data, bundle.bundle(), files);
    keep_read(map, alloc, parsed)
}

/// The budget that a number stands for.
pub(crate) fn limit(budget: u64) -> Option<u64>
    ensures { result ≡ budget_of budget }
{
    if budget == u64::MAX {
        None
    } else {
        Some(budget)
    }
}

/// The map of a file over these files and the files of the bundle with these bytes. Without bytes, the map is over
/// these files alone.
fn parse<'a>(
    alloc: Global,
    budget: Option<u64>,
    data: &[u8],
    bundle: &'a [u8],
    files: &[BaseFile<'a>],
) -> Result<Layers, Status>
    ensures { Ends
        (λ layers. OfGiven bundle.now (λ given. IsMapOver given files.now «data».now layers))
        (OfGiven bundle.now (λ given. HasNoMapOver given files.now «data».now))
        (OfGiven bundle.now (λ given. FitsBudgetOver given files.now «data».now budget))
        (OfGiven bundle.now (λ given. ExceedsBudgetOver given files.now «data».now budget))
        ((bundle.now ≢ []) × HoldsOfNone (IsBundle bundle.now))
        ⊥ result }
{
    if bundle.is_empty() {
        return parse_owned(alloc, budget, data, None, files);
    }
    match Bundle::parse(alloc, bundle) {
        Ok(Some(bundle)) => { parse_from(alloc, budget, data, Some(&bundle), files, Some(&bundle)) }
        Ok(None) => Err(Status::NotABundle),
        Err(_) => Err(Status::NoMemory),
    }
}

/// The map of a file over these files and the files of a bundle, if there is a bundle.
fn parse_owned(
    alloc: Global,
    budget: Option<u64>,
    data: &[u8],
    bundle: Option<&OwnedBundle>,
    files: &[BaseFile<'_>],
) -> Result<Layers, Status>
    ensures { EndsOver (option_copied bundle.entry) files.now «data».now budget result }
{
    parse_from(alloc, budget, data, tables_of(bundle), files, bundle)
}

/// The tables of a bundle, as a bundle without files.
pub(crate) fn tables_of(bundle: Option<&OwnedBundle>) -> Option<&Bundle<'static>>
    ensures { tables_given result
        ≡ option_map (λ b. b.tables) (option_copied bundle.entry) }
{
    match bundle {
        Some(bundle) => Some(bundle.without_files()),
        None => None,
    }
}

/// The map of a file over these files and the files of a bundle, if there is a bundle. Binary files are read by the
/// `tables`.
fn parse_from<B: BundleFiles>(
    alloc: Global,
    budget: Option<u64>,
    data: &[u8],
    tables: Option<&Bundle<'_>>,
    files: &[BaseFile<'_>],
    bundle: Option<&B>,
) -> Result<Layers, Status>
    ensures { EndsBy (tables_given tables.entry)
        (answers (bundle_in B.bundle_of bundle.entry) files.now) «data».now budget result }
{
    let source = NamedFiles { files, bundle };
    match read_layers(alloc, budget, data, tables, &source) {
        Ok(layers) => Ok(layers),
        Err(fault) => Err(ending_of(fault)),
    }
}
