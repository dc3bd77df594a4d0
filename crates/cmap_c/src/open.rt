//! Maps of files that are opened by their names, for C.

ghost use Rattle.std.specs.Prelude.{◌≡◌, ◌⊎◌, ◌≤◌, None, IsSomeAnd};
ghost use Rattle.std.specs.Option.{option_copied};
ghost use Rattle.cmap_c.specs.Endings.{EndsNamed};
ghost use Rattle.cmap_c.specs.NamedFiles.{budget_of};
ghost use Rattle.cmap_c.specs.Opened.{ExceedsBudgetNamed, FitsBudgetNamed, HasNoMapNamed, IsMapNamed, IsUnknownOver};
ghost use Rattle.cmap_handles.specs.Statuses.{number};
ghost use Rattle.cmap_handles.specs.declared.status.Status.TheVariants.{Done, Refused, OverBudget, Absent};

use crate::fault::ending_of;
use crate::files::BaseFile;
use crate::keep::keep_read;
use crate::parse::{limit, tables_of};
use cmap_binary::OwnedBundle;
use cmap_handles::bundle::BundleHandle;
use cmap_handles::handle::MapHandle;
use cmap_handles::status::Status;
use cmap_layers::layers::Layers;
use cmap_load::named_files::NamedFiles;
use cmap_load::open_layers;
use std::alloc::Global;

/// The map of the file of this name: the first of `files` with the name, else the bundle's file with the name. If
/// neither has a file, Identity-H and Identity-V are made. A `budget` of 2^64 - 1 stands for no budget. The map that
/// the handle held is freed.
#[unsafe(no_mangle)]
pub extern "C" fn hayro_cmap_open(
    map: &mut MapHandle,
    alloc: Global,
    name: &[u8],
    bundle: &mut BundleHandle,
    files: &[BaseFile<'_>],
    budget: u64,
) -> u32
    ensures same { bundle.new.slot.bundle ≡ bundle.old.slot.bundle }
    ensures accepts { result ≡ number Done → IsSomeAnd map.new.slot.map
        (IsMapNamed bundle.old.slot.bundle files.now name.now) }
    ensures absent { result ≡ number Absent
        → IsUnknownOver bundle.old.slot.bundle files.now name.now }
    ensures refuses { result ≡ number Refused
        → HasNoMapNamed bundle.old.slot.bundle files.now name.now }
    ensures over { result ≡ number OverBudget
        → ExceedsBudgetNamed bundle.old.slot.bundle files.now name.now (budget_of budget) }
    ensures within { ((result ≡ number Done) ⊎ (result ≡ number Refused))
        → FitsBudgetNamed bundle.old.slot.bundle files.now name.now (budget_of budget) }
    ensures failed { (result ≡ number Done)
        ⊎ (((result ≤ number OverBudget) ⊎ (result ≡ number Absent)) × (map.new.slot.map ≡ None)) }
{
    map.clear(alloc);
    let opened = open_owned(alloc, limit(budget), name, bundle.bundle(), files);
    keep_read(map, alloc, opened)
}

/// The map of the file of this name, over these files and the files of a bundle, if there is a bundle.
fn open_owned(
    alloc: Global,
    budget: Option<u64>,
    name: &[u8],
    bundle: Option<&OwnedBundle>,
    files: &[BaseFile<'_>],
) -> Result<Layers, Status>
    ensures { EndsNamed (option_copied bundle.entry) files.now name.now budget result }
{
    let source = NamedFiles { files, bundle };
    match open_layers(alloc, budget, name, tables_of(bundle), &source) {
        Ok(Some(layers)) => Ok(layers),
        Ok(None) => Err(Status::Absent),
        Err(fault) => Err(ending_of(fault)),
    }
}
