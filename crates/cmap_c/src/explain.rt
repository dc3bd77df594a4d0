//! Maps of files, or the reason why there is no map, for C.

ghost use Rattle.std.specs.Prelude.{◌≡◌, ◌⊎◌, ◌≤◌, None, IsSomeAnd};
ghost use Rattle.std.specs.Option.{option_copied};
ghost use Rattle.cmap_c.specs.Endings.{IsExplainedOver, IsTold};
ghost use Rattle.cmap_c.specs.Faults.{IsExplained};
ghost use Rattle.cmap_c.specs.NamedFiles.{ExceedsBudgetOver, FitsBudgetOver, HasNoMapOver, IsMapOver, LeadsToFaultOver, budget_of};
ghost use Rattle.cmap_handles.specs.Statuses.{number};
ghost use Rattle.cmap_handles.specs.declared.status.Status.TheVariants.{Done, Refused, NoMemory, OverBudget};

use crate::fault::{FaultNumbers, Told, status_of};
use crate::files::BaseFile;
use crate::keep::keep_read;
use crate::parse::{limit, tables_of};
use cmap_binary::OwnedBundle;
use cmap_handles::bundle::BundleHandle;
use cmap_handles::handle::MapHandle;
use cmap_handles::room::put;
use cmap_handles::status::Status;
use cmap_layers::layers::Layers;
use cmap_load::named_files::NamedFiles;
use cmap_load::read_layers;
use cmap_values::fault::Fault;
use std::alloc::Global;

/// The map of the file `data`, as `hayro_cmap_parse_over` gives it, or the reason why there is no
/// map: `fault` states what is wrong, and the names that lead to the file at fault go to the buffer
/// `room` one after another.
#[unsafe(no_mangle)]
pub extern "C" fn hayro_cmap_explain(
    map: &mut MapHandle,
    alloc: Global,
    data: &[u8],
    bundle: &mut BundleHandle,
    files: &[BaseFile<'_>],
    budget: u64,
    fault: &mut FaultNumbers,
    room: &mut [u8],
    needed: &mut usize,
) -> u32
    ensures same { bundle.new.slot.bundle ≡ bundle.old.slot.bundle }
    ensures accepts { result ≡ number Done → IsSomeAnd map.new.slot.map
        (IsMapOver bundle.old.slot.bundle files.now «data».now) }
    ensures refuses { result ≡ number Refused
        → HasNoMapOver bundle.old.slot.bundle files.now «data».now }
    ensures over { result ≡ number OverBudget
        → ExceedsBudgetOver bundle.old.slot.bundle files.now «data».now (budget_of budget) }
    ensures within { ((result ≡ number Done) ⊎ (result ≡ number Refused))
        → FitsBudgetOver bundle.old.slot.bundle files.now «data».now (budget_of budget) }
    ensures explains { ((result ≡ number Refused) ⊎ (result ≡ number OverBudget)) → IsExplained
        (LeadsToFaultOver bundle.old.slot.bundle files.now «data».now (budget_of budget))
        fault.new room.old room.new needed.new result }
    ensures unwritten { ((result ≡ number Done) ⊎ (result ≡ number NoMemory))
        → (fault.new ≡ fault.old) × (room.new ≡ room.old) × (needed.new ≡ needed.old) }
    ensures failed { (result ≡ number Done)
        ⊎ ((result ≤ number OverBudget) × (map.new.slot.map ≡ None)) }
{
    map.clear(alloc);
    let explained = explain_owned(alloc, limit(budget), data, bundle.bundle(), files);
    keep_read(map, alloc, tell(explained, fault, room, needed))
}

/// The map, or the status of the call without a map, with the fault for C.
pub(crate) fn tell(
    explained: Result<Layers, Fault<Told>>,
    fault: &mut FaultNumbers,
    room: &mut [u8],
    needed: &mut usize,
) -> Result<Layers, Status>
    ensures { IsTold explained fault.old fault.new room.old room.new needed.old needed.new result }
{
    match explained {
        Ok(map) => Ok(map),
        Err(Fault::Refused(told)) => {
            *fault = told.fault;
            put(&told.names, room, needed);
            Err(status_of(told.cause))
        }
        Err(Fault::Memory) => Err(Status::NoMemory),
    }
}

/// The map of a file over these files and the files of a bundle, if there is a bundle; or the
/// reason why there is no map.
fn explain_owned(
    alloc: Global,
    budget: Option<u64>,
    data: &[u8],
    bundle: Option<&OwnedBundle>,
    files: &[BaseFile<'_>],
) -> Result<Layers, Fault<Told>>
    ensures { IsExplainedOver (option_copied bundle.entry) files.now «data».now budget result }
{
    let source = NamedFiles { files, bundle };
    match read_layers(alloc, budget, data, tables_of(bundle), &source) {
        Ok(layers) => Ok(layers),
        Err(fault) => Err(Told::of(alloc, fault)),
    }
}
