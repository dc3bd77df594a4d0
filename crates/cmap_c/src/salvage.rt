//! Maps of files that are read past their faults, for C.

ghost use Rattle.std.specs.Prelude.{◌≡◌, ◌⊎◌, ◌≤◌, List, None, IfOk, length};
ghost use Rattle.std.specs.List.{All};
ghost use Rattle.std.specs.Option.{option_copied};
ghost use Rattle.cmap_load.specs.Salvage.{NamedFault};
ghost use Rattle.cmap_load.specs.SalvageSeen.{faults_seen};
ghost use Rattle.cmap_c.specs.NamedFiles.{budget_of};
ghost use Rattle.cmap_c.specs.Salvaged.{AreFaultsShown, AreWritten, IsSalvageOver, IsSalvaged, IsSalvagedWith};
ghost use Rattle.cmap_handles.specs.Statuses.{number};
ghost use Rattle.cmap_handles.specs.declared.status.Status.TheVariants.{Done, NoMemory};

use crate::fault::FaultNumbers;
use crate::files::BaseFile;
use crate::parse::{limit, tables_of};
use cmap_binary::OwnedBundle;
use cmap_handles::bundle::BundleHandle;
use cmap_handles::handle::MapHandle;
use cmap_handles::names::push_names;
use cmap_handles::room::{put, put_head};
use cmap_handles::shared::Shared;
use cmap_handles::status::Status;
use cmap_layers::layers::Layers;
use cmap_load::named_files::NamedFiles;
use cmap_load::{Refusal, SalvagedLayers, salvaged_layers};
use cmap_values::memory::both;
use std::alloc::{AllocError, Global};

/// The map of the file `data` over files as for `hayro_cmap_parse_over`, where each file is read past its faults; and
/// the faults, as many as fit in `faults`. The names that lead to the files at fault go to the buffer `room` one after
/// another, beginning with the names of the first fault, if all names fit.
///
/// A file that has a map for which the budget suffices gives that map and no fault.
#[unsafe(no_mangle)]
pub extern "C" fn hayro_cmap_salvage(
    map: &mut MapHandle,
    alloc: Global,
    data: &[u8],
    bundle: &mut BundleHandle,
    files: &[BaseFile<'_>],
    budget: u64,
    faults: &mut [FaultNumbers],
    found: &mut usize,
    room: &mut [u8],
    needed: &mut usize,
) -> u32
    ensures same { bundle.new.slot.bundle ≡ bundle.old.slot.bundle }
    ensures says { result ≡ number Done → IsSalvaged
        (IsSalvageOver bundle.old.slot.bundle files.now «data».now (budget_of budget))
        map.new.slot.map faults.old faults.new found.new room.old room.new needed.new }
    ensures unwritten { result ≡ number NoMemory → (faults.new ≡ faults.old)
        × (found.new ≡ found.old) × (room.new ≡ room.old) × (needed.new ≡ needed.old) }
    ensures failed { (result ≡ number Done)
        ⊎ ((result ≡ number NoMemory) × (map.new.slot.map ≡ None)) }
{
    map.clear(alloc);
    let Ok(salvaged) = salvage_owned(alloc, limit(budget), data, bundle.bundle(), files) else {
        return Status::NoMemory.number();
    };
    map.put(salvaged.map);
    salvaged.shown.put(faults, found, room, needed);
    Status::Done.number()
}

/// What C gets of a file that is read past its faults.
#[derive(Drop)]
pub(crate) struct Salvaged {
    pub(crate) map: Box<Shared<Layers>>,
    pub(crate) shown: ShownFaults,
}

impl Salvaged {
    fn of(alloc: Global, map: Layers, faults: &[Refusal<'_>]) -> Result<Salvaged, AllocError>
        requires { All (λ fault. length fault.names.items ≤ 16) faults.now }
        ensures { IfOk result (λ made. (made.map.value ≡ map)
            × AreFaultsShown (faults_seen faults.now) made.shown) }
    {
        let (map, shown) = both(Shared::new(alloc, map), ShownFaults::of(alloc, faults))?;
        Ok(Salvaged { map, shown })
    }
}

/// Faults, as C has them.
#[derive(Drop)]
pub(crate) struct ShownFaults {
    pub(crate) faults: Vec<FaultNumbers>,
    /// The names of all faults, one after another.
    pub(crate) names: Vec<u8>,
}

impl ShownFaults {
    pub(crate) fn of(alloc: Global, faults: &[Refusal<'_>]) -> Result<ShownFaults, AllocError>
        requires { All (λ fault. length fault.names.items ≤ 16) faults.now }
        ensures { IfOk result (AreFaultsShown (faults_seen faults.now)) }
    {
        let mut shown = Vec::with_capacity(alloc, faults.len())?;
        let mut names = Vec::new(alloc);
        for fault in faults {
            shown.push(FaultNumbers::of(&fault.names, fault.cause))?;
            push_names(&mut names, &fault.names)?;
        }
        Ok(ShownFaults {
            faults: shown,
            names,
        })
    }

    /// Writes as many faults as fit to `faults`, and their number to `found`; the names of all faults to the buffer
    /// `room`, if they fit, and their number of bytes to `needed`.
    pub(crate) fn put(
        &self,
        faults: &mut [FaultNumbers],
        found: &mut usize,
        room: &mut [u8],
        needed: &mut usize,
    )
        ensures { (all : List NamedFault) → AreFaultsShown all self.now
            → AreWritten all faults.old faults.new found.new room.old room.new needed.new }
    {
        *found = self.faults.len();
        put_head(&self.faults, faults);
        put(&self.names, room, needed);
    }
}

/// The map and the faults of a file over these files and the files of a bundle, if there is a bundle.
fn salvage_owned(
    alloc: Global,
    budget: Option<u64>,
    data: &[u8],
    bundle: Option<&OwnedBundle>,
    files: &[BaseFile<'_>],
) -> Result<Salvaged, AllocError>
    ensures { IfOk result (IsSalvagedWith
        (IsSalvageOver (option_copied bundle.entry) files.now «data».now budget)) }
{
    let source = NamedFiles { files, bundle };
    let SalvagedLayers { layers, faults } = salvaged_layers(
        alloc,
        budget,
        data,
        tables_of(bundle),
        &source,
    )?;
    Salvaged::of(alloc, layers, &faults)
}
