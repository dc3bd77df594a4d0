//! Loaders of files, for C.

ghost use Rattle.std.specs.Prelude.{◌≡◌, ◌⊎◌, IfOk, IfSome, IsSome, MatchOption, MatchResult, OnErr, OnOk, Some, false, true};
ghost use Rattle.std.specs.Option.{option_copied};
ghost use Rattle.cmap_binary.specs.BundleSeen.{tables_given};
ghost use Rattle.cmap_values.specs.Outcomes.{RefusesWith};
ghost use Rattle.cmap_c.specs.Faults.{IsToldWith};
ghost use Rattle.cmap_c.specs.Loaders.{Begins, Gives, HasNoFaults, IfRefusing, IsAnswered, IsAsked, IsNew, IsStill, IsSupplied, LeadsToFaultBy, ShowsFaults, Wants, WantsNone, file_elsewhere, file_for, has_refused, reads_past, name_wanted};
ghost use Rattle.cmap_handles.specs.declared.status.Status.TheVariants.{Absent, Done, NoMemory};

use crate::either_loader::EitherLoader;
use crate::fault::Told;
use crate::parse::tables_of;
use crate::salvage::ShownFaults;
use cmap_binary::{Bundle, OwnedBundle};
use cmap_handles::status::Status;
use cmap_layers::layers::Layers;
use cmap_load::named_files::BundleFiles;
use cmap_load::{Loader, SalvageLoader, identity_text};
use cmap_values::fault::Fault;
use std::alloc::{AllocError, Global};
use std::marker::Model;

/// A loader of files.
#[derive(Drop)]
pub struct FileLoader {
    loader: EitherLoader,
}

impl Model for FileLoader {
    ghost use Rattle.cmap_c.specs.HeldLoader.{either_loader};
    ghost use Rattle.cmap_c.specs.Loaders.{IsRight};
    ghost use Rattle.cmap_c.specs.declared.either_loader.EitherLoader.{EitherLoader};

    ghost Value = { EitherLoader };

    ghost coded = { either_loader.coded };

    ghost view = { λ held. held.loader };

    ghost invariant = { λ held. IsRight held.loader };
}

impl FileLoader {
    /// Reads the first file. The loader refuses a file at fault. Binary files are read by the tables of the bundle.
    pub(crate) fn refusing(
        alloc: Global,
        budget: Option<u64>,
        data: &[u8],
        bundle: Option<&OwnedBundle>,
    ) -> Result<Box<FileLoader>, AllocError>
        ensures kind { IfOk result (λ made. reads_past made.value ≡ false) }
        ensures begins { IfOk result
            (λ made. Begins (option_copied bundle.entry) «data».now budget made.value) }
    {
        let loader = EitherLoader::Refusing(Loader::new(alloc, budget, data, tables_of(bundle))?);
        Ok(Box::new(alloc, FileLoader { loader })?)
    }

    /// Reads the first file past its faults. Binary files are read by the tables of the bundle.
    pub(crate) fn past_faults(
        alloc: Global,
        budget: Option<u64>,
        data: &[u8],
        bundle: Option<&OwnedBundle>,
    ) -> Result<Box<FileLoader>, AllocError>
        ensures kind { IfOk result (λ made. reads_past made.value ≡ true) }
        ensures begins { IfOk result
            (λ made. Begins (option_copied bundle.entry) «data».now budget made.value) }
    {
        let loader = SalvageLoader::new(alloc, budget, data, tables_of(bundle))?;
        let loader = EitherLoader::PastFaults(loader);
        Ok(Box::new(alloc, FileLoader { loader })?)
    }

    /// Whether a file is wanted. A loader past faults may have to find out, which takes memory.
    pub(crate) fn wants(&mut self) -> Result<bool, AllocError>
        ensures asked { IsAsked self.old self.new }
        ensures wants { MatchResult result
            (λ wants. Wants wants self.new)
            (λ _. reads_past self.old ≡ true) }
    {
        match &mut self.loader {
            EitherLoader::Refusing(loader) => Ok(loader.wanted().is_some()),
            EitherLoader::PastFaults(loader) => loader.wants(),
        }
    }

    /// The name of the wanted file.
    pub(crate) fn name(&self) -> &[u8]
        requires { IsSome (name_wanted self.now) }
        ensures name { Some result.now ≡ name_wanted self.now }
        ensures new { IfRefusing (λ loader. IsNew loader result.now) self.now }
    {
        match &self.loader {
            EitherLoader::Refusing(loader) => match loader.wanted() {
                Some(name) => name,
                None => unreachable!(),
            },
            EitherLoader::PastFaults(loader) => loader.name(),
        }
    }

    /// Supplies the wanted file, if one is wanted, as `file_named` gives it. If memory runs out, the same file is wanted
    /// again.
    pub(crate) fn supply(&mut self, found: u32, file: &[u8], bundle: Option<&OwnedBundle>) -> Status
        ensures supplies { result ≡ Done
            → IsSupplied (option_copied bundle.entry) found file.now self.old self.new }
        ensures absent { result ≡ Absent → IsAsked self.old self.new × WantsNone self.new }
        ensures memory { result ≡ NoMemory → IsStill self.old self.new }
        ensures failed { (result ≡ Done) ⊎ (result ≡ NoMemory) ⊎ (result ≡ Absent) }
    {
        match self.wants() {
            Ok(true) => {
                let file = file_named(found, file, bundle, self.name());
                match self.answer(file, tables_of(bundle)) {
                    Ok(()) => Status::Done,
                    Err(_) => Status::NoMemory,
                }
            }
            Ok(false) => Status::Absent,
            Err(_) => Status::NoMemory,
        }
    }

    /// Supplies the wanted file; `None` if no file has the name. If memory runs out, the same file is wanted again.
    fn answer(&mut self, file: Option<&[u8]>, tables: Option<&Bundle<'_>>) -> Result<(), AllocError>
        requires { IsSome (name_wanted self.old) }
        ensures answered { OnOk result (IfSome (name_wanted self.old) (λ name.
            IsAnswered (tables_given tables.entry) name (option_copied file.entry) self.old self.new)) }
        ensures memory { OnErr result (IsStill self.old self.new) }
    {
        match &mut self.loader {
            EitherLoader::Refusing(loader) => loader.supply(file, tables),
            EitherLoader::PastFaults(loader) => loader.supply(file, tables),
        }
    }

    /// The faults that a loader past faults found, as C gets them, if it wants no further file; `None` while a file is
    /// wanted, or if the loader refuses a file at fault.
    pub(crate) fn faults(&mut self, alloc: Global) -> Result<Option<ShownFaults>, AllocError>
        ensures asked { IsAsked self.old self.new }
        ensures faults { MatchResult result
            (λ shown. MatchOption shown (HasNoFaults self.new) (ShowsFaults self.new))
            (λ _. reads_past self.old ≡ true) }
    {
        if self.wants()? {
            return Ok(None);
        }
        self.shown_faults(alloc)
    }

    /// The faults that a loader past faults found, which wants no further file; `None` if the loader refuses a file at
    /// fault.
    fn shown_faults(&self, alloc: Global) -> Result<Option<ShownFaults>, AllocError>
        requires { WantsNone self.now }
        ensures { MatchResult result
            (λ shown. MatchOption shown (reads_past self.now ≡ false) (ShowsFaults self.now))
            (λ _. reads_past self.now ≡ true) }
    {
        let EitherLoader::PastFaults(loader) = &self.loader else {
            return Ok(None);
        };
        let faults = loader.faults(alloc)?;
        Ok(Some(ShownFaults::of(alloc, &faults)?))
    }

    /// Why a file is refused, as C gets it, or the failure of memory; `None` if no file is refused.
    pub(crate) fn told(&self, alloc: Global) -> Option<Fault<Told>>
        ensures { MatchOption result
            (has_refused self.now ≡ false)
            (RefusesWith (IsToldWith (LeadsToFaultBy self.now))) }
    {
        let EitherLoader::Refusing(loader) = &self.loader else {
            return None;
        };
        match loader.refusal(alloc) {
            Ok(Some(refusal)) => Some(Told::of(alloc, Fault::Refused(refusal))),
            Ok(None) => None,
            Err(_) => Some(Fault::Memory),
        }
    }

    /// The map of the first file.
    pub(crate) fn finish(self) -> Result<Layers, AllocError>
        requires all { WantsNone self }
        requires accepted { has_refused self ≡ false }
        ensures { IfOk result (Gives self) }
    {
        match self.loader {
            EitherLoader::Refusing(loader) => match loader.finish() {
                Ok(layers) => Ok(layers),
                Err(Fault::Memory) => Err(AllocError),
                Err(Fault::Refused(_)) => unreachable!(),
            },
            EitherLoader::PastFaults(loader) => loader.finish(),
        }
    }
}

/// The file of a name. If `found` is 1, it is the file of the caller; if `found` is 0, the file of the bundle, or
/// Identity-H or Identity-V, which need no file: ISO 32000-1, 9.7.5.2. Otherwise no file has the name.
fn file_named<'f>(
    found: u32,
    file: &'f [u8],
    bundle: Option<&'f OwnedBundle>,
    name: &[u8],
) -> Option<&'f [u8]>
    ensures { option_copied result
        ≡ file_for (option_copied bundle.entry) name.now found file.now }
{
    match found {
        0 => file_elsewhere(bundle, name),
        1 => Some(file),
        _ => None,
    }
}

/// The bundle's file of a name, or else the text of Identity-H or Identity-V.
fn file_elsewhere<'f>(bundle: Option<&'f OwnedBundle>, name: &[u8]) -> Option<&'f [u8]>
    ensures { option_copied result ≡ file_elsewhere (option_copied bundle.entry) name.now }
{
    let of_bundle = match bundle {
        Some(bundle) => bundle.file_of(name),
        None => None,
    };
    match of_bundle {
        Some(bytes) => Some(bytes),
        None => identity_text(name),
    }
}
