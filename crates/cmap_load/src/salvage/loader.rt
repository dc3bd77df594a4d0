//! A loader that reads a file over the files that it uses past their faults.

ghost use Rattle.std.specs.Prelude.{◌≡◌, ◌⊎◌, ◌+◌, ◌++◌, ◌∷◌, [], ℕ, IfOk, IfSome, IsSome, List, None, OnErr, OnOk, Option, Some, false, ◌≤◌, is_some, length, map, true};
ghost use Rattle.std.specs.List.{All};
ghost use Rattle.std.specs.Option.{option_copied};
ghost use Rattle.cmap_binary.specs.BundleSeen.{tables_given};
ghost use Rattle.cmap_binary.specs.Bundles.{PrefixTables};
ghost use Rattle.cmap_load.specs.Loading.{Answer};
ghost use Rattle.cmap_load.specs.SalvageSeen.{AreNamed, fault_named, faults_seen, found_of};
ghost use Rattle.cmap_load.specs.declared.refusal.Cause.TheVariants.{OverBudget};
ghost use Rattle.cmap_load.specs.Graphs.{IsBegun};
ghost use Rattle.cmap_load.specs.Kept.{AreKept, IsReadAt, files_of};
ghost use Rattle.cmap_load.specs.SalvageLoads.{Follows, IsSalvaging, IsSalvagedBy, ReadsPast, Walks, budget_in, faults_by, faults_of, files_read, is_settled, wanted_by, wanted_name};

use crate::faults::FoundFault;
use crate::loader::{Loader, refusal};
use crate::names::{Names, Texts};
use crate::refusal::{Cause, Refusal};
use crate::salvage::asker::Asker;
use crate::salvage::kept::{FoundFiles, KeptFiles, Progress, exceeds};
use crate::salvage::path::layers_along;
use crate::salvage::walk::Unread;
use crate::table::Table;
use cmap_binary::Bundle;
use cmap_layers::layers::Layers;
use std::alloc::{AllocError, Global};

/// Reads a CMap file over the files that it uses, past their faults. The loader states the name of
/// the file that it wants, and the caller supplies the file of this name. Of the bytes of a file,
/// the loader keeps only the names of the files that it uses: slices in `NameSlices`, or copies in
/// `NameCopies`.
///
/// Each file is read once, however often it is used. Files are wanted in the order in which a
/// reader opens them, each before the files that it uses. After a chain that is too long, no file is
/// wanted. A file counts for the budget at each use, and a file that would exceed the budget isn't
/// read.
#[derive(Drop)]
pub struct SalvageLoader<N> {
    pub(crate) files: KeptFiles<N>,
    /// The graph of the files tells which file is wanted. It knows no further name after a file that
    /// exceeded the budget; then `asker` tells.
    pub(crate) asks: bool,
    pub(crate) asker: Asker,
    pub(crate) progress: Progress,
}

impl<'d, N: Names<'d>> SalvageLoader<N> {
    /// Reads the first file. The files that are opened have at most `budget` bytes together; `None`
    /// is no budget.
    pub fn new(
        alloc: Global,
        budget: Option<u64>,
        data: &'d [u8],
        bundle: Option<&Bundle<'_>>,
    ) -> Result<Self, AllocError>
        ensures salvaging { IfOk result (IsSalvaging N.texts N.are_numbered) }
        ensures budget { IfOk result (λ loader. budget_in loader ≡ budget) }

        // The first file has no name.
        ensures reads { IfOk result (ReadsPast N.texts (tables_given bundle.entry)
            (record { name = None; bytes = Some «data».now } ∷ [])) }
    {
        let mut files = KeptFiles::new(alloc, budget);
        let asker = Asker::new(budget, data.len() as u64);
        if exceeds(budget, data.len() as u64) {
            let progress = Progress::Found(found_too_long(alloc)?);
            return Ok(SalvageLoader {
                files,
                asks: false,
                asker,
                progress,
            });
        }
        let progress = files.read(None, data, bundle, true)?;
        Ok(SalvageLoader {
            files,
            asks: true,
            asker,
            progress,
        })
    }

    /// Whether a file is wanted. If memory runs out, the call may be repeated.
    pub fn wants(&mut self) -> Result<bool, AllocError>
        requires { IsSalvaging N.texts N.are_numbered self.old }
        ensures salvaging { IsSalvaging N.texts N.are_numbered self.new }
        ensures budget { budget_in self.new ≡ budget_in self.old }
        ensures files { files_read self.new ≡ files_read self.old }
        ensures asked { IfOk result (λ wants. wants ≡ is_some (wanted_name N.texts self.new)) }
        ensures settled { IfOk result (λ wants. wants ≡ false → is_settled self.new ≡ true) }
        ensures known { IsSome (wanted_name N.texts self.old) ⊎ (is_settled self.old ≡ true)
            → self.new ≡ self.old }

        // Memory is taken only where the loader knows neither a wanted name nor that there is none.
        ensures fails { OnErr result ((wanted_name N.texts self.old ≡ None)
            × (is_settled self.old ≡ false)) }
        ensures reads { (tables : Option PrefixTables) (answers : List Answer)
            → ReadsPast N.texts tables answers self.old → ReadsPast N.texts tables answers self.new }
    {
        match &self.progress {
            Progress::Wanted(_) => Ok(true),
            Progress::Found(_) => Ok(false),
            Progress::Open => {
                let found = further(&mut self.asker, &self.files)?;
                let wants = is_wanted(&found);
                self.asks = false;
                self.progress = found;
                Ok(wants)
            }
        }
    }

    /// The name of the wanted file.
    pub fn name(&self) -> &[u8]
        requires salvaging { IsSalvaging N.texts N.are_numbered self.now }
        requires wanted { IsSome (wanted_name N.texts self.now) }
        ensures { Some result.now ≡ wanted_name N.texts self.now }
    {
        let Progress::Wanted(unread) = &self.progress else {
            unreachable!();
        };
        self.files.load.list.text(unread.name)
    }

    /// Supplies the wanted file; `None` if no file has the name. The bundle is the same at each
    /// call. If memory runs out, the loader still wants the file.
    pub fn supply(
        &mut self,
        bytes: Option<&'d [u8]>,
        bundle: Option<&Bundle<'_>>,
    ) -> Result<(), AllocError>
        requires salvaging { IsSalvaging N.texts N.are_numbered self.old }
        requires wanted { IsSome (wanted_name N.texts self.old) }
        ensures salvaging { IsSalvaging N.texts N.are_numbered self.new }
        ensures budget { budget_in self.new ≡ budget_in self.old }
        ensures wanted { OnErr result (wanted_name N.texts self.new ≡ wanted_name N.texts self.old) }
        ensures same { OnErr result ((tables : Option PrefixTables) (answers : List Answer)
            → ReadsPast N.texts tables answers self.old → ReadsPast N.texts tables answers self.new) }
        ensures reads { OnOk result (IfSome (wanted_name N.texts self.old) (λ name. (answers : List Answer)
            → ReadsPast N.texts (tables_given bundle.entry) answers self.old
            → ReadsPast N.texts (tables_given bundle.entry)
            (answers ++ record { name = Some name; bytes = option_copied bytes.entry } ∷ []) self.new)) }
        ensures further { OnOk result (files_read self.new ≡ files_read self.old + 1) }
    {
        let Progress::Wanted(unread) = &self.progress else {
            unreachable!();
        };
        let Unread { name, left } = *unread;
        let progress = self.files.supply(name, left, bytes, bundle, self.asks)?;
        self.progress = progress;
        Ok(())
    }

    /// The faults, in the order in which the files are first read. The faults of each file are listed
    /// once, in the order of their offsets, before the faults of the files that the file uses.
    pub fn faults(&self, alloc: Global) -> Result<Vec<Refusal<'_>>, AllocError>
        requires salvaging { IsSalvaging N.texts N.are_numbered self.now }
        requires settled { is_settled self.now ≡ true }
        ensures faults { IfOk result (λ faults. faults_seen faults.items ≡ faults_of N.texts self.now) }
        ensures few { IfOk result (λ faults. All (λ fault. length fault.names.items ≤ 16) faults.items) }
    {
        refusals(alloc, &self.files.load.list, found_faults(&self.progress))
    }

    /// The layers of the first file over the files that it uses.
    pub fn finish(self) -> Result<Layers, AllocError>
        requires salvaging { IsSalvaging N.texts N.are_numbered self }
        requires settled { is_settled self ≡ true }
        ensures { IfOk result (IsSalvagedBy N.texts self) }
    {
        let SalvageLoader {
            files,
            progress,
            ..
        } = self;
        let Progress::Found(found) = progress else {
            unreachable!();
        };
        let KeptFiles { load, .. } = files;
        let Loader { alloc, table, .. } = load;
        let Table { contents, .. } = table;
        let mut contents = contents;
        let layers = layers_along(alloc, &found.path, &mut contents)?;
        Ok(Layers::of(layers))
    }
}

/// Faults with the names themselves.
fn refusals<'n, N: Texts>(
    alloc: Global,
    list: &'n N,
    faults: &[FoundFault],
) -> Result<Vec<Refusal<'n>>, AllocError>
    requires { AreNamed (N.texts list.now) faults.now }
    ensures { IfOk result (λ refusals. faults_seen refusals.items
        ≡ map (fault_named (N.texts list.now)) faults.now) }
{
    let mut refusals = Vec::with_capacity(alloc, faults.len())?;
    for fault in faults {
        refusals.push(refusal(alloc, list, &fault.names, fault.cause)?)?;
    }
    Ok(refusals)
}

/// Whether a file is wanted.
fn is_wanted(progress: &Progress) -> bool
    ensures { (texts : List (List ℕ)) → result ≡ is_some (wanted_by texts progress.now) }
{
    match progress {
        Progress::Wanted(_) => true,
        _ => false,
    }
}

/// The faults that a walk found.
pub(crate) fn found_faults(progress: &Progress) -> &[FoundFault]
    ensures { result.now ≡ faults_by progress.now }
{
    match progress {
        Progress::Found(found) => &found.faults,
        _ => &[],
    }
}

/// The next name whose file is wanted, or, without one, what a walk finds.
fn further<N: Texts>(asker: &mut Asker, files: &KeptFiles<N>) -> Result<Progress, AllocError>
    requires kept { AreKept (files_of N.texts files.now) }
    requires begun { IsBegun files.now.load.table.graph }
    requires top { IsReadAt (files_of N.texts files.now) 0 }
    ensures follows { IfOk result (Follows (files_of N.texts files.now)) }
    ensures walks { IfOk result (Walks (files_of N.texts files.now)) }
{
    let graph = &files.load.table.graph;
    let Some(unread) = asker.next(graph, &files.too_long) else {
        return files.walk();
    };
    Ok(Progress::Wanted(unread))
}

/// What is found of a top file that exceeds the budget: an empty layer, and this fault.
fn found_too_long(alloc: Global) -> Result<FoundFiles, AllocError>
    ensures path { IfOk result (λ found. found.path.items ≡ None ∷ []) }
    ensures faults { IfOk result (λ found. map found_of found.faults.items
        ≡ record { names = []; cause = OverBudget } ∷ []) }
{
    let mut path = Vec::new(alloc);
    path.push(None)?;
    let fault = FoundFault::new(alloc, &[], Cause::OverBudget)?;
    let mut faults = Vec::new(alloc);
    faults.push(fault)?;
    Ok(FoundFiles { path, faults })
}
