//! Files that were read past their faults, each once.

ghost use Rattle.std.specs.Prelude.{◌≡◌, ◌⊎◌, ◌<◌, ◌++◌, ◌∷◌, [], ℕ, IfOk, IfSome, List, None, OnErr, OnOk, Option, Some, false, length, map};
ghost use Rattle.std.specs.Bool.{OnFalse, OnTrue};
ghost use Rattle.std.specs.Option.{option_copied};
ghost use Rattle.cmap_binary.specs.BundleSeen.{tables_given};
ghost use Rattle.cmap_binary.specs.Bundles.{PrefixTables};
ghost use Rattle.cmap_load.specs.Budgets.{IsOver};
ghost use Rattle.cmap_load.specs.Graphs.{AreNamed, IsBegun, IsNext};
ghost use Rattle.cmap_load.specs.Kept.{AreKept, IsFound, IsKept, IsReadAt, file_at, files_of};
ghost use Rattle.cmap_load.specs.Numbers.{text_at};
ghost use Rattle.cmap_load.specs.SalvageLoads.{Adds, AddsAnswer, Follows, HasNoFiles, IsKeptMore, Stays, Walks, is_found};
ghost use Rattle.cmap_load.specs.Tables.{IsNew};

use crate::budget::spend;
use crate::chain::MOST_FILES;
use crate::faults::{Faults, FoundFault};
use crate::graph::{Next, Wanted};
use crate::loader::Loader;
use crate::names::{Names, Texts};
use crate::salvage::reading::read_past;
use crate::salvage::walk::{Chain, Unread, Walk, walk_file};
use cmap_binary::Bundle;
use cmap_values::fault::{Fault, Stop};
use cmap_values::file::{File, Salvaged};
use std::alloc::{AllocError, Global};
use std::collections::BTreeMap;

/// What is known of the file of a name.
#[derive(Clone, Copy)]
pub(crate) enum Known {
    /// The file was read; this is its index.
    Read(usize),
    /// The file exceeds the budget; this is its length in bytes.
    TooLong(u64),
    /// No file has the name.
    Nothing,
    /// The file is wanted.
    Wanted,
}

/// What was found of the top file: the indices of the files that give its layers, as in a `Chain`,
/// and the faults.
#[derive(Drop)]
pub(crate) struct FoundFiles {
    pub(crate) path: Vec<Option<usize>>,
    pub(crate) faults: Vec<FoundFault>,
}

/// A file is wanted, or a walk has to tell what comes next, or the top file is found.
#[derive(Drop)]
pub(crate) enum Progress {
    Wanted(Unread),
    Open,
    Found(FoundFiles),
}

/// Files that were read past their faults.
#[derive(Drop)]
pub(crate) struct KeptFiles<N> {
    /// The names and the files. A file that exceeds the budget is an empty file without a name.
    pub(crate) load: Loader<N>,
    /// The faults of each file; `None` if there is no file, or if it wasn't read.
    pub(crate) stops: Vec<Option<Vec<Stop>>>,
    /// The lengths of the files that exceed the budget, by the numbers of their names.
    pub(crate) too_long: BTreeMap<usize, u64>,
}

impl<'d, N: Names<'d>> KeptFiles<N> {
    /// No files.
    pub(crate) fn new(alloc: Global, budget: Option<u64>) -> Self
        ensures { HasNoFiles N.texts N.are_numbered budget result }
    {
        KeptFiles {
            load: Loader::without_files(alloc, budget),
            stops: Vec::new(alloc),
            too_long: BTreeMap::new(alloc),
        }
    }

    /// Takes the answer to a name, where this is left of the budget, and goes on. The graph is asked
    /// what comes next until it knows no further name.
    pub(crate) fn supply(
        &mut self,
        name: usize,
        left: Option<u64>,
        bytes: Option<&'d [u8]>,
        bundle: Option<&Bundle<'_>>,
        asks: bool,
    ) -> Result<Progress, AllocError>
        requires kept { IsKept N.texts N.are_numbered self.old }
        requires new { IsNew self.old.load.table.graph (Some name) }
        requires begun { IsBegun self.old.load.table.graph }
        requires top { IsReadAt (files_of N.texts self.old) 0 }
        ensures kept { IsKept N.texts N.are_numbered self.new }
        ensures stays { OnErr result (Stays (files_of N.texts self.old) (files_of N.texts self.new)) }
        ensures follows { IfOk result (Follows (files_of N.texts self.new)) }
        ensures open { IfOk result (λ progress. is_found progress ≡ false) }
        ensures adds { OnOk result (AddsAnswer (tables_given bundle.entry) (files_of N.texts self.old)
            (files_of N.texts self.new) name
            (option_copied bytes.entry)) }
    {
        let Some(bytes) = bytes else {
            return self.add_nothing(name, asks);
        };
        if exceeds(left, bytes.len() as u64) {
            return self.add_too_long(name, bytes);
        }
        self.read(Some(name), bytes, bundle, asks)
    }

    /// Reads the file of a name, or the top file, which has no name and is asked for first, and goes on.
    pub(crate) fn read(
        &mut self,
        name: Option<usize>,
        bytes: &'d [u8],
        bundle: Option<&Bundle<'_>>,
        asks: bool,
    ) -> Result<Progress, AllocError>
        requires kept { IsKept N.texts N.are_numbered self.old }
        requires new { IsNew self.old.load.table.graph name }
        requires begun { (self.old.load.table.graph.nodes.items ≡ [])
            ⊎ (IsBegun self.old.load.table.graph × IsReadAt (files_of N.texts self.old) 0) }
        ensures kept { IsKept N.texts N.are_numbered self.new }
        ensures stays { OnErr result (Stays (files_of N.texts self.old) (files_of N.texts self.new)) }
        ensures follows { IfOk result (Follows (files_of N.texts self.new)) }
        ensures open { IfOk result (λ progress. is_found progress ≡ false) }
        ensures adds { OnOk result (Adds (tables_given bundle.entry) (files_of N.texts self.old)
            (files_of N.texts self.new) name (Some bytes.now)) }
    {
        let length = bytes.len() as u64;
        let Salvaged { file, faults } = read_past(self.load.alloc, bytes, bundle)?;
        let next = self.add(name, length, file, Some(faults), asks)?;
        Ok(self.progress(next))
    }

    /// Notes that no file has a name, and goes on.
    fn add_nothing(&mut self, name: usize, asks: bool) -> Result<Progress, AllocError>
        requires kept { IsKept N.texts N.are_numbered self.old }
        requires new { IsNew self.old.load.table.graph (Some name) }
        requires begun { IsBegun self.old.load.table.graph }
        requires top { IsReadAt (files_of N.texts self.old) 0 }
        ensures kept { IsKept N.texts N.are_numbered self.new }
        ensures stays { OnErr result (Stays (files_of N.texts self.old) (files_of N.texts self.new)) }
        ensures follows { IfOk result (Follows (files_of N.texts self.new)) }
        ensures open { IfOk result (λ progress. is_found progress ≡ false) }
        ensures adds { OnOk result ((tables : Option PrefixTables)
            → AddsAnswer tables (files_of N.texts self.old)
            (files_of N.texts self.new) name None) }
    {
        let next = self.add(Some(name), 0, File::new(self.load.alloc), None, asks)?;
        Ok(self.progress(next))
    }

    /// Notes that the file of a name exceeds the budget.
    fn add_too_long(&mut self, name: usize, bytes: &[u8]) -> Result<Progress, AllocError>
        requires kept { IsKept N.texts N.are_numbered self.old }
        requires new { IsNew self.old.load.table.graph (Some name) }
        requires begun { IsBegun self.old.load.table.graph }
        requires top { IsReadAt (files_of N.texts self.old) 0 }
        ensures kept { IsKept N.texts N.are_numbered self.new }
        ensures stays { OnErr result (Stays (files_of N.texts self.old) (files_of N.texts self.new)) }
        ensures follows { IfOk result (Follows (files_of N.texts self.new)) }
        ensures open { IfOk result (λ progress. is_found progress ≡ false) }
        ensures adds { OnOk result ((tables : Option PrefixTables)
            → AddsAnswer tables (files_of N.texts self.old)
            (files_of N.texts self.new) name (Some bytes.now)) }
    {
        self.add(None, 0, File::new(self.load.alloc), None, false)?;
        match self.too_long.insert(name, bytes.len() as u64) {
            Ok(_) => Ok(Progress::Open),
            Err(_) => Err(AllocError),
        }
    }

    /// Adds the file of a name, or a file without a name. If the graph is asked, it tells what comes
    /// next.
    fn add(
        &mut self,
        name: Option<usize>,
        length: u64,
        file: File<'d>,
        stops: Option<Vec<Stop>>,
        asks: bool,
    ) -> Result<Option<Next>, AllocError>
        requires kept { IsKept N.texts N.are_numbered self.old }
        requires new { IsNew self.old.load.table.graph name }
        requires begun { (self.old.load.table.graph.nodes.items ≡ []) ⊎ IsBegun self.old.load.table.graph }
        ensures kept { IsKept N.texts N.are_numbered self.new }
        ensures stays { OnErr result (Stays (files_of N.texts self.old) (files_of N.texts self.new)) }
        ensures begun { OnOk result (IsBegun self.new.load.table.graph) }
        ensures added { OnOk result (IsKeptMore (files_of N.texts self.old)
            (files_of N.texts self.new) name length file.entry stops) }
        ensures next { IfOk result (λ next. IfSome next (IsNext self.new.load.table.graph)) }
    {
        self.stops.reserve(1)?;
        if !asks {
            self.load.push(name, length, file)?;
            self.stops.push_reserved(stops);
            return Ok(None);
        }
        let next = self.load.add(name, length, file)?;
        self.stops.push_reserved(stops);
        Ok(Some(next))
    }
}

impl<N: Texts> KeptFiles<N> {
    /// The numbers of the names that a file uses; an empty file, `None`, uses nothing.
    pub(crate) fn uses_of(&self, read: Option<usize>) -> &[usize]
        requires kept { AreKept (files_of N.texts self.now) }
        requires there { IfSome read (λ at. at < length self.now.load.table.graph.nodes.items) }
        ensures named { AreNamed self.now.load.table.graph result.now }
        ensures uses { map (text_at (N.texts self.now.load.list)) result.now ≡ (file_at (files_of N.texts self.now) read).uses }
    {
        match read {
            Some(at) => &self.load.table.graph.nodes[at].uses,
            None => &[],
        }
    }

    /// What is known of the file of a name, where this is left of the budget.
    pub(crate) fn find(&self, name: usize, left: Option<u64>) -> Known
        requires kept { AreKept (files_of N.texts self.now) }
        requires name { name < length self.now.load.table.graph.found.items }
        ensures { IsFound (files_of N.texts self.now) name left result }
    {
        match self.load.table.graph.found[name] {
            Some(i) => match &self.stops[i] {
                Some(_) => Known::Read(i),
                None => Known::Nothing,
            },
            None => match self.too_long.get(&name) {
                Some(length) if exceeds(left, *length) => Known::TooLong(*length),
                _ => Known::Wanted,
            },
        }
    }

    /// What comes next. A file that exceeded the budget where it was first used isn't wanted again.
    fn progress(&self, next: Option<Next>) -> Progress
        requires begun { IsBegun self.now.load.table.graph }
        requires top { IsReadAt (files_of N.texts self.now) 0 }
        requires next { IfSome next (IsNext self.now.load.table.graph) }
        ensures follows { Follows (files_of N.texts self.now) result }
        ensures open { is_found result ≡ false }
    {
        match next {
            Some(Next::Wanted(wanted)) => {
                let Wanted {
                    names: _,
                    name,
                    left,
                } = wanted;
                if self.too_long.contains_key(&name) {
                    Progress::Open
                } else {
                    Progress::Wanted(Unread { name, left })
                }
            }
            _ => Progress::Open,
        }
    }

    /// Walks through the files from the top file on.
    pub(crate) fn walk(&self) -> Result<Progress, AllocError>
        requires kept { AreKept (files_of N.texts self.now) }
        requires begun { IsBegun self.now.load.table.graph }
        requires top { IsReadAt (files_of N.texts self.now) 0 }
        ensures follows { IfOk result (Follows (files_of N.texts self.now)) }
        ensures walks { IfOk result (Walks (files_of N.texts self.now)) }
    {
        let alloc = self.load.alloc;
        let graph = &self.load.table.graph;
        let mut walk = Walk::new(alloc, graph.budget, graph.found.len())?;
        match walk_file(alloc, 0, self, MOST_FILES - 1, true, &mut walk) {
            Ok(chain) => Ok(Progress::Found(found_files(chain, walk))),
            Err(Fault::Refused(unread)) => Ok(Progress::Wanted(unread)),
            Err(Fault::Memory) => Err(AllocError),
        }
    }
}

/// The result of a walk through the top file.
fn found_files(chain: Chain, walk: Walk) -> FoundFiles
    ensures path { result.path ≡ chain.path }
    ensures faults { result.faults ≡ walk.faults.list }
{
    let Chain { path, .. } = chain;
    let Walk { faults, .. } = walk;
    let Faults { list, .. } = faults;
    FoundFiles { path, faults: list }
}

/// Whether a file of `length` bytes has more bytes than are left of the budget.
pub(crate) fn exceeds(left: Option<u64>, length: u64) -> bool
    ensures over { OnTrue result (IsOver left length) }
{
    let mut after = left;
    !spend(&mut after, length)
}
