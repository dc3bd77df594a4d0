//! A walk through files that were read past their faults.

ghost use Rattle.std.specs.Prelude.{◌≡◌, ◌≤◌, ◌<◌, ◌∷◌, [], ℕ, Err, IfErr, IfOk, IfSome, List, MatchOption, None, Ok, OnOk, Some, false, length, map, true};
ghost use Rattle.cmap_values.specs.Outcomes.{RefusesWith};
ghost use Rattle.cmap_load.specs.Graphs.{AreNamed};
ghost use Rattle.cmap_load.specs.Kept.{AreKept, IsReadAt, IsWanted, Stored, file_at, files_of, layers_on};
ghost use Rattle.cmap_load.specs.declared.refusal.Cause.TheVariants.{OverBudget};
ghost use Rattle.cmap_values.specs.declared.fault.Fault.TheVariants.{Refused};
ghost use Rattle.cmap_load.specs.Numbers.{text_at};
ghost use Rattle.cmap_load.specs.SalvageSeen.{AddsFaults, IsAtStart, Knows, ReadsOn, WalksFile, WalksNamed, WalksOpen, WalksUse, WalksUses};
ghost use Rattle.cmap_load.specs.Searches.{PassesOver};

use crate::budget::spend;
use crate::faults::Faults;
use crate::known::KnownFile;
use crate::names::Texts;
use crate::refusal::Cause;
use crate::salvage::kept::{KeptFiles, Known};
use crate::search::Search;
use cmap_layers::lists::put_first;
use cmap_values::fault::Fault;
use std::alloc::{AllocError, Global};

/// A name whose file is wanted.
#[derive(Clone, Copy)]
pub(crate) struct Unread {
    /// The number of the name.
    pub(crate) name: usize,
    /// What is left of the budget before the file.
    pub(crate) left: Option<u64>,
}

/// The state of a walk.
#[derive(Drop)]
pub(crate) struct Walk {
    pub(crate) search: Search,
    pub(crate) faults: Faults,
    /// A chain was too long, so that no further file is opened.
    pub(crate) is_closed: bool,
    /// A chain was too long, or a file would have passed the budget, so that no further file becomes
    /// known.
    pub(crate) is_cut: bool,
}

/// The result of a walk through a file and the files that it uses.
#[derive(Drop)]
pub(crate) struct Chain {
    /// The indices of the files that give the layers, if the layers are wanted; `None` is a file
    /// that exceeds the budget, and gives an empty layer. Once a chain was too long, the layers are
    /// always wanted.
    pub(crate) path: Vec<Option<usize>>,
    /// How many files stand in the longest chain.
    pub(crate) height: u8,
}

impl Chain {
    /// A chain without layers.
    fn new(alloc: Global, height: u8) -> Self
        ensures { (result.path.items ≡ []) × (result.height ≡ height) }
    {
        Chain {
            path: Vec::new(alloc),
            height,
        }
    }
}

impl Walk {
    /// The state before the first file. The numbers of names are below `names`.
    pub(crate) fn new(alloc: Global, budget: Option<u64>, names: usize) -> Result<Self, AllocError>
        ensures { IfOk result (IsAtStart budget names) }
    {
        let search = Search::new(alloc, budget, names)?;
        Ok(Walk {
            search,
            faults: Faults::new(alloc),
            is_closed: false,
            is_cut: false,
        })
    }

    /// Adds a fault of the file that the names lead to.
    fn add_fault(&mut self, alloc: Global, cause: Cause) -> Result<(), AllocError>
        ensures listed { OnOk result (AddsFaults self.old.faults self.new.faults
            self.old.search.names.items (cause ∷ [])) }
        ensures same { self.new ≡ record self.old { faults = self.new.faults } }
    {
        self.faults.add(alloc, &self.search.names, cause)
    }

    /// Passes over a use of a known file, if its layers aren't wanted. Returns the number of files
    /// in the longest chain of the file; `None` if the use isn't passed over.
    fn pass_over(&mut self, name: usize, below: u8, wanted: bool) -> Option<u8>
        ensures { MatchOption result (self.new ≡ self.old) (λ height.
            PassesOver name below self.old.search self.new.search height
            × (wanted ≡ false) × (self.new ≡ record self.old { search = self.new.search })) }
    {
        if wanted {
            None
        } else {
            self.search.pass_over(name, below)
        }
    }
}

/// Walks through a file and the files that it uses. At most `below` files stand under the file in a
/// chain; the height is the number of files under it in the longest chain. The caller wants the
/// layers, or the faults alone.
#[cycle(walk)]
pub(crate) fn walk_file<N: Texts>(
    alloc: Global,
    at: usize,
    files: &KeptFiles<N>,
    below: u8,
    wanted: bool,
    walk: &mut Walk,
) -> Result<Chain, Fault<Unread>>
    requires kept { AreKept (files_of N.texts files.now) }
    requires read { IsReadAt (files_of N.texts files.now) at }
    requires known { Knows (files_of N.texts files.now) walk.old }
    ensures walks { IfOk result (WalksFile (files_of N.texts files.now) below (Stored.at at) wanted walk.old walk.new) }
    ensures unread { IfErr result (RefusesWith (IsWanted files.now.load.table.graph)) }
{
    let read = read_within(alloc, at, files, walk)?;
    let uses = files.uses_of(read);
    let base = walk_uses(alloc, uses, files, below, wanted, walk);
    put_over(read, base, wanted || walk.is_closed)
}

/// Walks through the files of uses, one after another. The last use gives the layers.
#[cycle(walk)]
fn walk_uses<N: Texts>(
    alloc: Global,
    uses: &[usize],
    files: &KeptFiles<N>,
    below: u8,
    wanted: bool,
    walk: &mut Walk,
) -> Result<Chain, Fault<Unread>>
    requires kept { AreKept (files_of N.texts files.now) }
    requires named { AreNamed files.now.load.table.graph uses.now }
    requires known { Knows (files_of N.texts files.now) walk.old }
    ensures walks { IfOk result (WalksUses (files_of N.texts files.now) below
        (map (text_at (N.texts files.now.load.list)) uses.now) wanted walk.old walk.new) }
    ensures unread { IfErr result (RefusesWith (IsWanted files.now.load.table.graph)) }
{
    let mut base = Chain::new(alloc, 0);
    let Some((last, others)) = uses.split_last() else {
        return Ok(base);
    };
    for name in others {
        base = walk_use(alloc, *name, base, files, below, false, walk)?;
    }
    walk_use(alloc, *last, base, files, below, wanted, walk)
}

/// Walks through the file of a use, after the files of other uses. Once a chain was too long, the
/// file isn't opened, and the layers of the other uses stay.
#[cycle(walk)]
fn walk_use<N: Texts>(
    alloc: Global,
    name: usize,
    others: Chain,
    files: &KeptFiles<N>,
    below: u8,
    wanted: bool,
    walk: &mut Walk,
) -> Result<Chain, Fault<Unread>>
    requires kept { AreKept (files_of N.texts files.now) }
    requires named { name < length files.now.load.table.graph.found.items }
    requires known { Knows (files_of N.texts files.now) walk.old }
    ensures walks { IfOk result (λ chain. others.height ≤ below → (others.height ≤ chain.height)
        × WalksUse (files_of N.texts files.now) below (text_at (N.texts files.now.load.list) name)
        (layers_on (files_of N.texts files.now) others.path.items) wanted walk.old walk.new chain) }
    ensures unread { IfErr result (RefusesWith (IsWanted files.now.load.table.graph)) }
{
    if walk.is_closed {
        return Ok(others);
    }
    let used = open_use(alloc, name, files, below, wanted, walk)?;
    Ok(Chain {
        path: used.path,
        height: others.height.max(used.height),
    })
}

/// Walks through the file of a use. A known file is passed over if its layers aren't wanted, and if
/// it exceeds neither the limit of the chain nor the budget.
#[cycle(walk)]
fn open_use<N: Texts>(
    alloc: Global,
    name: usize,
    files: &KeptFiles<N>,
    below: u8,
    wanted: bool,
    walk: &mut Walk,
) -> Result<Chain, Fault<Unread>>
    requires kept { AreKept (files_of N.texts files.now) }
    requires named { name < length files.now.load.table.graph.found.items }
    requires known { Knows (files_of N.texts files.now) walk.old }
    ensures walks { IfOk result (WalksOpen (files_of N.texts files.now) below (text_at (N.texts files.now.load.list) name)
        wanted walk.old walk.new) }
    ensures unread { IfErr result (RefusesWith (IsWanted files.now.load.table.graph)) }
{
    match walk.pass_over(name, below, wanted) {
        Some(height) => Ok(Chain::new(alloc, height)),
        None => walk_unknown(alloc, name, files, below, wanted, walk),
    }
}

/// Walks through the file of a use, and notes the file as known, unless the walk is cut.
#[cycle(walk)]
fn walk_unknown<N: Texts>(
    alloc: Global,
    name: usize,
    files: &KeptFiles<N>,
    below: u8,
    wanted: bool,
    walk: &mut Walk,
) -> Result<Chain, Fault<Unread>>
    requires kept { AreKept (files_of N.texts files.now) }
    requires named { name < length files.now.load.table.graph.found.items }
    requires known { Knows (files_of N.texts files.now) walk.old }
    ensures walks { IfOk result (WalksOpen (files_of N.texts files.now) below (text_at (N.texts files.now.load.list) name)
        wanted walk.old walk.new) }
    ensures unread { IfErr result (RefusesWith (IsWanted files.now.load.table.graph)) }
{
    let before = walk.search.left;
    walk.search.names.push(name)?;
    let used = walk_named(alloc, name, files, below, wanted, walk)?;
    walk.search.names.pop();
    if !walk.is_cut {
        let file = KnownFile::new(used.height, before, walk.search.left);
        walk.search.known.insert(name, file);
    }
    Ok(used)
}

/// Walks through the file of the last name. The answer has no layers if the chain would be too
/// long, or if no file has the name.
#[cycle(walk)]
fn walk_named<N: Texts>(
    alloc: Global,
    name: usize,
    files: &KeptFiles<N>,
    below: u8,
    wanted: bool,
    walk: &mut Walk,
) -> Result<Chain, Fault<Unread>>
    requires kept { AreKept (files_of N.texts files.now) }
    requires named { name < length files.now.load.table.graph.found.items }
    requires known { Knows (files_of N.texts files.now) walk.old }
    ensures walks { IfOk result (WalksNamed (files_of N.texts files.now) below (text_at (N.texts files.now.load.list) name)
        wanted walk.old walk.new) }
    ensures unread { IfErr result (RefusesWith (IsWanted files.now.load.table.graph)) }
{
    if below == 0 {
        walk.is_closed = true;
        walk.is_cut = true;
        let chain = without_file(alloc, Cause::ChainLength, 0, walk)?;
        return Ok(chain);
    }
    let left = walk.search.left;
    match files.find(name, left) {
        Known::Read(at) => {
            let file = walk_file(alloc, at, files, below - 1, wanted, walk)?;
            Ok(Chain {
                path: file.path,
                height: file.height + 1,
            })
        }
        Known::TooLong(_) => {
            walk.is_cut = true;
            let chain = with_empty_layer(alloc, walk)?;
            Ok(chain)
        }
        Known::Nothing => {
            let chain = without_file(alloc, Cause::NoFile, 1, walk)?;
            Ok(chain)
        }
        Known::Wanted => Err(Fault::Refused(Unread { name, left })),
    }
}

/// Adds a fault of the file that the names lead to. The answer has no layers.
fn without_file(
    alloc: Global,
    cause: Cause,
    height: u8,
    walk: &mut Walk,
) -> Result<Chain, AllocError>
    ensures none { IfOk result (λ chain. (chain.path.items ≡ []) × (chain.height ≡ height)
        × AddsFaults walk.old.faults walk.new.faults walk.old.search.names.items (cause ∷ [])) }
    ensures same { walk.new ≡ record walk.old { faults = walk.new.faults } }
{
    walk.add_fault(alloc, cause)?;
    Ok(Chain::new(alloc, height))
}

/// Adds the fault of the file that the names lead to, which exceeds the budget. The answer is an
/// empty layer.
fn with_empty_layer(alloc: Global, walk: &mut Walk) -> Result<Chain, AllocError>
    ensures one { IfOk result (λ chain. (chain.path.items ≡ None ∷ []) × (chain.height ≡ 1)
        × AddsFaults walk.old.faults walk.new.faults walk.old.search.names.items
        (OverBudget ∷ [])) }
    ensures same { walk.new ≡ record walk.old { faults = walk.new.faults } }
{
    let mut chain = without_file(alloc, Cause::OverBudget, 1, walk)?;
    chain.path.push(None)?;
    Ok(chain)
}

/// The layer of a file over the layers of its base, if `wanted`; else the base alone. A failure of
/// the base is passed on.
fn put_over(
    read: Option<usize>,
    base: Result<Chain, Fault<Unread>>,
    wanted: bool,
) -> Result<Chain, Fault<Unread>>
    ensures put { IfOk result (λ chain. (under : Chain) × (base ≡ Ok under) × (chain.height ≡ under.height)
        × (wanted ≡ true → chain.path.items ≡ read ∷ under.path.items)) }
    ensures unread { IfErr result (RefusesWith (λ unread. base ≡ Err (Refused unread))) }
{
    let base = base?;
    if !wanted {
        return Ok(base);
    }
    let Chain { path, height } = base;
    let path = put_first(Ok(read), path)?;
    Ok(Chain { path, height })
}

/// Reads the file at an index within the budget, and lists its faults. Returns the index; `None` if
/// the file exceeds the budget.
fn read_within<N: Texts>(
    alloc: Global,
    at: usize,
    files: &KeptFiles<N>,
    walk: &mut Walk,
) -> Result<Option<usize>, AllocError>
    requires kept { AreKept (files_of N.texts files.now) }
    requires read { IsReadAt (files_of N.texts files.now) at }
    requires known { Knows (files_of N.texts files.now) walk.old }
    ensures reads { IfOk result (λ read. ReadsOn (files_of N.texts files.now) (Stored.at at)
        walk.old walk.new (file_at (files_of N.texts files.now) read)) }
    ensures same { IfOk result (λ read. IfSome read (λ i. i ≡ at)) }
{
    if !spend(
        &mut walk.search.left,
        files.load.table.graph.nodes[at].length,
    ) {
        walk.is_cut = true;
        walk.add_fault(alloc, Cause::OverBudget)?;
        return Ok(None);
    }
    let Some(stops) = &files.stops[at] else {
        unreachable!();
    };
    walk.faults.add_stops(alloc, &walk.search.names, stops)?;
    Ok(Some(at))
}
