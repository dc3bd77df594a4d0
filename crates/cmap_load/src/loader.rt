//! A loader that its caller asks for the wanted files, and that never asks the caller.

ghost use Rattle.std.specs.Prelude.{◌≡◌, ◌⊎◌, ◌+◌, ◌++◌, ◌≤◌, ◌∷◌, [], IfErr, IfOk, IfSome, IsSome, List, None, OnErr, OnOk, Option, Some, length, map, option_map, slice_get};
ghost use Rattle.std.specs.Option.{option_copied};
ghost use Rattle.cmap_load.specs.Graphs.{AreNamed, IsBegun, IsNext};
ghost use Rattle.cmap_load.specs.Loads.{AreLoadedBy, FitsBy, HasGrown, IsAwaited, IsLoading, IsRead, IsRefusedBy, IsRefusedFile, IsSet, IsUnchanged, NextIs, Reads, Refused, budget_of, files_in, refusal_of, refused_of, wanted_of};
ghost use Rattle.cmap_load.specs.Loading.{Answer, FailsToOpen, IsOpened, IsWanted};
ghost use Rattle.cmap_load.specs.Numbers.{AreWithin, text_at};
ghost use Rattle.cmap_load.specs.Tables.{IsAdded, IsEmpty, IsNew};
ghost use Rattle.cmap_binary.specs.Bundles.{PrefixTables};
ghost use Rattle.cmap_binary.specs.BundleSeen.{tables_given};
ghost use Rattle.cmap_values.specs.FilesSeen.{file_seen};
ghost use Rattle.cmap_values.specs.NamesSeen.{names_seen};
ghost use Rattle.cmap_values.specs.Outcomes.{Outcome, RefusesWith};

use crate::budget::spend;
use crate::chain::read_file;
use crate::graph::{Next, Node, Trail, Wanted};
use crate::names::{Names, Texts};
use crate::refusal::{Cause, Refusal};
use crate::table::{Contents, Table};
use arrayvec::ArrayVec;
use cmap_binary::Bundle;
use cmap_layers::layers::Layers;
use cmap_values::fault::Fault;
use cmap_values::file::File;
use std::alloc::{AllocError, Global};
use std::mem;

/// A file at fault: the numbers of the names that lead to it, and the cause.
#[derive(Drop)]
pub(crate) struct FaultyFile {
    pub(crate) names: Trail,
    pub(crate) cause: Cause,
}

/// All files are whole, or one file is wanted or refused.
#[derive(Drop)]
pub(crate) enum State {
    Whole,
    Wanted(Wanted),
    Refused(FaultyFile),
}

impl State {
    /// The state after a walk through the files.
    fn after(next: Next) -> State
        ensures { NextIs next result }
    {
        match next {
            Next::Whole => State::Whole,
            Next::Wanted(wanted) => State::Wanted(wanted),
            Next::TooLong(names) => State::Refused(FaultyFile {
                names,
                cause: Cause::ChainLength,
            }),
            Next::OverBudget(names) => State::Refused(FaultyFile {
                names,
                cause: Cause::OverBudget,
            }),
        }
    }
}

/// A file that was refused: the names that lead to the file at fault, and the cause.
#[derive(Drop)]
pub struct RefusedFile<N> {
    pub(crate) list: N,
    pub(crate) names: Trail,
    pub cause: Cause,
}

impl<N: Texts> RefusedFile<N> {
    /// The refusal, with the names themselves.
    pub fn refusal(&self, alloc: Global) -> Result<Refusal<'_>, AllocError>
        requires { AreWithin (N.texts self.now.list) self.now.names.items }
        ensures names { IfOk result (λ refusal. names_seen refusal.names.items
            ≡ map (text_at (N.texts self.now.list)) self.now.names.items) }
        ensures cause { IfOk result (λ refusal. refusal.cause ≡ self.now.cause) }
    {
        refusal(alloc, &self.list, self.names.as_slice(), self.cause)
    }
}

/// Reads a CMap file over the files that it uses. The loader states the name of the file that it
/// wants, and the caller supplies the file of this name. Of the bytes of a file, the loader keeps
/// only the names of the files that it uses: slices in `NameSlices`, or copies in `NameCopies`.
///
/// Each file is read once, however often it is used. Files are wanted in the order in which a
/// reader opens them, each before the files that it uses; after a fault, no file is wanted. A file
/// counts for the budget at each use, and a file that would exceed the budget isn't read.
#[derive(Drop)]
pub struct Loader<N> {
    pub(crate) alloc: Global,
    pub(crate) list: N,
    pub(crate) table: Table,
    pub(crate) state: State,
}

impl<'d, N: Names<'d>> Loader<N> {
    /// Reads the first file. The files that are opened have at most `budget` bytes together; `None`
    /// is no budget.
    pub fn new(
        alloc: Global,
        budget: Option<u64>,
        data: &'d [u8],
        bundle: Option<&Bundle<'_>>,
    ) -> Result<Self, AllocError>
        ensures loading { IfOk result (IsLoading N.texts N.are_numbered) }
        ensures budget { IfOk result (λ loader. budget_of loader ≡ budget) }

        // The first file has no name.
        ensures reads { IfOk result (Reads N.texts (tables_given bundle.entry)
            (record { name = None; bytes = Some «data».now } ∷ [])) }
    {
        let mut load = Loader {
            alloc,
            list: N::new(alloc),
            table: Table::new(alloc, budget),
            state: State::Whole,
        };
        match load.take(None, budget, Some(data), bundle) {
            Ok(next) => {
                load.state = State::after(next);
                Ok(load)
            }
            Err(Fault::Refused(cause)) => {
                let names = ArrayVec::new();
                load.state = State::Refused(FaultyFile { names, cause });
                Ok(load)
            }
            Err(Fault::Memory) => Err(AllocError),
        }
    }

    /// A loader without files.
    pub(crate) fn without_files(alloc: Global, budget: Option<u64>) -> Self
        ensures texts { N.texts result.list ≡ [] }
        ensures numbered { N.are_numbered result.list }
        ensures table { IsEmpty budget result.table }
    {
        Loader {
            alloc,
            list: N::new(alloc),
            table: Table::new(alloc, budget),
            state: State::Whole,
        }
    }

    /// The name of the wanted file; `None` if no further file is wanted.
    pub fn wanted(&self) -> Option<&[u8]>
        requires { IsLoading N.texts N.are_numbered self.now }
        ensures asked { option_copied result ≡ wanted_of N.texts self.now }

        // A supplied file uses the name, and the name has no answer yet.
        ensures new { IfSome result (λ name. (tables : Option PrefixTables) (answers : List Answer)
            → Reads N.texts tables answers self.now → IsWanted tables answers name.now) }
    {
        match &self.state {
            State::Wanted(wanted) => Some(self.list.text(wanted.name)),
            _ => None,
        }
    }

    /// Supplies the wanted file; `None` if no file has the name. The bundle is the same at each
    /// call. If memory runs out, the loader still wants the file.
    pub fn supply(
        &mut self,
        bytes: Option<&'d [u8]>,
        bundle: Option<&Bundle<'_>>,
    ) -> Result<(), AllocError>
        requires loading { IsLoading N.texts N.are_numbered self.old }
        requires wanted { IsSome (wanted_of N.texts self.old) }
        ensures loading { IsLoading N.texts N.are_numbered self.new }
        ensures budget { budget_of self.new ≡ budget_of self.old }
        ensures unchanged { OnErr result (IsUnchanged N.texts self.old self.new) }
        ensures reads { OnOk result (IfSome (wanted_of N.texts self.old) (λ name. (answers : List Answer)
            → Reads N.texts (tables_given bundle.entry) answers self.old
            → Reads N.texts (tables_given bundle.entry)
            (answers ++ record { name = Some name; bytes = option_copied bytes.entry } ∷ []) self.new)) }

        // A further name is wanted only after a file was read.
        ensures further { OnOk result (IsSome (wanted_of N.texts self.new)
            → files_in self.new ≡ files_in self.old + 1) }
    {
        let State::Wanted(wanted) = mem::replace(&mut self.state, State::Whole) else {
            unreachable!();
        };
        let Wanted { names, name, left } = wanted;
        match self.take(Some(name), left, bytes, bundle) {
            Ok(next) => {
                self.state = State::after(next);
                Ok(())
            }
            Err(Fault::Refused(cause)) => {
                self.state = State::Refused(FaultyFile { names, cause });
                Ok(())
            }
            Err(Fault::Memory) => {
                self.state = State::Wanted(Wanted { names, name, left });
                Err(AllocError)
            }
        }
    }

    /// The refusal of the first file, if it is refused: the names that lead to the file at fault,
    /// and the cause.
    pub fn refusal(&self, alloc: Global) -> Result<Option<Refusal<'_>>, AllocError>
        requires { IsLoading N.texts N.are_numbered self.now }
        ensures refused { IfOk result
            (λ refusal. option_map refused_of refusal ≡ refusal_of N.texts self.now) }
        ensures blames { IfOk result (λ refusal. IfSome refusal
            (λ refusal. IsRefusedBy N.texts self.now (refused_of refusal))) }
        ensures few { IfOk result (λ refusal. IfSome refusal
            (λ refusal. length refusal.names.items ≤ 16)) }
    {
        match &self.state {
            State::Refused(FaultyFile { names, cause }) => {
                Ok(Some(refusal(alloc, &self.list, names.as_slice(), *cause)?))
            }
            _ => Ok(None),
        }
    }

    /// The layers of the first file. A refusal contains the names that lead to the file at fault,
    /// and the cause.
    pub fn finish(self) -> Result<Layers, Fault<RefusedFile<N>>>
        requires loading { IsLoading N.texts N.are_numbered self }
        requires all { wanted_of N.texts self ≡ None }
        ensures loads { IfOk result (AreLoadedBy N.texts self) }
        ensures within { OnOk result (FitsBy N.texts self) }
        ensures refuses { IfErr result (RefusesWith (IsRefusedFile N.texts self)) }
    {
        let Loader {
            alloc,
            list,
            table,
            state,
        } = self;
        match state {
            State::Whole => match table.into_layers(alloc) {
                Ok(layers) => Ok(layers),
                Err(AllocError) => Err(Fault::Memory),
            },
            State::Refused(FaultyFile { names, cause }) => {
                Err(Fault::Refused(RefusedFile { list, names, cause }))
            }
            State::Wanted(_) => unreachable!(),
        }
    }

    /// Takes the answer to a name, or the top file, and goes on. The file is read within the rest
    /// of the budget.
    fn take(
        &mut self,
        name: Option<usize>,
        left: Option<u64>,
        bytes: Option<&'d [u8]>,
        bundle: Option<&Bundle<'_>>,
    ) -> Result<Next, Fault<Cause>>
        requires { IsAwaited N.texts N.are_numbered self.old name }
        ensures set { IsSet N.texts N.are_numbered self.new }
        ensures grown { OnErr result (HasGrown N.texts self.old self.new) }
        ensures budget { budget_of self.new ≡ budget_of self.old }
        ensures read { IfOk result (IsRead N.texts (tables_given bundle.entry) self.old self.new name
            (option_copied bytes.entry)) }
        ensures fails { IfErr result (RefusesWith (λ cause. (self.new ≡ self.old)
            × FailsToOpen (tables_given bundle.entry) (option_copied bytes.entry) left cause)) }
        ensures further { OnOk result (files_in self.new ≡ files_in self.old + 1) }
    {
        let (length, file) = open_file(self.alloc, bytes, bundle, left)?;
        match self.add(name, length, file) {
            Ok(next) => Ok(next),
            Err(AllocError) => Err(Fault::Memory),
        }
    }

    /// Adds the file of a name, or the top file, and goes on.
    pub(crate) fn add(
        &mut self,
        name: Option<usize>,
        length: u64,
        file: File<'d>,
    ) -> Result<Next, AllocError>
        requires set { IsSet N.texts N.are_numbered self.old }
        requires new { IsNew self.old.table.graph name }
        requires begun { (self.old.table.graph.nodes.items ≡ []) ⊎ IsBegun self.old.table.graph }
        ensures set { IsSet N.texts N.are_numbered self.new }
        ensures grown { OnErr result (HasGrown N.texts self.old self.new) }
        ensures begun { OnOk result (IsBegun self.new.table.graph) }
        ensures added { OnOk result (IsAdded (N.texts self.old.list) (N.texts self.new.list)
            self.old.table self.new.table name length file.entry) }
        ensures next { IfOk result (IsNext self.new.table.graph) }
    {
        let File {
            metadata,
            lists,
            uses,
        } = file;
        let uses = self.numbers(&uses)?;
        let node = Node { length, uses };
        let contents = Contents { metadata, lists };
        let next = self.table.take(name, node, contents)?;
        Ok(next)
    }

    /// Adds the file of a name, or a file without a name, and goes on no further.
    pub(crate) fn push(
        &mut self,
        name: Option<usize>,
        length: u64,
        file: File<'d>,
    ) -> Result<(), AllocError>
        requires set { IsSet N.texts N.are_numbered self.old }
        requires new { IsNew self.old.table.graph name }
        ensures set { IsSet N.texts N.are_numbered self.new }
        ensures grown { OnErr result (HasGrown N.texts self.old self.new) }
        ensures begun { OnOk result ((self.old.table.graph.nodes.items ≡ []) ⊎ IsBegun self.old.table.graph
            → IsBegun self.new.table.graph) }
        ensures added { OnOk result (IsAdded (N.texts self.old.list) (N.texts self.new.list)
            self.old.table self.new.table name length file.entry) }
    {
        let File {
            metadata,
            lists,
            uses,
        } = file;
        let uses = self.numbers(&uses)?;
        let node = Node { length, uses };
        let contents = Contents { metadata, lists };
        self.table.push(name, node, contents)?;
        Ok(())
    }

    /// The numbers of the names of uses. New names get numbers.
    fn numbers(&mut self, uses: &[&'d [u8]]) -> Result<Vec<usize>, AllocError>
        requires { IsSet N.texts N.are_numbered self.old }
        ensures set { IsSet N.texts N.are_numbered self.new }
        ensures grown { HasGrown N.texts self.old self.new }
        ensures named { IfOk result (λ numbers. AreNamed self.new.table.graph numbers.items) }
        ensures numbers { IfOk result (λ numbers.
            map (text_at (N.texts self.new.list)) numbers.items ≡ names_seen uses.now) }
    {
        let mut numbers = Vec::new(self.alloc);
        for name in uses {
            let number = self.number(*name)?;
            numbers.push(number)?;
        }
        Ok(numbers)
    }

    /// The number of a name. A new name gets a number.
    fn number(&mut self, name: &'d [u8]) -> Result<usize, AllocError>
        requires { IsSet N.texts N.are_numbered self.old }
        ensures set { IsSet N.texts N.are_numbered self.new }
        ensures grown { HasGrown N.texts self.old self.new }
        ensures number { IfOk result
            (λ number. slice_get (N.texts self.new.list) number ≡ Some name.now) }
    {
        self.table.graph.reserve_name()?;
        let number = self.list.number(name)?;
        if number == self.table.graph.found.len() {
            self.table.graph.add_name();
        }
        Ok(number)
    }
}

/// The refusal of a file: the names of these numbers, which lead to the file at fault, and the
/// cause.
pub(crate) fn refusal<'n, N: Texts>(
    alloc: Global,
    list: &'n N,
    numbers: &[usize],
    cause: Cause,
) -> Result<Refusal<'n>, AllocError>
    requires { AreWithin (N.texts list.now) numbers.now }
    ensures names { IfOk result (λ refusal. names_seen refusal.names.items
        ≡ map (text_at (N.texts list.now)) numbers.now) }
    ensures cause { IfOk result (λ refusal. refusal.cause ≡ cause) }
    ensures many { IfOk result (λ refusal. length refusal.names.items ≡ length numbers.now) }
{
    let mut names = Vec::new(alloc);
    for number in numbers {
        names.push(list.text(*number))?;
    }
    Ok(Refusal { names, cause })
}

/// The length and the contents of a file, if there is one within the rest of the budget.
fn open_file<'a>(
    alloc: Global,
    bytes: Option<&'a [u8]>,
    bundle: Option<&Bundle<'_>>,
    left: Option<u64>,
) -> Result<(u64, File<'a>), Fault<Cause>>
    ensures { Outcome (λ opened. IsOpened (tables_given bundle.entry)
        (option_copied bytes.entry) opened.0 (file_seen opened.1))
        (FailsToOpen (tables_given bundle.entry) (option_copied bytes.entry) left) result }
{
    let Some(bytes) = bytes else {
        return Err(Fault::Refused(Cause::NoFile));
    };
    let length = bytes.len() as u64;
    let mut left = left;
    if !spend(&mut left, length) {
        return Err(Fault::Refused(Cause::OverBudget));
    }
    match read_file(alloc, bytes, bundle) {
        Ok(file) => Ok((length, file)),
        Err(Fault::Refused(stop)) => Err(Fault::Refused(Cause::Malformed(stop))),
        Err(Fault::Memory) => Err(Fault::Memory),
    }
}
