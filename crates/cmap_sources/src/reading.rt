//! A file is read over the files that it uses, each of them once: up to a fault, or past all faults.

ghost use Rattle.std.specs.Prelude.{◌≡◌, IfOk, None, true};
ghost use Rattle.hayro_cmap.specs.Loaders.{AreNumbered, IsLoading, IsSalvaging, is_settled, texts_of, wanted_of};

use crate::bases::{Bases, Files};
use crate::fault_line::LineCounter;
use crate::refused::{more_json, more_line, push_refusal_json, push_refusal_line};
use cmap_io::failure::Failure;
use hayro_cmap::{CMap, Fault, Loader, NameCopies, Refusal, SalvageLoader, SalvagedMap};
use std::alloc::{AllocError, Global};

/// A file to be parsed.
#[derive(Clone, Copy)]
pub struct Input<'i> {
    pub path: &'i str,
    pub bytes: &'i [u8],
}

/// The result of reading a file over the files that it uses.
#[derive(Drop)]
pub struct Reading {
    /// The map. With `Faults::All`, a file with faults has a map too.
    pub map: Option<CMap>,
    /// A line for each fault, without its line end.
    pub faults: Vec<String>,
}

/// Which faults of a file are looked for.
#[derive(Clone, Copy)]
pub enum Faults {
    /// The first fault. The file is then refused.
    First,
    /// All faults. The file is read past each fault.
    All,
}

/// How the lines of faults are printed.
#[derive(Clone, Copy)]
pub enum Form {
    Text,
    Json,
}

/// How a file is read.
#[derive(Clone, Copy)]
pub struct Manner {
    /// The most bytes that the file and the files that it uses may have together.
    pub budget: Option<u64>,
    pub faults: Faults,
    pub form: Form,
    /// The most faults of a file that are printed. The others are counted.
    pub most_faults: u64,
}

/// The most faults of a file that are printed, if no option says otherwise.
pub const MOST_FAULTS: u64 = 100;

/// Reads a file over the files that it uses. A file that is refused gives the refusal alone, or is read past all faults.
pub fn read_over(
    rt: &HostRuntime,
    input: Input<'_>,
    manner: Manner,
    bases: &mut Bases<'_>,
) -> Result<Reading, Failure> {
    match manner.faults {
        Faults::First => read_strictly(rt, input, manner, bases),
        Faults::All => read_past(rt, input, manner, bases),
    }
}

/// Reads a file over the files that it uses. A file that is refused gives the refusal alone.
fn read_strictly(
    rt: &HostRuntime,
    input: Input<'_>,
    manner: Manner,
    bases: &mut Bases<'_>,
) -> Result<Reading, Failure> {
    let load = load(rt, input.bytes, manner.budget, bases)?;
    match load.finish() {
        Ok(layers) => Ok(Reading {
            map: Some(CMap::of(layers)),
            faults: Vec::new(rt.alloc()),
        }),
        Err(Fault::Refused(refused)) => {
            let refusal = refused.refusal(rt.alloc())?;
            let faults = lines_of(rt.alloc(), input, manner, bases, &[refusal])?;
            Ok(Reading { map: None, faults })
        }
        Err(Fault::Memory) => Err(Failure::Memory),
    }
}

/// Supplies a loader with each file that it wants, so that each is read and parsed once.
fn load(
    rt: &HostRuntime,
    bytes: &[u8],
    budget: Option<u64>,
    bases: &mut Bases<'_>,
) -> Result<Loader<NameCopies>, Failure>
    ensures loading { IfOk result (IsLoading texts_of AreNumbered) }
    ensures all { IfOk result (λ load. wanted_of texts_of load ≡ None) }
{
    let mut load = Loader::<NameCopies>::new(rt.alloc(), budget, bytes, bases.bundle)?;
    while let Some(name) = load.wanted() {
        bases.read(rt, name)?;
        let file = bases.bytes_of(name);
        load.supply(file, bases.bundle)?;
    }
    Ok(load)
}

/// Reads a file over the files that it uses past their faults.
fn read_past(
    rt: &HostRuntime,
    input: Input<'_>,
    manner: Manner,
    bases: &mut Bases<'_>,
) -> Result<Reading, Failure> {
    let load = load_past_faults(rt, input.bytes, manner.budget, bases)?;
    let faults = lines_of_all(rt.alloc(), input, manner, bases, &load)?;
    let map = Some(CMap::of(load.finish()?));
    Ok(Reading { map, faults })
}

/// Supplies a loader that reads past faults with each file that it wants, so that each is read and parsed once.
fn load_past_faults(
    rt: &HostRuntime,
    bytes: &[u8],
    budget: Option<u64>,
    bases: &mut Bases<'_>,
) -> Result<SalvageLoader<NameCopies>, Failure>
    ensures loading { IfOk result (IsSalvaging texts_of AreNumbered) }
    ensures all { IfOk result (λ load. is_settled load ≡ true) }
{
    let mut load = SalvageLoader::<NameCopies>::new(rt.alloc(), budget, bytes, bases.bundle)?;
    while load.wants()? {
        let name = load.name();
        bases.read(rt, name)?;
        let file = bases.bytes_of(name);
        load.supply(file, bases.bundle)?;
    }
    Ok(load)
}

/// The faults of a file that is read over these files past its faults. With `Faults::First`, there are none.
pub fn faults_of<'f>(
    alloc: Global,
    input: Input<'f>,
    manner: Manner,
    files: &'f Files<'_>,
) -> Result<Vec<Refusal<'f>>, AllocError> {
    match manner.faults {
        Faults::First => Ok(Vec::new(alloc)),
        Faults::All => {
            let read = CMap::salvage(alloc, manner.budget, input.bytes, files.bundle, files)?;
            let SalvagedMap { map: _, faults } = read;
            Ok(faults)
        }
    }
}

/// The lines of the faults that a loader found.
fn lines_of_all(
    alloc: Global,
    input: Input<'_>,
    manner: Manner,
    bases: &Bases<'_>,
    load: &SalvageLoader<NameCopies>,
) -> Result<Vec<String>, AllocError>
    requires loading { IsSalvaging texts_of AreNumbered load.now }
    requires all { is_settled load.now ≡ true }
{
    let faults = load.faults(alloc)?;
    lines_of(alloc, input, manner, bases, &faults)
}

/// The lines of the printed faults, and a line with the number of the other faults.
fn lines_of(
    alloc: Global,
    input: Input<'_>,
    manner: Manner,
    bases: &Bases<'_>,
    faults: &[Refusal<'_>],
) -> Result<Vec<String>, AllocError> {
    let mut lines = Vec::new(alloc);
    let mut counter = LineCounter::new();
    let (printed, others) = first_of(faults, manner.most_faults);
    for fault in printed {
        lines.push(line_of(alloc, input, manner, bases, fault, &mut counter)?)?;
    }
    if !others.is_empty() {
        lines.push(more_of(alloc, input.path, manner.form, others.len())?)?;
    }
    Ok(lines)
}

/// The faults that are printed, at most `most`, and the other faults.
pub(crate) fn first_of<T>(faults: &[T], most: u64) -> (&[T], &[T]) {
    let most = usize::try_from(most).unwrap_or(usize::MAX);
    faults.split_at(faults.len().min(most))
}

/// The line with the number of faults that aren't printed.
fn more_of(alloc: Global, path: &str, form: Form, count: usize) -> Result<String, AllocError> {
    match form {
        Form::Text => more_line(alloc, path, count),
        Form::Json => more_json(alloc, path, count),
    }
}

/// The line of a fault.
fn line_of<'n>(
    alloc: Global,
    input: Input<'_>,
    manner: Manner,
    bases: &Bases<'_>,
    fault: &Refusal<'n>,
    counter: &mut LineCounter<'n>,
) -> Result<String, AllocError> {
    let Manner { form, faults, .. } = manner;
    let mut line = String::new(alloc);
    let files = bases.files();
    match form {
        Form::Json => push_refusal_json(alloc, &mut line, input, &files, fault, faults, counter)?,
        Form::Text => push_refusal_line(&mut line, input, &files, fault, faults, counter)?,
    }
    Ok(line)
}
