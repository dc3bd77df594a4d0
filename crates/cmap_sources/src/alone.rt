//! The contents of one file alone, without the contents of the files that it uses.

use crate::bases::Bases;
use crate::fault_line::LineCounter;
use crate::format::report_format;
use crate::reading::{Faults, Input, MOST_FAULTS, first_of};
use crate::refused::{more_line, stop_line};
use cmap_binary::{is_marked_binary, read_binary, salvage_binary};
use cmap_io::failure::Failure;
use cmap_text::{read_text, salvage_text};
use cmap_values::fault::{Fault, Stop};
use cmap_values::file::{File, Salvaged};

/// The contents of a file. The faults are reported. A file that isn't read past its faults is refused at the first
/// fault.
pub fn file_of<'d>(
    rt: &HostRuntime,
    input: Input<'d>,
    faults: Faults,
    bases: &Bases<'_>,
) -> Result<File<'d>, Failure> {
    report_format(rt, input.path, input.bytes, bases.bundle)?;
    match faults {
        Faults::First => read_strictly(rt, input, bases),
        Faults::All => read_past(rt, input, bases),
    }
}

fn read_strictly<'d>(
    rt: &HostRuntime,
    input: Input<'d>,
    bases: &Bases<'_>,
) -> Result<File<'d>, Failure> {
    let read = match bases.bundle {
        Some(bundle) if is_marked_binary(input.bytes) => {
            read_binary(rt.alloc(), bundle, input.bytes)
        }
        _ => read_text(rt.alloc(), input.bytes),
    };
    match read {
        Ok(file) => Ok(file),
        Err(Fault::Refused(stop)) => {
            report_stops(rt, input, &[stop], Faults::First, bases)?;
            Err(Failure::Refused)
        }
        Err(Fault::Memory) => Err(Failure::Memory),
    }
}

fn read_past<'d>(
    rt: &HostRuntime,
    input: Input<'d>,
    bases: &Bases<'_>,
) -> Result<File<'d>, Failure> {
    let Salvaged { file, faults } = match bases.bundle {
        Some(bundle) if is_marked_binary(input.bytes) => {
            salvage_binary(rt.alloc(), bundle, input.bytes)?
        }
        _ => salvage_text(rt.alloc(), input.bytes)?,
    };
    report_stops(rt, input, &faults, Faults::All, bases)?;
    Ok(file)
}

/// Reports the first faults of a file, each with its byte and its line, and the number of further faults.
fn report_stops(
    rt: &HostRuntime,
    input: Input<'_>,
    stops: &[Stop],
    faults: Faults,
    bases: &Bases<'_>,
) -> Result<(), Failure> {
    let files = bases.files();
    let mut lines = LineCounter::new();
    let (printed, others) = first_of(stops, MOST_FAULTS);
    for stop in printed {
        let line = stop_line(rt.alloc(), input, &files, *stop, faults, &mut lines)?;
        eprintln!(rt; "cmap: {line}")?;
    }
    report_others(rt, input.path, others.len())
}

/// Reports the number of further faults, if there are any.
fn report_others(rt: &HostRuntime, path: &str, count: usize) -> Result<(), Failure> {
    if count > 0 {
        let line = more_line(rt.alloc(), path, count)?;
        eprintln!(rt; "cmap: {line}")?;
    }
    Ok(())
}
