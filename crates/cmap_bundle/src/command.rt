//! `cmap bundle`: makes a bundle of files.

use crate::candidates::candidates_of;
use crate::choice::{Choice, Chosen, choose};
use crate::making::bundle_of;
use crate::summary::push_summary;
use crate::verify::differences;
use cmap_io::beside::Beside;
use cmap_io::failure::{Failure, fault};
use cmap_io::inputs::{STANDARD_INPUT, needed};
use cmap_io::status::{ACCEPTED, REFUSED};
use hayro_cmap::Bundle;

/// The parsed arguments of `cmap bundle`.
#[derive(Clone, Copy)]
pub struct BundleOptions<'m, 'w> {
    /// The path of the bundle.
    pub output: &'w str,
    /// The arguments `NAME=FILE`.
    pub named: &'m [&'w str],
    /// The files and the folders.
    pub paths: &'m [&'w str],
    /// Whether the bundle is compared with the files.
    pub is_compared: bool,
}

/// Makes a bundle, and returns the exit status.
pub fn bundle(rt: &HostRuntime, options: &BundleOptions<'_, '_>) -> Result<u8, Failure> {
    let output = options.output;
    if output == STANDARD_INPUT {
        return Err(fault(rt, output, "a bundle is written to a file"));
    }
    let candidates = candidates_of(rt, options.named, options.paths)?;
    let choice = choose(rt, &candidates)?;
    bundle_of_choice(rt, options, &choice, candidates.passed_over.get())
}

/// Makes a bundle of the files that were chosen.
fn bundle_of_choice(
    rt: &HostRuntime,
    options: &BundleOptions<'_, '_>,
    choice: &Choice<'_>,
    passed_over: usize,
) -> Result<u8, Failure> {
    let output = options.output;
    if choice.files.is_empty() {
        return Err(fault(rt, output, "not written, since there is no file for it"));
    }
    let bytes = bundle_of(rt.alloc(), &choice.files)?;
    put(rt, output, &bytes, &choice.files, options.is_compared)?;
    print_summary(rt, output, &bytes, passed_over)?;
    Ok(if choice.left_out.get() > 0 {
        REFUSED
    } else {
        ACCEPTED
    })
}

fn print_summary(
    rt: &HostRuntime,
    output: &str,
    bytes: &[u8],
    passed_over: usize,
) -> Result<(), Failure> {
    let mut line = String::new(rt.alloc());
    push_summary(rt.alloc(), &mut line, output, bytes, passed_over)?;
    Ok(rt.println(line.as_str())?)
}

/// Writes a bundle of these bytes to its path. With `is_compared`, the bundle has to declare the same as the files.
fn put(
    rt: &HostRuntime,
    output: &str,
    bytes: &[u8],
    files: &[Chosen<'_>],
    is_compared: bool,
) -> Result<(), Failure> {
    let beside = Beside::write(rt, output, bytes)?;
    if is_compared {
        if let Err(failure) = compare(rt, output, &beside, files) {
            beside.remove(rt);
            return Err(failure);
        }
    }
    beside.put_in_place(rt)
}

/// Compares the contents of the bundle with the files. The differences go to the standard error.
fn compare(
    rt: &HostRuntime,
    output: &str,
    beside: &Beside,
    files: &[Chosen<'_>],
) -> Result<(), Failure> {
    let bytes = needed(rt, beside.path())?;
    match Bundle::parse(rt.alloc(), &bytes)? {
        Some(bundle) => compare_bundle(rt, output, &bundle, files),
        None => Err(fault(rt, output, "not written, since it is an invalid bundle")),
    }
}

fn compare_bundle(
    rt: &HostRuntime,
    output: &str,
    bundle: &Bundle<'_>,
    files: &[Chosen<'_>],
) -> Result<(), Failure> {
    let lines = differences(rt.alloc(), bundle, files)?;
    for line in &lines {
        eprintln!(rt; "cmap: {line}")?;
    }
    if lines.is_empty() {
        return Ok(());
    }
    let wrong = "not written, since it gives other answers than the files";
    Err(fault(rt, output, wrong))
}
