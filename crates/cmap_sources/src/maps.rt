//! The maps of the files that arguments ask for, by their paths or their names.

use crate::bases::Bases;
use crate::format::report_format;
use crate::reading::{Input, Manner, read_over};
use cmap_io::failure::{Failure, fault};
use cmap_io::file_bytes::FileBytes;
use cmap_io::folders::{is_file, is_folder, why_no_file};
use cmap_io::inputs::{STANDARD_INPUT, needed, unreadable};
use cmap_io::path_text::path_bytes;
use hayro_cmap::CMap;

/// A file that is read, with its map.
#[derive(Drop)]
pub struct Opened<'b> {
    /// The bytes of the file.
    pub bytes: FileBytes<'b>,
    pub map: CMap,
}

/// Opens the file of this path, or the file of this name if no file has the path. The faults are reported. A file that
/// can't be read is a failure with a message.
pub fn open<'b>(
    rt: &HostRuntime,
    argument: &str,
    manner: Manner,
    bases: &mut Bases<'b>,
) -> Result<Opened<'b>, Failure> {
    match bytes_of(rt, argument, bases)? {
        Some(bytes) => open_bytes(rt, argument, bytes, manner, bases),
        None => Err(missing(rt, argument, bases)),
    }
}

/// The bytes of the file of this path, or of the file of this name if no file has the path; `None` if no file has the
/// name either.
fn bytes_of<'b>(
    rt: &HostRuntime,
    argument: &str,
    bases: &mut Bases<'b>,
) -> Result<Option<FileBytes<'b>>, Failure> {
    if argument == STANDARD_INPUT || is_file(rt, argument) {
        return Ok(Some(FileBytes::of(needed(rt, argument)?)?));
    }
    bases.file(rt, &path_bytes(rt.alloc(), argument)?)
}

/// The bytes of a file that a run needs, by its path or its name. Identity-H and Identity-V have a text without a file.
pub fn bytes_needed<'b>(
    rt: &HostRuntime,
    argument: &str,
    bases: &mut Bases<'b>,
) -> Result<FileBytes<'b>, Failure> {
    match bytes_of(rt, argument, bases)? {
        Some(bytes) => Ok(bytes),
        None => Err(missing(rt, argument, bases)),
    }
}

fn open_bytes<'b>(
    rt: &HostRuntime,
    path: &str,
    bytes: FileBytes<'b>,
    manner: Manner,
    bases: &mut Bases<'_>,
) -> Result<Opened<'b>, Failure> {
    let map = map_of(rt, path, bytes.as_slice(), manner, bases)?;
    Ok(Opened { bytes, map })
}

/// The map of a file that a run needs. The faults of the file are reported.
pub fn map_needed(
    rt: &HostRuntime,
    argument: &str,
    manner: Manner,
    bases: &mut Bases<'_>,
) -> Result<CMap, Failure> {
    let Opened { map, .. } = open(rt, argument, manner, bases)?;
    Ok(map)
}

/// The map of a file of these bytes. The faults are reported. A file that isn't read past its faults is refused at the
/// first fault.
pub fn map_of(
    rt: &HostRuntime,
    path: &str,
    bytes: &[u8],
    manner: Manner,
    bases: &mut Bases<'_>,
) -> Result<CMap, Failure> {
    report_format(rt, path, bytes, bases.bundle)?;
    let mut reading = read_over(rt, Input { path, bytes }, manner, bases)?;
    bases.report(rt)?;
    report_faults(rt, &reading.faults)?;
    reading.map.take().ok_or(Failure::Refused)
}

fn report_faults(rt: &HostRuntime, faults: &[String]) -> Result<(), Failure> {
    for fault in faults {
        eprintln!(rt; "cmap: {fault}")?;
    }
    Ok(())
}

/// The failure of an argument that is neither the path nor the name of a file.
fn missing(rt: &HostRuntime, argument: &str, bases: &Bases<'_>) -> Failure {
    if bases.may_be_predefined(argument.as_bytes()) && !is_folder(rt, argument) {
        unknown_name(rt, argument, bases)
    } else {
        unreadable(rt, argument, &why_no_file(rt, argument))
    }
}

/// The failure of a name that no file has.
pub fn unknown_name(rt: &HostRuntime, name: &str, bases: &Bases<'_>) -> Failure {
    if bases.may_be_predefined(name.as_bytes()) {
        fault(
            rt,
            name,
            "no file has this name; the package poppler-data has the predefined CMaps",
        )
    } else {
        fault(rt, name, "no file has this name")
    }
}
