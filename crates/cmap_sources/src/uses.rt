//! The names that the files of a chain use.

use cmap_binary::{is_marked_binary, salvage_binary};
use cmap_text::salvage_text;
use cmap_values::file::Salvaged;
use hayro_cmap::{Bundle, CMap, Cause, NamedFile, NamedFiles, Refusal};
use std::alloc::{AllocError, Global};

/// The names that the file of each layer uses, the top layer first. The map was read from these bytes over `files`,
/// past these faults, and has this number of layers. A file that exceeds the budget isn't read and uses no names.
pub fn uses_by_layer<'f, N: NamedFile>(
    alloc: Global,
    bytes: &'f [u8],
    files: &NamedFiles<'f, N, Bundle<'f>>,
    faults: &[Refusal<'f>],
    layers: usize,
) -> Result<Vec<Vec<&'f [u8]>>, AllocError> {
    let mut uses = Vec::new(alloc);
    let mut path = Vec::new(alloc);
    let mut next = Some(bytes);
    for _ in 0..layers {
        let Some(file) = next else {
            break;
        };
        let names = if is_over_budget(faults, &path) {
            Vec::new(alloc)
        } else {
            uses_of(alloc, file, files.bundle)?
        };
        next = open_base(files, faults, &names, &mut path)?;
        uses.push(names)?;
    }
    Ok(uses)
}

/// Whether the file that these names lead to exceeds the budget. Such a file has one fault, wherever it is used.
fn is_over_budget(faults: &[Refusal<'_>], path: &[&[u8]]) -> bool {
    faults.iter().any(|fault| fault.cause == Cause::OverBudget && fault.names.last() == path.last())
}

/// The names that a file uses. The file may have faults.
fn uses_of<'d>(
    alloc: Global,
    file: &'d [u8],
    bundle: Option<&Bundle<'_>>,
) -> Result<Vec<&'d [u8]>, AllocError> {
    match CMap::uses(alloc, file, bundle)? {
        Some(names) => Ok(names),
        None => {
            let Salvaged { file, faults: _ } = salvaged(alloc, file, bundle)?;
            Ok(file.uses)
        }
    }
}

/// The contents of a file, read past its faults.
fn salvaged<'d>(
    alloc: Global,
    file: &'d [u8],
    bundle: Option<&Bundle<'_>>,
) -> Result<Salvaged<'d>, AllocError> {
    match bundle {
        Some(bundle) if is_marked_binary(file) => salvage_binary(alloc, bundle, file),
        _ => salvage_text(alloc, file),
    }
}

/// The file of the next layer, under the file that `path` leads to and that uses these names. The name of the next
/// file is added to the path.
fn open_base<'f, N: NamedFile>(
    files: &NamedFiles<'f, N, Bundle<'f>>,
    faults: &[Refusal<'f>],
    names: &[&'f [u8]],
    path: &mut Vec<&'f [u8]>,
) -> Result<Option<&'f [u8]>, AllocError> {
    let Some(name) = base_of(faults, names, path.as_slice()) else {
        return Ok(None);
    };
    path.push(name)?;
    Ok(files.find(name))
}

/// The name of the file of the next layer: the last name, or the name that leads to a chain that was too long, since
/// the uses after that name are passed over.
fn base_of<'f>(faults: &[Refusal<'f>], names: &[&'f [u8]], path: &[&'f [u8]]) -> Option<&'f [u8]> {
    match too_long(faults) {
        Some(chain) if chain.starts_with(path) => chain.get(path.len()).copied(),
        _ => names.last().copied(),
    }
}

/// The names of the chain that was too long, if there is one.
fn too_long<'a, 'f>(faults: &'a [Refusal<'f>]) -> Option<&'a [&'f [u8]]> {
    let fault = faults
        .iter()
        .find(|fault| fault.cause == Cause::ChainLength)?;
    Some(fault.names.as_slice())
}
