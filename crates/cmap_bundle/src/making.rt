//! The bundle of the files that are chosen.

use crate::choice::Chosen;
use cmap_bundle_maker::{Source, Unwritable, make_named_bundle};
use cmap_io::escape::push_text;
use cmap_io::failure::Failure;
use cmap_values::fault::Fault;
use std::alloc::{AllocError, Global};

/// The bundle of these files. A file that the binary form can't express is put in it as its text.
pub fn bundle_of(alloc: Global, files: &[Chosen<'_>]) -> Result<Vec<u8>, Failure> {
    let sources = sources_of(alloc, files)?;
    match make_named_bundle(alloc, &sources) {
        Ok(bytes) => Ok(bytes),
        Err(Fault::Memory) => Err(Failure::Memory),
        Err(Fault::Refused(unwritable)) => {
            Err(Failure::Message(line_of(alloc, files, unwritable)?))
        }
    }
}

fn sources_of<'f, 'c>(
    alloc: Global,
    files: &'f [Chosen<'c>],
) -> Result<Vec<Source<'f, 'c>>, AllocError> {
    let mut sources = Vec::with_capacity(alloc, files.len())?;
    for chosen in files {
        sources.push(Source {
            name: chosen.cmap_name(),
            file: &chosen.file,
            text: Some(&chosen.candidate.bytes),
        })?;
    }
    Ok(sources)
}

/// The line that states why a bundle can't contain a file, or can't be written.
fn line_of(
    alloc: Global,
    files: &[Chosen<'_>],
    unwritable: Unwritable,
) -> Result<String, AllocError> {
    let mut line = String::new(alloc);
    if let Some(chosen) = unwritable.index.and_then(|index| files.get(index)) {
        push_text(&mut line, chosen.candidate.path.as_str())?;
        line.push_str(": ")?;
    }
    write!(line, "{}", unwritable.obstacle)?;
    Ok(line)
}
