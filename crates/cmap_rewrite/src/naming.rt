//! The names of the files that are written.

use cmap_io::beside::STANDARD_OUTPUT;
use cmap_io::failure::{Failure, fault};
use cmap_io::folders::name_of;
use cmap_io::path_text::{is_plain, path_bytes};
use cmap_values::declarations::{ByLength, CidRange, Lists};
use cmap_values::file::File;
use cmap_values::metadata::Metadata;
use hayro_cmap::token::is_regular;
use std::alloc::{AllocError, Global};

/// The name that most ToUnicode CMaps have.
const TO_UNICODE: &[u8] = b"Adobe-Identity-UCS";

/// The name of a file without a better name.
const UNTITLED: &[u8] = b"Untitled";

/// The name that an option gives. An empty name is a failure with a message.
pub(crate) fn given_name(rt: &HostRuntime, option: &str, name: &str) -> Result<Vec<u8>, Failure> {
    if name.is_empty() {
        return Err(fault(rt, option, "a name was expected"));
    }
    Ok(path_bytes(rt.alloc(), name)?)
}

/// The file with another name.
pub(crate) fn named<'d>(file: File<'d>, name: Vec<u8>) -> File<'d> {
    let File {
        metadata,
        lists,
        uses,
    } = file;
    File {
        metadata: Metadata {
            character_collection: metadata.character_collection,
            name: Some(name),
            writing_mode: metadata.writing_mode,
        },
        lists,
        uses,
    }
}

/// The file with a name. PostScript refuses a CMap without a name. A ToUnicode CMap without a name gets the usual
/// name. Any other file without a name gets the file name of its output path.
pub(crate) fn with_name<'d>(
    alloc: Global,
    file: File<'d>,
    output: &str,
) -> Result<File<'d>, AllocError> {
    if file.metadata.name.is_some() {
        return Ok(file);
    }
    let name = if is_to_unicode(&file.lists) {
        TO_UNICODE
    } else {
        name_by(output)
    };
    Ok(named(file, Vec::from_slice(alloc, name)?))
}

/// Whether a file declares only texts, and no CIDs or notdefs.
fn is_to_unicode(lists: &Lists) -> bool {
    !lists.bfs.is_empty() && is_empty(&lists.cids) && is_empty(&lists.notdefs)
}

fn is_empty(lists: &ByLength<Vec<CidRange>>) -> bool {
    lists.one.is_empty() && lists.two.is_empty() && lists.three.is_empty() && lists.four.is_empty()
}

/// The last part of a path if it can be a name, else `UNTITLED`.
fn name_by(output: &str) -> &[u8] {
    let name = name_of(output).as_bytes();
    if output == STANDARD_OUTPUT || !is_plain(output) || !is_name(name) {
        return UNTITLED;
    }
    name
}

/// Whether these bytes can be a PostScript name.
fn is_name(bytes: &[u8]) -> bool {
    !bytes.is_empty() && bytes.iter().all(|byte| is_regular(*byte))
}
