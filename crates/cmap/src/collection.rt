//! The character collection of a font, and the CMaps that belong to it.

use cmap_io::failure::Failure;
use cmap_io::path_text::{path_bytes, path_text};
use cmap_sources::bases::Bases;
use cmap_sources::maps::map_of;
use cmap_sources::reading::Manner;
use cmap_unicode::{collection_name, unicode_name};
use hayro_cmap::{CMap, Layers, WritingMode};
use std::alloc::{AllocError, Global};

/// The suffix after the name of a collection in the name of its CMap to Unicode.
const UCS2: &str = "-UCS2";

/// The prefix of the names of CMaps whose codes are Unicode.
const UNI: &[u8] = b"Uni";

/// The suffix of the collection of a ToUnicode CMap. The codes of a ToUnicode CMap have no CIDs.
const UNICODE: &str = "-UCS";

/// The name of the character collection of an encoding, such as `Adobe-Japan1`: the collection of the first layer that
/// has one.
pub(crate) fn declared_collection(
    alloc: Global,
    encoding: &Layers,
) -> Result<Option<String>, AllocError> {
    let Some(name) = collection_name(alloc, encoding)? else {
        return Ok(None);
    };
    let name = path_text(alloc, &name)?;
    match name.as_str().strip_suffix(UCS2) {
        Some(collection) if !collection.ends_with(UNICODE) => {
            Ok(Some(String::from_str(alloc, collection)?))
        }
        _ => Ok(None),
    }
}

/// The name of the CMap from the CIDs of a collection to Unicode.
pub(crate) fn ucs2_of(alloc: Global, collection: &str) -> Result<String, AllocError> {
    let mut name = String::from_str(alloc, collection)?;
    name.push_str(UCS2)?;
    Ok(name)
}

/// The CMap from the CIDs of a collection to Unicode, if a file has its name.
pub(crate) fn to_unicode_of(
    rt: &HostRuntime,
    collection: Option<&str>,
    manner: Manner,
    bases: &mut Bases<'_>,
) -> Result<Option<CMap>, Failure> {
    let Some(collection) = collection else {
        return Ok(None);
    };
    let name = ucs2_of(rt.alloc(), collection)?;
    map_named(rt, &path_bytes(rt.alloc(), name.as_str())?, manner, bases)
}

/// Whether the codes of an encoding are Unicode, by its name.
pub(crate) fn is_from_unicode(encoding: &Layers) -> bool {
    match &encoding.metadata().name {
        Some(name) => name.starts_with(UNI),
        None => false,
    }
}

/// The CMap from Unicode to the CIDs of a collection, for the writing mode of an encoding, if a file has its name.
pub(crate) fn from_unicode_of(
    rt: &HostRuntime,
    collection: Option<&str>,
    encoding: &Layers,
    manner: Manner,
    bases: &mut Bases<'_>,
) -> Result<Option<CMap>, Failure> {
    let Some(collection) = collection else {
        return Ok(None);
    };
    let mode = encoding
        .metadata()
        .writing_mode
        .unwrap_or(WritingMode::Horizontal);
    match unicode_name(&path_bytes(rt.alloc(), collection)?, mode) {
        Some(name) => map_named(rt, name, manner, bases),
        None => Ok(None),
    }
}

/// The CMap of a name, if a file has the name.
fn map_named(
    rt: &HostRuntime,
    name: &[u8],
    manner: Manner,
    bases: &mut Bases<'_>,
) -> Result<Option<CMap>, Failure> {
    let Some(bytes) = bases.file(rt, name)? else {
        return Ok(None);
    };
    let path = path_text(rt.alloc(), name)?;
    Ok(Some(map_of(rt, path.as_str(), bytes.as_slice(), manner, bases)?))
}
