//! The maps from the CIDs of character collections to Unicode.

ghost use Rattle.std.specs.Prelude.{◌≡◌, IfOk, IfSome, option_map};
ghost use Rattle.cmap_values.specs.MetadataSeen.{family_seen};
ghost use Rattle.cmap_values.specs.Names.{ucs2_cmap_of};
ghost use Rattle.cmap_unicode.specs.Collections.{collection_name_of, family_in, ucs2_name_of};
ghost use Rattle.cmap_unicode.specs.FromUnicode.{name_for, names_of};

use cmap_layers::layers::Layers;
use cmap_values::character_collection::CidFamily;
use cmap_values::writing_mode::WritingMode;
use std::alloc::{AllocError, Global};

/// The name of the CMap from the CIDs of a family of character collections to Unicode, in UCS-2. The name
/// has the registry and the ordering, such as `Adobe-Japan1-UCS2`. Every family has a name, even if nobody
/// made such a CMap. ISO 32000-1, 9.10.2.
///
/// It fails only if memory runs out.
pub fn ucs2_name(alloc: Global, family: &CidFamily) -> Result<Vec<u8>, AllocError>
    ensures name { IfOk result (λ name. name.items ≡ ucs2_name_of (family_seen family.now)) }

    // If `CidFamily::ucs2_cmap` knows a name for the family, this is the same name.
    ensures known { IfOk result (λ name. IfSome (ucs2_cmap_of (family_seen family.now))
        (λ known. name.items ≡ known)) }
{
    let mut name = Vec::from_slice(alloc, family.registry())?;
    name.extend_from_slice(b"-")?;
    name.extend_from_slice(family.ordering())?;
    name.extend_from_slice(b"-UCS2")?;
    Ok(name)
}

/// The name of the CMap from the CIDs of an encoding to Unicode, by the character collection of the first
/// layer that has one; `None` if no layer has one. ISO 32000-1, 9.10.2.
///
/// It fails only if memory runs out.
pub fn collection_name(alloc: Global, encoding: &Layers) -> Result<Option<Vec<u8>>, AllocError>
    ensures { IfOk result
        (λ name. option_map (λ bytes. bytes.items) name ≡ collection_name_of encoding.now) }
{
    match family_of(encoding) {
        Some(family) => Ok(Some(ucs2_name(alloc, family)?)),
        None => Ok(None),
    }
}

/// The family of the character collection of the first layer that has one.
fn family_of(encoding: &Layers) -> Option<&CidFamily>
    ensures { option_map (λ family. family_seen family.now) result ≡ family_in encoding.now }
{
    for layer in encoding.as_slice() {
        if let Some(collection) = &layer.metadata().character_collection {
            return Some(&collection.family);
        }
    }
    None
}

// The character collections of Adobe that have a CMap from Unicode.
const JAPAN1: &[u8] = b"Adobe-Japan1";

const GB1: &[u8] = b"Adobe-GB1";

const CNS1: &[u8] = b"Adobe-CNS1";

const KOREA1: &[u8] = b"Adobe-Korea1";

const KR: &[u8] = b"Adobe-KR";

const JAPAN2: &[u8] = b"Adobe-Japan2";

/// The names of two CMaps from Unicode to the CIDs of a character collection.
#[derive(Clone, Copy)]
struct FromUnicode {
    horizontal: &'static [u8],
    /// The name for vertical writing, which may be the same.
    vertical: &'static [u8],
}

/// The name of the CMap from Unicode, in UTF-16, to the CIDs of a character collection. For `Adobe-Japan1`
/// the name is `UniJIS-UTF16-H`, or `UniJIS-UTF16-V` for vertical writing. Only the collections Japan1,
/// GB1, CNS1, Korea1, KR and Japan2 of Adobe have such a CMap, and KR has no separate one for vertical
/// writing.
pub fn unicode_name(collection: &[u8], mode: WritingMode) -> Option<&'static [u8]>
    ensures { option_map (λ name. name.now) result ≡ name_for collection.now mode }
{
    let names = from_unicode(collection)?;
    match mode {
        WritingMode::Horizontal => Some(names.horizontal),
        WritingMode::Vertical => Some(names.vertical),
    }
}

/// The names of the CMaps from Unicode to the CIDs of a character collection.
fn from_unicode(collection: &[u8]) -> Option<FromUnicode>
    ensures { option_map (λ names. (names.horizontal.now, names.vertical.now)) result
        ≡ names_of collection.now }
{
    if collection == JAPAN1 {
        return Some(FromUnicode {
            horizontal: b"UniJIS-UTF16-H",
            vertical: b"UniJIS-UTF16-V",
        });
    }
    if collection == GB1 {
        return Some(FromUnicode {
            horizontal: b"UniGB-UTF16-H",
            vertical: b"UniGB-UTF16-V",
        });
    }
    if collection == CNS1 {
        return Some(FromUnicode {
            horizontal: b"UniCNS-UTF16-H",
            vertical: b"UniCNS-UTF16-V",
        });
    }
    if collection == KOREA1 {
        return Some(FromUnicode {
            horizontal: b"UniKS-UTF16-H",
            vertical: b"UniKS-UTF16-V",
        });
    }
    if collection == KR {
        return Some(FromUnicode {
            horizontal: b"UniAKR-UTF16-H",
            vertical: b"UniAKR-UTF16-H",
        });
    }
    if collection == JAPAN2 {
        return Some(FromUnicode {
            horizontal: b"UniHojo-UTF16-H",
            vertical: b"UniHojo-UTF16-V",
        });
    }
    None
}
