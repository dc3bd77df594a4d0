//! Callers that the crates' pages show.

use cmap_bundle_maker::{Source, make_named_bundle};
use cmap_edit::diff::first_cid_difference;
use cmap_edit::flatten::{Codes, Contradiction, subset};
use cmap_edit::tidy::tidy;
use cmap_encode::{Encoder, Unencodable};
use cmap_text::read_text;
use cmap_unicode::Extractor;
use cmap_values::file::File;
use hayro_cmap::bcmap::Bundle;
use hayro_cmap::runs::{Looks, Range, Table};
use hayro_cmap::token::{Scanner, Token};
use hayro_cmap::{
    CMap, CMapName, CharacterCollection, Cid, CidRange, CodeLength, Fault, Stop, load_embedded,
};
use std::alloc::{AllocError, Global};

/// Whether a text begins with a name after a slash.
pub fn begins_with_literal_name(text: &[u8]) -> bool {
    match Scanner::new(text).next_token() {
        Ok(Some(Token::Name(name))) => name.is_literal(),
        _ => false,
    }
}

/// The first CID of the last declaration that contains a code.
pub fn first_cid(
    alloc: Global,
    declarations: Vec<CidRange>,
    code: u32,
) -> Result<Option<Cid>, AllocError> {
    let table = Table::build(alloc, declarations)?;
    let mut looks = Looks::new();
    match table.find(code, &mut looks) {
        Some(declaration) => Ok(Some(declaration.cid)),
        None => Ok(None),
    }
}

/// The name of the CMap from Unicode to the CIDs of a collection.
pub fn name_of_unicode_cmap(collection: &CharacterCollection) -> Option<&'static [u8]> {
    let name = collection.family.unicode_cmap()?;
    Some(name.to_bytes())
}

/// Whether these bytes are a bundle with a file for UniJIS-UTF16-H.
pub fn has_unijis(alloc: Global, bytes: &[u8]) -> Result<bool, AllocError> {
    let Some(bundle) = Bundle::parse(alloc, bytes)? else {
        return Ok(false);
    };
    Ok(load_embedded(Some(&bundle), CMapName::UniJisUtf16H).is_some())
}

/// The bundle of one file, as 90ms-RKSJ-H; `None` if the binary form can't contain the file.
pub fn bundle_of(alloc: Global, file: &File<'_>) -> Result<Option<Vec<u8>>, AllocError> {
    let source = Source {
        name: CMapName::N90msRksjH,
        file,
        text: None,
    };
    match make_named_bundle(alloc, &[source]) {
        Ok(bundle) => Ok(Some(bundle)),
        Err(Fault::Refused(_unwritable)) => Ok(None),
        Err(Fault::Memory) => Err(AllocError),
    }
}

/// How many declarations of texts the top file of a map has.
pub fn count_of_texts(map: &CMap) -> usize {
    match map.layers().as_slice() {
        [top, ..] => top.counts().bfs,
        [] => 0,
    }
}

/// The text of a string of a font, with U+FFFD for each code without a text.
pub fn text_of_string(
    alloc: Global,
    font: &Extractor<'_>,
    string: &[u8],
) -> Result<String, AllocError> {
    font.text(alloc, string, "\u{FFFD}")
}

/// The string of a font that shows a text.
pub fn string_of_text(
    alloc: Global,
    font: &Extractor<'_>,
    text: &str,
) -> Result<Vec<u8>, Fault<Unencodable>> {
    Encoder::build(alloc, font)?.encode(alloc, text)
}

/// The string of a font that shows a text, with `missing` for each character at which strings stop.
pub fn lossy_string_of_text(
    alloc: Global,
    font: &Extractor<'_>,
    text: &str,
    missing: &[u8],
) -> Result<Vec<u8>, AllocError> {
    Encoder::build(alloc, font)?.encode_lossy(alloc, text, missing)
}

/// Whether two maps give the same CIDs to codes of two bytes.
pub fn have_same_cids(left: &CMap, right: &CMap) -> bool {
    first_cid_difference(left.layers(), right.layers(), CodeLength::Two).is_none()
}

/// The file of a text, in the fewest declarations.
pub fn tidied_text<'d>(alloc: Global, text: &'d [u8]) -> Result<File<'d>, Fault<Stop>> {
    let file = read_text(alloc, text)?;
    Ok(tidy(alloc, &file)?)
}

/// The file for a font that has only codes of two bytes from a first to a last one.
pub fn file_for_font<'d>(
    alloc: Global,
    map: &CMap,
    first: u32,
    last: u32,
) -> Result<File<'d>, Fault<Contradiction>> {
    let len = CodeLength::Two;
    let range = Range {
        start: first,
        end: last,
    };
    subset(alloc, map.layers(), &[Codes { len, range }])
}
