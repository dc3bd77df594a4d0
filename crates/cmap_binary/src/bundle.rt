//! Bundles of CMap files in binary form.

ghost use Rattle.std.specs.Prelude.{◌≡◌, IfOk, option_and_then, slice_get};
ghost use Rattle.std.specs.Option.{option_copied};
ghost use Rattle.cmap_binary.specs.BundleSeen.{bundle_seen, tables_seen};
ghost use Rattle.cmap_binary.specs.Bundles.{HoldsTables, IsBundle};
ghost use Rattle.cmap_binary.specs.Fronts.{AllOf, FramedAt};
ghost use Rattle.cmap_values.specs.Outcomes.{Finds};
ghost use Rattle.cmap_values.specs.CMapNames.{index_of_name};
ghost use Rattle.cmap_values.specs.NamesSeen.{names_seen};

use crate::bits::Reader;
use crate::pieces::{take_framed, take_sized};
use crate::prefix::PrefixTable;
use cmap_values::names::CMapName;
use std::alloc::{AllocError, Global};

/// The bytes in a bundle in place of a missing file: the head of a binary file of version 0, which no
/// reader accepts, and the number of these bytes.
pub const NO_FILE: &[u8] = b"bcmap\0\0\0\0\x0A";

/// The prefix tables of binary CMap files, and the files, each at its index. The files are slices of the
/// bytes that were parsed.
#[derive(Debug, Drop)]
pub struct Bundle<'b> {
    pub(crate) tables: Tables,
    pub(crate) files: Vec<&'b [u8]>,
}

/// The prefix tables that all binary files share.
#[derive(Debug)]
pub struct Tables {
    /// The table for the number of codes that an entry skips after the entry before.
    pub delta: PrefixTable,
    /// The table for the number of codes in a range minus two.
    pub count: PrefixTable,
}

// A crate that drops the tables calls this `drop`, and proves nothing about their parts.
impl Drop for Tables {
    fn drop(self) {
        let Tables { delta: _, count: _ } = self;
    }
}

impl<'b> Bundle<'b> {
    /// Parses a bundle: four bytes with the length of a piece, the piece with the two prefix tables, and
    /// files up to the end. `None` if the bytes are invalid.
    ///
    /// It fails only if memory runs out.
    pub fn parse(alloc: Global, mut bytes: &'b [u8]) -> Result<Option<Bundle<'b>>, AllocError>
        ensures { IfOk result (Finds (IsBundle bytes.now) bundle_seen) }
    {
        let Some(text) = take_sized(&mut bytes) else {
            return Ok(None);
        };
        let Some(files) = split_files(alloc, bytes)? else {
            return Ok(None);
        };
        let Some(tables) = Tables::parse(alloc, text)? else {
            return Ok(None);
        };
        Ok(Some(Bundle { tables, files }))
    }

    /// The prefix tables.
    pub fn tables(&self) -> &Tables
        ensures { tables_seen result.now ≡ (bundle_seen self.now).tables }
    {
        &self.tables
    }
}

impl Tables {
    /// The tables that the text begins with.
    fn parse(alloc: Global, text: &[u8]) -> Result<Option<Tables>, AllocError>
        ensures { IfOk result (Finds (HoldsTables text.now) tables_seen) }
    {
        let mut reader = Reader::new(text);
        let Some(delta) = PrefixTable::parse_delta(alloc, &mut reader)? else {
            return Ok(None);
        };
        let Some(count) = PrefixTable::parse_count(alloc, &mut reader)? else {
            return Ok(None);
        };
        Ok(Some(Tables { delta, count }))
    }
}

/// The number of bytes in a file before its length; these bytes aren't checked.
const UNCHECKED: usize = 6;

/// Splits the bytes into files, up to the end.
fn split_files<'b>(alloc: Global, mut bytes: &'b [u8]) -> Result<Option<Vec<&'b [u8]>>, AllocError>
    ensures { IfOk result (Finds (AllOf (FramedAt 6) bytes.now) (λ files. names_seen files.items)) }
{
    let mut files = Vec::new(alloc);
    while !bytes.is_empty() {
        let Some(file) = take_framed(&mut bytes, UNCHECKED) else {
            return Ok(None);
        };
        files.push(file)?;
    }
    Ok(Some(files))
}

/// The file of this name; `None` without a bundle, for a `Custom` name, and if the bundle has no file at
/// the index of the name. No memory is allocated.
pub fn load_embedded<'b>(bundle: Option<&Bundle<'b>>, name: CMapName<'_>) -> Option<&'b [u8]>
    ensures { option_copied result ≡ option_and_then
        (λ b. option_and_then (λ at. slice_get (bundle_seen b).files at) (index_of_name name.entry))
        (option_copied bundle.entry) }
{
    match (bundle, name.index()) {
        (Some(bundle), Some(index)) => bundle.files.get(index).copied(),
        _ => None,
    }
}
