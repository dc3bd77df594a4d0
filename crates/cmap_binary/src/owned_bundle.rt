//! Bundles with copies of their files.

ghost use Rattle.std.specs.Prelude.{◌≡◌, [], IfOk, option_and_then, slice_get};
ghost use Rattle.std.specs.Option.{option_copied};
ghost use Rattle.cmap_binary.specs.BundleSeen.{bundle_seen};
ghost use Rattle.cmap_binary.specs.Bundles.{IsBundle};
ghost use Rattle.cmap_values.specs.CMapNames.{index_of_name};
ghost use Rattle.cmap_values.specs.NamesSeen.{names_seen};
ghost use Rattle.cmap_values.specs.Outcomes.{Finds};
ghost use Rattle.cmap_binary.specs.Copies.{copies_seen};

use crate::bundle::Bundle;
use cmap_values::names::CMapName;
use std::alloc::{AllocError, Global};
use std::marker::Model;

/// A bundle with copies of its files, so that it outlives the bytes that were parsed.
#[derive(Debug)]
pub struct OwnedBundle {
    without_files: Bundle<'static>,
    files: Vec<Vec<u8>>,
}

// A crate that drops a bundle calls this `drop`, and proves nothing about the bundle's parts.
impl Drop for OwnedBundle {
    fn drop(self) {
        let OwnedBundle {
            without_files: _,
            files: _,
        } = self;
    }
}

// Contracts see the tables and the files.
impl Model for OwnedBundle {
    ghost use Rattle.std.specs.Prelude.{◌≡◌, []};
    ghost use Rattle.cmap_binary.specs.BundleSeen.{tables_seen};
    ghost use Rattle.cmap_binary.specs.Bundles as bundles;
    ghost use Rattle.cmap_binary.specs.Copies.{copies_seen};

    ghost Value = { bundles.Bundle };

    ghost view = { λ bundle. record { tables = tables_seen bundle.without_files.tables; files = copies_seen bundle.files.items } };

    ghost invariant = { λ bundle. bundle.without_files.files.items ≡ [] };
}

impl OwnedBundle {
    /// Parses a bundle as `Bundle::parse` does, and copies its files; `None` if the bytes are invalid.
    ///
    /// It fails only if memory runs out.
    pub fn parse(alloc: Global, bytes: &[u8]) -> Result<Option<OwnedBundle>, AllocError>
        ensures { IfOk result (Finds (IsBundle bytes.now) (λ bundle. bundle)) }
    {
        let Some(bundle) = Bundle::parse(alloc, bytes)? else {
            return Ok(None);
        };
        let files = copied(alloc, &bundle.files)?;
        let without_files = Bundle {
            tables: bundle.tables,
            files: Vec::new(alloc),
        };
        Ok(Some(OwnedBundle {
            without_files,
            files,
        }))
    }

    /// The tables, as a bundle without files. A CMap is parsed with this bundle if `file` gives the
    /// files that the CMap uses.
    pub fn without_files(&self) -> &Bundle<'static>
        ensures { bundle_seen result.now ≡ record { tables = self.now.tables; files = [] } }
    {
        &self.without_files
    }

    /// The file of this name, as `load_embedded` gives it: `None` for a `Custom` name, and if the
    /// bundle has no file at the index of the name. No memory is allocated.
    pub fn file(&self, name: CMapName<'_>) -> Option<&[u8]>
        ensures { option_copied result
            ≡ option_and_then (λ at. slice_get self.now.files at) (index_of_name name.entry) }
    {
        self.files.get(name.index()?).map(Vec::as_slice)
    }
}

/// Copies of the files.
fn copied(alloc: Global, files: &[&[u8]]) -> Result<Vec<Vec<u8>>, AllocError>
    ensures { IfOk result (λ copies. copies_seen copies.items ≡ names_seen files.now) }
{
    let mut copies = Vec::with_capacity(alloc, files.len())?;
    for file in files {
        let copy = Vec::from_slice(alloc, file)?;
        copies.push(copy)?;
    }
    Ok(copies)
}
