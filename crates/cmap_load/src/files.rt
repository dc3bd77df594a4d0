//! The files that a file uses.

ghost use Rattle.std.specs.Prelude.{IfOk};
ghost use Rattle.cmap_binary.specs.BundleSeen.{tables_given};
ghost use Rattle.cmap_values.specs.NamesSeen.{names_seen};
ghost use Rattle.cmap_values.specs.Outcomes.{Finds};
ghost use Rattle.cmap_load.specs.Layers.{AreUses, Means};

use crate::chain::read_file;
use cmap_binary::Bundle;
use cmap_values::fault::Fault;
use std::alloc::{AllocError, Global};

/// The names of the files that the CMap file `data` uses, in order; `None` if `data` is outside the
/// grammar. The function asks for none of these files. A caller who fetches files one by one learns
/// from the names which files to fetch. With a bundle, a file that begins with `bcmap` is read as
/// binary.
pub fn uses<'a>(
    alloc: Global,
    data: &'a [u8],
    bundle: Option<&Bundle<'_>>,
) -> Result<Option<Vec<&'a [u8]>>, AllocError>
    ensures { IfOk result (Finds (AreUses (Means (tables_given bundle.entry)) «data».now)
        (λ names. names_seen names.items)) }
{
    match read_file(alloc, data, bundle) {
        Ok(file) => Ok(Some(file.uses)),
        Err(Fault::Refused(_)) => Ok(None),
        Err(Fault::Memory) => Err(AllocError),
    }
}
