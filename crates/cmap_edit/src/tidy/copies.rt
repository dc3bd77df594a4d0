//! Copies of declarations.

ghost use Rattle.std.specs.Prelude.{◌≡◌, IfOk, map};
ghost use Rattle.cmap_values.specs.DeclarationsSeen.{bf_entry_seen};

use cmap_values::declarations::{BfRange, CidRange};
use std::alloc::{AllocError, Global};

/// A copy of a list of CID declarations.
pub(crate) fn copied_cids(alloc: Global, list: &[CidRange]) -> Result<Vec<CidRange>, AllocError>
    ensures { IfOk result (λ copy. copy.items ≡ list.now) }
{
    let mut copy = Vec::with_capacity(alloc, list.len())?;
    for entry in list {
        copy.push(entry.clone())?;
    }
    Ok(copy)
}

/// A copy of a list of text declarations.
pub(crate) fn copied_texts(alloc: Global, list: &[BfRange]) -> Result<Vec<BfRange>, AllocError>
    ensures { IfOk result (λ copy. map bf_entry_seen copy.items ≡ map bf_entry_seen list.now) }
{
    let mut copy = Vec::with_capacity(alloc, list.len())?;
    for entry in list {
        copy.push(entry.clone(alloc)?)?;
    }
    Ok(copy)
}
