//! Lists of CIDs and of notdef declarations, written anew as tidy lists.

ghost use Rattle.std.specs.Prelude.{◌≤◌, IfOk, MatchOption, Some};
ghost use Rattle.cmap_values.specs.DeclarationsSeen.{cid_entry_seen, entries_seen};
ghost use Rattle.cmap_edit.specs.Kinds.{AreTidiedOf, AreTidyAnew, GivesOf, LosesOne};

use crate::tidy::cids::push;
use crate::tidy::copies::copied_cids;
use crate::tidy::counting::Counting;
use cmap_runs::runs::{Looks, Table};
use cmap_values::declarations::CidRange;
use cmap_values::names::Cid;
use cmap_values::range::Range;
use std::alloc::{AllocError, Global};

/// The tidy list with the same answers; or, where a CID passes 32 bits, a copy of the list.
pub(crate) fn tidied_cids<K: Counting>(
    alloc: Global,
    list: &[CidRange],
) -> Result<Vec<CidRange>, AllocError>
    ensures { IfOk result (λ tidied. AreTidiedOf K.kind (entries_seen list.now)
        (entries_seen tidied.items)) }
{
    let table = Table::build(alloc, copied_cids(alloc, list)?)?;
    match cids_by_runs::<K>(alloc, &table)? {
        Some(tidied) => Ok(tidied),
        None => copied_cids(alloc, list),
    }
}

/// The tidy list with the same answers, run by run; `None` where a CID passes 32 bits.
fn cids_by_runs<K: Counting>(
    alloc: Global,
    table: &Table<CidRange>,
) -> Result<Option<Vec<CidRange>>, AllocError>
    ensures { IfOk result (λ tidied. MatchOption tidied (LosesOne K.kind (entries_seen table.now))
        (λ list. AreTidyAnew K.kind (entries_seen table.now) (entries_seen list.items))) }
{
    let mut looks = Looks::new();
    let mut list = Vec::new(alloc);
    let mut stretches = table.stretches(0, &mut looks);
    let mut next: u64 = 0;
    while let Some(stretch) = stretches.next(&mut looks) {
        if let Some(declaration) = stretch.declaration {
            let range = Range {
                start: next as u32,
                end: stretch.last,
            };
            let Some(cid) = first_cid::<K>(declaration, &range) else {
                return Ok(None);
            };
            push::<K>(&mut list, range, cid)?;
        }
        next = u64::from(stretch.last) + 1;
    }
    Ok(Some(list))
}

/// The CID of the first code of a range, which the declaration contains; `None` where the CID of the last
/// code passes 32 bits.
fn first_cid<K: Counting>(declaration: &CidRange, range: &Range) -> Option<Cid>
    requires starts { declaration.now.range.start ≤ range.now.start }
    requires filled { range.now.start ≤ range.now.end }
    ensures { MatchOption result
        (K.kind.IsLost (Some (K.kind.at (cid_entry_seen declaration.now) range.now.end)))
        (λ cid. GivesOf K.kind (cid_entry_seen declaration.now) range.now cid) }
{
    let cid = declaration
        .cid
        .checked_add(K::step(range.start - declaration.range.start))?;
    cid.checked_add(K::step(range.end - range.start))?;
    Some(cid)
}
