//! CIDs and notdef CIDs of codes, added to tidy lists.

ghost use Rattle.std.specs.Prelude.{◌≡◌, ◌↔◌, ℕ, ◌+◌, ◌-◌, ◌<◌, ◌≤◌, ◌^◌, All, IsTrue, OnErr, OnOk, Some};
ghost use Rattle.cmap_values.specs.DeclarationsSeen.{cid_entry_seen, entries_seen};
ghost use Rattle.cmap_values.specs.Files.{CidEntry};
ghost use Rattle.cmap_edit.specs.Kinds.{AreTidyOf, CouldBeOneOf, layout_of, said_of};
ghost use Rattle.cmap_edit.specs.Tidy.{AreTidyCids, AreTidyNotdefs, IsSaidInPart, cid_said, notdef_said, said_with};

use crate::tidy::consecutive::{Consecutive, push_rows};
use crate::tidy::counting::{CountOn, Counting, Same};
use crate::tidy::rows::row_end;
use cmap_values::declarations::CidRange;
use cmap_values::names::Cid;
use cmap_values::range::Range;
use std::alloc::AllocError;
use std::marker::PhantomData;

/// Adds codes, with CIDs that count on from `cid`, to a tidy list. All codes of the list come before the
/// new codes.
///
/// The function adds a declaration for each row of 256 codes, for up to 2^24 rows. Where the first row
/// goes on from the last declaration of the list, the two become one.
///
/// The function fails only if memory runs out. After a failure the list is still tidy, and may have the
/// first of the codes.
pub fn push_cids(list: &mut Vec<CidRange>, range: Range, cid: Cid) -> Result<(), AllocError>
    requires tidy { AreTidyCids (entries_seen list.now.items) }
    requires after { All (λ e. e.end < range.start) (entries_seen list.now.items) }
    requires counts { (range.start ≤ range.end) × (cid + (range.end - range.start) < 2 ^ 32) }
    ensures tidy { OnOk result (AreTidyCids (entries_seen list.new.items)) }
    ensures said { OnOk result ((code : ℕ) → cid_said (entries_seen list.new.items) code
        ≡ said_with range (λ code. Some (cid + (code - range.start)))
        (cid_said (entries_seen list.old.items)) code) }
    ensures last { OnOk result (All (λ e. e.end ≤ range.end) (entries_seen list.new.items)) }
    ensures err { OnErr result (AreTidyCids (entries_seen list.new.items)) }
    ensures kept { OnErr result (IsSaidInPart range (λ code. Some (cid + (code - range.start)))
        (cid_said (entries_seen list.old.items)) (cid_said (entries_seen list.new.items))) }
{
    push::<CountOn>(list, range, cid)
}

/// Adds codes that all have the CID to a tidy list. All codes of the list come before the new codes.
///
/// The function adds a declaration for each row of 256 codes, for up to 2^24 rows. Where the first row
/// goes on from the last declaration of the list and has the same CID, the two become one.
///
/// The function fails only if memory runs out. After a failure the list is still tidy, and may have the
/// first of the codes.
pub fn push_notdefs(list: &mut Vec<CidRange>, range: Range, cid: Cid) -> Result<(), AllocError>
    requires tidy { AreTidyNotdefs (entries_seen list.now.items) }
    requires after { All (λ e. e.end < range.start) (entries_seen list.now.items) }
    requires some { range.start ≤ range.end }
    ensures tidy { OnOk result (AreTidyNotdefs (entries_seen list.new.items)) }
    ensures said { OnOk result ((code : ℕ) → notdef_said (entries_seen list.new.items) code
        ≡ said_with range (λ code. cid) (notdef_said (entries_seen list.old.items)) code) }
    ensures last { OnOk result (All (λ e. e.end ≤ range.end) (entries_seen list.new.items)) }
    ensures err { OnErr result (AreTidyNotdefs (entries_seen list.new.items)) }
    ensures kept { OnErr result (IsSaidInPart range (λ code. cid)
        (notdef_said (entries_seen list.old.items)) (notdef_said (entries_seen list.new.items))) }
{
    push::<Same>(list, range, cid)
}

/// Adds codes to a tidy list, as `push_cids` and `push_notdefs` do. The first code has the CID.
pub(crate) fn push<K: Counting>(
    list: &mut Vec<CidRange>,
    range: Range,
    cid: Cid,
) -> Result<(), AllocError>
    requires tidy { AreTidyOf K.kind (entries_seen list.now.items) }
    requires after { All (λ e. e.end < range.start) (entries_seen list.now.items) }
    requires counts { (range.start ≤ range.end)
        × (K.kind.moved cid (range.end - range.start) < 2 ^ 32) }
    ensures tidy { OnOk result (AreTidyOf K.kind (entries_seen list.new.items)) }
    ensures said { OnOk result ((code : ℕ) → said_of K.kind (entries_seen list.new.items) code
        ≡ said_with range (λ code. K.kind.told (K.kind.moved cid (code - range.start)))
        (said_of K.kind (entries_seen list.old.items)) code) }
    ensures last { OnOk result (All (λ e. e.end ≤ range.end) (entries_seen list.new.items)) }
    ensures err { OnErr result (AreTidyOf K.kind (entries_seen list.new.items)) }
    ensures kept { OnErr result (IsSaidInPart range
        (λ code. K.kind.told (K.kind.moved cid (code - range.start)))
        (said_of K.kind (entries_seen list.old.items))
        (said_of K.kind (entries_seen list.new.items))) }
{
    let kind = PhantomData;
    push_rows(list, range, &CidsFrom::<K> { cid, kind })
}

/// Codes in a row of which the first has this CID.
#[derive(Drop)]
struct CidsFrom<K> {
    cid: Cid,
    kind: PhantomData<K>,
}

impl<K: Counting> Consecutive for CidsFrom<K> {
    type Entry = CidRange;

    ghost Seen = { CidEntry };

    ghost Answer = { K.Answer };

    ghost layout = { layout_of K.kind };

    ghost seen = { cid_entry_seen };

    ghost here = { λ cids offset. K.kind.told (K.kind.moved cids.cid offset) };

    ghost Fits = { λ cids offset. K.kind.moved cids.cid offset < 2 ^ 32 };

    fn row(&self, offset: u32, start: u32, last: u32) -> Result<CidRange, AllocError> {
        let range = Range {
            start,
            end: row_end(start, last),
        };
        let cid = self.cid + K::step(offset);
        Ok(CidRange { range, cid })
    }

    fn join(entry: &mut CidRange, later: &CidRange) -> bool {
        let is_one = could_be_one::<K>(entry, later);
        if is_one {
            entry.range.end = later.range.end;
        }
        is_one
    }
}

/// Whether one declaration could replace two, the second of which comes later.
fn could_be_one<K: Counting>(entry: &CidRange, later: &CidRange) -> bool
    requires row { K.kind.IsRow (cid_entry_seen entry.now) }
    requires after { entry.now.range.end < later.now.range.start }
    ensures { IsTrue result
        ↔ CouldBeOneOf K.kind (cid_entry_seen entry.now) (cid_entry_seen later.now) }
{
    let step = K::step(later.range.start - entry.range.start);
    entry.range.end == later.range.start - 1
        && entry.range.start / 256 == later.range.start / 256
        && u64::from(entry.cid) + u64::from(step) == u64::from(later.cid)
}
