//! The comparison of the CIDs of two maps for consecutive codes: up to which code the CIDs differ,
//! or are equal, at each code.

ghost use Rattle.std.specs.Prelude.{◌≡◌, ◌≢◌, ◌+◌, ◌≤◌, ℕ, Some};
ghost use Rattle.cmap_layers.specs.CodeStretches.{cid_after};
ghost use Rattle.cmap_edit.specs.Differences.{DiffersIf};

use cmap_layers::stretches::Cids;
use cmap_values::names::Cid;

/// Whether consecutive codes differ, all of them or none, and how many further codes follow the
/// first.
#[derive(Clone, Copy)]
pub(crate) struct Comparison {
    pub(crate) differs: bool,
    pub(crate) more: u32,
}

/// Compares the CIDs of two maps from a first code on, for up to `most` further codes.
pub(crate) fn compared(left: Cids, right: Cids, most: u32) -> Comparison
    ensures within { result.more ≤ most }
    ensures answers { (k : ℕ) → k ≤ result.more
        → DiffersIf result.differs (cid_after left k) (cid_after right k) }
{
    match (left, right) {
        (Cids::Same(same), Cids::CountOn(begin)) => until_met(same, begin, most),
        (Cids::CountOn(begin), Cids::Same(same)) => until_met(same, begin, most),
        _ => Comparison {
            differs: first_of(left) != first_of(right),
            more: most,
        },
    }
}

/// Compares one CID with the CIDs that count on from another.
fn until_met(same: Cid, begin: Cid, most: u32) -> Comparison
    ensures within { result.more ≤ most }
    ensures answers { (k : ℕ) → k ≤ result.more → DiffersIf result.differs same (begin + k) }
{
    match same.checked_sub(begin) {
        Some(0) => Comparison {
            differs: false,
            more: 0,
        },
        Some(offset) => Comparison {
            differs: true,
            more: most.min(offset - 1),
        },
        None => Comparison {
            differs: true,
            more: most,
        },
    }
}

/// The CID of the first code.
pub(crate) fn first_of(cids: Cids) -> Option<Cid>
    ensures { result ≡ cid_after cids 0 }
{
    match cids {
        Cids::Absent => None,
        Cids::Same(cid) | Cids::CountOn(cid) => Some(cid),
    }
}
