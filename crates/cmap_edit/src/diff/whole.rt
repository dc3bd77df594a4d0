//! The CIDs of two adjacent ranges of codes as one stretch of CIDs.

ghost use Rattle.std.specs.Prelude.{◌≡◌, ◌↔◌, ◌+◌, ◌-◌, ◌<◌, ◌≤◌, ℕ, IsTrue, MatchOption, Option, Some};
ghost use Rattle.cmap_layers.specs.CodeStretches.{cid_after};
ghost use Rattle.cmap_edit.specs.Differences.{HasCids};
ghost use Rattle.cmap_layers.specs.declared.stretches.Cids.{Cids};

use crate::diff::compared::first_of;
use cmap_layers::stretches::Cids;
use cmap_values::names::Cid;
use cmap_values::range::Range;

/// The CIDs of the codes of two ranges as one stretch, if one stretch has them. The second range
/// begins just after the first.
pub(crate) fn whole(front: Cids, first: Range, back: Cids, then: Range) -> Option<Cids>
    requires filled { first.start ≤ first.end }
    requires filled_too { then.start ≤ then.end }
    requires meets { first.end + 1 ≡ then.start }
    ensures { (answer : ℕ → Option ℕ) → HasCids answer first.start first.end front
        → HasCids answer then.start then.end back
        → MatchOption result ((cids : Cids) → HasCids answer first.start then.end cids → ⊥)
        (λ cids. HasCids answer first.start then.end cids) }
{
    let front_more = first.end - first.start;
    let back_more = then.end - then.start;
    let begin = first_of(front);
    if are_all(front, front_more, begin) && are_all(back, back_more, begin) {
        return Some(all_of(begin));
    }
    let begin = begin?;
    let next = u64::from(begin) + u64::from(then.start - first.start);
    (count_from(front, front_more, u64::from(begin))
        && count_from(back, back_more, next)).then_some(Cids::CountOn(begin))
}

/// Whether the first code and `more` further codes all have this answer, a CID or none.
fn are_all(cids: Cids, more: u32, cid: Option<Cid>) -> bool
    ensures { IsTrue result ↔ ((k : ℕ) → k ≤ more → cid_after cids k ≡ cid) }
{
    match cids {
        Cids::CountOn(_) => more == 0 && cid == first_of(cids),
        _ => cid == first_of(cids),
    }
}

/// Whether the first code and `more` further codes have the CIDs that count on from this one.
fn count_from(cids: Cids, more: u32, cid: u64) -> bool
    ensures { IsTrue result ↔ ((k : ℕ) → k ≤ more → cid_after cids k ≡ Some (cid + k)) }
{
    match cids {
        Cids::Absent => false,
        Cids::Same(same) => more == 0 && u64::from(same) == cid,
        Cids::CountOn(begin) => u64::from(begin) == cid,
    }
}

/// The same CID for all codes, or none.
fn all_of(cid: Option<Cid>) -> Cids
    ensures { (k : ℕ) → cid_after result k ≡ cid }
{
    match cid {
        Some(cid) => Cids::Same(cid),
        None => Cids::Absent,
    }
}
