//! The codes at which two maps differ in their CIDs.

ghost use Rattle.std.specs.Prelude.{◌≡◌, ◌+◌, ◌-◌, ◌^◌, ◌<◌, ◌≤◌, ℕ, All, IfOk, MatchOption, OnOk, Option};
ghost use Rattle.cmap_values.specs.CodeLengths.{length_of};
ghost use Rattle.cmap_edit.specs.Differences.{AreCidDifferences, AreCidDifferencesBelow, CouldBeOneOfCids, IsCidDifference};

use crate::diff::parts::{CODE_COUNT, cid_part};
use crate::diff::whole::whole;
use cmap_layers::layers::Layers;
use cmap_layers::stretches::Cids;
use cmap_values::code_length::CodeLength;
use cmap_values::range::Range;
use std::alloc::{AllocError, Global};

/// Consecutive codes, at each of which two maps give different CIDs.
#[derive(Clone, Copy, Debug)]
pub struct CidDifference {
    /// The codes.
    pub range: Range,
    /// Their CIDs in the first map.
    pub left: Cids,
    /// Their CIDs in the second map.
    pub right: Cids,
}

/// All codes of this length at which the CIDs of two maps differ, in order. Each stretch is as long
/// as its CIDs go on in both maps. The codes may be larger than this length allows, if a file
/// declares such codes.
///
/// It fails only if memory runs out.
pub fn cid_differences(
    alloc: Global,
    left: &Layers,
    right: &Layers,
    len: CodeLength,
) -> Result<Vec<CidDifference>, AllocError>
    ensures { IfOk result
        (λ differences. AreCidDifferences left.now right.now (length_of len) differences.items) }
{
    let mut differences = Vec::new(alloc);
    let mut next = 0;
    while next < CODE_COUNT {
        let first = next as u32;
        let part = cid_part(left, right, len, first);
        if part.differs {
            let (start, end) = (first, part.last);
            let difference = CidDifference {
                range: Range { start, end },
                left: part.left,
                right: part.right,
            };
            add(&mut differences, difference)?;
        }
        next = u64::from(part.last) + 1;
    }
    Ok(differences)
}

/// Adds a difference at the end, joined with the last one if the two could be one.
fn add(differences: &mut Vec<CidDifference>, next: CidDifference) -> Result<(), AllocError>
    requires filled { All (λ difference. difference.range.start ≤ difference.range.end)
        differences.old.items }
    requires filled_too { next.range.start ≤ next.range.end }
    ensures { OnOk result ((left right : ℕ → Option ℕ)
        → AreCidDifferencesBelow left right next.range.start differences.old.items
        → IsCidDifference left right next
        → AreCidDifferencesBelow left right (next.range.end + 1) differences.new.items) }
{
    let Some(last) = differences.pop() else {
        differences.push(next)?;
        return Ok(());
    };
    if let Some(both) = as_one(last, next) {
        differences.push(both)?;
        return Ok(());
    }
    differences.push(last)?;
    differences.push(next)?;
    Ok(())
}

/// Two differences as one, if they could be one.
fn as_one(last: CidDifference, next: CidDifference) -> Option<CidDifference>
    requires filled { last.range.start ≤ last.range.end }
    requires filled_too { next.range.start ≤ next.range.end }
    ensures { (left right : ℕ → Option ℕ) → IsCidDifference left right last
        → IsCidDifference left right next
        → MatchOption result (CouldBeOneOfCids left right last next → ⊥) (λ both.
        (last.range.end + 1 ≡ next.range.start) × (both.range.start ≡ last.range.start)
        × (both.range.end ≡ next.range.end) × IsCidDifference left right both) }
{
    if next.range.start == 0 || next.range.start - 1 != last.range.end {
        return None;
    }
    Some(CidDifference {
        range: Range {
            start: last.range.start,
            end: next.range.end,
        },
        left: whole(last.left, last.range, next.left, next.range)?,
        right: whole(last.right, last.range, next.right, next.range)?,
    })
}
