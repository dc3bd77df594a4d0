//! The first code at which two maps differ in their CIDs.

ghost use Rattle.std.specs.Prelude.{◌≡◌};
ghost use Rattle.cmap_values.specs.CodeLengths.{length_of};
ghost use Rattle.cmap_edit.specs.Differences.{IsFirstDifference, cids_of};

use crate::diff::parts::{CODE_COUNT, cid_part};
use cmap_layers::layers::Layers;
use cmap_values::code_length::CodeLength;

/// The first code of this length at which the CIDs of two maps differ; `None` if they are equal at
/// all codes of 32 bits. The function allocates no memory.
pub fn first_cid_difference(left: &Layers, right: &Layers, len: CodeLength) -> Option<u32>
    ensures { IsFirstDifference (cids_of left.now (length_of len))
        (cids_of right.now (length_of len)) result }
{
    let mut next = 0;
    while next < CODE_COUNT {
        let first = next as u32;
        let part = cid_part(left, right, len, first);
        if part.differs {
            return Some(first);
        }
        next = u64::from(part.last) + 1;
    }
    None
}
