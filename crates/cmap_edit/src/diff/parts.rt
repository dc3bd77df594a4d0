//! Consecutive codes at which two maps differ, at each code or at none.

ghost use Rattle.std.specs.Prelude.{◌≡◌, ◌+◌, ◌-◌, ◌≤◌, ℕ};
ghost use Rattle.cmap_values.specs.CodeLengths.{length_of};
ghost use Rattle.cmap_edit.specs.Differences.{DiffersIf, HasCids, cids_of};

use crate::diff::compared::compared;
use cmap_layers::layers::Layers;
use cmap_layers::stretches::Cids;
use cmap_values::code_length::CodeLength;

/// The number of codes of 32 bits.
pub(crate) const CODE_COUNT: u64 = 1 << 32;

/// Consecutive codes, with their CIDs in both maps, which differ at each code or at none.
#[derive(Clone, Copy)]
pub(crate) struct CidPart {
    pub(crate) left: Cids,
    pub(crate) right: Cids,
    pub(crate) last: u32,
    pub(crate) differs: bool,
}

/// The part that begins with this code.
pub(crate) fn cid_part(left: &Layers, right: &Layers, len: CodeLength, first: u32) -> CidPart
    ensures within { first ≤ result.last }
    ensures left { HasCids (cids_of left.now (length_of len)) first result.last result.left }
    ensures right { HasCids (cids_of right.now (length_of len)) first result.last result.right }
    ensures answers { (code : ℕ) → first ≤ code → code ≤ result.last
        → DiffersIf result.differs (cids_of left.now (length_of len) code)
        (cids_of right.now (length_of len) code) }
{
    let here = left.cid_stretch(first, len);
    let there = right.cid_stretch(first, len);
    let last = here.last.min(there.last);
    let part = compared(here.cids, there.cids, last - first);
    CidPart {
        left: here.cids,
        right: there.cids,
        last: first + part.more,
        differs: part.differs,
    }
}
