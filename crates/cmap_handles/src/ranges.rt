//! Ranges of codes and declarations in their C form.

use crate::room::Items;
use cmap_runs::runs::{Looks, Table};
use cmap_values::declarations::{BfRange, CidRange, Codespace};
use cmap_values::range::Range;

/// A codespace range: codes of `byte_len` bytes, each byte between the corresponding bytes of `low`
/// and `high`.
#[repr(C)]
#[derive(Clone, Copy)]
pub struct CodespaceRange {
    /// The code with the lowest bytes.
    pub low: u32,
    /// The code with the highest bytes.
    pub high: u32,
    /// The number of bytes of each code, 1 to 4.
    pub byte_len: u32,
}

impl<'s> Items for &'s [Codespace] {
    type Item = CodespaceRange;

    ghost use Rattle.cmap_handles.specs.Handles.{ranges_seen, spaces_seen};

    ghost items = { λ spaces. ranges_seen (spaces_seen spaces.now) };

    fn count(&self) -> usize {
        self.len()
    }

    fn item(&self, index: usize) -> CodespaceRange {
        let space = self[index];
        CodespaceRange {
            low: space.low,
            high: space.high,
            byte_len: u32::from(space.len.count()),
        }
    }
}

/// A declaration of CIDs: the codes from `first` to `last`, and the CID of the first code.
#[repr(C)]
#[derive(Clone, Copy)]
pub struct DeclaredCids {
    /// The first code.
    pub first: u32,
    /// The last code.
    pub last: u32,
    /// The CID of the first code.
    pub cid: u32,
}

/// A declaration of texts: the codes from `first` to `last`, and the number of UTF-16 units of the
/// text of the first code.
#[repr(C)]
#[derive(Clone, Copy)]
pub struct DeclaredTexts {
    /// The first code.
    pub first: u32,
    /// The last code.
    pub last: u32,
    /// The number of UTF-16 units of the text of the first code.
    pub units: usize,
}

impl Items for Table<CidRange> {
    type Item = DeclaredCids;

    ghost use Rattle.std.specs.Prelude.{map};
    ghost use Rattle.cmap_values.specs.DeclarationsSeen.{entries_seen};
    ghost use Rattle.cmap_handles.specs.Ranges.{cid_range_seen};

    ghost items = { λ table. map cid_range_seen (entries_seen table) };

    fn count(&self) -> usize {
        self.decl_count()
    }

    #[tactic(auto, using(crate::proofs::FilledRows::mapped_at))]
    fn item(&self, index: usize) -> DeclaredCids {
        let declared = self.decl(index, &mut Looks::new());
        DeclaredCids {
            first: declared.range.start,
            last: declared.range.end,
            cid: declared.cid,
        }
    }
}

impl Items for Table<BfRange> {
    type Item = DeclaredTexts;

    ghost use Rattle.std.specs.Prelude.{map};
    ghost use Rattle.cmap_values.specs.DeclarationsSeen.{bf_entry_seen};
    ghost use Rattle.cmap_handles.specs.Ranges.{text_range_seen};

    ghost items = { λ table. map text_range_seen (map bf_entry_seen table) };

    fn count(&self) -> usize {
        self.decl_count()
    }

    #[tactic(auto, using(crate::proofs::FilledRows::mapped_at))]
    fn item(&self, index: usize) -> DeclaredTexts {
        let declared = self.decl(index, &mut Looks::new());
        DeclaredTexts {
            first: declared.range.start,
            last: declared.range.end,
            units: declared.units.as_slice().len(),
        }
    }
}

/// The codes from `first` to `last`.
#[repr(C)]
#[derive(Clone, Copy)]
pub struct CodeRange {
    /// The first code.
    pub first: u32,
    /// The last code.
    pub last: u32,
}

impl Items for Vec<Range> {
    type Item = CodeRange;

    ghost use Rattle.std.specs.Prelude.{map};
    ghost use Rattle.cmap_handles.specs.Ranges.{code_range_seen};

    ghost items = { λ ranges. map code_range_seen ranges.items };

    fn count(&self) -> usize {
        self.len()
    }

    fn item(&self, index: usize) -> CodeRange {
        let range = self[index];
        CodeRange {
            first: range.start,
            last: range.end,
        }
    }
}
