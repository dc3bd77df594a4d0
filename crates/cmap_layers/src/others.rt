//! The declarations that are searched for codes without a CID.

ghost use Rattle.std.specs.Prelude.{◌≡◌, true, None};
ghost use Rattle.cmap_runs.specs.Ranges.{last_of};
ghost use Rattle.cmap_values.specs.DeclarationsSeen.{bf_range_span, cid_range_span, slot};
ghost use Rattle.cmap_values.specs.declared.code_length.CodeLength.{CodeLength};

use cmap_runs::runs::Table;
use cmap_values::declarations::{BfRange, ByLength, CidRange};
use std::marker::Model;

/// The notdefs and the texts of a layer, which decide the CIDs only of codes without a CID
/// declaration.
#[derive(Drop)]
pub(crate) struct Others {
    notdefs: ByLength<Table<CidRange>>,
    bfs: Table<BfRange>,
    /// A code after the codes of all notdefs and texts, whatever their length.
    end: u64,
}

// Contracts see the lists.
impl Model for Others {
    ghost use Rattle.cmap_layers.specs.Others.{AreBefore, OtherLists};

    ghost Value = { OtherLists };

    ghost view = { λ others. record { notdefs = others.notdefs; bfs = others.bfs } };

    ghost invariant = { λ others. AreBefore others.notdefs others.bfs others.end };
}

impl Others {
    pub(crate) fn new(notdefs: ByLength<Table<CidRange>>, bfs: Table<BfRange>) -> Others
        ensures { result ≡ record { notdefs = notdefs; bfs = bfs } }
    {
        let short = notdefs.one.end().max(notdefs.two.end());
        let long = notdefs.three.end().max(notdefs.four.end());
        let end = short.max(long).max(bfs.end());
        Others { notdefs, bfs, end }
    }

    /// The declarations of the CIDs of characters that aren't defined.
    #[inline(always)]
    pub(crate) fn notdefs(&self) -> &ByLength<Table<CidRange>>
        ensures { result.now ≡ self.now.notdefs }
    {
        &self.notdefs
    }

    /// The declarations of texts.
    #[inline(always)]
    pub(crate) fn bfs(&self) -> &Table<BfRange>
        ensures { result.now ≡ self.now.bfs }
    {
        &self.bfs
    }

    /// Whether all notdefs and texts are known to end before `code`, as most do.
    #[inline(always)]
    pub(crate) fn end_before(&self, code: u32) -> bool
        ensures notdefs { result ≡ true → (len : CodeLength)
            → last_of cid_range_span (slot self.now.notdefs len) code ≡ None }
        ensures bfs { result ≡ true → last_of bf_range_span self.now.bfs code ≡ None }
    {
        u64::from(code) >= self.end
    }
}
