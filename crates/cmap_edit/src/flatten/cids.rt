//! The declarations of CIDs and of notdefs for the chosen codes.

ghost use Rattle.std.specs.Prelude.{◌+◌, ◌-◌, ◌≤◌, ◌^◌, IfOk, OnOk};
ghost use Rattle.cmap_values.specs.CodeLengths.{length_of};
ghost use Rattle.cmap_values.specs.DeclarationsSeen.{entries_seen};
ghost use Rattle.cmap_unicode.specs.Given.{given, Fits, given_after};
ghost use Rattle.cmap_edit.specs.Parts.{AreDeclared, AreDeclaredBelow, IsAdded, IsRoom};

use crate::flatten::codes::{Codes, codes_of_length};
use crate::tidy::{push_cids, push_notdefs};
use cmap_layers::layers::Layers;
use cmap_layers::stretches::Cids;
use cmap_runs::runs::{Looks, Table};
use cmap_unicode::declared_stretch;
use cmap_values::code_length::CodeLength;
use cmap_values::declarations::CidRange;
use cmap_values::range::Range;
use std::alloc::{AllocError, Global};

/// Declarations for codes of one length.
#[derive(Drop)]
pub(crate) struct Declared {
    pub(crate) cids: Vec<CidRange>,
    pub(crate) notdefs: Vec<CidRange>,
}

impl Declared {
    /// Adds what the layers declare for the codes of a range, after all others.
    fn add_codes(
        &mut self,
        layers: &Layers,
        range: Range,
        len: CodeLength,
    ) -> Result<(), AllocError>
        requires room { IsRoom (entries_seen self.now.cids.items)
            (entries_seen self.now.notdefs.items) range.start }
        requires range { range.start ≤ range.end }
        ensures { OnOk result (IsAdded (entries_seen self.old.cids.items)
            (entries_seen self.old.notdefs.items)
            range.start (range.end + 1) (λ code. given layers.now code (length_of len))
            (entries_seen self.new.cids.items) (entries_seen self.new.notdefs.items)) }
    {
        let end = u64::from(range.end);
        let mut next = u64::from(range.start);
        while next <= end {
            let start = next as u32;
            let declared = declared_stretch(layers, start, len);
            let part = Range {
                start,
                end: declared.last.min(range.end),
            };
            next = u64::from(part.end) + 1;
            self.add(declared.cids, part)?;
        }
        Ok(())
    }

    /// Adds codes with these CIDs after all others: as CIDs if they count on, and as a notdef if all codes
    /// have the same CID.
    fn add(&mut self, cids: Cids, range: Range) -> Result<(), AllocError>
        requires room { IsRoom (entries_seen self.now.cids.items)
            (entries_seen self.now.notdefs.items) range.start }
        requires range { range.start ≤ range.end }
        requires fits { Fits cids (range.end - range.start) }
        ensures { OnOk result (IsAdded (entries_seen self.old.cids.items)
            (entries_seen self.old.notdefs.items)
            range.start (range.end + 1) (λ code. given_after cids (code - range.start))
            (entries_seen self.new.cids.items) (entries_seen self.new.notdefs.items)) }
    {
        match cids {
            Cids::Absent => Ok(()),
            Cids::Same(cid) => push_notdefs(&mut self.notdefs, range, cid),
            Cids::CountOn(cid) => push_cids(&mut self.cids, range, cid),
        }
    }
}

/// The declarations for the chosen codes of this length: each code gets the CID or the notdef that the layers
/// declare.
pub(crate) fn declared_of(
    alloc: Global,
    layers: &Layers,
    codes: &[Codes],
    len: CodeLength,
) -> Result<Declared, AllocError>
    ensures { IfOk result (λ made. AreDeclared layers.now codes.now (length_of len)
        (entries_seen made.cids.items) (entries_seen made.notdefs.items)) }
{
    let chosen = codes_of_length(alloc, codes, len)?;
    declared_in(alloc, layers, &chosen, len)
}

/// The declarations for the codes of a table.
fn declared_in(
    alloc: Global,
    layers: &Layers,
    chosen: &Table<Codes>,
    len: CodeLength,
) -> Result<Declared, AllocError>
    ensures { IfOk result (λ made. AreDeclaredBelow layers.now (length_of len) chosen.now (2 ^ 32)
        (entries_seen made.cids.items) (entries_seen made.notdefs.items)) }
{
    let mut made = Declared {
        cids: Vec::new(alloc),
        notdefs: Vec::new(alloc),
    };
    let mut looks = Looks::new();
    let mut stretches = chosen.stretches(0, &mut looks);
    let mut next: u64 = 0;
    while let Some(stretch) = stretches.next(&mut looks) {
        if stretch.declaration.is_some() {
            let range = Range {
                start: next as u32,
                end: stretch.last,
            };
            made.add_codes(layers, range, len)?;
        }
        next = u64::from(stretch.last) + 1;
    }
    Ok(made)
}
