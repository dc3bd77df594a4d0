//! Codes in a row, added to tidy lists.

ghost use Rattle.std.specs.Prelude.{◌≡◌, ℕ, ◌+◌, ◌-◌, ◌<◌, ◌≤◌, All, IfOk, IsFalse, IsTrue, OnErr, OnOk, map};
ghost use Rattle.cmap_edit.specs.Consecutive.{AddsRowIn, AreTidyIn, IsLayout, IsRowFrom, Layout, said_in};
ghost use Rattle.cmap_edit.specs.Tidy.{IsSaidInPart, said_with};

use cmap_values::range::{HasRange, Range};
use std::alloc::AllocError;

/// What codes in a row have, by what the first of them has.
pub(crate) trait Consecutive {
    /// A declaration.
    type Entry: HasRange;

    /// What contracts see of a declaration.
    ghost Seen: { Type 0 };

    /// The answer for a code.
    ghost Answer: { Type 0 };

    ghost layout: { Layout Seen Answer };

    ghost seen: { Self.Entry → Seen };

    /// The answer for the code with this offset, if the offset fits.
    ghost here: { Self → ℕ → Answer };

    ghost Fits: { Self → ℕ → Type 0 };

    /// A declaration for the codes from `start` on, the code with this offset, up to the last code of the row
    /// or to `last`.
    fn row(&self, offset: u32, start: u32, last: u32) -> Result<Self::Entry, AllocError>
        requires within { start ≤ last }
        requires fits { Fits self.now (offset + (last - start)) }
        ensures { IfOk result (λ row. IsRowFrom layout
            (λ code. here self.now (offset + (code - start))) start last
            (Self.Entry.span row) (seen row)) };

    /// Makes two declarations one, if one could replace them. The second one comes later.
    fn join(entry: &mut Self::Entry, later: &Self::Entry) -> bool
        requires row { layout.IsRow (seen entry.old) }
        requires after { (layout.span (seen entry.old)).end < (layout.span (seen later.now)).start }
        ensures joined { IsTrue result → layout.CouldBeOne (seen entry.old) (seen later.now)
            × (seen entry.new ≡ layout.merge (seen entry.old) (seen later.now)) }
        ensures same { IsFalse result → (entry.new ≡ entry.old)
            × (layout.CouldBeOne (seen entry.old) (seen later.now) → ⊥) };
}

/// Adds codes to a tidy list. All codes of the list come before the new codes.
///
/// The function adds a declaration for each row. Where the first row goes on from the last declaration of the
/// list, the two become one. It fails only if memory runs out. After a failure the list is still tidy, and may
/// have the first of the codes.
pub(crate) fn push_rows<C: Consecutive>(
    list: &mut Vec<C::Entry>,
    range: Range,
    first: &C,
) -> Result<(), AllocError>
    requires layout { IsLayout C.layout }
    requires tidy { AreTidyIn C.layout (map C.seen list.now.items) }
    requires after { All (λ e. (C.layout.span e).end < range.start) (map C.seen list.now.items) }
    requires counts { (range.start ≤ range.end) × C.Fits first.now (range.end - range.start) }
    ensures tidy { OnOk result (AreTidyIn C.layout (map C.seen list.new.items)) }
    ensures said { OnOk result ((code : ℕ) → said_in C.layout (map C.seen list.new.items) code
        ≡ said_with range (λ code. C.here first.now (code - range.start))
        (said_in C.layout (map C.seen list.old.items)) code) }
    ensures last { OnOk result
        (All (λ e. (C.layout.span e).end ≤ range.end) (map C.seen list.new.items)) }
    ensures err { OnErr result (AreTidyIn C.layout (map C.seen list.new.items)) }
    ensures kept { OnErr result (IsSaidInPart range (λ code. C.here first.now (code - range.start))
        (said_in C.layout (map C.seen list.old.items))
        (said_in C.layout (map C.seen list.new.items))) }
{
    let end = u64::from(range.end);
    let mut next = u64::from(range.start);
    while next <= end {
        let start = next as u32;
        let row = first.row(start - range.start, start, range.end)?;
        next = u64::from(row.range().end) + 1;
        add_row::<C>(list, row)?;
    }
    Ok(())
}

/// Adds a declaration for codes of a row. Where it goes on from the last declaration, the two become one.
fn add_row<C: Consecutive>(list: &mut Vec<C::Entry>, row: C::Entry) -> Result<(), AllocError>
    requires layout { IsLayout C.layout }
    requires tidy { AreTidyIn C.layout (map C.seen list.now.items) }
    requires after { All (λ e. (C.layout.span e).end < (C.layout.span (C.seen row)).start)
        (map C.seen list.now.items) }
    requires row { C.layout.IsRow (C.seen row) }
    ensures added { OnOk result (AddsRowIn C.layout (map C.seen list.old.items) (C.seen row)
        (map C.seen list.new.items)) }
    ensures same { OnErr result (list.new.items ≡ list.old.items) }
{
    if let Some(last) = list.last_mut() {
        if C::join(last, &row) {
            return Ok(());
        }
    }
    list.push(row)?;
    Ok(())
}
