//! The CIDs of codes in a row, from each table stretch by stretch.

ghost use Rattle.std.specs.Prelude.{◌≡◌, ℕ, ◌+◌, ◌-◌, ◌<◌, ◌≤◌, ◌^◌, length, map, min, nat_lt, option_and_then, option_map, slice_index, unwrap_or, if◌then◌else◌};
ghost use Rattle.cmap_tokens.specs.Texts.{only_character};
ghost use Rattle.cmap_values.specs.CodeLengths.{length_of};
ghost use Rattle.cmap_values.specs.DeclarationsSeen.{bf_entry_seen, cid_entry_seen, entries_seen};
ghost use Rattle.cmap_layers.specs.LayersSeen.{layers_seen};
ghost use Rattle.cmap_layers.specs.Lookups.{bf_at};
ghost use Rattle.cmap_layers.specs.Rows.{AreCidsOf};
ghost use Rattle.cmap_layers.specs.RowsWritten.{IsWritten, character_said, cid_said, given};

use crate::layers::Layers;
use cmap_runs::runs::{Looks, Table};
use cmap_tokens::utf16::one_char;
use cmap_values::code_length::CodeLength;
use cmap_values::declarations::{BfRange, CidRange};
use cmap_values::names::Cid;

/// The kind of CIDs that the declarations of a table give to codes.
#[derive(Clone, Copy)]
enum Kind {
    /// CIDs that count on from code to code; `absent` replaces a CID past 32 bits.
    Cids { absent: Cid },
    /// The same CID to all codes.
    Notdefs,
}

impl Layers {
    /// Fills `cids` with the CIDs of the codes of `byte_len` bytes from `first` on, one after another, as
    /// `cid` gives them. `absent` replaces the CID of a code that has none, and of each number past 32
    /// bits.
    ///
    /// Each list of declarations is searched for the first code, and then read in order. Each table
    /// overwrites the CIDs of the tables before it. The tables of the lowest layer come first; within a
    /// layer, the texts come first, then the notdefs, then the CIDs.
    pub fn fill_cids(&self, first: u32, byte_len: u8, absent: Cid, cids: &mut [Cid])
        ensures { AreCidsOf self.now byte_len absent first cids.new }
    {
        cids.fill(absent);
        let Some(len) = CodeLength::of(byte_len) else {
            return;
        };
        let layers = self.as_slice();
        let mut looks = Looks::new();
        for index in (0..layers.len()).rev() {
            let layer = &layers[index];
            write_characters(layer.others.bfs(), first, cids, &mut looks);
            let notdefs = layer.notdefs(len);
            write_cids(notdefs, Kind::Notdefs, first, cids, &mut looks);
            let declared = layer.cids(len);
            write_cids(declared, Kind::Cids { absent }, first, cids, &mut looks);
        }
    }
}

/// Writes the CIDs that a table of CIDs or notdefs gives to the codes from `first` on.
fn write_cids(table: &Table<CidRange>, kind: Kind, first: u32, cids: &mut [Cid], looks: &mut Looks)
    ensures { IsWritten (cid_said kind (entries_seen table.now)) first cids.old cids.new }
{
    let mut stretches = table.stretches(first, looks);
    let mut from = 0;
    while from < cids.len() {
        let Some(stretch) = stretches.next(looks) else {
            break;
        };
        let end = end_in_row(first, stretch.last, cids.len());
        if let Some(declaration) = stretch.declaration {
            write_declared(declaration, kind, first + from as u32, &mut cids[from..end]);
        }
        from = end;
    }
}

/// Writes the characters that a table gives to the codes from `first` on.
fn write_characters(table: &Table<BfRange>, first: u32, cids: &mut [Cid], looks: &mut Looks)
    ensures { IsWritten (character_said (map bf_entry_seen table.now)) first cids.old cids.new }
{
    let mut stretches = table.stretches(first, looks);
    let mut from = 0;
    while from < cids.len() {
        let Some(stretch) = stretches.next(looks) else {
            break;
        };
        let end = end_in_row(first, stretch.last, cids.len());
        if let Some(declaration) = stretch.declaration {
            write_text(declaration, first + from as u32, &mut cids[from..end]);
        }
        from = end;
    }
}

/// The index after the code `last` in a row of `len` codes from `first` on, or `len` if the row ends
/// before it.
fn end_in_row(first: u32, last: u32, len: usize) -> usize
    requires { first ≤ last }
    ensures { result ≡ min (last - first + 1) len }
{
    (u64::from(last - first) + 1).min(len as u64) as usize
}

/// Writes the CIDs that a declaration gives to the codes from `code` on. The declaration contains these
/// codes.
fn write_declared(declaration: &CidRange, kind: Kind, code: u32, cids: &mut [Cid])
    requires { declaration.now.range.start ≤ code }
    ensures { (k : ℕ) → k < length cids.new
        → slice_index cids.new k ≡ given kind (cid_entry_seen declaration.now) (code + k) }
{
    match kind {
        Kind::Cids { absent } => {
            let cid = u64::from(declaration.cid) + u64::from(code - declaration.range.start);
            count_on(cid, absent, cids);
        }
        Kind::Notdefs => cids.fill(declaration.cid),
    }
}

/// Writes numbers that count on from `cid`, with `absent` for each number past 32 bits.
fn count_on(cid: u64, absent: Cid, cids: &mut [Cid])
    requires { cid < 2 ^ 33 }
    ensures { (k : ℕ) → k < length cids.new
        → slice_index cids.new k ≡ (if nat_lt (cid + k) (2 ^ 32) then cid + k else absent) }
{
    for (index, slot) in cids.iter_mut().enumerate() {
        *slot = u32::try_from(cid + index as u64).unwrap_or(absent);
    }
}

/// Writes the character of each code from `code` on whose text is just one character. The declaration
/// contains these codes.
fn write_text(declaration: &BfRange, code: u32, cids: &mut [Cid])
    requires start { declaration.now.range.start ≤ code }
    requires fits { code + length cids.old ≤ 2 ^ 32 }
    ensures { (k : ℕ) → k < length cids.new → slice_index cids.new k ≡ unwrap_or
        (only_character (bf_at (bf_entry_seen declaration.now) (code + k)))
        (slice_index cids.old k) }
{
    let units = declaration.units.as_slice();
    let offset = code - declaration.range.start;
    for (index, slot) in cids.iter_mut().enumerate() {
        if let Some(character) = one_char(units, offset + index as u32) {
            *slot = u32::from(character);
        }
    }
}
