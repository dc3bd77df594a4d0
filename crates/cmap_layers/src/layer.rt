//! The layers of a map: the content of each file in a chain, with its declarations in tables.

ghost use Rattle.std.specs.Prelude.{◌≡◌, IfOk, map};
ghost use Rattle.cmap_values.specs.CodeLengths.{length_of};
ghost use Rattle.cmap_values.specs.DeclarationsSeen.{bf_entry_seen, codespace_seen, entries_seen, lists_seen};
ghost use Rattle.cmap_values.specs.Files.{of_length};
ghost use Rattle.cmap_layers.specs.Counts.{counts_of, lengths_of};
ghost use Rattle.cmap_layers.specs.LayersSeen.{by_length_seen, layer_seen, lists_held, metadata_seen};

use crate::others::Others;
use cmap_codespaces::Spaces;
use cmap_runs::runs::{Looks, Table};
use cmap_values::code_length::CodeLength;
use cmap_values::declarations::{BfRange, ByLength, CidRange, Codespace, Lists};
use cmap_values::memory::both;
use cmap_values::metadata::Metadata;
use std::alloc::{AllocError, Global};
use std::fmt;

/// A layer of a map: what one file states about itself and its codes, without the files that it uses.
/// ISO 32000-1, 9.7.5.
pub struct Layer {
    metadata: Metadata,
    pub(crate) cids: ByLength<Table<CidRange>>,
    pub(crate) others: Others,
    pub(crate) spaces: Spaces,
}

// A crate that drops a layer calls this `drop`, and proves nothing about the layer's parts.
impl Drop for Layer {
    fn drop(self) {
        let Layer {
            metadata: _,
            cids: _,
            others: _,
            spaces: _,
        } = self;
    }
}

impl fmt::Debug for Layer {
    fn fmt<W: fmt::Write>(&self, f: &mut fmt::Formatter<W>) -> fmt::Result {
        f.debug_struct("Layer")
            .field("metadata", &self.metadata)
            .field("cids", &self.cids)
            .field("notdefs", self.others.notdefs())
            .field("bfs", self.others.bfs())
            .field("spaces", &self.spaces)
            .finish()
    }
}

/// The number of declarations of each kind in a layer.
#[derive(Debug, Drop)]
pub struct DeclarationCounts {
    /// The declarations of the CIDs of codes, by the length of the codes.
    pub cids: ByLength<usize>,
    /// The declarations of the CID of a character that isn't defined, by the length of the codes.
    pub notdefs: ByLength<usize>,
    /// The declarations of the texts of codes.
    pub bfs: usize,
}

impl Layer {
    /// The layer of a file with this metadata and these declarations.
    ///
    /// It fails only if memory runs out.
    pub fn build(alloc: Global, metadata: Metadata, lists: Lists) -> Result<Layer, AllocError>
        ensures { IfOk result (λ layer. layer_seen layer
            ≡ record { metadata = metadata_seen metadata; lists = lists_seen lists }) }
    {
        let ((cids, notdefs), (bfs, spaces)) = tables_of(alloc, lists)?;
        Ok(Layer {
            metadata,
            cids,
            others: Others::new(notdefs, bfs),
            spaces,
        })
    }

    /// The metadata that the file states about itself.
    pub fn metadata(&self) -> &Metadata
        ensures { metadata_seen result.now ≡ (layer_seen self.now).metadata }
    {
        &self.metadata
    }

    /// The codespace ranges, in the order of the file. ISO 32000-1, 9.7.6.2.
    pub fn codespaces(&self) -> &[Codespace]
        ensures { map codespace_seen result.now ≡ (layer_seen self.now).lists.spaces }
    {
        self.spaces.as_slice()
    }

    /// The declarations of CIDs for codes of this length, in the order of the file, with the runs of
    /// codes that each of them decides.
    pub fn cids(&self, len: CodeLength) -> &Table<CidRange>
        ensures { entries_seen result.now
            ≡ of_length (layer_seen self.now).lists.cids (length_of len) }
    {
        self.cids.get(len)
    }

    /// The declarations of the CID of a character that isn't defined, for codes of this length, in the
    /// order of the file, with their runs.
    pub fn notdefs(&self, len: CodeLength) -> &Table<CidRange>
        ensures { entries_seen result.now
            ≡ of_length (layer_seen self.now).lists.notdefs (length_of len) }
    {
        self.others.notdefs().get(len)
    }

    /// The declarations of texts, in the order of the file, with their runs.
    pub fn texts(&self) -> &Table<BfRange>
        ensures { map bf_entry_seen result.now ≡ (layer_seen self.now).lists.bfs }
    {
        self.others.bfs()
    }

    /// The number of declarations of each kind. Codespace ranges don't count.
    pub fn counts(&self) -> DeclarationCounts
        ensures { result ≡ counts_of (layer_seen self.now).lists }
    {
        DeclarationCounts {
            cids: lengths_of(&self.cids),
            notdefs: lengths_of(self.others.notdefs()),
            bfs: self.others.bfs().decl_count(),
        }
    }

    /// A copy of the layer.
    pub fn clone(&self, alloc: Global) -> Result<Layer, AllocError>
        ensures { IfOk result (λ copy. layer_seen copy ≡ layer_seen self.now) }
    {
        let (metadata, lists) = both(self.metadata.clone(alloc), self.lists(alloc))?;
        Layer::build(alloc, metadata, lists)
    }

    /// A copy of the declarations.
    fn lists(&self, alloc: Global) -> Result<Lists, AllocError>
        ensures { IfOk result (λ lists. lists_seen lists ≡ (layer_seen self.now).lists) }
    {
        let cids = copied_lists(alloc, &self.cids);
        let notdefs = copied_lists(alloc, self.others.notdefs());
        let bfs = copied_bfs(alloc, self.others.bfs());
        let spaces = Vec::from_slice(alloc, self.spaces.as_slice());
        let ((cids, notdefs), (bfs, spaces)) = both(both(cids, notdefs), both(bfs, spaces))?;
        Ok(Lists {
            cids,
            notdefs,
            bfs,
            spaces,
        })
    }
}

/// The number of declarations in each table.
fn lengths_of(tables: &ByLength<Table<CidRange>>) -> ByLength<usize>
    ensures { result ≡ lengths_of (by_length_seen tables.now) }
{
    ByLength {
        one: tables.one.decl_count(),
        two: tables.two.decl_count(),
        three: tables.three.decl_count(),
        four: tables.four.decl_count(),
    }
}

/// The tables of the CIDs, of the notdefs and of the texts, and the codespace ranges.
type Tables = (
    (ByLength<Table<CidRange>>, ByLength<Table<CidRange>>),
    (Table<BfRange>, Spaces),
);

/// The tables of all declarations of a file.
fn tables_of(alloc: Global, lists: Lists) -> Result<Tables, AllocError>
    ensures { IfOk result (λ tables. tables
        ≡ (
          (lists_held lists.cids, lists_held lists.notdefs),
          (lists.bfs.items, lists.spaces.items),
        )) }
{
    let Lists {
        cids,
        notdefs,
        bfs,
        spaces,
    } = lists;
    let cids_and_notdefs = both(build_tables(alloc, cids), build_tables(alloc, notdefs));
    let texts_and_spaces = both(Table::build(alloc, bfs), Spaces::build(alloc, spaces));
    both(cids_and_notdefs, texts_and_spaces)
}

/// The table of each list.
fn build_tables(
    alloc: Global,
    lists: ByLength<Vec<CidRange>>,
) -> Result<ByLength<Table<CidRange>>, AllocError>
    ensures { IfOk result (λ tables. tables ≡ lists_held lists) }
{
    let lists = [lists.one, lists.two, lists.three, lists.four];
    let table = |list| Table::build(alloc, list);
    let [one, two, three, four] = lists.try_map(table)?;
    Ok(ByLength {
        one,
        two,
        three,
        four,
    })
}

/// A copy of the declarations of each table.
fn copied_lists(
    alloc: Global,
    tables: &ByLength<Table<CidRange>>,
) -> Result<ByLength<Vec<CidRange>>, AllocError>
    ensures { IfOk result (λ lists. lists_held lists ≡ tables.now) }
{
    let each = [&tables.one, &tables.two, &tables.three, &tables.four];
    let copied = |table| copied_cids(alloc, table);
    let [one, two, three, four] = each.try_map(copied)?;
    Ok(ByLength {
        one,
        two,
        three,
        four,
    })
}

/// A copy of the declarations of a table.
fn copied_cids(alloc: Global, table: &Table<CidRange>) -> Result<Vec<CidRange>, AllocError>
    ensures { IfOk result (λ list. list.items ≡ table.now) }
{
    let mut looks = Looks::new();
    let mut list = Vec::with_capacity(alloc, table.decl_count())?;
    for index in 0..table.decl_count() {
        list.push(table.decl(index, &mut looks).clone())?;
    }
    Ok(list)
}

/// A copy of the declarations of a table.
fn copied_bfs(alloc: Global, table: &Table<BfRange>) -> Result<Vec<BfRange>, AllocError>
    ensures { IfOk result (λ list. map bf_entry_seen list.items ≡ map bf_entry_seen table.now) }
{
    let mut looks = Looks::new();
    let mut list = Vec::with_capacity(alloc, table.decl_count())?;
    for index in 0..table.decl_count() {
        list.push(table.decl(index, &mut looks).clone(alloc)?)?;
    }
    Ok(list)
}
