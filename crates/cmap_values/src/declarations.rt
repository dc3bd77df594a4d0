//! What a CMap declares for its codes.

ghost use Rattle.std.specs.Prelude.{◌≡◌, ◌==◌, ◌+◌, ◌<◌, ◌≤◌, [], ◌∷◌, ◌++◌, IfOk, OnErr, OnOk, if◌then◌else◌, vec_capacity, vec_len};
ghost use Rattle.cmap_values.specs.CodeLengths.{length_of};
ghost use Rattle.cmap_values.specs.Files.{Declaration, lists_of};
ghost use Rattle.cmap_values.specs.DeclarationsSeen.{bf_entry_seen, cid_entry_seen, codespace_seen, lists_seen, slot};
ghost use Rattle.cmap_values.specs.ListsAppended.{no_lists, append_lists};

use crate::code_length::CodeLength;
use crate::names::Cid;
use crate::range::{HasRange, Range};
use crate::units::Units;
use std::alloc::{AllocError, Global};

/// Codes from a start to an end, with their CIDs.
#[derive(Debug, Drop)]
pub struct CidRange {
    pub range: Range,
    /// The CID of the first code.
    pub cid: Cid,
}

impl CidRange {
    /// A copy of the range. It takes no memory.
    pub fn clone(&self) -> CidRange
        ensures { result ≡ self.now }
    {
        CidRange {
            range: self.range,
            cid: self.cid,
        }
    }
}

impl HasRange for CidRange {
    ghost use Rattle.cmap_values.specs.DeclarationsSeen.{cid_range_span};

    ghost span = { cid_range_span };

    fn range(&self) -> &Range {
        &self.range
    }
}

/// Codes from a start to an end, with their texts.
#[derive(Debug, Drop)]
pub struct BfRange {
    pub range: Range,
    /// The units of the text of the first code.
    pub units: Units,
}

impl BfRange {
    /// A copy of the range.
    pub fn clone(&self, alloc: Global) -> Result<BfRange, AllocError>
        ensures { IfOk result (λ copy. bf_entry_seen copy ≡ bf_entry_seen self.now) }
    {
        Ok(BfRange {
            range: self.range,
            units: self.units.clone(alloc)?,
        })
    }
}

impl HasRange for BfRange {
    ghost use Rattle.cmap_values.specs.DeclarationsSeen.{bf_range_span};

    ghost span = { bf_range_span };

    fn range(&self) -> &Range {
        &self.range
    }
}

/// A codespace range: codes of one length, where each byte lies between the bytes of `low` and `high` at
/// its position.
#[derive(Clone, Copy, Debug)]
pub struct Codespace {
    pub len: CodeLength,
    pub low: u32,
    pub high: u32,
}

/// A value for codes of each length in bytes.
#[derive(Debug, Drop)]
pub struct ByLength<T> {
    pub one: T,
    pub two: T,
    pub three: T,
    pub four: T,
}

impl<T> ByLength<T> {
    /// The value for codes of this length.
    pub fn get(&self, len: CodeLength) -> &T
        ensures { result.now ≡ slot self.now len }
    {
        match len {
            CodeLength::One => &self.one,
            CodeLength::Two => &self.two,
            CodeLength::Three => &self.three,
            CodeLength::Four => &self.four,
        }
    }
}

/// The declarations of a file by their kinds, each list in the order of the file.
#[derive(Drop)]
pub struct Lists {
    pub cids: ByLength<Vec<CidRange>>,
    pub notdefs: ByLength<Vec<CidRange>>,
    pub bfs: Vec<BfRange>,
    pub spaces: Vec<Codespace>,
}

impl Lists {
    pub fn new(alloc: Global) -> Lists
        ensures { lists_seen result ≡ no_lists }
    {
        Lists {
            cids: empty_lists(alloc),
            notdefs: empty_lists(alloc),
            bfs: Vec::new(alloc),
            spaces: Vec::new(alloc),
        }
    }

    /// Adds a declaration of CIDs for codes of this length.
    #[inline(always)]
    pub fn add_cid(&mut self, len: CodeLength, range: CidRange) -> Result<(), AllocError>
        ensures added { OnOk result (lists_seen self.new ≡ append_lists (lists_seen self.old)
            (lists_of (Declaration.cid (length_of len) (cid_entry_seen range) ∷ []))) }
        ensures same { OnErr result (lists_seen self.new ≡ lists_seen self.old) }
    {
        push_filed(&mut self.cids, len, range)
    }

    /// Reserves space for this number of further declarations of CIDs for codes of this length.
    ///
    /// It fails only if memory runs out.
    pub fn reserve_cids(&mut self, len: CodeLength, additional: usize) -> Result<(), AllocError>
        ensures same { lists_seen self.new ≡ lists_seen self.old }
        ensures room { OnOk result (let list = slot self.new.cids len in
            vec_len list + additional ≤ vec_capacity list) }
    {
        match len {
            CodeLength::One => self.cids.one.reserve(additional),
            CodeLength::Two => self.cids.two.reserve(additional),
            CodeLength::Three => self.cids.three.reserve(additional),
            CodeLength::Four => self.cids.four.reserve(additional),
        }
    }

    /// Adds a notdef declaration for codes of this length.
    pub fn add_notdef(&mut self, len: CodeLength, range: CidRange) -> Result<(), AllocError>
        ensures added { OnOk result (lists_seen self.new ≡ append_lists (lists_seen self.old)
            (lists_of (Declaration.notdef (length_of len) (cid_entry_seen range) ∷ []))) }
        ensures same { OnErr result (lists_seen self.new ≡ lists_seen self.old) }
    {
        push_filed(&mut self.notdefs, len, range)
    }

    /// Adds a declaration of texts.
    #[inline(always)]
    pub fn add_bf(&mut self, range: BfRange) -> Result<(), AllocError>
        ensures added { OnOk result (lists_seen self.new ≡ append_lists (lists_seen self.old)
            (lists_of (Declaration.bf (bf_entry_seen range) ∷ []))) }
        ensures same { OnErr result (lists_seen self.new ≡ lists_seen self.old) }
    {
        if self.bfs.len() == self.bfs.capacity() {
            grow_by_half(&mut self.bfs)?;
        }
        self.bfs.push_reserved(range);
        Ok(())
    }

    /// Adds a codespace range.
    pub fn add_codespace(&mut self, space: Codespace) -> Result<(), AllocError>
        ensures added { OnOk result (lists_seen self.new ≡ append_lists (lists_seen self.old)
            (lists_of (Declaration.codespace (codespace_seen space) ∷ []))) }
        ensures same { OnErr result (lists_seen self.new ≡ lists_seen self.old) }
    {
        push(&mut self.spaces, space)
    }
}

/// Adds a declaration to the list for codes of this length.
#[inline(always)]
fn push_filed(
    lists: &mut ByLength<Vec<CidRange>>,
    len: CodeLength,
    range: CidRange,
) -> Result<(), AllocError>
    ensures one { OnOk result (lists.new.one.items
        ≡ lists.old.one.items ++ (if length_of len == 1 then range ∷ [] else [])) }
    ensures two { OnOk result (lists.new.two.items
        ≡ lists.old.two.items ++ (if length_of len == 2 then range ∷ [] else [])) }
    ensures three { OnOk result (lists.new.three.items
        ≡ lists.old.three.items ++ (if length_of len == 3 then range ∷ [] else [])) }
    ensures four { OnOk result (lists.new.four.items
        ≡ lists.old.four.items ++ (if length_of len == 4 then range ∷ [] else [])) }
    ensures same { OnErr result ((lists.new.one.items ≡ lists.old.one.items)
        × (lists.new.two.items ≡ lists.old.two.items)
        × (lists.new.three.items ≡ lists.old.three.items)
        × (lists.new.four.items ≡ lists.old.four.items)) }
{
    match len {
        CodeLength::One => push(&mut lists.one, range),
        CodeLength::Two => push(&mut lists.two, range),
        CodeLength::Three => push(&mut lists.three, range),
        CodeLength::Four => push(&mut lists.four, range),
    }
}

/// The least number of further values for which a full list reserves space.
const FIRST_ROOM: usize = 32;

/// Adds a value to a list.
#[inline(always)]
fn push<T: Drop>(list: &mut Vec<T>, value: T) -> Result<(), AllocError>
    ensures added { OnOk result (list.new.items ≡ list.old.items ++ value ∷ []) }
    ensures same { OnErr result (list.new.items ≡ list.old.items) }
{
    if list.len() == list.capacity() {
        list.reserve(FIRST_ROOM)?;
    }
    list.push_reserved(value);
    Ok(())
}

/// Reserves space for more values, half as many as a list has and 16 more. The texts of a file take the
/// most memory while the file is read, so their list isn't doubled.
#[inline(never)]
fn grow_by_half<T>(list: &mut Vec<T>) -> Result<(), AllocError>
    ensures same { list.new.items ≡ list.old.items }
    ensures room { OnOk result (vec_len list.new < vec_capacity list.new) }
{
    list.reserve_exact(list.len() / 2 + 16)
}

fn empty_lists(alloc: Global) -> ByLength<Vec<CidRange>>
    ensures one { result.one.items ≡ [] }
    ensures two { result.two.items ≡ [] }
    ensures three { result.three.items ≡ [] }
    ensures four { result.four.items ≡ [] }
{
    ByLength {
        one: Vec::new(alloc),
        two: Vec::new(alloc),
        three: Vec::new(alloc),
        four: Vec::new(alloc),
    }
}
