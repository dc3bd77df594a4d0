//! Declarations with their runs.

ghost use Rattle.std.specs.Prelude.{◌≡◌, ℕ, ◌+◌, ◌-◌, ◌*◌, ◌^◌, ◌<◌, ◌≤◌, None, Some, IfOk, IfNone, IfSome, IsTrue, is_some, length, map, slice_get};
ghost use Rattle.std.specs.Option.{option_copied};
ghost use Rattle.cmap_runs.specs.Ranges.{AreTheRuns, HasDigits, contains, digits, last_of, runs_of};
ghost use Rattle.cmap_runs.specs.SearchLooks.{LooksAtMost};
ghost use Rattle.cmap_runs.specs.Stretches.{IsLongest, IsStretch};

use super::HasRange;
use super::held::{Blocks, Held};
use super::looks::Looks;
use super::search::find_after_blocks;
use super::stretch::{Stretch, Stretches};
use super::sweep::runs_of;
use std::alloc::{AllocError, Global};
use std::fmt;
use std::marker::Model;

/// A list of declarations with a search for the last declaration that contains a code. The search in a
/// list of runs counts bits for the first codes, and is a binary search for the other codes. A run is
/// a maximal row of consecutive codes that one declaration decides. Indices count from 0, and codes
/// are numbers of 32 bits.
///
/// If the ranges lie apart, the ranges are the runs, and the list of runs consists only of their
/// order. A look at such a run reads the range of its declaration, and counts only as a look at a run.
pub struct Table<T: HasRange> {
    held: Held<T>,
    blocks: Blocks,
}

// A crate that drops a table calls this, and proves nothing of the table's parts.
impl<T: HasRange> Drop for Table<T> {
    fn drop(self) {
        let Table { held: _, blocks: _ } = self;
    }
}

// Contracts see the list.
impl<T: HasRange> Model for Table<T> {
    ghost use Rattle.std.specs.Prelude.{◌≡◌, ◌-◌, ◌*◌, ◌≤◌, List, length, map};
    ghost use Rattle.cmap_runs.specs.Blocks.{AreBlocks};
    ghost use Rattle.cmap_runs.specs.Ranges.{runs_of};

    ghost Value = { List T };

    ghost view = { λ table. table.held.declarations };

    ghost invariant = { λ table. (table.held.runs ≡ runs_of (map T.span table.held.declarations))
        × AreBlocks table.held.runs table.blocks
        × (length table.held.runs ≤ 2 * length table.held.declarations - 1) };
}

/// Shows the list of the declarations.
impl<T: HasRange + fmt::Debug> fmt::Debug for Table<T> {
    fn fmt<W: fmt::Write>(&self, f: &mut fmt::Formatter<W>) -> fmt::Result {
        fmt::Debug::fmt(&self.held, f)
    }
}

impl<T: HasRange> Table<T> {
    /// The table of the declarations of `list`, in this order.
    ///
    /// It fails only if memory runs out, and then drops `list`. No other call allocates memory.
    pub fn build(alloc: Global, list: Vec<T>) -> Result<Table<T>, AllocError>
        ensures { IfOk result (λ table. table ≡ list.items) }
    {
        // Gives back the capacity that wasn't used.
        let mut list = list;
        list.shrink_to_fit();
        let found = runs_of(alloc, list.as_slice())?;
        let mut held = Held::new(list, found.runs);
        let maker = match found.blocks {
            Some(maker) => maker,
            None => held.made(alloc)?,
        };
        let blocks = held.finished(maker);
        Ok(Table { held, blocks })
    }

    /// The last declaration of the list that contains `code`; `None` if no declaration contains it.
    #[inline(always)]
    pub fn find(&self, code: u32, looks: &mut Looks) -> Option<&T>
        ensures found { option_copied result ≡ last_of T.span self.now code }
        ensures contains { IfSome result
            (λ declaration. IsTrue (contains (T.span declaration.now) code)) }

        // The call looks at no more runs than the number of runs has binary digits, and looks at a
        // declaration only to answer it.
        ensures looks { LooksAtMost looks.old looks.new
            (digits (length (runs_of (map T.span self.now)))) 1 (is_some result) }
        ensures no_declaration { IfNone result
            (looks.new.declarations ≡ looks.old.declarations) }
    {
        let Some(found) = self.held.find_in_block(&self.blocks, code, looks) else {
            if u64::from(code) >= self.end() {
                return None;
            }
            return find_after_blocks(&self.held, &self.blocks, code, looks);
        };
        found
    }

    /// A code after all codes of the declarations: no declaration contains this code or a later code.
    #[inline(always)]
    pub fn end(&self) -> u64
        ensures { (code : ℕ) → code < 2 ^ 32 → result ≤ code
            → last_of T.span self.now code ≡ None }
    {
        self.blocks.end
    }

    /// The stretches of the codes from `first` on. Only the first stretch needs a search.
    pub fn stretches(&self, first: u32, looks: &mut Looks) -> Stretches<'_, T>
        ensures declarations { result.declarations ≡ self.now }
        ensures next { result.next ≡ first }
        ensures runs { looks.new.runs
            ≤ looks.old.runs + digits (length (runs_of (map T.span self.now))) }
        ensures grows { looks.old.runs ≤ looks.new.runs }
        ensures none { looks.new.declarations ≡ looks.old.declarations }
    {
        Stretches::of(&self.held, first, looks)
    }

    /// The stretch of the codes from `first` on.
    pub fn stretch(&self, first: u32) -> Stretch<'_, T>
        ensures within { first ≤ result.last }
        ensures same { IsStretch T.span self.now first result.last (option_copied result.declaration) }
        ensures longest { IsLongest (map T.span self.now) first result.last }
        ensures start { IfSome result.declaration
            (λ declaration. (T.span declaration.now).start ≤ first) }
    {
        let mut looks = Looks::new();
        match self.stretches(first, &mut looks).next(&mut looks) {
            Some(stretch) => stretch,
            None => unreachable!(),
        }
    }

    /// How many declarations the table has.
    pub fn decl_count(&self) -> usize
        ensures { result ≡ length self.now }
    {
        self.held.declaration_count()
    }

    /// How many runs the table has. The runs come in the order of their codes.
    pub fn run_count(&self) -> usize
        ensures count { result ≡ length (runs_of (map T.span self.now)) }
        ensures runs { AreTheRuns (map T.span self.now) (runs_of (map T.span self.now)) }

        // There are fewer than two runs for each declaration.
        ensures few { result ≤ 2 * length self.now - 1 }

        // `find` looks at no more runs than this number of binary digits.
        ensures digits { HasDigits result (digits result) }
    {
        self.held.run_count()
    }

    /// The first code of the run at `i`, its last code and the index of the declaration that decides
    /// the codes. `i` is below `run_count`; a larger `i` panics.
    pub fn run(&self, i: usize, looks: &mut Looks) -> (u32, u32, usize)
        requires { i < length (runs_of (map T.span self.now)) }
        ensures run { slice_get (runs_of (map T.span self.now)) i
            ≡ Some (record { low = result.0; high = result.1; index = result.2 }) }
        ensures runs { looks.new.runs ≡ looks.old.runs + 1 }
        ensures declarations { looks.new.declarations ≡ looks.old.declarations }
    {
        let run = self.held.run(i, looks);
        (run.low, run.high, run.index)
    }

    /// The declaration at index `i`. `i` is below `decl_count`; a larger `i` panics.
    pub fn decl(&self, i: usize, looks: &mut Looks) -> &T
        requires { i < length self.now }
        ensures declaration { slice_get self.now i ≡ Some result.now }
        ensures runs { looks.new.runs ≡ looks.old.runs }
        ensures declarations { looks.new.declarations ≡ looks.old.declarations + 1 }
    {
        self.held.declaration(i, looks)
    }
}
