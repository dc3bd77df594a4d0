//! The first or the last code of each key, where consecutive codes are given to consecutive keys.

ghost use Rattle.std.specs.Prelude.{◌≡◌, ◌+◌, ◌^◌, ◌<◌, ◌≤◌, All, IfOk, IfSome, option_map};
ghost use Rattle.std.specs.Option.{option_copied};
ghost use Rattle.cmap_values.specs.CodeLengths.{length_of};
ghost use Rattle.cmap_encode.specs.KeyCodesSeen.{AreFirsts, AreLasts, IsCodeRun, IsKeyStretch, code_at, code_for, lateness_of, precedence_of};

use crate::code::Code;
use crate::rank::{LAST_PLACE, Ranked};
use cmap_runs::runs::{Looks, Table};
use cmap_values::range::{HasRange, Range};
use std::alloc::{AllocError, Global};
use std::marker::Model;

/// Consecutive codes for consecutive keys: the first key has the first code, and each further key the next code. All
/// codes have the same rank.
#[derive(Clone, Copy)]
pub(crate) struct CodeRun {
    /// The keys.
    pub(crate) range: Range,
    /// The code of the first key.
    pub(crate) first: Ranked,
}

impl HasRange for CodeRun {
    ghost use Rattle.cmap_encode.specs.CodeRuns.{run_span};

    ghost span = { run_span };

    fn range(&self) -> &Range {
        &self.range
    }
}

impl CodeRun {
    /// The run of a first key with its code, and of keys for up to `more` codes after it, as far as there are keys.
    pub(crate) fn from_key(key: u32, first: Ranked, more: u32) -> CodeRun
        requires { first.code.number + more < 256 ^ length_of first.code.len }
        ensures run { IsCodeRun result }
        ensures key { result.range.start ≡ key }
        ensures first { result.first ≡ first }
        ensures more { (key ≤ result.range.end) × (result.range.end ≤ key + more) }
        ensures all { key + more < 2 ^ 32 → result.range.end ≡ key + more }
    {
        let end = key.saturating_add(more);
        CodeRun {
            range: Range { start: key, end },
            first,
        }
    }

    /// The code of a key.
    fn code_at(self, key: u32) -> Ranked
        requires run { IsCodeRun self }
        requires start { self.range.start ≤ key }
        requires end { key ≤ self.range.end }
        ensures { result ≡ code_at self key }
    {
        let number = self.first.code.number + (key - self.range.start);
        Ranked {
            code: Code {
                number,
                len: self.first.code.len,
            },
            rank: self.first.rank,
        }
    }

    /// The precedence of the run. Of two runs, the run with the higher precedence gives the earlier code to each key
    /// that both have. If the ranks and the lengths of the codes are the same, the numbers differ by the same amount
    /// at each of these keys.
    fn precedence(self) -> u64
        ensures { result ≡ precedence_of self }
    {
        let better = u64::from(LAST_PLACE - self.first.rank.place()) << 35;
        let shorter = u64::from(4 - self.first.code.len.count()) << 33;
        better + shorter + (1 << 32) + u64::from(self.range.start)
            - u64::from(self.first.code.number)
    }

    /// The lateness of the run. Of two runs, the later run gives the later code to each key that both have.
    fn lateness(self) -> u64
        ensures { result ≡ lateness_of self }
    {
        let longer = u64::from(self.first.code.len.count()) << 33;
        longer + (1 << 32) + u64::from(self.first.code.number) - u64::from(self.range.start)
    }
}

/// One code of each key: the first or the last.
#[derive(Drop)]
pub(crate) struct KeyCodes {
    table: Table<CodeRun>,
}

// A clause sees the runs. The last run that contains a key gives the key its code.
impl Model for KeyCodes {
    ghost use Rattle.std.specs.Prelude.{List, All};
    ghost use Rattle.cmap_encode.specs.KeyCodesSeen.{IsCodeRun};
    ghost use Rattle.cmap_encode.specs.declared.key_codes.CodeRun.{CodeRun};

    ghost Value = { List CodeRun };

    ghost view = { λ codes. codes.table };

    ghost invariant = { λ codes. All IsCodeRun codes.table };
}

/// Consecutive keys that have consecutive codes, or that have no codes.
#[derive(Clone, Copy)]
pub(crate) struct KeyStretch {
    /// The code of the first key.
    pub(crate) first: Option<Ranked>,
    /// The last of the keys.
    pub(crate) last: u32,
}

impl KeyCodes {
    /// The first of the codes that the runs give to each key: the code with the best rank, then with the fewest bytes,
    /// then with the least number.
    pub(crate) fn first(alloc: Global, runs: Vec<CodeRun>) -> Result<KeyCodes, AllocError>
        requires { All IsCodeRun runs.items }
        ensures { IfOk result (AreFirsts runs.items) }
    {
        let mut runs = runs;
        runs.sort_by_key(|run| run.precedence())?;
        let table = Table::build(alloc, runs)?;
        Ok(KeyCodes { table })
    }

    /// The last of the codes that the runs give to each key: the code with the most bytes, then with the greatest
    /// number.
    pub(crate) fn last(alloc: Global, runs: Vec<CodeRun>) -> Result<KeyCodes, AllocError>
        requires { All IsCodeRun runs.items }
        ensures { IfOk result (AreLasts runs.items) }
    {
        let mut runs = runs;
        runs.sort_by_key(|run| run.lateness())?;
        let table = Table::build(alloc, runs)?;
        Ok(KeyCodes { table })
    }

    /// The code of a key.
    pub(crate) fn find(&self, key: u32) -> Option<Ranked>
        ensures { result ≡ code_for self.now key }
    {
        let run = self.table.find(key, &mut Looks::new())?;
        Some(run.code_at(key))
    }

    /// The keys from `first` on, as far as their codes are known to be consecutive, or as far as no key has a code.
    pub(crate) fn stretch(&self, first: u32) -> KeyStretch
        ensures { IsKeyStretch self.now first result }
    {
        let mut looks = Looks::new();
        match self.table.stretches(first, &mut looks).next(&mut looks) {
            Some(stretch) => KeyStretch {
                first: code_of(stretch.declaration, first),
                last: stretch.last,
            },
            None => KeyStretch {
                first: None,
                last: first,
            },
        }
    }
}

/// The code of a key that the run contains, if there is a run.
fn code_of(run: Option<&CodeRun>, key: u32) -> Option<Ranked>
    requires { IfSome run (λ run. IsCodeRun run.now × (run.now.range.start ≤ key) × (key ≤ run.now.range.end)) }
    ensures { result ≡ option_map (λ run. code_at run key) (option_copied run.entry) }
{
    match run {
        Some(run) => Some(run.code_at(key)),
        None => None,
    }
}
