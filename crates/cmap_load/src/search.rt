//! The state of a search for layers.

ghost use Rattle.std.specs.Prelude.{◌≡◌, ℕ, [], IfOk, MatchOption, None};
ghost use Rattle.cmap_load.specs.KnownFiles.{file_known, names_in};
ghost use Rattle.cmap_load.specs.Searches.{PassesOver};

use crate::budget::spend_again;
use crate::known::KnownFiles;
use std::alloc::{AllocError, Global};

/// The state of a search for layers.
#[derive(Drop)]
pub(crate) struct Search {
    /// The numbers of the names that lead to the file that is being read.
    pub(crate) names: Vec<usize>,
    /// The rest of the budget, if there is one.
    pub(crate) left: Option<u64>,
    /// The files that need not be read again.
    pub(crate) known: KnownFiles,
}

impl Search {
    /// The state before the first file. The numbers of names are below `names`.
    pub(crate) fn new(alloc: Global, budget: Option<u64>, names: usize) -> Result<Self, AllocError>
        ensures names { IfOk result (λ search. search.names.items ≡ []) }
        ensures left { IfOk result (λ search. search.left ≡ budget) }
        ensures known { IfOk result (λ search. (name : ℕ) → file_known search.known name ≡ None) }
        ensures all { IfOk result (λ search. names_in search.known ≡ names) }
    {
        let known = KnownFiles::new(alloc, names)?;
        Ok(Search {
            names: Vec::new(alloc),
            left: budget,
            known,
        })
    }

    /// Passes over a use of a known file, if at most `below` files stand in the longest chain of
    /// the file, and the budget suffices. Returns the number of files in this chain; `None` if the
    /// use isn't passed over.
    pub(crate) fn pass_over(&mut self, name: usize, below: u8) -> Option<u8>
        ensures { MatchOption result (self.new ≡ self.old)
            (PassesOver name below self.old self.new) }
    {
        let file = self.known.find(name)?;
        if file.height <= below && spend_again(&mut self.left, file.spent) {
            Some(file.height)
        } else {
            None
        }
    }
}
