//! Files that were read, and that a further use need not read again.

ghost use Rattle.std.specs.Prelude.{◌≡◌, ◌==◌, ◌<◌, ℕ, IfOk, IfSome, None, Some, if◌then◌else◌};
ghost use Rattle.cmap_load.specs.KnownFiles.{IsSpent, file_known, names_in};

use std::alloc::{AllocError, Global};

/// What is known of a file.
#[derive(Clone, Copy)]
pub(crate) struct KnownFile {
    /// The number of files in the longest chain of the file, the file itself counted.
    pub(crate) height: u8,
    /// The number of bytes of the files that are opened for the file, the file itself counted;
    /// `None` without a budget.
    pub(crate) spent: Option<u64>,
}

impl KnownFile {
    /// A file that reduced the rest of a budget from `before` to `after`.
    pub(crate) fn new(height: u8, before: Option<u64>, after: Option<u64>) -> Self
        ensures height { result.height ≡ height }
        ensures spent { IfSome result.spent (IsSpent before after) }
    {
        KnownFile {
            height,
            spent: spent_between(before, after),
        }
    }
}

/// The number of bytes that were taken from a budget; `None` without a budget.
fn spent_between(before: Option<u64>, after: Option<u64>) -> Option<u64>
    ensures { IfSome result (IsSpent before after) }
{
    before?.checked_sub(after?)
}

/// The files that are known, by the numbers of their names.
#[derive(Drop)]
pub(crate) struct KnownFiles {
    files: Vec<Option<KnownFile>>,
}

impl KnownFiles {
    /// No known files. The numbers of names are below `names`.
    pub(crate) fn new(alloc: Global, names: usize) -> Result<Self, AllocError>
        ensures known { IfOk result (λ known. (name : ℕ) → file_known known name ≡ None) }
        ensures names { IfOk result (λ known. names_in known ≡ names) }
    {
        let mut files = Vec::new(alloc);
        files.resize(names, None)?;
        Ok(KnownFiles { files })
    }

    pub(crate) fn find(&self, name: usize) -> Option<KnownFile>
        ensures { result ≡ file_known self.now name }
    {
        match self.files.get(name) {
            Some(file) => *file,
            None => None,
        }
    }

    pub(crate) fn insert(&mut self, name: usize, file: KnownFile)
        requires { name < names_in self.old }
        ensures known { (other : ℕ) → file_known self.new other
            ≡ (if name == other then Some file else file_known self.old other) }
        ensures names { names_in self.new ≡ names_in self.old }
    {
        self.files[name] = Some(file);
    }
}
