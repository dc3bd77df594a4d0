//! The numbers of files that a run checks, refuses or can't read.

ghost use Rattle.std.specs.Prelude.{◌≡◌};
ghost use Rattle.cmap_io.specs.Counts.{number_seen};
ghost use Rattle.cmap.specs.Tallies.{IsStatus, none_but, tally_seen, with_file, with_unreadable};

use cmap_io::count::Count;
use cmap_io::status::{ACCEPTED, FAILED, REFUSED};
use std::io;

/// The counts of a run over many files.
#[derive(Drop)]
pub(crate) struct Tally {
    checked: Count,
    refused: Count,
    /// The number of files with a warning that is denied.
    denied: Count,
    /// The number of paths that can't be read.
    unreadable: Count,
}

impl Tally {
    /// The tally before the first file, with this many paths that can't be read.
    pub(crate) fn new(unreadable: Count) -> Tally
        ensures { tally_seen result ≡ none_but (number_seen unreadable) }
    {
        Tally {
            checked: Count::of(0),
            refused: Count::of(0),
            denied: Count::of(0),
            unreadable,
        }
    }

    /// Counts one more path that can't be read.
    pub(crate) fn add_unreadable(&mut self)
        ensures { tally_seen self.new ≡ with_unreadable (tally_seen self.old) }
    {
        self.unreadable.add_one();
    }

    /// Counts a file that was read. The file may be refused, or have a denied warning.
    pub(crate) fn count(&mut self, is_refused: bool, is_denied: bool)
        ensures { tally_seen self.new ≡ with_file is_refused is_denied (tally_seen self.old) }
    {
        self.checked.add_one();
        if is_refused {
            self.refused.add_one();
        }
        if is_denied {
            self.denied.add_one();
        }
    }

    /// The exit status of the command.
    pub(crate) fn status(&self) -> u8
        ensures { IsStatus (tally_seen self.now) result }
    {
        if self.unreadable.get() > 0 {
            FAILED
        } else if self.refused.get() > 0 || self.denied.get() > 0 {
            REFUSED
        } else {
            ACCEPTED
        }
    }

    /// Reports the number of checked files.
    pub(crate) fn report(&self, rt: &HostRuntime) -> io::Result<()> {
        let files = if self.checked.get() == 1 {
            "file"
        } else {
            "files"
        };
        eprint!(rt;
            "cmap: {} {files} checked, {} refused",
            self.checked, self.refused
        )?;
        if self.unreadable.get() > 0 {
            eprint!(rt; ", {} can't be read", self.unreadable)?;
        }
        rt.eprintln("")
    }
}
