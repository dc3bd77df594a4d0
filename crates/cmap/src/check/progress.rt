//! The progress of a run over many files.

use cmap_io::count::Count;
use cmap_io::failure::Failure;
use std::io::{self, IsTerminal};

/// The number of cells of the bar.
const WIDTH: usize = 30;

/// A progress bar on a terminal. The bar is shown only if the lines of the files go elsewhere, since lines on a
/// terminal show the progress themselves.
#[derive(Drop)]
pub(crate) struct Progress {
    done: Count,
    total: usize,
    is_shown: bool,
}

impl Progress {
    /// The bar at the start of a run over this many files.
    pub(crate) fn new(rt: &HostRuntime, total: usize) -> Progress {
        Progress {
            done: Count::of(0),
            total,
            is_shown: total > 1 && rt.stderr().is_terminal() && !rt.stdout().is_terminal(),
        }
    }

    /// Counts one more file, and draws the bar anew.
    pub(crate) fn advance(&mut self, rt: &HostRuntime) -> Result<(), Failure> {
        self.done.add_one();
        if self.is_shown {
            let bar = self.bar(rt)?;
            eprint!(rt; "\r{bar} {} of {}", self.done, self.total)?;
        }
        Ok(())
    }

    /// The bar, filled in proportion to the files that are done.
    fn bar(&self, rt: &HostRuntime) -> Result<String, Failure> {
        let mut bar = String::new(rt.alloc());
        bar.push('[')?;
        for cell in 0..WIDTH {
            let is_done = cell.saturating_mul(self.total) < self.done.get().saturating_mul(WIDTH);
            bar.push(if is_done { '#' } else { ' ' })?;
        }
        bar.push(']')?;
        Ok(bar)
    }

    /// Removes the bar, before a message and at the end.
    pub(crate) fn clear(&self, rt: &HostRuntime) -> io::Result<()> {
        if self.is_shown {
            rt.eprint("\r\u{1B}[K")?;
        }
        Ok(())
    }
}
