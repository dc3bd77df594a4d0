//! Loaders of two kinds.

use cmap_load::{Loader, NameCopies, SalvageLoader};

/// A loader that copies the names of the files that it wants.
#[derive(Drop)]
pub enum EitherLoader {
    /// It refuses a file at fault.
    Refusing(Loader<NameCopies>),
    /// It reads files past their faults.
    PastFaults(SalvageLoader<NameCopies>),
}
