//! The content of one file.

ghost use Rattle.std.specs.Prelude.{◌≡◌};
ghost use Rattle.cmap_values.specs.ListsAppended.{no_file};
ghost use Rattle.cmap_values.specs.FilesSeen.{file_seen};

use crate::declarations::Lists;
use crate::fault::Stop;
use crate::metadata::Metadata;
use std::alloc::Global;

/// The content of one file: its metadata, its declarations, and the names of the files that it
/// uses, in order.
#[derive(Drop)]
pub struct File<'d> {
    pub metadata: Metadata,
    pub lists: Lists,
    pub uses: Vec<&'d [u8]>,
}

impl<'d> File<'d> {
    /// A file without metadata, declarations and uses.
    pub fn new(alloc: Global) -> Self
        ensures { file_seen result ≡ no_file }
    {
        File {
            metadata: Metadata {
                character_collection: None,
                name: None,
                writing_mode: None,
            },
            lists: Lists::new(alloc),
            uses: Vec::new(alloc),
        }
    }
}

/// The content of a file apart from its faults, and the faults.
#[derive(Drop)]
pub struct Salvaged<'d> {
    pub file: File<'d>,
    /// The faults in the order of the file, each with an offset and a reason.
    pub faults: Vec<Stop>,
}
