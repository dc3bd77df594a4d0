//! Files that C passes, by their names.

use cmap_load::named_files::NamedFile;

/// A file that other files use, and its name.
#[repr(C)]
#[derive(Clone, Copy)]
pub struct BaseFile<'a> {
    pub(crate) name: &'a [u8],
    pub(crate) bytes: &'a [u8],
}

impl<'a> NamedFile for BaseFile<'a> {
    ghost use Rattle.cmap_c.specs.NamedFiles.{bytes_of, name_of};

    ghost name_of = { name_of };

    ghost bytes_of = { bytes_of };

    fn name(&self) -> &[u8] {
        self.name
    }

    fn bytes(&self) -> &[u8] {
        self.bytes
    }
}
