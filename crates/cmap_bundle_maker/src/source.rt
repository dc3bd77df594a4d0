//! A file that a bundle is to hold.

use cmap_values::file::File;
use cmap_values::names::CMapName;

/// A file that a bundle is to hold, by its name.
#[derive(Clone, Copy)]
pub struct Source<'s, 'd> {
    pub name: CMapName<'s>,
    pub file: &'s File<'d>,
    /// The text that the file was read from, if there is one. The bundle contains the text
    /// unchanged if the file has an obstacle.
    pub text: Option<&'s [u8]>,
}
