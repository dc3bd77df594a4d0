//! Files that a caller's function finds by their names.

ghost use Rattle.cmap_load.specs.Answers.{Answers};

use cmap_load::Source;
use cmap_values::names::CMapName;
use std::marker::PhantomData;

/// A caller's function as a source: the function is asked for the name that stands for a text.
///
/// The function that reads files calls itself. Such a function can't have the bound of `get_cmap`,
/// since the bound names a lifetime, but it can take a `Source`.
#[derive(Drop)]
pub(crate) struct FilesByName<'f, 'a, F> {
    pub(crate) get_cmap: &'f F,
    pub(crate) of: PhantomData<&'a [u8]>,
}

impl<'f, 'a, F> Source for FilesByName<'f, 'a, F>
where
    F: Fn(CMapName<'_>) -> Option<&'a [u8]>,
{
    ghost can_ask = { λ files. F.IsAlwaysCallable files.get_cmap.now };

    ghost answers = { λ files. Answers F.Fn files.get_cmap.now };

    fn file(&self, name: &[u8]) -> Option<&[u8]> {
        let answer: Option<&'a [u8]> = (self.get_cmap)(CMapName::from_bytes(name));
        answer
    }
}
