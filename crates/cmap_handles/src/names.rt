//! Names of files for C: their concatenated bytes, and their lengths.

ghost use Rattle.std.specs.Prelude.{◌≡◌, ◌++◌, ℕ, IfOk, MatchResult, take};
ghost use Rattle.std.specs.List.{concat};
ghost use Rattle.cmap_values.specs.NamesSeen.{names_seen};

use crate::room::Items;
use std::alloc::{AllocError, Global};

/// The names, concatenated.
pub fn joined(alloc: Global, names: &[&[u8]]) -> Result<Vec<u8>, AllocError>
    ensures { IfOk result (λ bytes. bytes.items ≡ concat (names_seen names.now)) }
{
    let mut bytes = Vec::new(alloc);
    push_names(&mut bytes, names)?;
    Ok(bytes)
}

/// Appends the names, concatenated. If memory runs out, only the first names are appended, each of
/// them whole.
pub fn push_names(bytes: &mut Vec<u8>, names: &[&[u8]]) -> Result<(), AllocError>
    ensures { MatchResult result
        (λ _. bytes.new.items ≡ bytes.old.items ++ concat (names_seen names.now))
        (λ _. (count : ℕ)
        × (bytes.new.items ≡ bytes.old.items ++ concat (names_seen (take count names.now)))) }
{
    for name in names {
        bytes.extend_from_slice(name)?;
    }
    Ok(())
}

/// The lengths of the names.
impl<'n> Items for &'n [&'n [u8]] {
    type Item = usize;

    ghost use Rattle.std.specs.Prelude.{length, map};
    ghost use Rattle.cmap_values.specs.NamesSeen.{names_seen};

    ghost items = { λ names. map length (names_seen names.now) };

    fn count(&self) -> usize {
        self.len()
    }

    fn item(&self, index: usize) -> usize {
        self[index].len()
    }
}
