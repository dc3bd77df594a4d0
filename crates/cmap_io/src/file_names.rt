//! Names that a file in a folder may have.

ghost use Rattle.std.specs.Prelude.{◌≡◌, ◌↔◌, IsTrue, MatchOption};
ghost use Rattle.std.specs.Str.{IsUtf8};
ghost use Rattle.cmap_io.specs.FileNames.{IsFileName};

use std::str;

/// The name of a file in a folder, as text. Names come from untrusted files; a name that would be hidden or
/// lead to another folder, or that isn't UTF-8, gives `None`.
pub fn file_name(name: &[u8]) -> Option<&str>
    ensures { MatchOption result (¬ (IsFileName name.now × IsUtf8 name.now))
        (λ found. IsFileName name.now × (found.now ≡ name.now)) }
{
    if is_file_name(name) {
        str::from_utf8(name).ok()
    } else {
        None
    }
}

#[tactic(auto, using(crate::proofs::Absent::absent))]
fn is_file_name(name: &[u8]) -> bool
    ensures { IsTrue result ↔ IsFileName name.now }
{
    match name {
        [] | [b'.', ..] => false,
        _ => !name.contains(&b'/') && !name.contains(&0),
    }
}
