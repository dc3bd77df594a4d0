//! Files by their names.

ghost use Rattle.std.specs.Prelude.{◌≡◌, ℕ, List, None, Some, option_and_then};
ghost use Rattle.std.specs.Option.{option_copied};
ghost use Rattle.cmap_load.specs.Answers.{embedded, unless_absent};
ghost use Rattle.cmap_load.specs.NamedFiles.{file_named, text_named};

use crate::identity::identity_text;
use crate::source::Source;
use cmap_binary::{Bundle, NO_FILE, OwnedBundle, load_embedded};
use cmap_values::names::CMapName;

/// A file and its name.
pub trait NamedFile {
    /// The text of the name.
    ghost name_of: { Self → List ℕ };

    /// The bytes of the file.
    ghost bytes_of: { Self → List ℕ };

    /// The text of the name.
    fn name(&self) -> &[u8]
        ensures { result.now ≡ name_of self.now };

    /// The bytes of the file.
    fn bytes(&self) -> &[u8]
        ensures { result.now ≡ bytes_of self.now };
}

/// The text of a name, and the bytes of its file.
impl<'a> NamedFile for (&'a [u8], &'a [u8]) {
    ghost name_of = { λ file. file.0.now };

    ghost bytes_of = { λ file. file.1.now };

    fn name(&self) -> &[u8] {
        self.0
    }

    fn bytes(&self) -> &[u8] {
        self.1
    }
}

/// A bundle whose files are found by their names. The bundle refers to the bytes that were parsed,
/// or has copies of its files.
pub trait BundleFiles {
    ghost use Rattle.cmap_binary.specs.Bundles.{Bundle};

    /// The tables and the files.
    ghost bundle_of: { Self → Bundle };

    /// The file of this name; `None` if the bundle has no such file, or if these ten bytes stand
    /// for an absent file: `bcmap`, four zeros, and the byte 10.
    fn file_of(&self, name: &[u8]) -> Option<&[u8]>
        ensures { option_copied result ≡ embedded (Some (bundle_of self.now)) name.now };
}

impl<'b> BundleFiles for Bundle<'b> {
    ghost use Rattle.cmap_binary.specs.BundleSeen.{bundle_seen};

    ghost bundle_of = { bundle_seen };

    fn file_of(&self, name: &[u8]) -> Option<&[u8]> {
        let file: Option<&'b [u8]> = load_embedded(Some(self), CMapName::from_bytes(name));
        unless_absent(file)
    }
}

impl BundleFiles for OwnedBundle {
    ghost bundle_of = { λ bundle. bundle };

    fn file_of(&self, name: &[u8]) -> Option<&[u8]> {
        unless_absent(self.file(CMapName::from_bytes(name)))
    }
}

/// The bytes that a bundle has for a name, unless they stand for an absent file.
fn unless_absent(stored: Option<&[u8]>) -> Option<&[u8]>
    ensures { option_copied result ≡ option_and_then unless_absent (option_copied stored.entry) }
{
    let bytes = stored?;
    if bytes == NO_FILE { None } else { Some(bytes) }
}

/// The files of a bundle by their names; without a bundle no name has a file.
impl<B: BundleFiles> Source for Option<&B> {
    ghost use Rattle.std.specs.Prelude.{⊤, option_map};

    ghost can_ask = { λ bundle. ⊤ };

    ghost answers = { λ bundle name answer. answer
        ≡ embedded (option_map (λ b. B.bundle_of b.now) bundle) name };

    fn file(&self, name: &[u8]) -> Option<&[u8]> {
        (*self)?.file_of(name)
    }
}

/// Files by their names. A bundle supplies the file of a name that none of these files has. Among
/// several files of one name, the first counts. Identity-H and Identity-V need no file:
/// ISO 32000-1, 9.7.5.2.
#[derive(Drop)]
pub struct NamedFiles<'f, N, B> {
    pub files: &'f [N],
    pub bundle: Option<&'f B>,
}

impl<'f, N: NamedFile> NamedFiles<'f, N, Bundle<'f>> {
    /// The files alone, without a bundle.
    pub fn alone(files: &'f [N]) -> Self
        ensures { (result.files.now ≡ files.now) × (result.bundle ≡ None) }
    {
        NamedFiles {
            files,
            bundle: None,
        }
    }
}

impl<'f, N: NamedFile, B: BundleFiles> NamedFiles<'f, N, B> {
    /// The first file of this name, else the file of this name in the bundle.
    pub fn find(&self, name: &[u8]) -> Option<&'f [u8]>
        ensures { option_copied result ≡ file_named N.name_of N.bytes_of B.bundle_of
            self.now.files.now self.now.bundle name.now }
    {
        for file in self.files {
            if file.name() == name {
                return Some(file.bytes());
            }
        }
        self.bundle?.file_of(name)
    }
}

impl<'f, N: NamedFile, B: BundleFiles> Source for NamedFiles<'f, N, B> {
    ghost use Rattle.std.specs.Prelude.{⊤};

    ghost can_ask = { λ files. ⊤ };

    ghost answers = { λ files name answer. answer
        ≡ text_named N.name_of N.bytes_of B.bundle_of files.files.now files.bundle name };

    /// The file of this name; if no file has the name, the text of Identity-H or Identity-V.
    fn file(&self, name: &[u8]) -> Option<&[u8]> {
        match self.find(name) {
            Some(bytes) => Some(bytes),
            None => identity_text(name),
        }
    }
}
