//! The files of a bundle as `load_embedded` gives them.

ghost use Rattle.std.specs.Prelude.{◌≡◌, option_map};
ghost use Rattle.cmap_binary.specs.BundleSeen.{bundle_seen};
ghost use Rattle.hayro_cmap.specs.Answers.{stored};

use hayro_cmap::{Bundle, CMapName, Source, load_embedded};

/// The files of a bundle as `load_embedded` gives them, including bytes that stand for an absent file; without a
/// bundle, no files.
#[derive(Clone, Copy)]
pub(crate) struct Embedded<'f> {
    pub(crate) bundle: Option<&'f Bundle<'f>>,
}

impl Source for Embedded<'_> {
    ghost use Rattle.std.specs.Prelude.{⊤};

    ghost can_ask = { λ files. ⊤ };

    ghost answers = { λ files name answer. answer
        ≡ stored (option_map (λ b. bundle_seen b.now) files.bundle) name };

    fn file(&self, name: &[u8]) -> Option<&[u8]> {
        let bundle = self.bundle?;
        let file: Option<&[u8]> = load_embedded(Some(bundle), CMapName::from_bytes(name));
        file
    }
}
