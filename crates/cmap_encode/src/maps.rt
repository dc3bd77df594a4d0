//! The maps by which the codes of a font are chosen.

ghost use Rattle.std.specs.Prelude.{◌≡◌, None, MatchOption};
ghost use Rattle.std.specs.Option.{option_copied};
ghost use Rattle.cmap_unicode.specs.Characters.{font_of};
ghost use Rattle.cmap_encode.specs.Maps.{AreMapsOf, IsUnicodeOf, maps_seen, unicode_seen};

use crate::forms::Form;
use crate::glyphs::lower_layers;
use cmap_layers::layer::Layer;
use cmap_layers::layers::Layers;
use cmap_unicode::Extractor;

/// A map from Unicode to CIDs.
#[derive(Clone, Copy)]
pub(crate) struct Unicode<'m> {
    /// The form of its codes.
    pub(crate) form: Form,
    /// The layers that give codes their glyphs before all layers do.
    pub(crate) lower: &'m [Layer],
    /// All layers.
    pub(crate) all: &'m [Layer],
}

impl<'m> Unicode<'m> {
    /// The map of these layers. The lower layers of the map come first if the lower layers of the font do.
    fn of(layers: &'m Layers, turned: bool) -> Unicode<'m>
        ensures { IsUnicodeOf layers.now turned (unicode_seen result) }
    {
        let all = layers.as_slice();
        Unicode {
            form: Form::of(layers),
            lower: if turned { lower_layers(all) } else { all },
            all,
        }
    }
}

/// The maps of a font.
#[derive(Clone, Copy)]
pub(crate) struct Maps<'m> {
    pub(crate) font: Extractor<'m>,
    /// The layers of the font's CMap that give codes their glyphs before all layers do.
    pub(crate) lower: &'m [Layer],
    /// The map from Unicode, if there is one.
    pub(crate) unicode: Option<Unicode<'m>>,
    /// Whether a code is chosen by the map from Unicode only where the collection's map has the character
    /// as its text.
    pub(crate) exact: bool,
}

impl<'m> Maps<'m> {
    /// The maps of a font, with the map from Unicode of its character collection, if there is one. If only texts that
    /// read back count, a code has its CID by all layers, as a reader sees it.
    pub(crate) fn of(font: &Extractor<'m>, unicode: Option<&'m Layers>, exact: bool) -> Maps<'m>
        ensures { AreMapsOf (font_of font.now) (option_copied unicode.entry) exact (maps_seen result) }
    {
        let all = font.encoding.as_slice();
        let lower = if exact { all } else { lower_layers(all) };
        let turned = lower.len() < all.len();
        Maps {
            font: *font,
            lower,
            unicode: unicode_of(unicode, turned),
            exact,
        }
    }
}

/// The map from Unicode, if there is one.
fn unicode_of<'m>(layers: Option<&'m Layers>, turned: bool) -> Option<Unicode<'m>>
    ensures { MatchOption (option_copied layers.entry) (result ≡ None) (λ given. MatchOption result ⊥
        (λ unicode. IsUnicodeOf given turned (unicode_seen unicode))) }
{
    match layers {
        Some(layers) => Some(Unicode::of(layers, turned)),
        None => None,
    }
}
