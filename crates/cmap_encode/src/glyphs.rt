//! The glyphs of codes: the CIDs by which codes are chosen.

ghost use Rattle.std.specs.Prelude.{◌≡◌, false};
ghost use Rattle.cmap_layers.specs.LayersSeen.{layer_seen, layers_seen};
ghost use Rattle.cmap_unicode.specs.Given.{given};
ghost use Rattle.cmap_values.specs.CodeLengths.{length_of};
ghost use Rattle.cmap_encode.specs.Glyphs.{declares_cids, glyph_by, glyph_in, is_vertical, lower_of};
ghost use Rattle.cmap_encode.specs.GlyphsSeen.{AreGlyphs};

use crate::code::Code;
use cmap_layers::layer::Layer;
use cmap_layers::stretches::Cids;
use cmap_unicode::stretch_of_layers;
use cmap_values::names::Cid;
use cmap_values::writing_mode::WritingMode;

/// The glyphs of consecutive codes. The CID of a notdef is no glyph, and CID 0 is no glyph.
#[derive(Clone, Copy)]
pub(crate) enum Glyphs {
    /// The first code has this glyph, and each further code the next glyph.
    CountOn(Cid),
    /// No code has a glyph, and no code is declared.
    Undeclared,
    /// No code has a glyph, but each code is declared.
    Missing,
}

/// Consecutive codes, with their glyphs.
#[derive(Clone, Copy)]
pub(crate) struct GlyphStretch {
    pub(crate) glyphs: Glyphs,
    /// The last of the codes.
    pub(crate) last: u32,
}

/// The glyphs of a code and of codes after it, by lower layers, or else by all layers.
pub(crate) fn glyph_stretch(lower: &[Layer], all: &[Layer], code: Code) -> GlyphStretch
    ensures { let len = length_of code.len in
        AreGlyphs (λ n. glyph_by (layers_seen lower.now) (layers_seen all.now) n len)
        (λ n. given (layers_seen all.now) n len) code.number result }
{
    let by_lower = stretch_in(lower, code);
    if let Glyphs::CountOn(_) = by_lower.glyphs {
        return by_lower;
    }
    let by_all = stretch_in(all, code);
    GlyphStretch {
        glyphs: by_all.glyphs,
        last: by_lower.last.min(by_all.last),
    }
}

/// The glyphs of a code and of codes after it, by these layers, the top layer first.
fn stretch_in(layers: &[Layer], code: Code) -> GlyphStretch
    ensures { let len = length_of code.len in
        AreGlyphs (λ n. glyph_in (layers_seen layers.now) n len)
        (λ n. given (layers_seen layers.now) n len) code.number result }
{
    let stretch = stretch_of_layers(layers, code.number, code.len);
    let last = stretch.last;
    match stretch.cids {
        Cids::Absent => GlyphStretch {
            glyphs: Glyphs::Undeclared,
            last,
        },
        Cids::Same(_) => GlyphStretch {
            glyphs: Glyphs::Missing,
            last,
        },
        Cids::CountOn(0) => GlyphStretch {
            glyphs: Glyphs::Missing,
            last: code.number,
        },
        Cids::CountOn(cid) => GlyphStretch {
            glyphs: Glyphs::CountOn(cid),
            last,
        },
    }
}

/// The layers that give codes their glyphs before all layers do. If the layers on top have writing mode 1, one of them
/// declares CIDs, and other layers lie under them, these are the layers under them; else all layers.
pub(crate) fn lower_layers(layers: &[Layer]) -> &[Layer]
    ensures { layers_seen result.now ≡ lower_of (layers_seen layers.now) }
{
    let mut declared = false;
    for index in 0..layers.len() {
        if !is_vertical(&layers[index]) {
            return if declared { &layers[index..] } else { layers };
        }
        declared = declared || declares_cids(&layers[index]);
    }
    layers
}

/// Whether a layer has writing mode 1.
fn is_vertical(layer: &Layer) -> bool
    ensures { result ≡ is_vertical (layer_seen layer.now) }
{
    layer.metadata().writing_mode == Some(WritingMode::Vertical)
}

/// Whether a layer declares CIDs, for codes of some length.
fn declares_cids(layer: &Layer) -> bool
    ensures { result ≡ declares_cids (layer_seen layer.now) }
{
    let counts = layer.counts().cids;
    0 < counts.one || 0 < counts.two || 0 < counts.three || 0 < counts.four
}
