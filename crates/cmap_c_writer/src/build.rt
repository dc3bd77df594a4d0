//! Encoders of fonts, for C.

ghost use Rattle.std.specs.Prelude.{◌≡◌, None, IfOk, MatchOption, false};
ghost use Rattle.std.specs.Option.{option_copied};
ghost use Rattle.cmap_handles.specs.Statuses.{number};
ghost use Rattle.cmap_handles.specs.declared.status.Status.TheVariants.{Absent};
ghost use Rattle.cmap_unicode.specs.Characters.{font_of};
ghost use Rattle.cmap_encode.specs.EncoderSeen.{IsEncoderFor};
ghost use Rattle.cmap_c_writer.specs.Encoded.{IsBuilt};

use crate::handle::EncoderHandle;
use cmap_encode::Encoder;
use cmap_handles::handle::MapHandle;
use cmap_handles::shared::Shared;
use cmap_handles::status::Status;
use cmap_layers::layers::Layers;
use cmap_unicode::Extractor;
use std::alloc::{AllocError, Global};

/// Makes the encoder of the font with these maps. The last two maps may be absent. The encoder that the handle held is
/// freed.
#[unsafe(no_mangle)]
pub extern "C" fn hayro_cmap_encoder_build(
    encoder: &mut EncoderHandle,
    alloc: Global,
    encoding: &mut MapHandle,
    to_unicode: &mut MapHandle,
    collection: &mut MapHandle,
) -> u32
    ensures encoding { encoding.new.slot.map ≡ encoding.old.slot.map }
    ensures to_unicode { to_unicode.new.slot.map ≡ to_unicode.old.slot.map }
    ensures collection { collection.new.slot.map ≡ collection.old.slot.map }
    ensures encoder { MatchOption encoding.old.slot.map
        ((result ≡ number Absent) × (encoder.new.slot.encoder ≡ None))
        (λ layers. IsBuilt
        (record { encoding = layers; to_unicode = to_unicode.old.slot.map; collection = collection.old.slot.map })
        None false encoder.new.slot.encoder result) }
{
    let mut none = MapHandle::empty(alloc);
    hayro_cmap_encoder_build_with(
        encoder, alloc, encoding, to_unicode, collection, &mut none, false,
    )
}

/// Makes the encoder of the font with these maps and with the map from Unicode of the font's character collection,
/// which may be absent too. An `exact` encoder chooses only codes that are read as the text for which they stand. The
/// encoder that the handle held is freed.
#[unsafe(no_mangle)]
pub extern "C" fn hayro_cmap_encoder_build_with(
    encoder: &mut EncoderHandle,
    alloc: Global,
    encoding: &mut MapHandle,
    to_unicode: &mut MapHandle,
    collection: &mut MapHandle,
    unicode: &mut MapHandle,
    exact: bool,
) -> u32
    ensures encoding { encoding.new.slot.map ≡ encoding.old.slot.map }
    ensures to_unicode { to_unicode.new.slot.map ≡ to_unicode.old.slot.map }
    ensures collection { collection.new.slot.map ≡ collection.old.slot.map }
    ensures unicode { unicode.new.slot.map ≡ unicode.old.slot.map }
    ensures encoder { MatchOption encoding.old.slot.map
        ((result ≡ number Absent) × (encoder.new.slot.encoder ≡ None))
        (λ layers. IsBuilt
        (record { encoding = layers; to_unicode = to_unicode.old.slot.map; collection = collection.old.slot.map })
        unicode.old.slot.map exact encoder.new.slot.encoder result) }
{
    encoder.clear(alloc);
    let Some(layers) = encoding.layers() else {
        return Status::Absent.number();
    };
    let font = font(layers, to_unicode.layers(), collection.layers());
    encoder.keep(built(alloc, &font, unicode.layers(), exact))
}

/// The font with these maps.
fn font<'m>(
    encoding: &'m Layers,
    to_unicode: Option<&'m Layers>,
    collection: Option<&'m Layers>,
) -> Extractor<'m>
    ensures { font_of result ≡ record {
      encoding = encoding.now;
      to_unicode = option_copied to_unicode.entry;
      collection = option_copied collection.entry;
    } }
{
    Extractor {
        encoding,
        to_unicode,
        collection,
    }
}

/// The encoder of a font with a map from Unicode. Several handles may share the encoder.
fn built(
    alloc: Global,
    font: &Extractor<'_>,
    unicode: Option<&Layers>,
    exact: bool,
) -> Result<Box<Shared<Encoder>>, AllocError>
    ensures { IfOk result
        (λ built. IsEncoderFor (font_of font.now) (option_copied unicode.entry) exact built.value) }
{
    let encoder = Encoder::build_with(alloc, font, unicode, exact)?;
    Shared::new(alloc, encoder)
}
