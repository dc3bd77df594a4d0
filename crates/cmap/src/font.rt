//! The CMaps of a font, and the strings that are read by them.

use crate::collection::{
    declared_collection, from_unicode_of, is_from_unicode, to_unicode_of, ucs2_of,
};
use crate::command_line::flags::{FOLD, JSON, OF_COLLECTION, SIMPLE, TO_UNICODE};
use crate::command_line::{arguments_of, file_of};
use crate::options::{Sources, manner_of};
use crate::strings::{strings_of, texts_of};
use clap::ArgMatches;
use cmap_io::failure::{Failure, fault, report_message};
use cmap_report::decode::Texts;
use cmap_sources::bases::Bases;
use cmap_sources::maps::{map_needed, unknown_name};
use cmap_sources::reading::Manner;
use cmap_unicode::{Extractor, simple_encoding};
use hayro_cmap::{CMap, Layers};

/// The parsed arguments of `find`, `decode`, `text` and `encode`.
#[derive(Clone, Copy)]
pub(crate) struct StringOptions<'m, 'w> {
    file: &'w str,
    to_unicode: Option<&'w str>,
    /// The character collection of the font's CIDs, in place of the collection that the file names.
    collection: Option<&'w str>,
    /// Whether the file is the ToUnicode CMap of a simple font.
    is_simple: bool,
    /// Strings in hexadecimal digits; for `encode`, texts; for `find`, `cid:N` and `text:TEXT`.
    pub(crate) strings: &'m [&'w str],
    pub(crate) sources: Sources<'m, 'w>,
    manner: Manner,
    pub(crate) json: bool,
    /// How texts are shown.
    pub(crate) texts: Texts,
}

impl<'m, 'w> StringOptions<'m, 'w> {
    pub(crate) fn of(arguments: &'m ArgMatches<'w>) -> StringOptions<'m, 'w> {
        StringOptions {
            file: file_of(arguments),
            to_unicode: TO_UNICODE.text(arguments),
            collection: OF_COLLECTION.text(arguments),
            is_simple: SIMPLE.is_given(arguments),
            strings: arguments_of(arguments),
            sources: Sources::of(arguments),
            manner: manner_of(arguments),
            json: JSON.is_given(arguments),
            texts: Texts::Exact,
        }
    }

    /// The parsed arguments of `decode` and `text`, which may show texts in the characters that are usually written.
    pub(crate) fn of_shown(arguments: &'m ArgMatches<'w>) -> StringOptions<'m, 'w> {
        let mut options = StringOptions::of(arguments);
        if FOLD.is_given(arguments) {
            options.texts = Texts::Folded;
        }
        options
    }
}

/// The CMaps of a font.
#[derive(Drop)]
pub(crate) struct Font {
    /// The encoding of the font; for a simple font, its ToUnicode CMap.
    file: CMap,
    /// The codes of a simple font.
    one_byte: Option<Layers>,
    /// The ToUnicode CMap of the font, if it is another file.
    to_unicode: Option<CMap>,
    /// The name of the character collection of the font's CIDs.
    collection: Option<String>,
    /// The CMap from the CIDs of the collection to Unicode.
    texts: Option<CMap>,
}

impl Font {
    /// The codes of the font, with their CIDs.
    fn encoding(&self) -> &Layers {
        match &self.one_byte {
            Some(codes) => codes,
            None => self.file.layers(),
        }
    }

    /// The extractor that reads strings by these CMaps. Without a ToUnicode CMap, the encoding gives the texts.
    pub(crate) fn extractor(&self) -> Extractor<'_> {
        let to_unicode = match &self.to_unicode {
            Some(map) => map,
            None => &self.file,
        };
        let collection = match &self.texts {
            Some(map) => Some(map.layers()),
            None => None,
        };
        Extractor {
            encoding: self.encoding(),
            to_unicode: Some(to_unicode.layers()),
            collection,
        }
    }

    /// The CMap from Unicode of the font's collection, if a file has its name. An encoding whose codes are Unicode
    /// needs no such CMap.
    pub(crate) fn from_unicode(
        &self,
        rt: &HostRuntime,
        options: &StringOptions<'_, '_>,
        bases: &mut Bases<'_>,
    ) -> Result<Option<CMap>, Failure> {
        let encoding = self.encoding();
        if is_from_unicode(encoding) {
            return Ok(None);
        }
        from_unicode_of(
            rt,
            self.collection.as_deref(),
            encoding,
            options.manner,
            bases,
        )
    }

    /// The layers that choose the glyphs of characters: the layers of this map, or of the encoding itself if its codes
    /// are Unicode.
    pub(crate) fn glyphs<'m>(&'m self, from_unicode: &'m Option<CMap>) -> Option<&'m Layers> {
        let encoding = self.encoding();
        match from_unicode {
            Some(map) => Some(map.layers()),
            None if is_from_unicode(encoding) => Some(encoding),
            None => None,
        }
    }

    /// Reports if no file has the CMap of the collection to Unicode. A code may have no text for this reason.
    pub(crate) fn report_missing(
        &self,
        rt: &HostRuntime,
        bases: &Bases<'_>,
    ) -> Result<(), Failure> {
        let (Some(collection), None) = (&self.collection, &self.texts) else {
            return Ok(());
        };
        let name = ucs2_of(rt.alloc(), collection.as_str())?;
        report_message(rt, unknown_name(rt, name.as_str(), bases))
    }

    /// Reports if no file has the CMap to Unicode of a collection that the arguments name.
    pub(crate) fn report_unknown(
        &self,
        rt: &HostRuntime,
        options: &StringOptions<'_, '_>,
        bases: &Bases<'_>,
    ) -> Result<(), Failure> {
        match options.collection {
            Some(_) => self.report_missing(rt, bases),
            None => Ok(()),
        }
    }
}

/// The font and the strings that the arguments ask for.
pub(crate) fn font_and_strings(
    rt: &HostRuntime,
    options: &StringOptions<'_, '_>,
    bases: &mut Bases<'_>,
) -> Result<(Font, Vec<Vec<u8>>), Failure> {
    let strings = strings_of(rt, options.strings)?;
    let font = font_of(rt, options, bases)?;
    Ok((font, strings))
}

/// The font and the texts that the arguments ask for.
pub(crate) fn font_and_texts(
    rt: &HostRuntime,
    options: &StringOptions<'_, '_>,
    bases: &mut Bases<'_>,
) -> Result<(Font, Vec<String>), Failure> {
    let texts = texts_of(rt, options.strings)?;
    let font = font_of(rt, options, bases)?;
    Ok((font, texts))
}

/// The CMaps that the arguments ask for, with the CMap of the collection to Unicode if it is found.
pub(crate) fn font_of(
    rt: &HostRuntime,
    options: &StringOptions<'_, '_>,
    bases: &mut Bases<'_>,
) -> Result<Font, Failure> {
    if options.is_simple {
        return simple_font(rt, options, bases);
    }
    let file = map_needed(rt, options.file, options.manner, bases)?;
    let to_unicode = given_to_unicode(rt, options, bases)?;
    let collection = match options.collection {
        Some(name) => Some(String::from_str(rt.alloc(), name)?),
        None => declared_collection(rt.alloc(), file.layers())?,
    };
    let texts = to_unicode_of(rt, collection.as_deref(), options.manner, bases)?;
    Ok(Font {
        file,
        one_byte: None,
        to_unicode,
        collection,
        texts,
    })
}

/// A simple font, whose codes have one byte and no CIDs.
fn simple_font(
    rt: &HostRuntime,
    options: &StringOptions<'_, '_>,
    bases: &mut Bases<'_>,
) -> Result<Font, Failure> {
    if options.to_unicode.is_some() || options.collection.is_some() {
        return Err(fault(rt, "--simple", "not with --to-unicode or --collection"));
    }
    Ok(Font {
        file: map_needed(rt, options.file, options.manner, bases)?,
        one_byte: Some(simple_encoding(rt.alloc())?),
        to_unicode: None,
        collection: None,
        texts: None,
    })
}

fn given_to_unicode(
    rt: &HostRuntime,
    options: &StringOptions<'_, '_>,
    bases: &mut Bases<'_>,
) -> Result<Option<CMap>, Failure> {
    match options.to_unicode {
        Some(path) => Ok(Some(map_needed(rt, path, options.manner, bases)?)),
        None => Ok(None),
    }
}
