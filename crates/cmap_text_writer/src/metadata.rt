//! The names that a file uses, and its metadata.

ghost use Rattle.std.specs.Prelude.{◌≡◌, ◌++◌, IfSome, OnOk, flat_map, option_map};
ghost use Rattle.std.specs.Fmt.{signed_decimal};
ghost use Rattle.std.specs.Int.{w32};
ghost use Rattle.std.specs.Int.RustNames.{FitsSigned};
ghost use Rattle.std.specs.List.{list_all};
ghost use Rattle.cmap_values.specs.MetadataSeen.{collection_seen, metadata_seen, mode_seen};
ghost use Rattle.cmap_values.specs.NamesSeen.{names_seen};
ghost use Rattle.cmap_text_writer.specs.FileItems.{collection_text, from_option, is_key, is_plain, mode_text, name_text, string_spelled, use_text};
ghost use Rattle.cmap_text_writer.specs.Fits.{AllBytes, CollectionFits, HasOwnFamily, IsSupplement};
ghost use Rattle.cmap_text_writer.specs.Layout.{metadata_text};

use crate::digits::push_hex;
use crate::names::is_name;
use cmap_text::is_key_name;
use cmap_values::character_collection::CharacterCollection;
use cmap_values::metadata::Metadata;
use cmap_values::writing_mode::WritingMode;
use itoa::Buffer;
use std::alloc::AllocError;

/// Writes the uses of names, in order.
pub(crate) fn push_uses(out: &mut Vec<u8>, names: &[&[u8]]) -> Result<(), AllocError>
    ensures { OnOk result (out.new.items ≡ out.old.items ++ flat_map use_text (names_seen names.now)) }
{
    for name in names {
        push_use(out, *name)?;
    }
    Ok(())
}

/// Writes the use of a name. A name that is a key takes an empty value first.
fn push_use(out: &mut Vec<u8>, name: &[u8]) -> Result<(), AllocError>
    ensures { OnOk result (out.new.items ≡ out.old.items ++ use_text name.now) }
{
    out.extend_from_slice(b"/")?;
    out.extend_from_slice(name)?;
    if is_key_name(name) {
        out.extend_from_slice(b" () usecmap\n")
    } else {
        out.extend_from_slice(b" usecmap\n")
    }
}

/// Writes each part of the metadata that is present.
pub(crate) fn push_metadata(out: &mut Vec<u8>, metadata: &Metadata) -> Result<(), AllocError>
    requires { IfSome (metadata_seen metadata.now).collection HasOwnFamily }
    ensures written { OnOk result (out.new.items ≡ out.old.items ++ metadata_text (metadata_seen metadata.now)) }
    ensures fits { OnOk result (IfSome (metadata_seen metadata.now).collection CollectionFits) }
{
    push_collection(out, &metadata.character_collection)?;
    push_name(out, &metadata.name)?;
    push_mode(out, metadata.writing_mode)
}

/// Writes a character collection.
fn push_collection(
    out: &mut Vec<u8>,
    collection: &Option<CharacterCollection>,
) -> Result<(), AllocError>
    requires { IfSome (option_map collection_seen collection.now) HasOwnFamily }
    ensures written { OnOk result (out.new.items ≡ out.old.items ++ from_option collection_text (option_map collection_seen collection.now)) }
    ensures fits { OnOk result (IfSome (option_map collection_seen collection.now) CollectionFits) }
{
    match collection {
        Some(collection) => push_system_info(out, collection),
        None => Ok(()),
    }
}

/// Writes the CIDSystemInfo dictionary.
fn push_system_info(out: &mut Vec<u8>, collection: &CharacterCollection) -> Result<(), AllocError>
    requires { HasOwnFamily (collection_seen collection.now) }
    ensures written { OnOk result (out.new.items ≡ out.old.items ++ collection_text (collection_seen collection.now)) }
    ensures fits { OnOk result (CollectionFits (collection_seen collection.now)) }
{
    out.extend_from_slice(b"/CIDSystemInfo 3 dict dup begin\n/Registry ")?;
    push_string(out, collection.family.registry())?;
    out.extend_from_slice(b" def\n/Ordering ")?;
    push_string(out, collection.family.ordering())?;
    out.extend_from_slice(b" def\n/Supplement ")?;
    push_signed(out, supplement_of(collection))?;
    out.extend_from_slice(b" def\nend def\n")?;
    Ok(())
}

/// The number of the supplement.
fn supplement_of(collection: &CharacterCollection) -> i32
    ensures is { result ≡ collection.now.supplement }
    ensures fits { FitsSigned w32 result }
{
    collection.supplement
}

/// Writes a string.
fn push_string(out: &mut Vec<u8>, text: &[u8]) -> Result<(), AllocError>
    ensures written { OnOk result (out.new.items ≡ out.old.items ++ string_spelled text.now) }
    ensures small { AllBytes text.now }
{
    if !is_printed(text) {
        return push_hex(out, text);
    }
    out.extend_from_slice(b"(")?;
    out.extend_from_slice(text)?;
    out.extend_from_slice(b")")?;
    Ok(())
}

/// Whether each byte of a text stands for itself in a string.
fn is_printed(text: &[u8]) -> bool
    ensures { result ≡ list_all is_plain text.now }
{
    text.iter().all(|byte| is_plain(*byte))
}

/// Whether a byte stands for itself in a string, and terminals print it.
fn is_plain(byte: u8) -> bool
    ensures { result ≡ is_plain byte }
{
    byte >= b' ' && byte <= b'~' && byte != b'(' && byte != b')' && byte != b'\\'
}

/// Writes a number with its sign.
fn push_signed(out: &mut Vec<u8>, number: i32) -> Result<(), AllocError>
    ensures written { OnOk result (out.new.items ≡ out.old.items ++ signed_decimal number) }
    ensures small { IsSupplement number }
{
    let mut buffer = Buffer::new();
    out.extend_from_slice(buffer.format(number).as_bytes())
}

/// Writes the name of a file.
fn push_name(out: &mut Vec<u8>, name: &Option<Vec<u8>>) -> Result<(), AllocError>
    ensures { OnOk result (out.new.items ≡ out.old.items ++ from_option name_text (option_map (λ name. name.items) name.now)) }
{
    match name {
        Some(name) => push_name_key(out, name),
        None => Ok(()),
    }
}

/// Writes a name under its key, as a literal name if its bytes allow it.
fn push_name_key(out: &mut Vec<u8>, name: &[u8]) -> Result<(), AllocError>
    ensures { OnOk result (out.new.items ≡ out.old.items ++ name_text name.now) }
{
    out.extend_from_slice(b"/CMapName ")?;
    if is_name(name) {
        out.extend_from_slice(b"/")?;
    }
    out.extend_from_slice(name)?;
    out.extend_from_slice(b" def\n")
}

/// Writes a writing mode.
fn push_mode(out: &mut Vec<u8>, mode: Option<WritingMode>) -> Result<(), AllocError>
    ensures { OnOk result (out.new.items ≡ out.old.items ++ from_option mode_text (option_map mode_seen mode)) }
{
    match mode {
        Some(mode) => push_mode_key(out, mode),
        None => Ok(()),
    }
}

/// Writes a writing mode under its key.
fn push_mode_key(out: &mut Vec<u8>, mode: WritingMode) -> Result<(), AllocError>
    ensures { OnOk result (out.new.items ≡ out.old.items ++ mode_text (mode_seen mode)) }
{
    out.extend_from_slice(match mode {
        WritingMode::Horizontal => b"/WMode 0 def\n",
        WritingMode::Vertical => b"/WMode 1 def\n",
    })
}
