//! Files of other formats, by their first bytes.

use cmap_binary::is_marked_binary;
use cmap_io::failure::{Failure, fault, report_message};
use hayro_cmap::Bundle;
use std::alloc::{AllocError, Global};

/// Reports a file that has another format, or a file in the binary form if there is no bundle.
pub fn report_format(
    rt: &HostRuntime,
    path: &str,
    bytes: &[u8],
    bundle: Option<&Bundle<'_>>,
) -> Result<(), Failure> {
    if let Some(format) = format_of(rt.alloc(), bytes, bundle)? {
        report_message(rt, fault(rt, path, format))?;
    }
    Ok(())
}

/// A message about the format of a file, if the file isn't a CMap that can be read with this
/// bundle, or without a bundle.
pub fn format_of(
    alloc: Global,
    bytes: &[u8],
    bundle: Option<&Bundle<'_>>,
) -> Result<Option<&'static str>, AllocError> {
    if bytes.starts_with(b"%PDF-") {
        Ok(Some("this is a PDF file, not a CMap file"))
    } else if is_font(bytes) {
        Ok(Some("this is a font, not a CMap file"))
    } else if Bundle::parse(alloc, bytes)?.is_some() {
        Ok(Some("this is a bundle, which the option --bundle takes"))
    } else if bundle.is_none() && is_marked_binary(bytes) {
        Ok(Some("this is a binary file, which needs the tables of a --bundle"))
    } else {
        Ok(encoding_of(bytes))
    }
}

/// A message about the compression or the text encoding of a file, if the first bytes show one.
fn encoding_of(bytes: &[u8]) -> Option<&'static str> {
    match bytes {
        [0x1F, 0x8B, ..] => Some("this is compressed by gzip"),
        [0x78, 0x01 | 0x9C | 0xDA, ..] => Some("this is compressed by zlib, as by /FlateDecode"),
        [0xFD, b'7', b'z', b'X', b'Z', 0, ..] => Some("this is compressed by xz"),
        [b'P', b'K', 3, 4, ..] => Some("this is a zip archive"),
        [0xFE, 0xFF, ..] | [0xFF, 0xFE, ..] => Some("this is UTF-16, not the bytes of a CMap file"),
        _ => None,
    }
}

/// Whether these are the first bytes of a font: of TrueType, OpenType, WOFF, CFF or Type 1.
fn is_font(bytes: &[u8]) -> bool {
    bytes.starts_with(b"%!PS-AdobeFont")
        || bytes.starts_with(b"%!FontType")
        || matches!(
            bytes,
            [0, 1, 0, 0, ..]
                | [b'O', b'T', b'T', b'O', ..]
                | [b't', b'r', b'u', b'e', ..]
                | [b't', b't', b'c', b'f', ..]
                | [b'w', b'O', b'F', b'F' | b'2', ..]
                | [1, 0, 4, 1..=4, ..]
                | [0x80, 1, ..]
        )
}
