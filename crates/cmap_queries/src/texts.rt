//! The texts of codes as strings.

use hayro_cmap::{BfString, CMap};
use std::alloc::{AllocError, Global};

/// The text of a code.
pub fn text_of(alloc: Global, map: &CMap, code: u32) -> Result<Option<String>, AllocError> {
    text_string(alloc, map.lookup_bf_string(alloc, code)?)
}

/// A text as a string.
pub fn text_string(alloc: Global, text: Option<BfString>) -> Result<Option<String>, AllocError> {
    match text {
        None => Ok(None),
        Some(BfString::String(text)) => Ok(Some(text)),
        Some(BfString::Char(character)) => {
            let mut text = String::new(alloc);
            text.push(character)?;
            Ok(Some(text))
        }
    }
}
