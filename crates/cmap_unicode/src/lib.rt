//! The codes of a string with their CIDs and their Unicode texts, by the CMaps of a font.
//! ISO 32000-1, 9.10.2.
#![tactic(auto)]

mod cids;
mod collections;
mod extractor;
mod rows;
mod simple_fonts;
mod text_codes;

pub use cids::{declared_cid, declared_stretch, stretch_of_layers};
pub use collections::{collection_name, ucs2_name, unicode_name};
pub use extractor::{Character, Extractor};
pub use rows::{TextRow, texts_in_row};
pub use simple_fonts::simple_encoding;
