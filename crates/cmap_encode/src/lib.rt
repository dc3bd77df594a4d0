//! Strings of a font that show a text, by the layers of its CMaps.
#![tactic(auto)]

mod alike;
mod by_character;
mod by_cid;
mod choices;
mod code;
mod codespaces;
mod encoder;
mod folding;
mod forms;
mod gathered;
mod glyph_codes;
mod glyphs;
mod index;
mod key_codes;
mod letters;
mod maps;
mod outside;
mod pieces;
mod prefixes;
mod rank;
mod runs_by_prefix;
mod silent;
mod tree;
mod ways;
mod whole;

pub use choices::Grade;
pub use encoder::{Encoder, Unencodable};
pub use folding::fold;
pub use pieces::Piece;
