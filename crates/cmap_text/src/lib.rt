//! CMap files as text: the reading of tokens, entries, sections and items, up to the content of the
//! file.
#![tactic(auto)]

mod entries;
mod file;
mod items;
mod keys;
mod salvage;
mod sections;
mod tokens;
mod wrong_token;

pub use entries::{CidKind, Extent};
pub use file::read_text;
pub use keys::{is_key, is_key_name};
pub use salvage::salvage_text;
pub use sections::{Section, opened_section};
