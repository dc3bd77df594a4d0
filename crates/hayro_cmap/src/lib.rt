//! CMap files: which CID a character code stands for, and which Unicode text. Adobe Technical
//! Notes 5014, 5099 and 5411; ISO 32000-1, 9.7.5 and 9.10.3.
#![tactic(auto)]

mod budget;
mod files_by_name;
mod map;

pub use budget::ParseError;
pub use cmap_binary::{Bundle, OwnedBundle, load_embedded};
pub use cmap_layers::code_lengths;
pub use cmap_layers::layer::{DeclarationCounts, Layer};
pub use cmap_layers::layers::Layers;
pub use cmap_layers::stretches::{CidStretch, Cids, TextStretch};
pub use cmap_layers::string_codes::StringCode;
pub use cmap_load::named_files::{BundleFiles, NamedFile, NamedFiles};
pub use cmap_load::{
    Cause, Loader, NameCopies, NameSlices, Names, Refusal, RefusedFile, SalvageLoader, Source,
    Texts, identity_text,
};
pub use cmap_runs::runs;
pub use cmap_tokens::token;
pub use cmap_tokens::utf16::{self, BfString};
pub use cmap_values::character_collection::{CharacterCollection, CidFamily};
pub use cmap_values::code_length::CodeLength;
pub use cmap_values::declarations::{BfRange, ByLength, CidRange, Codespace};
pub use cmap_values::fault::{Fault, Reason, Segment, Stop};
pub use cmap_values::metadata::Metadata;
pub use cmap_values::names::{CMapName, Cid};
pub use cmap_values::units::Units;
pub use cmap_values::writing_mode::WritingMode;
pub use map::{CMap, SalvagedMap};

/// The parts of the binary form of CMap files: bits and numbers, prefix tables, bundles.
pub mod bcmap {
    pub use cmap_binary::bits::Reader;
    pub use cmap_binary::prefix::PrefixTable;
    pub use cmap_binary::{Bundle, OwnedBundle, load_embedded};
}
