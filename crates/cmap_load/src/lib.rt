//! CMap files over the files that they use, which the caller finds: the caller asks the loader, and
//! the loader never asks the caller.
#![tactic(auto)]

mod budget;
mod chain;
mod faults;
mod files;
mod from_source;
mod graph;
mod identity;
mod known;
mod loader;
pub mod named_files;
mod names;
pub mod refusal;
pub mod salvage;
mod search;
pub mod source;
mod table;

pub use chain::read_file;
pub use files::uses;
pub use from_source::{open_layers, read_layers};
pub use identity::{identity_h, identity_named, identity_text, identity_v};
pub use loader::{Loader, RefusedFile};
pub use names::{NameCopies, NameSlices, Names, Texts};
pub use refusal::{Cause, Refusal};
pub use salvage::{SalvageLoader, SalvagedLayers, salvaged_layers};
pub use source::Source;
