//! CMap files in the binary form `bcmap`: bits, the prefix tables by which numbers are encoded, the
//! bundles that hold the tables and the files, and the files.
#![tactic(auto)]

pub mod bit_queue;
pub mod bits;
mod bundle;
mod columns;
mod entries;
mod fields;
mod file;
mod kinds;
mod owned_bundle;
pub mod pieces;
pub mod prefix;
mod salvage;
mod segments;

pub use bundle::{Bundle, NO_FILE, Tables, load_embedded};
pub use file::{HEAD, is_marked_binary, read_binary};
pub use owned_bundle::OwnedBundle;
pub use salvage::salvage_binary;
