//! Makers of bundles of CMap files in the binary form `bcmap`: a reader of a bundle reads the files
//! that the caller asked for.
#![tactic(auto)]

mod behind;
mod bundle;
mod frequencies;
mod lengths;
mod slots;
mod source;
mod tables;
mod unwritable;

pub use bundle::make_named_bundle;
pub use cmap_binary_writer::{Encoder, Encoders, Obstacle, write_file};
pub use source::Source;
pub use unwritable::Unwritable;
