//! Writers of CMap files in the binary form `bcmap`: a reader of a written file gets the content that
//! was given.
#![tactic(auto)]

mod bits;
mod bytes;
mod cids;
mod codespaces;
mod columns;
mod decided;
mod file;
mod metadata;
mod notdefs;
mod obstacle;
pub mod pieces;
pub mod prepared;
pub mod segments;
mod split;
mod tables;
mod text_parts;
mod texts;
mod words;

pub use columns::Encoders;
pub use file::write_file;
pub use obstacle::Obstacle;
pub use words::Encoder;
