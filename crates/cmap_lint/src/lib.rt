//! The warnings about an accepted CMap file, each with a count and the first place; and how a reader that goes past
//! faults reads a part at fault.
#![tactic(auto)]

mod boxes;
mod characters;
mod codespaces;
mod declared;
pub mod finding;
mod identity;
pub mod lint;
mod overlaps;
mod ranges;
pub mod read_as;
mod sections;
mod shapes;
mod shown;
mod strings;
mod text_spans;
pub mod warning;
