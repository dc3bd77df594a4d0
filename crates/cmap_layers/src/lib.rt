//! The layers of a map, and their answers. A layer has the content of one CMap file; the layers of
//! the files that this file is based on come after it.
#![tactic(auto)]

pub mod code_lengths;
pub mod code_ranges;
mod codespaces;
pub mod layer;
pub mod layers;
pub mod lists;
mod lookup;
mod others;
mod row;
pub mod stretches;
pub mod string_codes;
mod text_codes;
