//! The output of the command `cmap` about a map, as lines for people and as JSON objects.
#![tactic(auto)]

pub mod decode;
pub mod diff;
pub mod encode;
pub mod find;
pub mod info;
pub mod list;
pub mod lookup;
