//! Codespace ranges, found by bits: whether one of them contains a code or has codes that may begin with
//! given bytes, and how many bytes the shortest code has that a string begins with. ISO 32000-1, 9.7.6.2.
#![tactic(auto)]

mod block;
mod front;
mod group;
mod lengths;
mod query;
mod search;
mod spaces;

pub use front::lesser;
pub use query::Query;
pub use spaces::{Spaces, some_count};
