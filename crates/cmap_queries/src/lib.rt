//! Queries of codes: the arguments that spell queries, the lines that answer them, and the failures that end a run
//! without answers. The program cmap_query is one call of this crate.
#![tactic(auto)]

pub mod answers;
pub mod arguments;
mod embedded;
pub mod failure;
pub mod input;
pub mod options;
pub mod output;
pub mod query;
pub mod texts;

pub use hayro_cmap::code_lengths;
