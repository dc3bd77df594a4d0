//! The values that layers and callers share: the content of one file (its metadata, its declarations by
//! kind and length of code, the names of the files that it uses), the names of CMaps and the families of
//! character collections, lengths of codes, units of texts, and the reasons why a file is refused.
#![tactic(auto)]

pub mod character_collection;
pub mod code_length;
pub mod declarations;
pub mod fault;
pub mod file;
pub mod memory;
pub mod metadata;
pub mod names;
pub mod range;
pub mod units;
pub mod writing_mode;
