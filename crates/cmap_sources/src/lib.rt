//! Finds CMap files for the command, reads them over the files that they use, and reports why a file is refused.
#![tactic(auto)]

pub mod alone;
pub mod bases;
pub mod fault_line;
pub mod format;
pub mod maps;
pub mod reading;
pub mod refused;
pub mod search;
pub mod uses;
