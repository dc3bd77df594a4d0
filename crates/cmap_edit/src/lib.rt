//! Files made out of others: the codes at which two maps differ, the fewest declarations, and all layers in one file.
#![tactic(auto)]

pub mod diff;
pub mod flatten;
pub mod tidy;
