//! Tables of declarations for ranges of codes.
#![tactic(auto)]

pub mod runs;
