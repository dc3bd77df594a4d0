//! Tokens of PostScript and texts in UTF-16, as CMap files spell them.
#![tactic(auto)]

pub mod token;
pub mod utf16;
