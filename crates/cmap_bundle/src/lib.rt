//! `cmap bundle`, and the contents of a bundle: the choice of the files, the making of the bundle, and its comparison
//! with the files.
#![tactic(auto)]

pub mod candidates;
pub mod choice;
pub mod command;
pub mod contents;
pub mod difference;
pub mod making;
pub mod summary;
pub mod verify;
