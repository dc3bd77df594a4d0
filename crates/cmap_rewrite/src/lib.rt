//! The commands that write CMap files: `cmap write`, `cmap repair` and `cmap make`.
#![tactic(auto)]

mod binary;
mod changes;
mod collection;
pub mod command;
mod filled;
pub mod make;
mod naming;
mod obstacle;
mod order;
mod shown_name;
mod table;
mod within;
