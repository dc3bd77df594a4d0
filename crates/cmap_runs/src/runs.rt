//! Tables of declarations by code: the last declaration that contains a code decides it.

mod block_maker;
mod blocks;
mod held;
mod indices;
mod looks;
mod open;
mod ranges;
mod search;
mod stretch;
mod sweep;
mod table;

pub use cmap_values::range::{HasRange, Range};
pub use looks::Looks;
pub use stretch::{Stretch, Stretches};
pub use table::Table;
