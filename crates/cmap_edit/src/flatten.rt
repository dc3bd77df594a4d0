//! One file with the answers of a map of several layers, for all codes or for the chosen codes.

mod answers;
mod cids;
mod codes;
mod lists;
mod subsets;
mod texts;

pub use self::answers::Contradiction;
pub use self::codes::Codes;
pub use self::subsets::{flatten, subset};
