//! The codes at which two maps differ, in their CIDs or in their texts.

pub mod cids;
mod compared;
mod first;
mod parts;
mod text_parts;
pub mod texts;
mod whole;

pub use self::cids::{CidDifference, cid_differences};
pub use self::first::first_cid_difference;
pub use self::texts::{TextDifference, text_differences};
