//! Lists of declarations written anew in the fewest declarations.

mod cid_lists;
mod cids;
mod consecutive;
mod copies;
mod counting;
mod file;
mod rows;
mod text_lists;
mod texts;

pub use self::cids::{push_cids, push_notdefs};
pub use self::file::tidy;
pub use self::texts::push_texts;
pub(crate) use self::texts::{counted_on, fits};
