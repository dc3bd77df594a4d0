//! The input and the output of the command: arguments, paths, folders and the bytes of files; untrusted names and
//! texts, values of JSON and counts, in a form that is safe on a terminal; and the ends of a run.
#![tactic(auto)]

pub mod arguments;
pub mod beside;
mod compact;
pub mod count;
pub mod digits;
pub mod escape;
pub mod failure;
pub mod file_bytes;
pub mod file_names;
pub mod folders;
mod hidden;
pub mod inputs;
pub mod json;
pub mod object;
pub mod path_text;
pub mod paths;
pub mod status;
pub mod value;
