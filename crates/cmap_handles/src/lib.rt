//! The values that C holds and hands in: maps and bundles behind handles, buffers for answers, and the outcome
//! of a call.
#![tactic(auto)]

pub mod bundle;
pub mod handle;
pub mod loose;
pub mod names;
pub mod ranges;
pub mod room;
pub mod shared;
pub mod slot;
pub mod status;
