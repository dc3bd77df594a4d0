//! CMap files that are written, for C, and for what calls C: functions of `include/hayro_cmap.h`.
#![tactic(auto)]

mod build;
mod chosen;
mod code_lengths;
mod declaration;
mod declarations;
mod encode;
mod facts;
mod file;
mod fold;
mod handle;
mod make;
mod pieces;
mod share;
mod slot;
mod text_lengths;
mod units;
mod write;
mod written;
