//! Files that are read, for C and for languages that call C: functions of `include/hayro_cmap.h`.
#![tactic(auto)]

mod bundle;
mod cids;
mod codes_of_cid;
mod declared;
mod decode;
mod either_loader;
mod explain;
mod extract;
mod fault;
mod file_loader;
mod files;
mod finish;
mod found_faults;
mod identity;
mod keep;
mod layers;
mod lint;
mod load;
mod loader_handle;
mod loader_slot;
mod message;
mod metadata;
mod open;
mod parse;
mod read_as;
mod row;
mod salvage;
mod share;
mod unicode_name;
mod uses;
mod utf8_text;
mod version;
