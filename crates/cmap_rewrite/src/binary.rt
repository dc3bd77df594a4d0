//! The binary form of a file, written with the tables of a bundle.

use cmap_binary::Bundle;
use cmap_binary_writer::{Encoders, Obstacle, write_file};
use cmap_io::escape::push_text;
use cmap_io::failure::{Failure, fault};
use cmap_values::fault::Fault;
use cmap_values::file::File;
use std::alloc::{AllocError, Global};

/// The bytes of a file in the binary form. `path` is the path that the file was read from.
pub(crate) fn binary_of(
    rt: &HostRuntime,
    path: &str,
    file: &File<'_>,
    bundle: Option<&Bundle<'_>>,
) -> Result<Vec<u8>, Failure> {
    let Some(bundle) = bundle else {
        return Err(fault(rt, path, "--binary needs the tables of a --bundle"));
    };
    let Some(tables) = Encoders::of_tables(rt.alloc(), bundle.tables())? else {
        return Err(fault(rt, path, "the bundle has tables with too many words"));
    };
    match write_file(rt.alloc(), &tables, file) {
        Ok(bytes) => Ok(bytes),
        Err(Fault::Memory) => Err(Failure::Memory),
        Err(Fault::Refused(Obstacle::NoWord)) => Err(fault(
            rt,
            path,
            "the bundle has no code word for a number of the file",
        )),
        Err(Fault::Refused(obstacle)) => {
            Err(Failure::Message(obstacle_line(rt.alloc(), path, obstacle)?))
        }
    }
}

/// The line that states why the binary form can't express a file.
fn obstacle_line(alloc: Global, path: &str, obstacle: Obstacle) -> Result<String, AllocError> {
    let mut line = String::new(alloc);
    push_text(&mut line, path)?;
    write!(line, ": the binary form can't express the file: {obstacle}")?;
    Ok(line)
}
