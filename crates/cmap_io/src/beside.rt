//! A file that is written beside another file and then replaces it, so that a path always has a whole file.

use crate::failure::{Failure, fault};
use crate::inputs::failed_at;
use crate::path_text::is_plain;
use std::fs::{self, File, OpenOptions, Permissions};
use std::io::{self, ErrorKind, Write};

/// The number of names that are tried for a file beside another one.
const MOST_TRIES: u32 = 100;

/// The path that stands for standard output.
pub const STANDARD_OUTPUT: &str = "-";

/// Replaces the file of a path by these bytes; `-` is standard output.
pub fn write_output(rt: &HostRuntime, target: &str, bytes: &[u8]) -> Result<(), Failure> {
    if target == STANDARD_OUTPUT {
        let mut output = rt.stdout();
        output.write_all(bytes)?;
        return Ok(output.flush()?);
    }
    Beside::write(rt, target, bytes)?.put_in_place(rt)
}

/// A file beside the file that it is to replace.
#[derive(Drop)]
pub struct Beside {
    path: String,
    /// The path of the file that is to be replaced.
    target: String,
}

impl Beside {
    /// Writes a file of these bytes beside the file of a path. If the path is a link, the new file is beside the
    /// linked file. The new file has the permissions of the file that it is to replace. Only a regular file is
    /// replaced. If the function fails, no new file is left.
    pub fn write(rt: &HostRuntime, target: &str, bytes: &[u8]) -> Result<Beside, Failure> {
        let place = place_of(rt, target)?;
        let (path, file) = create_beside(rt, place.path.as_str())?;
        let beside = Beside {
            path,
            target: place.path,
        };
        match write_whole(file, bytes, place.permissions) {
            Ok(()) => Ok(beside),
            Err(error) => Err(beside.give_up(rt, &error)),
        }
    }

    /// The path of the new file.
    pub fn path(&self) -> &str {
        self.path.as_str()
    }

    /// Puts the new file in place of the other one. If that fails, the new file is removed.
    pub fn put_in_place(self, rt: &HostRuntime) -> Result<(), Failure> {
        match fs::rename(rt, self.path.as_str(), self.target.as_str()) {
            Ok(()) => Ok(()),
            Err(error) => Err(self.give_up(rt, &error)),
        }
    }

    /// Removes the new file. The other file stays as it was.
    pub fn remove(&self, rt: &HostRuntime) {
        let _ = fs::remove_file(rt, self.path.as_str());
    }

    /// Removes the new file, and gives the failure that the other file can't be written.
    fn give_up(&self, rt: &HostRuntime, error: &io::Error) -> Failure {
        self.remove(rt);
        unwritable(rt, self.target.as_str(), error)
    }
}

/// The place of a new file.
#[derive(Drop)]
struct Place {
    path: String,
    /// The permissions of the file that is there.
    permissions: Option<Permissions>,
}

/// The place of a path, or a failure if no new file can take it.
fn place_of(rt: &HostRuntime, target: &str) -> Result<Place, Failure> {
    match found_place(rt, target) {
        Ok(Some(place)) => Ok(place),
        Ok(None) => Err(fault(rt, target, "can't be written: not a regular file")),
        Err(error) => Err(unwritable(rt, target, &error)),
    }
}

/// The place of a path; `None` if the path has something else than a regular file. A folder is an error.
fn found_place(rt: &HostRuntime, target: &str) -> io::Result<Option<Place>> {
    let path = linked_path(rt, target)?;
    let permissions = match fs::metadata(rt, path.as_str()) {
        Ok(metadata) if metadata.is_file() => Some(metadata.permissions()),
        Ok(metadata) if metadata.is_dir() => {
            return Err(io::Error::from(ErrorKind::IsADirectory));
        }
        Ok(_) => return Ok(None),
        Err(error) if error.kind() == ErrorKind::NotFound => None,
        Err(error) => return Err(error),
    };
    Ok(Some(Place { path, permissions }))
}

/// The path to which a link leads; the path itself if it isn't a link.
fn linked_path(rt: &HostRuntime, path: &str) -> io::Result<String> {
    if !is_plain(path) {
        return Err(io::Error::from(ErrorKind::InvalidInput));
    }
    match fs::symlink_metadata(rt, path) {
        Ok(metadata) if metadata.is_symlink() => Ok(fs::canonicalize(rt, path)?.into_string()),
        Ok(_) => Ok(String::from_str(rt.alloc(), path)?),
        Err(error) if error.kind() == ErrorKind::NotFound => Ok(String::from_str(
            rt.alloc(),
            path,
        )?),
        Err(error) => Err(error),
    }
}

/// A new file beside the file of a path.
fn create_beside(rt: &HostRuntime, target: &str) -> Result<(String, File), Failure> {
    for number in 0..MOST_TRIES {
        let path = format!(in rt.alloc(); "{target}.new-{number}")?;
        let opened = OpenOptions::new()
            .write(true)
            .create_new(true)
            .open(rt, path.as_str());
        match opened {
            Ok(file) => return Ok((path, file)),
            Err(error) if error.kind() == ErrorKind::AlreadyExists => {}
            Err(error) => return Err(unwritable(rt, target, &error)),
        }
    }
    Err(fault(
        rt,
        target,
        "can't be written: files whose names end with .new-0 to .new-99 stand beside it",
    ))
}

/// Sets the permissions, if there are any, and writes all bytes to the disk.
fn write_whole(mut file: File, bytes: &[u8], permissions: Option<Permissions>) -> io::Result<()> {
    if let Some(permissions) = permissions {
        file.set_permissions(permissions)?;
    }
    file.write_all(bytes)?;
    file.sync_all()
}

/// The failure of a path that can't be written, with the reason that the system gives.
fn unwritable(rt: &HostRuntime, path: &str, error: &io::Error) -> Failure {
    failed_at(rt.alloc(), path, "can't be written", error)
}
