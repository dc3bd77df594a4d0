//! The files in folders.

use crate::count::Count;
use crate::failure::Failure;
use crate::inputs::{readable, report_unreadable};
use crate::path_text::{is_plain, path_text};
use std::alloc::{AllocError, Global};
use std::fs::{self, Files};
use std::io::{self, ErrorKind, Read};

/// The most folders that are read. The loop over folders ends because each folder is read once and links aren't
/// followed, but no contract bounds the number of folders of a file system. So the loop has this bound, which no run
/// reaches, and fails beyond it.
const MOST_FOLDERS: u32 = u32::MAX;

/// The most reads of the names in a folder, which no run reaches. A folder that needs more can't be read.
const MOST_READS: u32 = u32::MAX;

/// The number of bytes of names in one read. A name has up to 255 bytes.
const NAMES_ROOM: usize = 32768;

/// The files in a folder and its subfolders.
#[derive(Drop)]
pub struct Found {
    /// The paths of the files, in the order of their texts; the text of a path that isn't UTF-8 has marks.
    pub files: Vec<String>,
    /// The number of folders that can't be read.
    pub unreadable: Count,
    /// The folders that haven't been read yet.
    waiting: Vec<String>,
}

/// Whether a folder has this path.
pub fn is_folder(rt: &HostRuntime, path: &str) -> bool {
    matches!(kind_of(rt, path), Ok(Kind::Folder))
}

/// Whether a file, a pipe or a device has this path.
pub fn is_file(rt: &HostRuntime, path: &str) -> bool {
    matches!(kind_of(rt, path), Ok(Kind::File | Kind::Other))
}

/// Whether a regular file has this path.
pub fn is_regular_file(rt: &HostRuntime, path: &str) -> bool {
    matches!(kind_of(rt, path), Ok(Kind::File))
}

/// The reason why no file has this path.
pub fn why_no_file(rt: &HostRuntime, path: &str) -> io::Error {
    match kind_of(rt, path) {
        Ok(_) => io::Error::from(ErrorKind::IsADirectory),
        Err(error) => error,
    }
}

/// The reason why no folder has this path.
pub fn why_no_folder(rt: &HostRuntime, path: &str) -> io::Error {
    match kind_of(rt, path) {
        Ok(_) => io::Error::from(ErrorKind::NotADirectory),
        Err(error) => error,
    }
}

/// The kind of an entry of the file system.
#[derive(Clone, Copy)]
enum Kind {
    /// A regular file.
    File,
    Folder,
    /// A pipe, a socket or a device.
    Other,
}

/// The kind of the entry at this path. Links are followed.
fn kind_of(rt: &HostRuntime, path: &str) -> io::Result<Kind> {
    if !is_plain(path) {
        return Err(io::Error::from(ErrorKind::InvalidInput));
    }
    let metadata = fs::metadata(rt, path)?;
    Ok(if metadata.is_dir() {
        Kind::Folder
    } else if metadata.is_file() {
        Kind::File
    } else {
        Kind::Other
    })
}

/// The regular files in a folder and its subfolders, except hidden files and folders. A link to a file counts as a
/// file, and a link to a folder isn't followed. Folders that can't be read are reported.
pub fn files_in(rt: &HostRuntime, folder: &str) -> Result<Found, Failure> {
    let mut found = Found::new(rt.alloc());
    found.add_all(rt, folder)?;
    Ok(found)
}

/// Adds a folder, and after it its subfolders in the order of their paths, except hidden ones and links. A folder that
/// can't be read has no subfolders, and is reported if it exists.
pub fn add_with_subfolders(
    rt: &HostRuntime,
    folder: &str,
    folders: &mut Vec<String>,
) -> Result<(), Failure> {
    folders.push(String::from_str(rt.alloc(), folder)?)?;
    let mut found = Found::new(rt.alloc());
    match readable(found.add_entries(rt, folder))? {
        Ok(()) => {
            found.waiting.sort()?;
            Ok(folders.append(&mut found.waiting)?)
        }
        Err(error) if error.kind() == ErrorKind::NotFound => Ok(()),
        Err(error) => report_unreadable(rt, folder, &error),
    }
}

impl Found {
    fn new(alloc: Global) -> Found {
        Found {
            files: Vec::new(alloc),
            unreadable: Count::of(0),
            waiting: Vec::new(alloc),
        }
    }

    /// Adds the files in a folder and its subfolders.
    fn add_all(&mut self, rt: &HostRuntime, folder: &str) -> Result<(), Failure> {
        self.waiting.push(String::from_str(rt.alloc(), folder)?)?;
        for _ in 0..MOST_FOLDERS {
            let Some(next) = self.waiting.pop() else {
                return Ok(self.files.sort()?);
            };
            self.add_folder(rt, next.as_str())?;
        }
        Err(Failure::from(too_large()))
    }

    /// Adds the entries of a folder, or reports that the folder can't be read.
    fn add_folder(&mut self, rt: &HostRuntime, folder: &str) -> Result<(), Failure> {
        if let Err(error) = readable(self.add_entries(rt, folder))? {
            report_unreadable(rt, folder, &error)?;
            self.unreadable.add_one();
        }
        Ok(())
    }

    /// Adds the entries of a folder, except hidden ones.
    fn add_entries(&mut self, rt: &HostRuntime, folder: &str) -> io::Result<()> {
        let folder = with_slash(rt.alloc(), folder)?;
        let names = names_in(rt, folder.as_str())?;
        for name in names.split(|byte| *byte == 0) {
            if !matches!(name, [] | [b'.', ..]) {
                self.add(rt, path_in(rt.alloc(), folder.as_str(), name)?)?;
            }
        }
        Ok(())
    }

    /// Adds a file, or a folder that hasn't been read yet.
    fn add(&mut self, rt: &HostRuntime, path: String) -> io::Result<()> {
        match entry_at(rt, path.as_str())? {
            Kind::Folder => self.waiting.push(path)?,
            Kind::File => self.files.push(path)?,
            Kind::Other => {}
        }
        Ok(())
    }
}

/// The kind of an entry of a folder. An entry that can't be opened counts as a file, which then can't be read. A link
/// to a folder, and an entry that no longer exists, count as neither a file nor a folder.
fn entry_at(rt: &HostRuntime, path: &str) -> io::Result<Kind> {
    if !is_plain(path) {
        return Ok(Kind::File);
    }
    match fs::symlink_metadata(rt, path) {
        Ok(metadata) if metadata.is_dir() => Ok(Kind::Folder),
        Ok(_) => Ok(linked_at(rt, path)),
        Err(error) if error.kind() == ErrorKind::NotFound => Ok(Kind::Other),
        Err(error) => Err(error),
    }
}

/// The kind of an entry that isn't a folder itself.
fn linked_at(rt: &HostRuntime, path: &str) -> Kind {
    match kind_of(rt, path) {
        Ok(Kind::Folder | Kind::Other) => Kind::Other,
        Ok(Kind::File) | Err(_) => Kind::File,
    }
}

/// The path of a folder with a slash after it, so that a link is followed.
fn with_slash(alloc: Global, folder: &str) -> Result<String, AllocError> {
    let mut path = String::from_str(alloc, folder)?;
    if !folder.is_empty() && !folder.ends_with('/') {
        path.push('/')?;
    }
    Ok(path)
}

/// The names of the entries of a folder, each with a zero byte after it.
fn names_in(rt: &HostRuntime, folder: &str) -> io::Result<Vec<u8>> {
    let mut names = Vec::new(rt.alloc());
    let mut room = vec![in rt.alloc(); 0; NAMES_ROOM]?;
    let mut folder = rt.open_dir(folder)?;
    for _ in 0..MOST_READS {
        let len = folder.read(&mut room)?;
        if len == 0 {
            return Ok(names);
        }
        names.extend_from_slice(&room[..len])?;
    }
    Err(too_large())
}

/// The error for a folder beyond these bounds.
fn too_large() -> io::Error {
    io::Error::from(ErrorKind::FileTooLarge)
}

/// The path of the entry with this name in a folder. The path of the folder ends with a slash.
fn path_in(alloc: Global, folder: &str, name: &[u8]) -> Result<String, AllocError> {
    let mut path = String::from_str(alloc, folder)?;
    path.push_str(path_text(alloc, name)?.as_str())?;
    Ok(path)
}

/// The last part of a path.
pub fn name_of(path: &str) -> &str {
    match path.rsplit_once('/') {
        Some((_, name)) => name,
        None => path,
    }
}
