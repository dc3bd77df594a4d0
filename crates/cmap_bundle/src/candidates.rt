//! The files that arguments ask to be put in a bundle.

use cmap_io::count::Count;
use cmap_io::failure::{Failure, fault, report_message};
use cmap_io::folders::{files_in, is_folder, name_of};
use cmap_io::inputs::{STANDARD_INPUT, needed};
use cmap_io::path_text::is_plain;
use hayro_cmap::CMapName;

/// A file that is asked for.
#[derive(Drop)]
pub struct Candidate {
    pub path: String,
    /// The name that an argument gives the file, or else the file name if it is a known name. Without either, the
    /// `CMapName` of the file counts.
    pub name: Option<String>,
    pub bytes: Vec<u8>,
}

/// The files that are asked for, in order.
#[derive(Drop)]
pub struct Candidates {
    pub files: Vec<Candidate>,
    /// The number of files in folders that have none of the known names. These files aren't read.
    pub passed_over: Count,
    /// The number of paths in folders that aren't UTF-8. Each path is reported.
    pub left_out: Count,
}

/// The files of the arguments `NAME=FILE`, followed by the files of the paths.
pub fn candidates_of(
    rt: &HostRuntime,
    named: &[&str],
    paths: &[&str],
) -> Result<Candidates, Failure> {
    let mut candidates = Candidates {
        files: Vec::new(rt.alloc()),
        passed_over: Count::of(0),
        left_out: Count::of(0),
    };
    for argument in named {
        candidates.add_named(rt, argument)?;
    }
    candidates.add_paths(rt, paths)?;
    Ok(candidates)
}

impl Candidates {
    /// Adds the file of an argument `NAME=FILE`.
    fn add_named(&mut self, rt: &HostRuntime, argument: &str) -> Result<(), Failure> {
        let Some((name, path)) = argument.split_once('=') else {
            return Err(fault(rt, argument, "not NAME=FILE"));
        };
        self.add_file(rt, Some(name), path)
    }

    fn add_paths(&mut self, rt: &HostRuntime, paths: &[&str]) -> Result<(), Failure> {
        for path in paths {
            if *path != STANDARD_INPUT && is_folder(rt, path) {
                self.add_folder(rt, path)?;
            } else {
                self.add_file(rt, known_file_name(path), path)?;
            }
        }
        Ok(())
    }

    /// Adds the files of a folder and its subfolders that have known names.
    fn add_folder(&mut self, rt: &HostRuntime, folder: &str) -> Result<(), Failure> {
        let found = files_in(rt, folder)?;
        if found.unreadable.get() > 0 {
            return Err(fault(rt, folder, "can't be read completely"));
        }
        for path in &found.files {
            match known_file_name(path.as_str()) {
                Some(name) => self.add_file(rt, Some(name), path.as_str())?,
                None if is_plain(path.as_str()) => self.passed_over.add_one(),
                None => self.leave_out(rt, path.as_str())?,
            }
        }
        Ok(())
    }

    /// Leaves out a path that isn't UTF-8, and reports the path, which may lead to a folder.
    fn leave_out(&mut self, rt: &HostRuntime, path: &str) -> Result<(), Failure> {
        self.left_out.add_one();
        report_left_out(rt, path, "its path isn't UTF-8")
    }

    /// Adds the file of a path, with this name.
    fn add_file(
        &mut self,
        rt: &HostRuntime,
        name: Option<&str>,
        path: &str,
    ) -> Result<(), Failure> {
        let bytes = needed(rt, path)?;
        let name = match name {
            Some(name) => Some(String::from_str(rt.alloc(), name)?),
            None => None,
        };
        let path = String::from_str(rt.alloc(), path)?;
        self.files.push(Candidate { path, name, bytes })?;
        Ok(())
    }
}

/// Reports that a file is left out, and why.
pub(crate) fn report_left_out(rt: &HostRuntime, path: &str, reason: &str) -> Result<(), Failure> {
    let mut wrong = String::from_str(rt.alloc(), "left out: ")?;
    wrong.push_str(reason)?;
    report_message(rt, fault(rt, path, wrong.as_str()))
}

/// The last part of a path, if it is a known name.
fn known_file_name(path: &str) -> Option<&str> {
    let name = name_of(path);
    is_known(name.as_bytes()).then_some(name)
}

/// Whether a bundle has a place for a file of this name.
pub(crate) fn is_known(name: &[u8]) -> bool {
    CMapName::from_bytes(name).index().is_some()
}
