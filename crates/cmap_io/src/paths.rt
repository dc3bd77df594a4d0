//! The files that `check` reads.

use crate::count::Count;
use crate::failure::{Failure, fault, report_message};
use crate::folders::{files_in, is_folder};
use crate::inputs::{STANDARD_INPUT, needed};
use crate::path_text::path_text;

/// A file that lists paths.
#[derive(Clone, Copy)]
pub struct PathList<'l> {
    pub path: &'l str,
    /// The byte after each path.
    pub end: u8,
}

/// The files that arguments and a list name, and the files in the folders that they name.
#[derive(Drop)]
pub struct Paths {
    pub files: Vec<String>,
    /// The number of paths that can't be read. These paths were reported.
    pub unreadable: Count,
}

/// The files that the arguments name, and then the files that the list names.
pub fn paths_of(
    rt: &HostRuntime,
    arguments: &[&str],
    list: Option<PathList<'_>>,
) -> Result<Paths, Failure> {
    let mut paths = Paths {
        files: Vec::new(rt.alloc()),
        unreadable: Count::of(0),
    };
    paths.add_all(rt, arguments, list)?;
    Ok(paths)
}

impl Paths {
    /// Adds the files that the arguments name, and then the files that the list names.
    fn add_all(
        &mut self,
        rt: &HostRuntime,
        arguments: &[&str],
        list: Option<PathList<'_>>,
    ) -> Result<(), Failure> {
        for path in arguments {
            self.add(rt, path)?;
        }
        match list {
            Some(PathList { path, end }) => self.add_list(rt, &needed(rt, path)?, end),
            None => Ok(()),
        }
    }

    /// Adds the files that the paths of a list name. The byte `end` ends each path, and empty paths are
    /// skipped.
    fn add_list(&mut self, rt: &HostRuntime, list: &[u8], end: u8) -> Result<(), Failure> {
        for path in list.split(|byte| *byte == end) {
            if !path.is_empty() {
                self.add_listed(rt, path)?;
            }
        }
        Ok(())
    }

    /// Adds the files that a path of a list names. A list can't name standard input.
    fn add_listed(&mut self, rt: &HostRuntime, path: &[u8]) -> Result<(), Failure> {
        let path = path_text(rt.alloc(), path)?;
        if path.as_str() != STANDARD_INPUT {
            return self.add(rt, path.as_str());
        }
        self.unreadable.add_one();
        report_message(rt, fault(rt, STANDARD_INPUT, "can't be read by a list"))
    }

    /// Adds a file, or each file in a folder.
    fn add(&mut self, rt: &HostRuntime, path: &str) -> Result<(), Failure> {
        if path == STANDARD_INPUT || !is_folder(rt, path) {
            self.files.push(String::from_str(rt.alloc(), path)?)?;
            return Ok(());
        }
        let mut found = files_in(rt, path)?;
        self.unreadable.add(found.unreadable.get());
        self.files.append(&mut found.files)?;
        Ok(())
    }
}
