//! Folders in which a name is looked up if neither a base nor a file of the bundle has the name.

use cmap_io::failure::{Failure, fault};
use cmap_io::file_names::file_name;
use cmap_io::folders::{add_with_subfolders, is_regular_file};
use std::alloc::{AllocError, Global};
use std::collections::BTreeSet;
use std::env::{self, VarError};

/// The environment variable with the folders, separated by colons.
pub const VARIABLE: &str = "CMAP_PATH";

/// Where systems keep the predefined CMaps: Debian's package poppler-data, Ghostscript, and the packages
/// cmap-adobe-*. Any of them may be absent.
const SYSTEM_FOLDERS: &[&str] = &[
    "/usr/share/poppler/cMap",
    "/var/lib/ghostscript/CMap",
    "/usr/share/fonts/cmap",
];

/// Folders in which files are looked up by their names.
#[derive(Drop)]
pub struct Search {
    /// The folders, in the order of the search.
    folders: Vec<String>,
    /// Whether `folders` includes the subfolders.
    has_subfolders: bool,
    /// Whether `folders` are the folders in which systems keep the predefined CMaps.
    is_of_system: bool,
    /// Names that were looked up in vain.
    absent: BTreeSet<String>,
}

impl Search {
    /// A search in no folder.
    pub fn nowhere(alloc: Global) -> Search {
        Search {
            folders: Vec::new(alloc),
            has_subfolders: false,
            is_of_system: false,
            absent: BTreeSet::new(alloc),
        }
    }

    /// Adds the folders that the environment variable lists. If the variable isn't set, the folders in which systems
    /// keep the predefined CMaps are added.
    pub fn add_environment(&mut self, rt: &HostRuntime) -> Result<(), Failure> {
        match env::var(rt, VARIABLE) {
            Ok(folders) => Ok(self.add_listed(rt.alloc(), folders.as_str())?),
            Err(VarError::NotPresent) => Ok(self.add_system(rt.alloc())?),
            Err(VarError::NotUnicode) => Err(fault(rt, VARIABLE, "not UTF-8")),
            Err(VarError::OutOfMemory) => Err(Failure::Memory),
        }
    }

    /// Adds the folders of a list, separated by colons. Empty names are passed over.
    fn add_listed(&mut self, alloc: Global, folders: &str) -> Result<(), AllocError> {
        for folder in env::split_paths(folders) {
            if !folder.as_str().is_empty() {
                self.folders
                    .push(String::from_str(alloc, folder.as_str())?)?;
            }
        }
        Ok(())
    }

    /// Adds the folders where systems keep the predefined CMaps.
    fn add_system(&mut self, alloc: Global) -> Result<(), AllocError> {
        self.is_of_system = true;
        for folder in SYSTEM_FOLDERS {
            self.folders.push(String::from_str(alloc, folder)?)?;
        }
        Ok(())
    }

    /// Whether a file may have this name: there are folders, and the name wasn't looked up in vain before.
    pub fn may_have(&self, name: &[u8]) -> bool {
        match file_name(name) {
            Some(name) => !self.folders.is_empty() && !self.absent.contains(name),
            None => false,
        }
    }

    /// Whether these are the folders of the system.
    pub fn is_of_system(&self) -> bool {
        self.is_of_system
    }

    /// The path of the first file of this name.
    pub fn find(&mut self, rt: &HostRuntime, name: &[u8]) -> Result<Option<String>, Failure> {
        match file_name(name) {
            Some(name) => {
                self.add_subfolders(rt)?;
                self.find_file(rt, name)
            }
            None => Ok(None),
        }
    }

    fn find_file(&self, rt: &HostRuntime, name: &str) -> Result<Option<String>, Failure> {
        for folder in &self.folders {
            let path = format!(in rt.alloc(); "{folder}/{name}")?;
            if is_regular_file(rt, path.as_str()) {
                return Ok(Some(path));
            }
        }
        Ok(None)
    }

    /// Adds the subfolders of each folder after the folder, unless they were added before.
    fn add_subfolders(&mut self, rt: &HostRuntime) -> Result<(), Failure> {
        if !self.has_subfolders {
            self.folders = with_subfolders(rt, &self.folders)?;
            self.has_subfolders = true;
        }
        Ok(())
    }

    /// Records that no file has this name.
    pub fn set_absent(&mut self, alloc: Global, name: &[u8]) -> Result<(), AllocError> {
        if let Some(name) = file_name(name) {
            self.absent.insert(String::from_str(alloc, name)?)?;
        }
        Ok(())
    }
}

/// The folders, each followed by its subfolders.
fn with_subfolders(rt: &HostRuntime, folders: &[String]) -> Result<Vec<String>, Failure> {
    let mut all = Vec::new(rt.alloc());
    for folder in folders {
        add_with_subfolders(rt, folder.as_str(), &mut all)?;
    }
    Ok(all)
}
