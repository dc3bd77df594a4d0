//! Bases: the files that other files use, by their names. A base is read only if a file uses the base.

ghost use Rattle.cmap_io.specs.BytesSeen.{bytes_seen};

use crate::search::Search;
use cmap_io::failure::Failure;
use cmap_io::file_bytes::FileBytes;
use cmap_io::file_names::file_name;
use cmap_io::folders::{files_in, is_folder, name_of, why_no_folder};
use cmap_io::inputs::{read, report_unreadable, unreadable};
use cmap_io::path_text::path_bytes;
use cmap_io::status::{ACCEPTED, FAILED};
use hayro_cmap::{Bundle, BundleFiles, NamedFile, NamedFiles, identity_text};
use std::alloc::{AllocError, Global};
use std::collections::BTreeMap;
use std::io;

/// A base that was read.
#[derive(Drop)]
pub struct Base<'b> {
    name: Vec<u8>,
    bytes: FileBytes<'b>,
}

impl<'b> NamedFile for Base<'b> {
    ghost name_of = { λ base. base.name.items };

    ghost bytes_of = { λ base. bytes_seen base.bytes };

    fn name(&self) -> &[u8] {
        &self.name
    }

    fn bytes(&self) -> &[u8] {
        self.bytes.as_slice()
    }
}

/// The bases that were read.
pub type Files<'f> = NamedFiles<'f, Base<'f>, Bundle<'f>>;

/// A file that can't be read.
#[derive(Drop)]
struct Unreadable {
    path: String,
    error: io::Error,
}

/// The result of looking up a name.
#[derive(Drop)]
enum Found<'b> {
    File(FileBytes<'b>),
    Unreadable(Unreadable),
    Nothing,
}

/// The files that other files may use. A name is looked up in the folders of bases, then in the bundle, then by
/// `search`; Identity-H and Identity-V need no file.
#[derive(Drop)]
pub struct Bases<'b> {
    pub bundle: Option<&'b Bundle<'b>>,
    /// The paths of bases that aren't read yet, by their names.
    paths: BTreeMap<Vec<u8>, String>,
    /// The folders in which a name is looked up last. At first there are none.
    pub search: Search,
    /// The bases that were read.
    read: Vec<Base<'b>>,
    /// Files that can't be read and that aren't reported yet.
    unreadable: Vec<Unreadable>,
    /// Whether a path couldn't be read.
    has_failed: bool,
}

impl<'b> Bases<'b> {
    /// The files of the bundle alone.
    pub fn new(alloc: Global, bundle: Option<&'b Bundle<'b>>) -> Self {
        Bases {
            bundle,
            paths: BTreeMap::new(alloc),
            search: Search::nowhere(alloc),
            read: Vec::new(alloc),
            unreadable: Vec::new(alloc),
            has_failed: false,
        }
    }

    /// Adds the paths of the files in these folders.
    pub fn add_folders(&mut self, rt: &HostRuntime, folders: &[&str]) -> Result<(), Failure> {
        for folder in folders {
            self.add_folder(rt, folder)?;
        }
        Ok(())
    }

    /// Adds the paths of the files of a folder.
    fn add_folder(&mut self, rt: &HostRuntime, folder: &str) -> Result<(), Failure> {
        if !is_folder(rt, folder) {
            return Err(unreadable(rt, folder, &why_no_folder(rt, folder)));
        }
        let found = files_in(rt, folder)?;
        self.has_failed |= found.unreadable.get() > 0;
        for path in &found.files {
            self.add_path(rt.alloc(), path.as_str())?;
        }
        Ok(())
    }

    /// Adds the path of a file, unless an earlier path has the same file name.
    fn add_path(&mut self, alloc: Global, path: &str) -> Result<(), AllocError> {
        let name = path_bytes(alloc, name_of(path))?;
        if self.path(&name).is_none() {
            self.paths.insert(name, String::from_str(alloc, path)?)?;
        }
        Ok(())
    }

    /// The bases that were read, and the files of the bundle.
    pub fn files(&self) -> Files<'_> {
        NamedFiles {
            files: self.read.as_slice(),
            bundle: self.bundle,
        }
    }

    /// Whether a file that isn't read yet may have this name.
    fn has_unread(&self, name: &[u8]) -> bool {
        if self.base(name).is_some() {
            return false;
        }
        self.path(name).is_some()
            || self.bundle_file(name).is_some()
            || self.search.may_have(name)
            || identity_text(name).is_some()
    }

    /// The path of the base of this name that isn't read yet.
    fn path(&self, name: &[u8]) -> Option<&str> {
        Some(self.paths.get(name)?.as_str())
    }

    fn bundle_file(&self, name: &[u8]) -> Option<&'b [u8]> {
        self.bundle?.file_of(name)
    }

    /// Reads the file of this name, unless it was read before. A base that can't be read is kept for the report, and
    /// the name is looked up once more: in the bundle and by `search`.
    pub fn read(&mut self, rt: &HostRuntime, name: &[u8]) -> Result<(), Failure> {
        if !self.has_unread(name) {
            return Ok(());
        }
        let mut found = self.look_for(rt, name)?;
        if let Found::Unreadable(file) = found {
            self.set_unreadable(rt.alloc(), name, file)?;
            found = self.look_for(rt, name)?;
        }
        match found {
            Found::File(bytes) => self.add(rt.alloc(), name, bytes)?,
            Found::Unreadable(file) => self.set_unreadable(rt.alloc(), name, file)?,
            Found::Nothing => self.search.set_absent(rt.alloc(), name)?,
        }
        Ok(())
    }

    fn add(&mut self, alloc: Global, name: &[u8], bytes: FileBytes<'b>) -> Result<(), AllocError> {
        let _path = self.take_path(name);
        let name = Vec::from_slice(alloc, name)?;
        Ok(self.read.push(Base { name, bytes })?)
    }

    /// Looks up a name whose file isn't read yet, and reads the file.
    fn look_for(&mut self, rt: &HostRuntime, name: &[u8]) -> Result<Found<'b>, Failure> {
        if let Some(path) = self.path(name) {
            let path = String::from_str(rt.alloc(), path)?;
            return found_at(rt, path);
        }
        if let Some(bytes) = self.bundle_file(name) {
            return Ok(Found::File(FileBytes::Lent(bytes)));
        }
        match self.searched(rt, name)? {
            Some(path) => found_at(rt, path),
            None => Ok(identity_found(name)),
        }
    }

    /// The path of the file of this name that `search` finds.
    fn searched(&mut self, rt: &HostRuntime, name: &[u8]) -> Result<Option<String>, Failure> {
        if self.search.may_have(name) {
            self.search.find(rt, name)
        } else {
            Ok(None)
        }
    }

    /// Keeps the unreadable file of this name for the report, and removes the file from further look-ups of the name.
    fn set_unreadable(
        &mut self,
        alloc: Global,
        name: &[u8],
        file: Unreadable,
    ) -> Result<(), AllocError> {
        if self.take_path(name).is_none() {
            self.search.set_absent(alloc, name)?;
        }
        Ok(self.unreadable.push(file)?)
    }

    fn take_path(&mut self, name: &[u8]) -> Option<String> {
        self.paths.remove(name)
    }

    /// The bytes of the file of this name.
    pub fn file(
        &mut self,
        rt: &HostRuntime,
        name: &[u8],
    ) -> Result<Option<FileBytes<'b>>, Failure> {
        self.read(rt, name)?;
        self.report(rt)?;
        match self.base(name) {
            Some(base) => Ok(Some(base.bytes.share()?)),
            None => Ok(None),
        }
    }

    /// The bytes of the file of this name, if it is read.
    pub fn bytes_of(&self, name: &[u8]) -> Option<&[u8]> {
        Some(self.base(name)?.bytes.as_slice())
    }

    /// The file of this name, if it is read.
    fn base(&self, name: &[u8]) -> Option<&Base<'b>> {
        self.read.iter().find(|base| base.name.as_slice() == name)
    }

    /// The path of the file of this name. The path of a file in the bundle is `bundle`, the path of the bundle.
    pub fn locate(
        &mut self,
        rt: &HostRuntime,
        name: &[u8],
        bundle: Option<&str>,
    ) -> Result<Option<String>, Failure> {
        match self.known_path(name, bundle) {
            Some(path) => Ok(Some(String::from_str(rt.alloc(), path)?)),
            None => self.search.find(rt, name),
        }
    }

    /// The path of the base of this name; else the path of the bundle, if the bundle has a file of this name.
    fn known_path<'p>(&'p self, name: &[u8], bundle: Option<&'p str>) -> Option<&'p str> {
        match self.path(name) {
            Some(path) => Some(path),
            None if self.bundle_file(name).is_some() => bundle,
            None => None,
        }
    }

    /// Whether this may be the name of a predefined CMap that the system lacks.
    pub fn may_be_predefined(&self, name: &[u8]) -> bool {
        self.search.is_of_system() && file_name(name).is_some()
    }

    /// Whether there are unreadable files to report.
    pub fn has_unreported(&self) -> bool {
        !self.unreadable.is_empty()
    }

    /// Reports the paths that can't be read, each once.
    pub fn report(&mut self, rt: &HostRuntime) -> Result<(), Failure> {
        self.has_failed |= self.has_unreported();
        for file in &self.unreadable {
            report_unreadable(rt, file.path.as_str(), &file.error)?;
        }
        self.unreadable.clear();
        Ok(())
    }

    /// The exit status for the bases: `FAILED` if a path couldn't be read, else `ACCEPTED`.
    pub fn status(&self) -> u8 {
        if self.has_failed { FAILED } else { ACCEPTED }
    }
}

/// The text of Identity-H or Identity-V, if this is its name.
fn identity_found<'b>(name: &[u8]) -> Found<'b> {
    match identity_text(name) {
        Some(text) => Found::File(FileBytes::Lent(text)),
        None => Found::Nothing,
    }
}

/// Reads the file of a path.
fn found_at<'b>(rt: &HostRuntime, path: String) -> Result<Found<'b>, Failure> {
    match read(rt, path.as_str())? {
        Ok(bytes) => Ok(Found::File(FileBytes::of(bytes)?)),
        Err(error) => Ok(Found::Unreadable(Unreadable { path, error })),
    }
}
