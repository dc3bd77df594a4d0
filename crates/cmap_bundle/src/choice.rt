//! The files that are put in the bundle.

use crate::candidates::{Candidate, Candidates, is_known, report_left_out};
use cmap_binary::is_marked_binary;
use cmap_io::count::Count;
use cmap_io::escape::{push_name, push_text};
use cmap_io::failure::Failure;
use cmap_sources::fault_line::LineCounter;
use cmap_sources::reading::{Faults, Input};
use cmap_sources::refused::stop_line;
use cmap_text::read_text;
use cmap_values::fault::{Fault, Stop};
use cmap_values::file::File;
use cmap_values::names::CMapName;
use hayro_cmap::{Bundle, NamedFiles};
use std::alloc::AllocError;

/// A file that is put in the bundle.
#[derive(Drop)]
pub struct Chosen<'c> {
    pub candidate: &'c Candidate,
    /// The contents of the file.
    pub file: File<'c>,
}

impl<'c> Chosen<'c> {
    /// The bytes of the file's name: the given name, or else the `CMapName`. Without either, the name is empty.
    pub fn name(&self) -> &[u8] {
        match &self.candidate.name {
            Some(name) => name.as_bytes(),
            None => match &self.file.metadata.name {
                Some(name) => name,
                None => b"",
            },
        }
    }

    /// The name of the file.
    pub fn cmap_name(&self) -> CMapName<'_> {
        CMapName::from_bytes(self.name())
    }
}

/// The files that are put in the bundle, in order. No two files have the same name.
#[derive(Drop)]
pub struct Choice<'c> {
    pub files: Vec<Chosen<'c>>,
    /// The number of files that are left out, including the candidates' `left_out`. Each file is reported.
    pub left_out: Count,
}

/// Chooses the files that are put in the bundle, and reports why each other file is left out.
pub fn choose<'c>(rt: &HostRuntime, candidates: &'c Candidates) -> Result<Choice<'c>, Failure> {
    let mut choice = Choice {
        files: Vec::new(rt.alloc()),
        left_out: Count::of(candidates.left_out.get()),
    };
    for candidate in &candidates.files {
        choice.add(rt, candidate)?;
    }
    Ok(choice)
}

impl<'c> Choice<'c> {
    /// Adds a file, unless it is left out.
    fn add(&mut self, rt: &HostRuntime, candidate: &'c Candidate) -> Result<(), Failure> {
        if is_marked_binary(&candidate.bytes) {
            return self.leave_out(rt, candidate, "a file in the binary form");
        }
        match read_text(rt.alloc(), &candidate.bytes) {
            Ok(file) => self.add_read(rt, Chosen { candidate, file }),
            Err(Fault::Refused(stop)) => self.refuse(rt, candidate, stop),
            Err(Fault::Memory) => Err(Failure::Memory),
        }
    }

    /// Adds a file that was read, unless its name is unknown or taken.
    fn add_read(&mut self, rt: &HostRuntime, chosen: Chosen<'c>) -> Result<(), Failure> {
        if !is_known(chosen.name()) {
            self.leave_out_unknown(rt, &chosen)
        } else if let Some(path) = self.path_of(chosen.name()) {
            self.leave_out_again(rt, &chosen, path)
        } else {
            Ok(self.files.push(chosen)?)
        }
    }

    /// The path of the file that has this name already.
    fn path_of(&self, name: &[u8]) -> Option<&'c str> {
        for chosen in &self.files {
            if chosen.name() == name {
                return Some(chosen.candidate.path.as_str());
            }
        }
        None
    }

    fn leave_out_unknown(&mut self, rt: &HostRuntime, chosen: &Chosen<'_>) -> Result<(), Failure> {
        let mut reason = String::new(rt.alloc());
        push_unknown(&mut reason, chosen.name())?;
        self.leave_out(rt, chosen.candidate, reason.as_str())
    }

    /// Leaves out a file, since the file of this path has the same name.
    fn leave_out_again(
        &mut self,
        rt: &HostRuntime,
        chosen: &Chosen<'_>,
        path: &str,
    ) -> Result<(), Failure> {
        let mut reason = String::new(rt.alloc());
        push_already(&mut reason, chosen.name(), path)?;
        self.leave_out(rt, chosen.candidate, reason.as_str())
    }

    /// Leaves out a file, and reports why.
    fn leave_out(
        &mut self,
        rt: &HostRuntime,
        candidate: &Candidate,
        reason: &str,
    ) -> Result<(), Failure> {
        self.left_out.add_one();
        report_left_out(rt, candidate.path.as_str(), reason)
    }

    /// Leaves out a malformed file, and reports its first fault.
    fn refuse(
        &mut self,
        rt: &HostRuntime,
        candidate: &Candidate,
        stop: Stop,
    ) -> Result<(), Failure> {
        let none: NamedFiles<'_, (&[u8], &[u8]), Bundle<'_>> = NamedFiles::alone(&[]);
        let input = Input {
            path: candidate.path.as_str(),
            bytes: candidate.bytes.as_slice(),
        };
        let mut lines = LineCounter::new();
        let line = stop_line(rt.alloc(), input, &none, stop, Faults::First, &mut lines)?;
        eprintln!(rt; "cmap: {line}")?;
        self.left_out.add_one();
        Ok(())
    }
}

/// Adds the reason why a file of this unknown name is left out.
fn push_unknown(reason: &mut String, name: &[u8]) -> Result<(), AllocError> {
    if name.is_empty() {
        return reason.push_str("neither its file name nor a CMapName is one of the known names");
    }
    push_name(reason, name)?;
    reason.push_str(" is none of the known names")
}

/// Adds the reason why a file of this name is left out: the file of this path has the name already.
fn push_already(reason: &mut String, name: &[u8], path: &str) -> Result<(), AllocError> {
    reason.push_str("the bundle has ")?;
    push_name(reason, name)?;
    reason.push_str(" already, of ")?;
    push_text(reason, path)
}
