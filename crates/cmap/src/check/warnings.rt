//! `cmap check --lint`: warnings about a file that is accepted.

use crate::check::printed::{push_finding, push_json};
use cmap_binary::is_marked_binary;
use cmap_io::failure::{Failure, fault};
use cmap_io::folders::name_of;
use cmap_io::inputs::STANDARD_INPUT;
use cmap_lint::finding::Finding;
use cmap_lint::lint::{Subject, findings_of, nothing_declared};
use cmap_lint::warning::Warning;
use cmap_sources::bases::Bases;
use cmap_sources::reading::{Form, Input};
use hayro_cmap::CMap;
use std::alloc::{AllocError, Global};

/// The argument of `--deny` that stands for all warnings.
const ALL: &str = "all";

/// The warnings that are asked for.
#[derive(Clone, Copy)]
pub(crate) struct LintOptions<'m, 'w> {
    /// Whether all warnings are asked for, and not only `nothing-declared`.
    is_asked: bool,
    to_unicode: bool,
    denied: &'m [&'w str],
}

impl<'m, 'w> LintOptions<'m, 'w> {
    /// Asks for all warnings if `is_asked` or `to_unicode` is set or `denied` has a name, else only for
    /// `nothing-declared`. With `to_unicode`, the files are meant as maps to Unicode. A warning makes the status 1 if
    /// `denied` has its name or `all`.
    pub(crate) fn new(
        is_asked: bool,
        to_unicode: bool,
        denied: &'m [&'w str],
    ) -> LintOptions<'m, 'w> {
        LintOptions {
            is_asked: is_asked || to_unicode || !denied.is_empty(),
            to_unicode,
            denied,
        }
    }

    /// Refuses a name after `--deny` that no warning has.
    pub(crate) fn check_names(&self, rt: &HostRuntime) -> Result<(), Failure> {
        for name in self.denied {
            if *name != ALL && Warning::of(name).is_none() {
                return Err(fault(rt, name, "neither the name of a warning nor all"));
            }
        }
        Ok(())
    }

    /// Whether a warning is printed. Most ToUnicode CMaps have the same name as all others, and texts for only some
    /// codes. With `to_unicode`, the warnings about this are printed only if `denied` has their names.
    fn prints(&self, warning: Warning) -> bool {
        match warning {
            Warning::NameDiffers | Warning::NoMapping => !self.to_unicode || self.names(warning),
            Warning::NothingDeclared
            | Warning::NoCodespace
            | Warning::OutsideCodespace
            | Warning::Overlap
            | Warning::InvertedRange
            | Warning::CrossesRow
            | Warning::LastByte
            | Warning::NoText
            | Warning::PrivateUse
            | Warning::Noncharacter
            | Warning::ReplacementCharacter
            | Warning::NullCharacter
            | Warning::ModeDiffers
            | Warning::CountDiffers
            | Warning::LongSection
            | Warning::NoEndcmap
            | Warning::CodeLength
            | Warning::OddDigits
            | Warning::OddText => true,
        }
    }

    /// Whether `denied` has the name of a warning.
    fn names(&self, warning: Warning) -> bool {
        self.denied.iter().any(|name| *name == warning.name())
    }

    /// Whether a warning makes the status 1.
    fn denies(&self, warning: Warning) -> bool {
        for name in self.denied {
            if *name == ALL || *name == warning.name() {
                return true;
            }
        }
        false
    }
}

/// Adds a line for each warning about a file. The result states whether one of the warnings is denied.
pub(crate) fn push_warnings(
    alloc: Global,
    lines: &mut String,
    subject: &Subject<'_>,
    options: LintOptions<'_, '_>,
    path: &str,
    form: Form,
) -> Result<bool, AllocError> {
    if !options.is_asked {
        let finding = nothing_declared(subject.map);
        if finding.count > 0 {
            push_line(alloc, lines, path, &finding, form)?;
        }
        return Ok(false);
    }
    let mut is_denied = false;
    for finding in &findings_of(alloc, subject)? {
        if options.prints(finding.warning) {
            push_line(alloc, lines, path, finding, form)?;
            is_denied = is_denied || options.denies(finding.warning);
        }
    }
    Ok(is_denied)
}

fn push_line(
    alloc: Global,
    lines: &mut String,
    path: &str,
    finding: &Finding<'_>,
    form: Form,
) -> Result<(), AllocError> {
    match form {
        Form::Text => push_finding(lines, path, finding),
        Form::Json => push_json(alloc, lines, path, finding),
    }
}

/// The subject of the warnings: a file with its map.
pub(crate) fn subject_of<'m>(
    map: &'m CMap,
    input: Input<'m>,
    options: LintOptions<'_, '_>,
    bases: &Bases<'_>,
) -> Subject<'m> {
    let is_binary = bases.bundle.is_some() && is_marked_binary(input.bytes);
    Subject {
        map: map.layers(),
        text: (!is_binary).then_some(input.bytes),
        file_name: name_in(input.path),
        to_unicode: options.to_unicode,
        shown: &[],
    }
}

/// The file name of a path; the standard input has no name.
fn name_in(path: &str) -> Option<&[u8]> {
    (path != STANDARD_INPUT).then_some(name_of(path).as_bytes())
}
