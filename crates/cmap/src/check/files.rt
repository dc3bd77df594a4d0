//! `cmap check`: reports that a file is ok, or what is wrong with it.

use crate::check::progress::Progress;
use crate::check::tally::Tally;
use crate::check::warnings::{LintOptions, push_warnings, subject_of};
use cmap_io::failure::{Failure, fault, report_message};
use cmap_io::inputs::{read, report_unreadable};
use cmap_io::object::Object;
use cmap_io::paths::{PathList, Paths, paths_of};
use cmap_io::value::Value;
use cmap_io::{escape, json};
use cmap_sources::bases::Bases;
use cmap_sources::format::format_of;
use cmap_sources::reading::{Form, Input, Manner, Reading, read_over};
use std::alloc::{AllocError, Global};
use std::io;

/// The parsed arguments of `check`.
#[derive(Clone, Copy)]
pub(crate) struct CheckOptions<'m, 'w> {
    /// The files and the folders.
    pub(crate) paths: &'m [&'w str],
    /// A file that lists more files and folders.
    pub(crate) list: Option<PathList<'w>>,
    /// How files are read.
    pub(crate) manner: Manner,
    /// The warnings that are asked for.
    pub(crate) lint: LintOptions<'m, 'w>,
    /// Whether the last line, with the number of files, is left out.
    pub(crate) is_quiet: bool,
}

/// A run over many files.
#[derive(Drop)]
struct Run<'r, 'm, 'w> {
    options: &'r CheckOptions<'m, 'w>,
    progress: Progress,
    tally: Tally,
}

/// Checks the files and the files in the folders, and returns the exit status.
pub(crate) fn check(
    rt: &HostRuntime,
    options: &CheckOptions<'_, '_>,
    bases: &mut Bases<'_>,
) -> Result<u8, Failure> {
    options.lint.check_names(rt)?;
    let paths = paths_of(rt, options.paths, options.list)?;
    check_paths(rt, options, &paths, bases)
}

fn check_paths(
    rt: &HostRuntime,
    options: &CheckOptions<'_, '_>,
    paths: &Paths,
    bases: &mut Bases<'_>,
) -> Result<u8, Failure> {
    let mut run = Run {
        options,
        progress: Progress::new(rt, paths.files.len()),
        tally: Tally::new(paths.unreadable),
    };
    for path in &paths.files {
        run.check_path(rt, path.as_str(), bases)?;
        run.progress.advance(rt)?;
    }
    run.progress.clear(rt)?;
    if !options.is_quiet {
        run.tally.report(rt)?;
    }
    Ok(run.tally.status())
}

impl Run<'_, '_, '_> {
    /// Checks the file of a path, or reports that it can't be read.
    fn check_path(
        &mut self,
        rt: &HostRuntime,
        path: &str,
        bases: &mut Bases<'_>,
    ) -> Result<(), Failure> {
        match read(rt, path)? {
            Ok(bytes) => {
                let input = Input {
                    path,
                    bytes: &bytes,
                };
                self.report_format(rt, input, bases)?;
                let reading = read_over(rt, input, self.options.manner, bases)?;
                self.print(rt, input, &reading, bases)
            }
            Err(error) => self.report_unreadable(rt, path, &error),
        }
    }

    fn report_unreadable(
        &mut self,
        rt: &HostRuntime,
        path: &str,
        error: &io::Error,
    ) -> Result<(), Failure> {
        self.tally.add_unreadable();
        self.progress.clear(rt)?;
        report_unreadable(rt, path, error)
    }

    /// Reports a file that has another format.
    fn report_format(
        &mut self,
        rt: &HostRuntime,
        input: Input<'_>,
        bases: &Bases<'_>,
    ) -> Result<(), Failure> {
        if let Some(format) = format_of(rt.alloc(), input.bytes, bases.bundle)? {
            self.progress.clear(rt)?;
            report_message(rt, fault(rt, input.path, format))?;
        }
        Ok(())
    }

    /// Prints the lines of a file. Bases that can't be read are reported first.
    fn print(
        &mut self,
        rt: &HostRuntime,
        input: Input<'_>,
        reading: &Reading,
        bases: &mut Bases<'_>,
    ) -> Result<(), Failure> {
        if bases.has_unreported() {
            self.progress.clear(rt)?;
            bases.report(rt)?;
        }
        let mut lines = String::new(rt.alloc());
        self.push_lines(rt.alloc(), &mut lines, input, reading, bases)?;
        Ok(rt.print(lines.as_str())?)
    }

    /// Adds the lines of a file, and counts the file.
    fn push_lines(
        &mut self,
        alloc: Global,
        lines: &mut String,
        input: Input<'_>,
        reading: &Reading,
        bases: &Bases<'_>,
    ) -> Result<(), AllocError> {
        push_reading(alloc, lines, input.path, self.options.manner.form, reading)?;
        let is_denied = push_lint(alloc, lines, input, reading, self.options, bases)?;
        self.tally.count(!reading.faults.is_empty(), is_denied);
        Ok(())
    }
}

/// Adds the warnings about a file that is accepted. The result states whether one of the warnings
/// is denied.
fn push_lint(
    alloc: Global,
    lines: &mut String,
    input: Input<'_>,
    reading: &Reading,
    options: &CheckOptions<'_, '_>,
    bases: &Bases<'_>,
) -> Result<bool, AllocError> {
    match &reading.map {
        Some(map) if reading.faults.is_empty() => {
            let subject = subject_of(map, input, options.lint, bases);
            push_warnings(
                alloc,
                lines,
                &subject,
                options.lint,
                input.path,
                options.manner.form,
            )
        }
        _ => Ok(false),
    }
}

/// Adds one line if the file is accepted, else one line for each fault.
fn push_reading(
    alloc: Global,
    lines: &mut String,
    path: &str,
    form: Form,
    reading: &Reading,
) -> Result<(), AllocError> {
    if reading.faults.is_empty() {
        return push_accepted(alloc, lines, path, form);
    }
    for fault in &reading.faults {
        lines.push_str(fault.as_str())?;
        lines.push('\n')?;
    }
    Ok(())
}

/// Adds the line of a file that is accepted.
fn push_accepted(
    alloc: Global,
    lines: &mut String,
    path: &str,
    form: Form,
) -> Result<(), AllocError> {
    match form {
        Form::Text => push_accepted_text(lines, path),
        Form::Json => push_accepted_json(alloc, lines, path),
    }
}

fn push_accepted_text(lines: &mut String, path: &str) -> Result<(), AllocError> {
    escape::push_text(lines, path)?;
    lines.push_str(": ok\n")
}

fn push_accepted_json(alloc: Global, line: &mut String, path: &str) -> Result<(), AllocError> {
    let mut object = Object::new(alloc);
    object.set_text("file", path);
    object.set("ok", Value::from(true));
    json::push_line(alloc, line, &object.finish()?)
}
