//! The help, and errors of arguments. Arguments are untrusted, so they are escaped.

use crate::command_line::command;
use clap::Error;
use cmap_io::failure::Failure;
use cmap_io::path_text::push_path;

/// Prints the help, the version, or the error of the arguments with the usage, and returns the exit status.
pub(crate) fn print_usage(
    rt: &HostRuntime,
    arguments: &[String],
    error: &Error,
) -> Result<u8, Failure> {
    match error_of_marked(rt, arguments)? {
        Some(error) => print_error(rt, &error),
        None => print_error(rt, error),
    }
}

/// The error of the arguments with their line ends marked, so that no line end of an argument ends a line of the
/// message.
fn error_of_marked(rt: &HostRuntime, arguments: &[String]) -> Result<Option<Error>, Failure> {
    let mut marked = Vec::new(rt.alloc());
    for argument in arguments {
        marked.push(without_line_ends(rt, argument.as_str())?)?;
    }
    let command = command(rt.alloc())?;
    Ok(command.try_get_matches_from(marked.as_slice()).err())
}

/// The argument with its line ends marked in the same way as bytes that aren't UTF-8.
fn without_line_ends(rt: &HostRuntime, argument: &str) -> Result<String, Failure> {
    let mut marked = String::new(rt.alloc());
    for character in argument.chars() {
        match character {
            '\n' => marked.push_str("\x000A")?,
            _ => marked.push(character)?,
        }
    }
    Ok(marked)
}

/// Prints an error line by line.
fn print_error(rt: &HostRuntime, error: &Error) -> Result<u8, Failure> {
    let text = format!(in rt.alloc(); "{error}")?;
    for line in text.lines() {
        let mut shown = String::new(rt.alloc());
        push_path(&mut shown, line)?;
        if error.use_stderr() {
            rt.eprintln(shown.as_str())?;
        } else {
            rt.println(shown.as_str())?;
        }
    }
    Ok(error.exit_code() as u8)
}
